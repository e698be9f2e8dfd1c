// What each source of pads gives.
ghost use Rattle.std.specs.Prelude.{◌≡◌, ℕ, List, length};
ghost use Rattle.pads.specs.Sources.{asked};

// The number is not below the number of pads.
#[derive(Clone, Copy, PartialEq, Eq, Debug)]
pub struct NoSuchPad;

// A list of pads. Asking leaves the source as it was, so asking again gives the same.
pub trait PadSource {
    ghost pads: { Self → List ℕ };

    fn count(&self) -> usize
        ensures { result ≡ length (pads self.now) };

    fn pad(&self, number: u32) -> Result<u64, NoSuchPad>
        ensures { result ≡ asked (pads self.now) number };
}
