// Pads that were handed out.
ghost use Rattle.std.specs.Prelude.{◌≡◌};

// A pad that was handed out. It cannot be copied or dropped: sealing or striking uses it up.
pub struct Pad {
    pub(crate) number: u32,
    pub(crate) value: u64,
}

impl Pad {
    pub fn number(&self) -> u32
        ensures { result ≡ self.now.number }
    {
        self.number
    }
}
