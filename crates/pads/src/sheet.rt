// Pads that lie in memory.
ghost use Rattle.std.specs.Prelude.{◌≡◌};

use crate::source::{NoSuchPad, PadSource};

#[derive(Clone, Copy)]
pub struct Sheet<'a> {
    pads: &'a [u64],
}

impl<'a> Sheet<'a> {
    pub fn new(pads: &'a [u64]) -> Sheet<'a>
        ensures { result.pads.now ≡ pads.now }
    {
        Sheet { pads }
    }
}

impl<'a> PadSource for Sheet<'a> {
    ghost pads = { λ s. s.pads.now };

    fn count(&self) -> usize {
        self.pads.len()
    }

    fn pad(&self, number: u32) -> Result<u64, NoSuchPad> {
        self.pads.get(number as usize).copied().ok_or(NoSuchPad)
    }
}
