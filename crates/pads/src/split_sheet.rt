// Pads that are split over two sources: as many as the shorter has, each the sum of the two modulo 2^64.
ghost use Rattle.std.specs.Prelude.{◌≡◌};
ghost use Rattle.pads.specs.Sources.{summed};

use crate::source::{NoSuchPad, PadSource};

#[derive(Clone, Copy, Drop)]
pub struct SplitSheet<A, B> {
    left: A,
    right: B,
}

impl<A: PadSource, B: PadSource> SplitSheet<A, B> {
    pub fn new(left: A, right: B) -> SplitSheet<A, B>
        ensures left { result.left ≡ left }
        ensures right { result.right ≡ right }
    {
        SplitSheet { left, right }
    }
}

#[tactic(auto, using(crate::proofs::Answers::summing))]
impl<A: PadSource, B: PadSource> PadSource for SplitSheet<A, B> {
    ghost pads = { λ s. summed (A.pads s.left) (B.pads s.right) };

    fn count(&self) -> usize {
        self.left.count().min(self.right.count())
    }

    fn pad(&self, number: u32) -> Result<u64, NoSuchPad> {
        let left = self.left.pad(number)?;
        let right = self.right.pad(number)?;
        Ok(left.wrapping_add(right))
    }
}
