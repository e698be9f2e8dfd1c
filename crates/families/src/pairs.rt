// The sum over pairs of words.
ghost use Rattle.std.specs.Prelude.{◌≡◌, ℕ, ◌%◌, ◌^◌};
ghost use Rattle.families.specs.Pairs.{pair_sum};

use crate::width::Keyed;

// What a pair of words gives to the sum.
pub(crate) trait Pairing {
    ghost gives: { ℕ → ℕ → ℕ → ℕ → ℕ };

    // The first key word and message word of a pair, then the second, modulo 2^64.
    fn term(k1: u32, m1: u32, k2: u32, m2: u32) -> u64
        ensures { result ≡ gives k1 m1 k2 m2 % 2 ^ 64 };
}

impl Keyed<'_> {
    // The sum over the pairs modulo 2^64.
    pub(crate) fn pair_sum<P: Pairing>(&self) -> u64
        ensures { result ≡ pair_sum P.gives self.now.keys.now self.now.words.now % 2 ^ 64 }
    {
        let mut sum: u64 = 0;
        for (k, w) in self.keys.chunks_exact(2).zip(self.words.chunks_exact(2)) {
            sum = sum.wrapping_add(P::term(k[0], w[0], k[1], w[1]));
        }
        sum
    }
}
