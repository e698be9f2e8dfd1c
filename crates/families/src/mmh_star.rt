// MMH*: the sum of the products of key and message words, modulo the prime 2^32 + 15.
ghost use Rattle.std.specs.Prelude.{◌≡◌, ◌+◌, ◌*◌, ◌^◌, ◌≤◌, refl};
ghost use Rattle.families.specs.Dots.{dot, mmh_star};
ghost use Rattle.families.specs.Laws.Stars.{star_lawful};

use crate::family::Family;
use crate::prime::PRIME;
use crate::width::Keyed;

#[derive(Clone, Copy, PartialEq, Eq, Debug)]
pub struct MmhStar;

impl Keyed<'_> {
    // The exact sum of at most 32 products, as low + 2^16 × high: the low 16 bits of each product are summed apart
    // from the rest, so that neither sum overflows.
    fn split_dot(&self) -> (u64, u64)
        ensures value { result.0 + 2 ^ 16 * result.1 ≡ dot self.now.keys.now self.now.words.now }
        ensures small { result.0 ≤ 2 ^ 21 }
    {
        let mut low: u64 = 0;
        let mut high: u64 = 0;
        for (k, w) in self.keys.chunks_exact(2).zip(self.words.chunks_exact(2)) {
            let first = u64::from(k[0]) * u64::from(w[0]);
            let second = u64::from(k[1]) * u64::from(w[1]);
            low += (first & 0xffff) + (second & 0xffff);
            high += (first >> 16) + (second >> 16);
        }
        (low, high)
    }
}

impl Family for MmhStar {
    ghost meaning = { mmh_star };

    const COUNT: u32 = 1;

    ghost COUNT = { 1 };

    const MODULUS: u128 = PRIME as u128;

    ghost MODULUS = { 4294967311 };

    ghost modulus_is = { refl };

    ghost lawful = { star_lawful };

    fn keyed_tag(keyed: &Keyed<'_>) -> u64 {
        let (low, high) = keyed.split_dot();
        (low + ((high % PRIME) << 16)) % PRIME
    }
}
