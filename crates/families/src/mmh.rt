// MMH: the sum of the products of key and message words modulo 2^64, reduced once by the prime 2^32 + 15, then by 2^32.
ghost use Rattle.std.specs.Prelude.{◌≡◌, ◌%◌, ◌^◌, refl};
ghost use Rattle.families.specs.Dots.{dot, mmh, products};
ghost use Rattle.families.specs.Laws.Wraps.{mmh_lawful};

use crate::family::Family;
use crate::pairs::Pairing;
use crate::prime::PRIME;
use crate::width::Keyed;

#[derive(Clone, Copy, PartialEq, Eq, Debug)]
pub struct Mmh;

// How many tags there are.
const TAGS: u64 = 1 << 32;

impl Pairing for Mmh {
    ghost gives = { products };

    fn term(k1: u32, m1: u32, k2: u32, m2: u32) -> u64 {
        (u64::from(k1) * u64::from(m1)).wrapping_add(u64::from(k2) * u64::from(m2))
    }
}

impl Keyed<'_> {
    // The sum of the products of key and message words modulo 2^64.
    fn wrapping_dot(&self) -> u64
        ensures { result ≡ dot self.now.keys.now self.now.words.now % 2 ^ 64 }
    {
        self.pair_sum::<Mmh>()
    }
}

impl Family for Mmh {
    ghost meaning = { mmh };

    const COUNT: u32 = 6;

    ghost COUNT = { 6 };

    const MODULUS: u128 = TAGS as u128;

    ghost MODULUS = { 2 ^ 32 };

    ghost modulus_is = { refl };

    ghost lawful = { mmh_lawful };

    fn keyed_tag(keyed: &Keyed<'_>) -> u64 {
        keyed.wrapping_dot() % PRIME % TAGS
    }
}
