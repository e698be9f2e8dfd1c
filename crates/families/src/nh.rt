// NH: the sum over pairs of (k1 + m1 mod 2^32) × (k2 + m2 mod 2^32), modulo 2^64.
ghost use Rattle.std.specs.Prelude.{◌^◌, refl};
ghost use Rattle.families.specs.Pairs.{nh, product};
ghost use Rattle.families.specs.Laws.Solutions.{nh_lawful};

use crate::family::Family;
use crate::pairs::Pairing;
use crate::width::Keyed;

#[derive(Clone, Copy, PartialEq, Eq, Debug)]
pub struct Nh;

impl Pairing for Nh {
    ghost gives = { product };

    fn term(k1: u32, m1: u32, k2: u32, m2: u32) -> u64 {
        let x = k1.wrapping_add(m1);
        let y = k2.wrapping_add(m2);
        u64::from(x) * u64::from(y)
    }
}

impl Family for Nh {
    ghost meaning = { nh };

    const COUNT: u32 = 1;

    ghost COUNT = { 1 };

    const MODULUS: u128 = 1 << 64;

    ghost MODULUS = { 2 ^ 64 };

    ghost modulus_is = { refl };

    ghost lawful = { nh_lawful };

    fn keyed_tag(keyed: &Keyed<'_>) -> u64 {
        keyed.pair_sum::<Self>()
    }
}
