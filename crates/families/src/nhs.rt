// NHS: NH with every word read as signed. The sums k + m wrap into the range of i32, and the sum of their products
// is taken modulo 2^64.
ghost use Rattle.std.specs.Prelude.{◌≡◌, ◌%◌, ◌^◌, ◌*ℤ◌, refl};
ghost use Rattle.families.specs.Pairs.{nhs, residue, signed_product, signed_sum};
ghost use Rattle.families.specs.Laws.Signs.{nhs_lawful};

use crate::family::Family;
use crate::pairs::Pairing;
use crate::width::Keyed;

#[derive(Clone, Copy, PartialEq, Eq, Debug)]
pub struct Nhs;

// Two words read as signed, and their sum, which wraps.
#[tactic(auto, using(std::proofs::lemmas::Int::wraps))]
fn signed_sum(k: u32, m: u32) -> i32
    ensures { result ≡ signed_sum k m }
{
    k.cast_signed().wrapping_add(m.cast_signed())
}

// The product modulo 2^64.
fn signed_product(x: i32, y: i32) -> u64
    ensures { result ≡ residue (x *ℤ y) % 2 ^ 64 }
{
    let product = i64::from(x) * i64::from(y);
    product.cast_unsigned()
}

impl Pairing for Nhs {
    ghost gives = { signed_product };

    fn term(k1: u32, m1: u32, k2: u32, m2: u32) -> u64 {
        signed_product(signed_sum(k1, m1), signed_sum(k2, m2))
    }
}

// As NH's but for meaning, count and law: one impl for both would need another trait to hold these three.
impl Family for Nhs {
    ghost meaning = { nhs };

    const COUNT: u32 = 2;

    ghost COUNT = { 2 };

    const MODULUS: u128 = 1 << 64;

    ghost MODULUS = { 2 ^ 64 };

    ghost modulus_is = { refl };

    ghost lawful = { nhs_lawful };

    fn keyed_tag(keyed: &Keyed<'_>) -> u64 {
        keyed.pair_sum::<Self>()
    }
}
