// The prime by which MMH* and MMH reduce their sums.
ghost use Rattle.std.specs.Prelude.{◌≡◌};
ghost use Rattle.families.specs.Primes.{Prime};

// 2^32 + 15.
pub(crate) const PRIME: u64 = 4_294_967_311;

// The modulus of MMH*, by which MMH reduces too: a prime.
#[tactic(auto, using(crate::specs::Laws::Trials::prime))]
pub fn prime_modulus() -> u64
    ensures value { result ≡ 4294967311 }
    ensures prime { Prime result }
{
    PRIME
}
