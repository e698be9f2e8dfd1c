// What each family of universal hashes gives, and its law.
ghost use Rattle.std.specs.Prelude.{◌≡◌, ℕ, ◌+◌, ◌%◌, nat_lt};
ghost use Rattle.families.specs.Meanings.{Meaning, Lawful};
ghost use Rattle.families.specs.Widths.{tagged};

use crate::width::{Keyed, WidthError};

// A family of universal hashes on at most 32 words of 32 bits.
pub trait Family {
    // The modulus, the tag function and the pivot.
    ghost meaning: { Meaning };

    // How many values of the key word at the pivot can make two messages' tags differ by one given number, at most.
    const COUNT: u32;

    ghost COUNT: { ℕ };

    // The modulus, which every tag is below: at most 2^64.
    const MODULUS: u128;

    ghost MODULUS: { ℕ };

    // The tag of words whose lengths were checked.
    fn keyed_tag(keyed: &Keyed<'_>) -> u64
        ensures { result ≡ meaning.tag keyed.now.keys.now keyed.now.words.now };

    // The tag of a message, refused where the lists differ in length, or the length is odd or above 32.
    fn tag(keys: &[u32], words: &[u32]) -> Result<u64, WidthError>
        ensures { result ≡ tagged meaning keys.now words.now }
    {
        let keyed = Keyed::new(keys, words)?;
        Ok(Self::keyed_tag(&keyed))
    }

    // A tag hidden by a pad, for every two numbers.
    fn add_pad(tag: u64, pad: u64) -> u64
        ensures { result ≡ (tag + pad) % meaning.modulus }
    {
        // Both are reduced before the sum, so that no division is wider than 64 bits.
        let modulus = Self::MODULUS;
        ((u128::from(tag) % modulus + u128::from(pad) % modulus) % modulus) as u64
    }

    // Whether a number is below the modulus.
    fn is_tag(number: u64) -> bool
        ensures { result ≡ nat_lt number meaning.modulus }
    {
        u128::from(number) < Self::MODULUS
    }

    // `COUNT`, as a call.
    fn colliding_values() -> u32
        ensures { result ≡ COUNT }
    {
        Self::COUNT
    }

    ghost modulus_is: { MODULUS ≡ meaning.modulus };

    ghost lawful: { Lawful meaning COUNT };
}
