// Families of universal hashes. A family turns key words and message words into a tag; its law says how few
// values of one key word let two messages' tags differ by a given number.
#![tactic(auto)]

mod family;
mod mmh;
mod mmh_star;
mod name;
mod nh;
mod nhs;
mod pairs;
mod prime;
mod width;

pub use family::Family;
pub use mmh::Mmh;
pub use mmh_star::MmhStar;
pub use name::{FamilyName, UnknownFamily};
pub use nh::Nh;
pub use nhs::Nhs;
pub use prime::prime_modulus;
pub use width::{Keyed, WidthError};
