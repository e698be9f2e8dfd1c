// Why a book refuses a call.
ghost use Rattle.std.specs.Prelude.{◌≡◌};
ghost use Rattle.books.specs.declared.refusals.CheckError.TheVariants.{Source};

use pads::NoSuchPad;

// Opening a book over no pads, or over more than 256.
#[derive(Clone, Copy, PartialEq, Eq, Debug)]
pub struct PadCountError;

// Taking a pad.
#[derive(Clone, Copy, PartialEq, Eq, Debug)]
pub enum TakeError {
    // A pad is out.
    PadOut,
    // Every number was taken.
    AllTaken,
}

// Sealing or striking with a pad that is not the one that is out here.
#[derive(Clone, Copy, PartialEq, Eq, Debug)]
pub struct WrongPad;

// Calling in while no pad is out.
#[derive(Clone, Copy, PartialEq, Eq, Debug)]
pub struct NoneOut;

// Listing into fewer places than there are struck numbers.
#[derive(Clone, Copy, PartialEq, Eq, Debug)]
pub struct FewPlaces;

// Checking a tag.
#[derive(Clone, Copy, PartialEq, Eq, Debug)]
pub enum CheckError {
    // The source has no such pad.
    Source(NoSuchPad),
    // The number is below the floor.
    OldNumber,
    // The tag is not below the family's modulus.
    NotATag,
    // The tag is not that of the job.
    WrongTag,
}

// Written out, since a derived From has no contract, and a check's clause rests on what this one gives.
impl From<NoSuchPad> for CheckError {
    ghost from_gives = { λ e r. r ≡ Source e };

    fn from(refusal: NoSuchPad) -> CheckError {
        CheckError::Source(refusal)
    }
}
