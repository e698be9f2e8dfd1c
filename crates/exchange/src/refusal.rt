// Why a transfer ends early: the refusal of a book, passed on whole. Each From is written out, since a derived one has no
// contract, and the transfer's clause rests on what it gives.
ghost use Rattle.std.specs.Prelude.{◌≡◌};
ghost use Rattle.exchange.specs.declared.refusal.Refusal.TheVariants.{Open, Take, Seal, Check};

use books::{CheckError, PadCountError, TakeError, WrongPad};

#[derive(Clone, Copy, PartialEq, Eq, Debug)]
pub enum Refusal {
    Open(PadCountError),
    Take(TakeError),
    Seal(WrongPad),
    Check(CheckError),
}

impl From<PadCountError> for Refusal {
    ghost from_gives = { λ e r. r ≡ Open e };

    fn from(refusal: PadCountError) -> Refusal {
        Refusal::Open(refusal)
    }
}

impl From<TakeError> for Refusal {
    ghost from_gives = { λ e r. r ≡ Take e };

    fn from(refusal: TakeError) -> Refusal {
        Refusal::Take(refusal)
    }
}

impl From<WrongPad> for Refusal {
    ghost from_gives = { λ e r. r ≡ Seal e };

    fn from(refusal: WrongPad) -> Refusal {
        Refusal::Seal(refusal)
    }
}

impl From<CheckError> for Refusal {
    ghost from_gives = { λ e r. r ≡ Check e };

    fn from(refusal: CheckError) -> Refusal {
        Refusal::Check(refusal)
    }
}
