// Every fault as a refusal of its layer, so that it passes upward by `?`. Each From is written out, since a derived one
// has no contract, and the clauses of a line rest on what it gives.
ghost use Rattle.std.specs.Prelude.{◌≡◌};
ghost use Rattle.line.specs.Faults.{take_refusal, check_refusal};
ghost use Rattle.line.specs.declared.refusal.Refusal.TheVariants.{Line, Session, Book, Pad, Family};
ghost use Rattle.line.specs.declared.refusal.BookFault.TheVariants.{Card, TooLong as LongDocument, PadCount, WrongPad as OtherPad, NoneOut as NothingOut, FewPlaces as ShortList};
ghost use Rattle.line.specs.declared.refusal.PadFault.TheVariants.{NoSuchPad as NoPad, SheetSize};
ghost use Rattle.line.specs.declared.refusal.FamilyFault.TheVariants.{Widths};

use crate::refusal::{BookFault, FamilyFault, LineFault, PadFault, Refusal, SessionFault};
use books::{CheckError, FewPlaces, NoneOut, PadCountError, TakeError, WrongPad};
use families::WidthError;
use jobs::{CardError, TooLong};
use pads::{NoSuchPad, SheetError};

impl From<LineFault> for Refusal {
    ghost from_gives = { λ e r. r ≡ Line e };

    fn from(fault: LineFault) -> Refusal {
        Refusal::Line(fault)
    }
}

impl From<SessionFault> for Refusal {
    ghost from_gives = { λ e r. r ≡ Session e };

    fn from(fault: SessionFault) -> Refusal {
        Refusal::Session(fault)
    }
}

impl From<CardError> for Refusal {
    ghost from_gives = { λ e r. r ≡ Book Card };

    fn from(_fault: CardError) -> Refusal {
        Refusal::Book(BookFault::Card)
    }
}

impl From<TooLong> for Refusal {
    ghost from_gives = { λ e r. r ≡ Book LongDocument };

    fn from(_fault: TooLong) -> Refusal {
        Refusal::Book(BookFault::TooLong)
    }
}

impl From<PadCountError> for Refusal {
    ghost from_gives = { λ e r. r ≡ Book PadCount };

    fn from(_fault: PadCountError) -> Refusal {
        Refusal::Book(BookFault::PadCount)
    }
}

impl From<TakeError> for Refusal {
    ghost from_gives = { λ e r. r ≡ take_refusal e };

    fn from(fault: TakeError) -> Refusal {
        match fault {
            TakeError::PadOut => Refusal::Book(BookFault::PadOut),
            TakeError::AllTaken => Refusal::Book(BookFault::AllTaken),
        }
    }
}

impl From<WrongPad> for Refusal {
    ghost from_gives = { λ e r. r ≡ Book OtherPad };

    fn from(_fault: WrongPad) -> Refusal {
        Refusal::Book(BookFault::WrongPad)
    }
}

impl From<NoneOut> for Refusal {
    ghost from_gives = { λ e r. r ≡ Book NothingOut };

    fn from(_fault: NoneOut) -> Refusal {
        Refusal::Book(BookFault::NoneOut)
    }
}

impl From<FewPlaces> for Refusal {
    ghost from_gives = { λ e r. r ≡ Book ShortList };

    fn from(_fault: FewPlaces) -> Refusal {
        Refusal::Book(BookFault::FewPlaces)
    }
}

impl From<CheckError> for Refusal {
    ghost from_gives = { λ e r. r ≡ check_refusal e };

    fn from(fault: CheckError) -> Refusal {
        match fault {
            CheckError::Source(_) => Refusal::Pad(PadFault::NoSuchPad),
            CheckError::OldNumber => Refusal::Book(BookFault::OldNumber),
            CheckError::NotATag => Refusal::Book(BookFault::NotATag),
            CheckError::WrongTag => Refusal::Book(BookFault::WrongTag),
        }
    }
}

impl From<NoSuchPad> for Refusal {
    ghost from_gives = { λ e r. r ≡ Pad NoPad };

    fn from(_fault: NoSuchPad) -> Refusal {
        Refusal::Pad(PadFault::NoSuchPad)
    }
}

impl From<SheetError> for Refusal {
    ghost from_gives = { λ e r. r ≡ Pad SheetSize };

    fn from(_fault: SheetError) -> Refusal {
        Refusal::Pad(PadFault::SheetSize)
    }
}

impl From<WidthError> for Refusal {
    ghost from_gives = { λ e r. r ≡ Family Widths };

    fn from(_fault: WidthError) -> Refusal {
        Refusal::Family(FamilyFault::Widths)
    }
}
