// Why a command or a whole line is refused: one enum for each layer, collected in `Refusal`.
ghost use Rattle.std.specs.Prelude.{◌≡◌};
ghost use Rattle.line.specs.Numbers.{code_of};

// The line's own layer.
#[derive(Clone, Copy, PartialEq, Eq, Debug)]
pub enum LineFault {
    // A byte that begins no command.
    NoSuchCommand,
    // Operands that go past the line's end.
    CutOff,
    // More than 4,096 bytes.
    LongLine,
    // Fewer places for answers than 13 times the line's bytes.
    ShortBuffer,
}

#[derive(Clone, Copy, PartialEq, Eq, Debug)]
pub enum SessionFault {
    // No such family, a second choice, or another command before the choice.
    Choice,
    // No job is open where one has to be, or one is open where none may be.
    Job,
}

// The jobs and the books.
#[derive(Clone, Copy, PartialEq, Eq, Debug)]
pub enum BookFault {
    Card,
    TooLong,
    PadCount,
    PadOut,
    AllTaken,
    WrongPad,
    NoneOut,
    OldNumber,
    NotATag,
    WrongTag,
    FewPlaces,
}

#[derive(Clone, Copy, PartialEq, Eq, Debug)]
pub enum PadFault {
    NoSuchPad,
    // A number of bytes that is no multiple of eight.
    SheetSize,
}

#[derive(Clone, Copy, PartialEq, Eq, Debug)]
pub enum FamilyFault {
    Widths,
}

#[derive(Clone, Copy, PartialEq, Eq, Debug)]
pub enum Refusal {
    Line(LineFault),
    Session(SessionFault),
    Book(BookFault),
    Pad(PadFault),
    Family(FamilyFault),
}

impl Refusal {
    // The refusal's layer and its number, which stand as bytes in an answer.
    pub fn code(self) -> (u8, u8)
        ensures { result ≡ code_of self }
    {
        match self {
            Refusal::Line(LineFault::NoSuchCommand) => (1, 13),
            Refusal::Line(LineFault::CutOff) => (1, 14),
            Refusal::Line(LineFault::LongLine) => (1, 15),
            Refusal::Line(LineFault::ShortBuffer) => (1, 16),
            Refusal::Session(SessionFault::Choice) => (2, 17),
            Refusal::Session(SessionFault::Job) => (2, 18),
            Refusal::Book(BookFault::Card) => (3, 1),
            Refusal::Book(BookFault::TooLong) => (3, 3),
            Refusal::Book(BookFault::PadCount) => (3, 4),
            Refusal::Book(BookFault::PadOut) => (3, 6),
            Refusal::Book(BookFault::AllTaken) => (3, 7),
            Refusal::Book(BookFault::WrongPad) => (3, 8),
            Refusal::Book(BookFault::NoneOut) => (3, 9),
            Refusal::Book(BookFault::OldNumber) => (3, 10),
            Refusal::Book(BookFault::NotATag) => (3, 11),
            Refusal::Book(BookFault::WrongTag) => (3, 12),
            Refusal::Book(BookFault::FewPlaces) => (3, 20),
            Refusal::Pad(PadFault::NoSuchPad) => (4, 5),
            Refusal::Pad(PadFault::SheetSize) => (4, 19),
            Refusal::Family(FamilyFault::Widths) => (5, 2),
        }
    }
}
