// How many pads a book is opened over.
ghost use Rattle.std.specs.Prelude.{◌≡◌};
ghost use Rattle.books.specs.Opening.{opening};

use crate::refusals::PadCountError;

// The most pads of a book.
pub const MOST_PADS: usize = 256;

// Passes the numbers of pads that a book can have.
pub(crate) fn check_count(count: usize) -> Result<(), PadCountError>
    ensures { result ≡ opening count tt }
{
    if count == 0 || count > MOST_PADS {
        return Err(PadCountError);
    }
    Ok(())
}
