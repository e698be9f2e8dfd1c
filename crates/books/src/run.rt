// Both books, opened together.
ghost use Rattle.std.specs.Prelude.{◌≡◌, IfOk};
ghost use Rattle.books.specs.Law.{LawFrom};
ghost use Rattle.books.specs.Runs.{starting};
ghost use Rattle.books.specs.Views.{books_view};
ghost use Rattle.std.specs.Result.{result_map_both};

use crate::office_book::OfficeBook;
use crate::refusals::PadCountError;
use crate::table_book::TableBook;
use pads::PadSource;

// Opens the books of the two ends, and states the law over all that is done with them from then on.
pub fn open_books<S: PadSource + Drop, U: PadSource + Drop>(
    office: S,
    table: U,
) -> Result<(OfficeBook<S>, TableBook<U>), PadCountError>
    ensures given { result_map_both (books_view S.pads U.pads) (λ e. e) result ≡ starting (S.pads office) (U.pads table) }
    ensures law { IfOk result (λ both. S.pads office ≡ U.pads table → LawFrom (books_view S.pads U.pads both)) }
{
    let office = OfficeBook::open(office)?;
    let table = TableBook::open(table)?;
    Ok((office, table))
}
