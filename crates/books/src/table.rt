// The calls on the table book.
ghost use Rattle.std.specs.Prelude.{◌≡◌, length};
ghost use Rattle.books.specs.Opening.{opening};
ghost use Rattle.books.specs.Table.{laid, checked};
ghost use Rattle.books.specs.Views.{table_view};
ghost use Rattle.std.specs.Result.{result_map_both};

use crate::opening::check_count;
use crate::refusals::{CheckError, PadCountError};
use crate::table_book::TableBook;
use families::Family;
use jobs::ClosedJob;
use pads::PadSource;

impl<S: PadSource> TableBook<S> {
    // A book over 1 to 256 pads that accepted no number.
    pub fn open(source: S) -> Result<TableBook<S>, PadCountError>
    where
        S: Drop,
        ensures { result_map_both (table_view S.pads) (λ e. e) result ≡ opening (length (S.pads source)) (laid (S.pads source)) }
    {
        check_count(source.count())?;
        Ok(TableBook { source, floor: 0 })
    }

    // Accepts the tag of a closed job under a number that is not below the floor.
    pub fn check<F: Family>(
        &mut self,
        job: &ClosedJob<F>,
        number: u32,
        tag: u64,
    ) -> Result<(), CheckError>
        ensures answer { result ≡ (checked F.meaning.modulus job.now.root number tag (table_view S.pads self.old)).0 }
        ensures book { table_view S.pads self.new ≡ (checked F.meaning.modulus job.now.root number tag (table_view S.pads self.old)).1 }
    {
        let pad = self.source.pad(number)?;
        if u64::from(number) < self.floor {
            return Err(CheckError::OldNumber);
        }
        if !F::is_tag(tag) {
            return Err(CheckError::NotATag);
        }
        if tag != F::add_pad(job.root_tag(), pad) {
            return Err(CheckError::WrongTag);
        }
        self.floor = u64::from(number) + 1;
        Ok(())
    }
}
