// The two ends' calls for one job.
ghost use Rattle.std.specs.Prelude.{◌≡◌, ℕ, ◌≢◌, List, IfOk};
ghost use Rattle.books.specs.Law.{Forged};
ghost use Rattle.exchange.specs.Answers.{answered};
ghost use Rattle.jobs.specs.Jobs.{Closed};
ghost use Rattle.jobs.specs.Roots.{Job};

use crate::refusal::Refusal;
use books::open_books;
use families::Family;
use jobs::ClosedJob;
use pads::Sheet;

// Seals `sent` with the sheet's first pad, and has the table check `received` with this tag under the same number. If
// that is granted and the two stand for different jobs under one card, the jobs collide.
pub fn transfer<F: Family>(
    sheet: Sheet,
    sent: &ClosedJob<F>,
    received: &ClosedJob<F>,
    tag: u64,
) -> Result<(u32, u64), Refusal>
    ensures answer { result ≡ answered F.meaning.modulus sent.now.root received.now.root tag sheet.entry.pads.now }
    ensures collision { IfOk result (λ seal. (card : List ℕ) (accepted sealed : Job) → Closed F.meaning card accepted received.now → Closed F.meaning card sealed sent.now → accepted ≢ sealed → Forged F.meaning F.COUNT card accepted sealed tag seal.1) }
{
    let (mut office, mut table) = open_books(sheet, sheet)?;
    let pad = office.take()?;
    let (number, sealed) = office.seal(pad, sent)?;
    table.check(received, number, tag)?;
    Ok((number, sealed))
}
