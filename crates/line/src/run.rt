// A whole line.
ghost use Rattle.std.specs.Prelude.{◌≡◌, ◌-◌, ◌*◌, ◌≤◌, length, IfOk, OnOk};
ghost use Rattle.line.specs.Buffers.{put};
ghost use Rattle.line.specs.Grants.{LineLawful};
ghost use Rattle.line.specs.Beginnings.{whole_answers};
ghost use Rattle.line.specs.Lines.{line_run, lent};
ghost use Rattle.std.specs.Result.{result_map_both};

use crate::begin::until_choice;
use crate::commands::Commands;
use crate::output::Output;
use crate::refusal::Refusal;
use crate::serve::serve;
use crate::session::Desk;
use books::{MOST_PADS, PadCountError, open_books};
use families::{FamilyName, Mmh, MmhStar, Nh, Nhs};
use jobs::read_card;
use pads::{PadSource, Sheet, read_sheet};

// Answers a whole line, and says how many bytes that takes.
fn answer_line<S: PadSource + Drop>(
    desk: Desk<S>,
    mut commands: Commands,
    answers: &mut [u8],
) -> usize
    requires { 13 * (length commands.line.now - commands.at) ≤ length answers.old }
    ensures end { result ≡ length (whole_answers S.pads desk commands.entry) }
    ensures buffer { answers.new ≡ put 0 (whole_answers S.pads desk commands.entry) answers.old }
{
    let mut output = Output { answers, used: 0 };
    // A family is a type, and no closure is generic: the four are named here.
    match until_choice(&mut commands, &mut output) {
        None => {}
        Some(FamilyName::Nh) => serve::<Nh, S>(desk, commands, &mut output),
        Some(FamilyName::Nhs) => serve::<Nhs, S>(desk, commands, &mut output),
        Some(FamilyName::MmhStar) => serve::<MmhStar, S>(desk, commands, &mut output),
        Some(FamilyName::Mmh) => serve::<Mmh, S>(desk, commands, &mut output),
    }
    output.used
}

// The first places, which hold the pads.
fn lend(places: &[u64], count: usize) -> Result<Sheet<'_>, PadCountError>
    ensures { result_map_both (λ s. s.pads.now) (λ e. e) result ≡ lent places.now count }
{
    places.get(..count).map(Sheet::new).ok_or(PadCountError)
}

// Runs a line over a key card and a sheet of pads, both as bytes, and writes the answers to the front of the buffer. The
// result counts their bytes. The law over the two books holds of what the line grants.
pub fn run_line(
    card: &[u8],
    sheet: &[u8],
    line: &[u8],
    answers: &mut [u8],
) -> Result<usize, Refusal>
    ensures answer { result ≡ (line_run card.now sheet.now line.now answers.old).0 }
    ensures buffer { answers.new ≡ (line_run card.now sheet.now line.now answers.old).1 }
    ensures within { IfOk result (λ count. count ≤ length answers.old) }
    ensures law { OnOk result (LineLawful card.now sheet.now line.now) }
{
    let commands = Commands::new(line, answers.len())?;
    let card = read_card(card)?;
    // No heap: the pads are read into lent places, and counted.
    let mut places = [0u64; MOST_PADS];
    let count = read_sheet(sheet, &mut places)?;
    let pads = lend(&places, count)?;
    let (office, table) = open_books(pads, pads)?;
    let desk = Desk {
        card,
        office,
        table,
    };
    Ok(answer_line(desk, commands, answers))
}
