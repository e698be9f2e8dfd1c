// Worked examples that no contract states: root tags of MMH*, the limits, and a whole line.
use crate::pieces::{Feeding, root_tag};
use crate::tally::Tally;
use anyhow::anyhow;
use families::MmhStar;
use jobs::read_card;
use line::{ANSWERS_ROOM, BookFault, LineFault, Refusal, run_line};
use std::alloc::{AllocError, Global};
use std::fs;

// The pads 100 and 200.
const SHEET: [u8; 16] = [100, 0, 0, 0, 0, 0, 0, 0, 200, 0, 0, 0, 0, 0, 0, 0];

// Choose NH, open a job with label 7, seal; open it again, check it under number 0 with tag 113; strike; seal.
const LINE: [u8; 28] = [
    0x46, 1, 0x4f, 7, 0, 0, 0, 0x5a, 0x4f, 7, 0, 0, 0, 0x43, 0, 0, 0, 0, 113, 0, 0, 0, 0, 0, 0, 0,
    0x58, 0x5a,
];

const ANSWERS: [u8; 30] = [
    0x53, 0, 0, 0, 0, 113, 0, 0, 0, 0, 0, 0, 0, 0x59, 0, 0, 0, 0, 0x58, 1, 0, 0, 0, 0x52, 2, 18,
    27, 0, 0, 0,
];

// Whether a line over the two pads gives these answers, which lie in a lent buffer that the line counts.
fn answers(card: &[u8], line: &[u8], expected: &[u8]) -> bool {
    let mut buffer = [0u8; ANSWERS_ROOM];
    let result = run_line(card, &SHEET, line, &mut buffer);
    result.is_ok_and(|count| &buffer[0..count] == expected)
}

// The result of a line of so many bytes, each of which seals, over so many zero pads.
fn result(
    heap: Global,
    card: &[u8],
    pads: usize,
    long: usize,
) -> Result<Result<usize, Refusal>, AllocError> {
    let sheet = vec![in heap; 0u8; pads.saturating_mul(8)]?;
    let line = vec![in heap; 0x5au8; long]?;
    let mut buffer = [0u8; ANSWERS_ROOM];
    Ok(run_line(card, sheet.as_slice(), line.as_slice(), &mut buffer))
}

// Under MMH*, a check with this tag of a job under number 0 answers this refusal of the books' layer.
fn tag_refused(card: &[u8], low: u8, refusal: u8) -> bool {
    let line = [
        0x46, 3, 0x4f, 7, 0, 0, 0, 0x43, 0, 0, 0, 0, low, 0, 0, 0, 1, 0, 0, 0,
    ];
    answers(card, &line, &[0x52, 3, refusal, 7, 0, 0, 0])
}

fn star_tag(words: &[u32; 164], label: u32, document: &[u8], tag: u64) -> bool {
    root_tag::<MmhStar>(words, label, document, Feeding::Pieces(&[1])) == Some(tag)
}

fn show(rt: &HostRuntime, title: &str, examples: &[bool]) -> anyhow::Result<()> {
    let mut tally = Tally::default();
    for agrees in examples {
        tally.add(*agrees);
    }
    println!(rt; "{title}: {tally}")?;
    Ok(())
}

fn limits(rt: &HostRuntime, card: &[u8]) -> anyhow::Result<[bool; 8]> {
    let heap = rt.alloc();
    let short = vec![in heap; 1u8; 652]?;
    Ok([
        result(heap, card, 2, 1)?.is_ok(),
        matches!(
            result(heap, short.as_slice(), 2, 1)?,
            Err(Refusal::Book(BookFault::Card))
        ),
        result(heap, card, 256, 1)?.is_ok(),
        matches!(
            result(heap, card, 257, 1)?,
            Err(Refusal::Book(BookFault::PadCount))
        ),
        result(heap, card, 2, 4096)?.is_ok(),
        matches!(
            result(heap, card, 2, 4097)?,
            Err(Refusal::Line(LineFault::LongLine))
        ),
        tag_refused(card, 14, 12),
        tag_refused(card, 15, 11),
    ])
}

// Prints how many agree of each group.
pub fn compare_examples(rt: &HostRuntime) -> anyhow::Result<()> {
    let card = fs::read(rt, "card-ones.bin")?;
    // As Vector::card, but with the file's bytes kept, and a message of its own: one function would be no plainer.
    let words = read_card(card.as_slice()).map_err(|_| anyhow!(
        "card-ones.bin is not 656 bytes long"
    ))?;
    let tags = [
        star_tag(&words, 0, &[], 0),
        star_tag(&words, 7, &[], 7),
        star_tag(&words, 0, &[2], 3),
        star_tag(&words, 0, &[0], 1),
    ];
    show(rt, "MMH* under a card of ones", &tags)?;
    show(rt, "limits", &limits(rt, card.as_slice())?)?;
    show(
        rt,
        "the example line",
        &[answers(card.as_slice(), &LINE, &ANSWERS)],
    )
}
