// Whole runs of the line, from lines.tsv.
use crate::tally::Tally;
use anyhow::{anyhow, ensure};
use line::{ANSWERS_ROOM, Answer, run_line};
use std::alloc::{AllocError, Global};
use std::fs;

// The bytes that a column spells: two digits for each, in lower case, or a dash for none. A last digit without its second is
// left out.
fn column(heap: Global, text: &str) -> anyhow::Result<Vec<u8>> {
    if text == "-" {
        return Ok(Vec::new(heap));
    }
    let digits = text.as_bytes();
    let pairs = &digits[..digits.len() / 2 * 2];
    ensure!(
        pairs
            .iter()
            .all(|digit| matches!(*digit, b'0'..=b'9' | b'a'..=b'f')),
        "lines.tsv has a digit that is not hexadecimal"
    );
    // All are digits, so nothing but memory can be missing.
    let bytes = hex::decode(heap, pairs).map_err(|_| AllocError)?;
    Ok(bytes)
}

// What the program loftline writes for these contents of its files, written once more, since a program gives no functions:
// answered or refused, there are bytes. The answers lie in a lent buffer, which the line counts.
fn output(heap: Global, card: &[u8], sheet: &[u8], line: &[u8]) -> Result<Vec<u8>, AllocError> {
    let mut answers = [0u8; ANSWERS_ROOM];
    match run_line(card, sheet, line, &mut answers) {
        Ok(count) => Vec::from_slice(heap, &answers[0..count]),
        Err(refusal) => {
            let encoding = Answer::Refused { refusal, place: 0 }.encode();
            Vec::from_slice(heap, &encoding.bytes[0..encoding.count])
        }
    }
}

fn agrees(heap: Global, row: &str) -> anyhow::Result<bool> {
    let mut words = row.split('\t');
    let (Some(card), Some(sheet), Some(line), Some(answers)) = (
        words.next(),
        words.next(),
        words.next(),
        words.next(),
    ) else {
        return Err(anyhow!("lines.tsv has a row that is no vector"));
    };
    let card = column(heap, card)?;
    let sheet = column(heap, sheet)?;
    let line = column(heap, line)?;
    let expected = column(heap, answers)?;
    let written = output(heap, card.as_slice(), sheet.as_slice(), line.as_slice())?;
    Ok(written == expected)
}

// Prints how many rows agree.
pub fn compare_lines(rt: &HostRuntime) -> anyhow::Result<()> {
    let text = fs::read_to_string(rt, "lines.tsv")?;
    let mut tally = Tally::default();
    for row in text.as_str().lines().skip(1) {
        tally.add(agrees(rt.alloc(), row)?);
    }
    println!(rt; "lines: {tally}")?;
    Ok(())
}
