// Computes the root tags of marks.tsv and the answers of lines.tsv, which another implementation wrote, and says how
// many agree.
#![tactic(auto)]

mod examples;
mod lines;
mod pieces;
mod tally;
mod vectors;

use anyhow::Context;
use examples::compare_examples;
use families::{Family, Mmh, MmhStar, Nh, Nhs};
use jobs::LIMIT;
use lines::compare_lines;
use pieces::{Feeding, root_tag};
use std::fs;
use tally::Tally;
use vectors::{Vector, Vectors};

// The lengths of the pieces; the uneven ones straddle 128, 2,048 and 32,768 bytes.
const WHOLE: [usize; 1] = [LIMIT];

const BYTES: [usize; 1] = [1];

const UNEVEN: [usize; 8] = [127, 2, 1919, 1, 30720, 100, 2000, 33333];

fn agrees<F: Family>(rt: &HostRuntime, vector: &Vector, feeding: Feeding) -> anyhow::Result<bool> {
    let card = vector.card(rt)?;
    let document = vector.document(rt.alloc())?;
    let tag = root_tag::<F>(&card, vector.label, document.as_slice(), feeding);
    Ok(tag == Some(vector.tag))
}

// Prints how many vectors that can be fed so have this family's tag.
fn count<F: Family>(
    rt: &HostRuntime,
    vectors: Vectors,
    feeding: Feeding,
    title: &str,
) -> anyhow::Result<()> {
    let mut tally = Tally::default();
    for line in vectors.lines() {
        let vector = vectors
            .read(line)
            .context("marks.tsv has a line that is no vector")?;
        if vector.suits(feeding) {
            tally.add(agrees::<F>(rt, &vector, feeding)?);
        }
    }
    println!(rt; "  {title}: {tally}")?;
    Ok(())
}

fn compare<F: Family>(
    rt: &HostRuntime,
    text: &str,
    column: usize,
    name: &str,
) -> anyhow::Result<()> {
    let vectors = Vectors::of(text, column);
    println!(rt; "{name}")?;
    let feedings = [
        ("fed whole", Feeding::Pieces(&WHOLE)),
        ("byte by byte", Feeding::Pieces(&BYTES)),
        ("in uneven pieces", Feeding::Pieces(&UNEVEN)),
        ("a byte past the limit refused", Feeding::PastLimit),
    ];
    for (title, feeding) in feedings {
        count::<F>(rt, vectors, feeding, title)?;
    }
    Ok(())
}

fn run(rt: &HostRuntime) -> anyhow::Result<()> {
    let marks = fs::read_to_string(rt, "marks.tsv")?;
    // By place, whatever the titles in marks.tsv say.
    compare::<Nh>(rt, marks.as_str(), 0, "NH")?;
    compare::<Nhs>(rt, marks.as_str(), 1, "NHS")?;
    compare::<MmhStar>(rt, marks.as_str(), 2, "MMH*")?;
    compare::<Mmh>(rt, marks.as_str(), 3, "MMH")?;
    compare_lines(rt)?;
    compare_examples(rt)
}

fn main(rt: HostRuntime) -> anyhow::Result<()> {
    run(&rt)
}
