// The lines of marks.tsv.
use crate::pieces::Feeding;
use anyhow::anyhow;
use jobs::{LIMIT, read_card};
use std::alloc::{AllocError, Global};
use std::fs;
use std::iter::Skip;
use std::str::Lines;

// The columns before the families'.
const BEFORE: usize = 5;

// A card by its name, a label, a document by its rule, and the root tag that it should have.
#[derive(Drop)]
pub struct Vector<'a> {
    pub name: &'a str,
    pub label: u32,
    pub length: usize,
    pub step: u64,
    pub start: u64,
    pub tag: u64,
}

// The vectors of one family: marks.tsv, and the column that has the family's tags.
#[derive(Clone, Copy)]
pub struct Vectors<'a> {
    text: &'a str,
    column: usize,
}

impl<'a> Vectors<'a> {
    // Of the families' columns, the one of this place. The first line, of titles, is not read.
    pub fn of(text: &'a str, family: usize) -> Vectors<'a> {
        let column = BEFORE.saturating_add(family);
        Vectors { text, column }
    }

    pub fn lines(&self) -> Skip<Lines<'a>> {
        self.text.lines().skip(1)
    }

    pub fn read<'b>(&self, line: &'b str) -> Option<Vector<'b>> {
        let mut words = line.split('\t');
        let name = words.next()?;
        let label = words.next()?.parse().ok()?;
        let length = words.next()?.parse().ok()?;
        let step = words.next()?.parse().ok()?;
        let start = words.next()?.parse().ok()?;
        let tag = line.split('\t').nth(self.column)?.parse().ok()?;
        Some(Vector {
            name,
            label,
            length,
            step,
            start,
            tag,
        })
    }
}

impl Vector<'_> {
    // A byte past the limit can only follow the longest document. A case that is asked here and where it is fed.
    pub fn suits(&self, feeding: Feeding) -> bool {
        match feeding {
            Feeding::Pieces(_) => true,
            Feeding::PastLimit => self.length == LIMIT,
        }
    }

    pub fn card(&self, rt: &HostRuntime) -> anyhow::Result<[u32; 164]> {
        let name = self.name;
        let path = format!(in rt.alloc(); "card-{name}.bin")?;
        let bytes = fs::read(rt, path.as_str())?;
        read_card(bytes.as_slice()).map_err(|_| anyhow!("a card is not 656 bytes long"))
    }

    // Byte i is (step × i + i / 256 + start) mod 256.
    pub fn document(&self, heap: Global) -> Result<Vec<u8>, AllocError> {
        let mut bytes = vec![in heap; 0u8; self.length]?;
        for (place, byte) in bytes.iter_mut().enumerate() {
            let i = place as u64;
            let sum = self
                .step
                .wrapping_mul(i)
                .wrapping_add(i / 256)
                .wrapping_add(self.start);
            *byte = (sum & 0xff) as u8;
        }
        Ok(bytes)
    }
}
