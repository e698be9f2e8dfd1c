// What open and closed jobs hold.
ghost use Rattle.std.specs.Prelude.{◌≡◌, ◌≤◌};

use crate::waiting::{ByteBlock, TagBlock};
use families::Family;
use std::marker::PhantomData;

// A level above the first: the tags that wait for their block to end.
#[derive(Drop)]
pub(crate) struct Level {
    pub(crate) tags: TagBlock,
}

// A document as it comes in: the bytes of the block that is not tagged yet, and the levels above the first.
#[derive(Drop)]
pub(crate) struct Stream<F: Family> {
    pub(crate) block: ByteBlock,
    pub(crate) levels: [Level; 4],
    pub(crate) family: PhantomData<F>,
}

// A job that is being fed: its own copy of the key card, its label, and the document so far.
#[derive(Drop)]
pub struct OpenJob<F: Family> {
    // Whole, since each level reads a part of it that starts in the middle; it goes to the stream with each call, since a
    // part of an array that lies beside a lent field gets no proof yet.
    pub(crate) card: [u32; 164],
    pub(crate) label: u32,
    pub(crate) length: usize,
    pub(crate) stream: Stream<F>,
    ghost small: { length ≤ 8388608 },
}

impl<F: Family> OpenJob<F> {
    // How many bytes were fed.
    pub fn length(&self) -> usize
        ensures { result ≡ self.now.length }
    {
        self.length
    }
}

// A job whose document has ended: its root tag, label and length in bytes.
#[derive(Drop)]
pub struct ClosedJob<F: Family> {
    pub(crate) root: u64,
    pub(crate) label: u32,
    pub(crate) length: usize,
    pub(crate) family: PhantomData<F>,
}
