// A document as it comes in, in pieces.
ghost use Rattle.std.specs.Prelude.{◌≡◌, ℕ, ◌+◌, ◌%◌, ◌<◌, ◌≤◌, List, [], ◌++◌, length, take};
ghost use Rattle.jobs.specs.Roots.{top_tag};
ghost use Rattle.jobs.specs.Holding.{bytes_tag, StreamHolds};

use crate::block::{last_tag, stretch, whole_tag};
use crate::level::{STRETCH, push_all, top};
use crate::state::{Level, Stream};
use crate::waiting::ByteBlock;
use families::Family;
use std::marker::PhantomData;

// The bytes of a block of level 1.
const BLOCK: usize = 128;

// How many of some bytes lie in whole blocks that a byte follows.
fn whole_blocks(len: usize) -> usize
    requires { 0 < len }
    ensures whole { result % 128 ≡ 0 }
    ensures followed { result < len }
    ensures last { len ≤ result + 128 }
{
    (len - 1) / BLOCK * BLOCK
}

// The tag of a whole block, under the first stretch of the card.
fn first_tag<F: Family>(card: &[u32; 164], block: &[u8; 128]) -> u64
    ensures { result ≡ bytes_tag F.meaning (take 32 card.now) block.now }
{
    whole_tag::<F>(stretch(card), block)
}

impl<F: Family> Stream<F> {
    // A stream that has taken nothing.
    pub(crate) fn new() -> Stream<F>
        ensures block { result.block ≡ [] }
        ensures holds { (card : List ℕ) → StreamHolds F.meaning card result [] }
    {
        Stream {
            block: ByteBlock::new(),
            levels: [Level::new(), Level::new(), Level::new(), Level::new()],
            family: PhantomData,
        }
    }

    // Tags the full block that waits.
    fn flush(&mut self, card: &[u32; 164])
        requires { length self.old.block ≡ 128 }
        ensures block { self.new.block ≡ [] }
        ensures holds { (doc : List ℕ) → StreamHolds F.meaning card.now self.old doc → StreamHolds F.meaning card.now self.new doc }
    {
        let tag = first_tag::<F>(card, self.block.full());
        push_all::<F>(&mut self.levels, &card[STRETCH..], tag);
        self.block.clear();
    }

    // Tags a whole block where it lies, while none waits.
    fn pass(&mut self, card: &[u32; 164], block: &[u8; 128])
        requires { self.old.block ≡ [] }
        ensures block { self.new.block ≡ [] }
        ensures holds { (doc : List ℕ) → StreamHolds F.meaning card.now self.old doc → StreamHolds F.meaning card.now self.new (doc ++ block.now) }
    {
        let tag = first_tag::<F>(card, block);
        push_all::<F>(&mut self.levels, &card[STRETCH..], tag);
    }

    // Copies bytes for which there is room behind those that wait.
    fn keep(&mut self, part: &[u8])
        requires { length self.old.block + length part.now ≤ 128 }
        ensures block { self.new.block ≡ self.old.block ++ part.now }
        ensures holds { (card doc : List ℕ) → StreamHolds F.meaning card self.old doc → StreamHolds F.meaning card self.new (doc ++ part.now) }
    {
        self.block.extend(part);
    }

    // Tags all whole blocks that a byte follows, while none waits, and keeps the bytes behind them.
    fn take_blocks(&mut self, card: &[u32; 164], bytes: &[u8])
        requires none { self.old.block ≡ [] }
        requires some { 0 < length bytes.now }
        ensures waits { 0 < length self.new.block }
        ensures holds { (doc : List ℕ) → StreamHolds F.meaning card.now self.old doc → StreamHolds F.meaning card.now self.new (doc ++ bytes.now) }
    {
        let (whole, rest) = bytes.split_at(whole_blocks(bytes.len()));
        for block in whole.as_chunks::<BLOCK>().0 {
            self.pass(card, block);
        }
        self.keep(rest);
    }

    // Takes bytes that follow a full block.
    fn take_behind(&mut self, card: &[u32; 164], bytes: &[u8])
        requires full { length self.old.block ≡ 128 }
        requires some { 0 < length bytes.now }
        ensures waits { 0 < length self.new.block }
        ensures holds { (doc : List ℕ) → StreamHolds F.meaning card.now self.old doc → StreamHolds F.meaning card.now self.new (doc ++ bytes.now) }
    {
        self.flush(card);
        self.take_blocks(card, bytes);
    }

    // Takes a piece of the document. A block is tagged only once a byte follows it.
    pub(crate) fn feed(&mut self, card: &[u32; 164], piece: &[u8])
        ensures waits { 0 < length self.old.block + length piece.now → 0 < length self.new.block }
        ensures holds { (doc : List ℕ) → StreamHolds F.meaning card.now self.old doc → StreamHolds F.meaning card.now self.new (doc ++ piece.now) }
    {
        let room = self.block.room();
        let (front, rest) = piece.split_at(room.min(piece.len()));
        self.keep(front);
        if !rest.is_empty() {
            self.take_behind(card, rest);
        }
    }

    // The tag at the top of the levels, once the document is all in.
    pub(crate) fn close(&mut self, card: &[u32; 164]) -> u64
        ensures { (doc : List ℕ) → StreamHolds F.meaning card.now self.old doc → (0 < length doc → 0 < length self.old.block) → length doc ≤ 8388608 → result ≡ top_tag F.meaning card.now doc }
    {
        let tag = last_tag::<F>(stretch(card), self.block.as_slice());
        top::<F>(&mut self.levels, &card[STRETCH..], tag)
    }
}
