// What waits for its block to end: bytes at the first level, tags at those above. Each is a list of a fixed most, written
// for its type: an array of a type parameter would ask of whoever holds a job that its size is known.
ghost use Rattle.std.specs.Prelude.{◌≡◌, ℕ, ◌+◌, ◌*◌, ◌%◌, ◌<◌, ◌≤◌, List, [], ◌++◌, length, take, ◌==◌};
ghost use Rattle.jobs.specs.Reading.{tag_words};

use crate::tag::split_tag;
use std::marker::Model;

// At most 128 bytes.
#[derive(Drop)]
pub(crate) struct ByteBlock {
    bytes: [u8; 128],
    count: usize,
}

impl Model for ByteBlock {
    ghost Value = { List ℕ };

    ghost view = { λ b. take b.count b.bytes };

    ghost invariant = { λ b. b.count ≤ 128 };
}

impl ByteBlock {
    pub(crate) fn new() -> ByteBlock
        ensures { result ≡ [] }
    {
        ByteBlock {
            bytes: [0; 128],
            count: 0,
        }
    }

    // How many more bytes there is room for.
    pub(crate) fn room(&self) -> usize
        ensures { result + length self.now ≡ 128 }
    {
        self.bytes.len() - self.count
    }

    // Puts bytes behind those that wait.
    pub(crate) fn extend(&mut self, part: &[u8])
        requires { length self.old + length part.now ≤ 128 }
        ensures { self.new ≡ self.old ++ part.now }
    {
        if part.is_empty() {
            return;
        }
        let end = self.count + part.len();
        self.bytes[self.count..end].copy_from_slice(part);
        self.count = end;
    }

    pub(crate) fn clear(&mut self)
        ensures { self.new ≡ [] }
    {
        self.count = 0;
    }

    pub(crate) fn as_slice(&self) -> &[u8]
        ensures value { result.now ≡ self.now }
        ensures fits { length result.now ≤ 128 }
    {
        &self.bytes[..self.count]
    }

    // A block that is full.
    pub(crate) fn full(&self) -> &[u8; 128]
        requires { length self.now ≡ 128 }
        ensures { result.now ≡ self.now }
    {
        &self.bytes
    }
}

// At most 16 tags, each as its two words.
#[derive(Drop)]
pub(crate) struct TagBlock {
    words: [u32; 32],
    tags: usize,
}

impl Model for TagBlock {
    ghost Value = { List ℕ };

    ghost view = { λ t. take (2 * t.tags) t.words };

    ghost invariant = { λ t. t.tags ≤ 16 };
}

impl TagBlock {
    pub(crate) fn new() -> TagBlock
        ensures { result ≡ [] }
    {
        TagBlock {
            words: [0; 32],
            tags: 0,
        }
    }

    pub(crate) fn is_full(&self) -> bool
        ensures value { result ≡ (length self.now == 32) }
        ensures fits { length self.now ≤ 32 }
        ensures even { length self.now % 2 ≡ 0 }
    {
        2 * self.tags == self.words.len()
    }

    // Puts a tag behind those that wait.
    pub(crate) fn push(&mut self, tag: u64)
        requires { length self.old < 32 }
        ensures { self.new ≡ self.old ++ tag_words tag }
    {
        let (low, high) = split_tag(tag);
        let at = 2 * self.tags;
        self.words[at] = low;
        self.words[at + 1] = high;
        self.tags += 1;
    }

    pub(crate) fn clear(&mut self)
        ensures { self.new ≡ [] }
    {
        self.tags = 0;
    }

    // The words of the tags, the low one of each first.
    pub(crate) fn words(&self) -> &[u32]
        ensures value { result.now ≡ self.now }
        ensures fits { length result.now ≤ 32 }
        ensures even { length result.now % 2 ≡ 0 }
    {
        &self.words[..2 * self.tags]
    }
}
