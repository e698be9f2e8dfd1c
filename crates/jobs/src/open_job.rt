// Open jobs: opened on a key card with a label, fed a document in pieces, and closed.
ghost use Rattle.std.specs.Prelude.{◌≡◌, ℕ, ◌+◌, ◌≤◌, List, length};
ghost use Rattle.jobs.specs.Roots.{Job, root_tag};
ghost use Rattle.jobs.specs.Jobs.{Holds, Closed, Opened, Fed, feed_answer, fed, fresh};

use crate::card::{CardError, WORDS};
use crate::state::{ClosedJob, OpenJob, Stream};
use crate::tag::root_words;
use families::Family;
use std::marker::PhantomData;

// The most bytes of a document.
pub const LIMIT: usize = 8_388_608;

// Where the words of the root begin on the card.
const ROOT: usize = 160;

// A piece that would take the document past 8,388,608 bytes.
#[derive(Clone, Copy, PartialEq, Eq, Debug)]
pub struct TooLong;

impl<F: Family> OpenJob<F> {
    // A job with an empty document, on its own copy of a card of the right length.
    fn start(card: &[u32; 164], label: u32) -> OpenJob<F>
        ensures { Holds F.meaning card.now (fresh label) result }
    {
        OpenJob {
            card: *card,
            stream: Stream::new(),
            label,
            length: 0,
        }
    }

    // A job with an empty document, on its own copy of the card.
    pub fn open(card: &[u32], label: u32) -> Result<OpenJob<F>, CardError>
        ensures { Opened F.meaning card.now label result }
    {
        let card = card.as_array::<WORDS>().ok_or(CardError)?;
        Ok(Self::start(card, label))
    }

    // Takes a piece for which there is room.
    fn take_piece(&mut self, piece: &[u8])
        requires { self.old.length + length piece.now ≤ 8388608 }
        ensures { (card : List ℕ) (job : Job) → Holds F.meaning card job self.old → Holds F.meaning card (fed job piece.now) self.new }
    {
        self.stream.feed(&self.card, piece);
        self.length += piece.len();
    }

    // Takes a piece of the document, or refuses it and stays as it was.
    pub fn feed(&mut self, piece: &[u8]) -> Result<(), TooLong>
        ensures answer { result ≡ feed_answer self.old.length (length piece.now) }
        ensures holds { Fed F.meaning self.old piece.now self.new result }
    {
        if piece.len() > LIMIT - self.length {
            return Err(TooLong);
        }
        self.take_piece(piece);
        Ok(())
    }

    // The tag of the root list, once the document is all in.
    fn root(&mut self) -> u64
        ensures { (card : List ℕ) (job : Job) → Holds F.meaning card job self.old → result ≡ root_tag F.meaning card job }
    {
        let top = self.stream.close(&self.card);
        let words = root_words(top, self.length as u32, self.label);
        F::tag(&self.card[ROOT..], &words).unwrap()
    }

    // Ends the document.
    pub fn close(mut self) -> ClosedJob<F>
        ensures { (card : List ℕ) (job : Job) → Holds F.meaning card job self → Closed F.meaning card job result }
    {
        ClosedJob {
            label: self.label,
            length: self.length,
            root: self.root(),
            family: PhantomData,
        }
    }
}
