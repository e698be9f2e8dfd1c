// The calls on the office book.
ghost use Rattle.std.specs.Prelude.{◌≡◌, ◌<◌, length, take, OnOk};
ghost use Rattle.books.specs.Office.{opened, taken, held, spent, used, struck, sealed, called_in};
ghost use Rattle.books.specs.Opening.{opening};
ghost use Rattle.books.specs.Views.{office_view};
ghost use Rattle.pads.specs.Sources.{asked};
ghost use Rattle.std.specs.Result.{result_map_both};

use crate::fate::Fate;
use crate::office_book::OfficeBook;
use crate::opening::{MOST_PADS, check_count};
use crate::pad::Pad;
use crate::refusals::{NoneOut, PadCountError, TakeError, WrongPad};
use families::Family;
use jobs::ClosedJob;
use pads::{NoSuchPad, PadSource};

impl<S: PadSource> OfficeBook<S> {
    // A book over 1 to 256 pads, with none taken.
    pub fn open(source: S) -> Result<OfficeBook<S>, PadCountError>
    where
        S: Drop,
        ensures { result_map_both (office_view S.pads) (λ e. e) result ≡ opening (length (S.pads source)) (opened (S.pads source)) }
    {
        check_count(source.count())?;
        Ok(Self::fresh(source))
    }

    // A book with no pad taken, over the first pads of a source.
    fn fresh(source: S) -> OfficeBook<S>
        ensures { office_view S.pads result ≡ opened (take 256 (S.pads source)) }
    {
        OfficeBook {
            source,
            next: 0,
            out: None,
            fates: [Fate::Unspent; MOST_PADS],
        }
    }

    // The pad of a number.
    fn pad(&self, number: u32) -> Result<u64, NoSuchPad>
        ensures answer { result ≡ asked (office_view S.pads self.now).pads number }
        ensures within { OnOk result (number < 256) }
    {
        if number as usize >= MOST_PADS {
            return Err(NoSuchPad);
        }
        self.source.pad(number)
    }

    // Records what became of the pad that was out.
    fn use_up(&mut self, number: u32, fate: Fate)
        ensures { office_view S.pads self.new ≡ spent fate number (office_view S.pads self.old) }
    {
        self.out = None;
        let place = number as usize;
        if place < self.fates.len() {
            self.fates[place] = fate;
        }
    }

    // Hands out the next number's pad.
    pub fn take(&mut self) -> Result<Pad, TakeError>
        ensures answer { result ≡ (taken (office_view S.pads self.old)).0 }
        ensures book { office_view S.pads self.new ≡ (taken (office_view S.pads self.old)).1 }
    {
        if self.out.is_some() {
            return Err(TakeError::PadOut);
        }
        let number = self.next;
        let value = self.pad(number).map_err(|_| TakeError::AllTaken)?;
        self.next = number + 1;
        self.out = Some(number);
        Ok(Pad { number, value })
    }

    // Whether this is the pad that is out here.
    fn is_out(&self, pad: &Pad) -> bool
        ensures { result ≡ held pad.now (office_view S.pads self.now) }
    {
        self.out == Some(pad.number) && self.pad(pad.number) == Ok(pad.value)
    }

    // Uses the pad up, and records what became of its number if it is out here.
    fn spend(&mut self, pad: Pad, fate: Fate) -> Result<(), WrongPad>
        ensures answer { result ≡ (used fate pad (office_view S.pads self.old)).0 }
        ensures book { office_view S.pads self.new ≡ (used fate pad (office_view S.pads self.old)).1 }
    {
        let out = self.is_out(&pad);
        let Pad { number, value: _ } = pad;
        if !out {
            return Err(WrongPad);
        }
        self.use_up(number, fate);
        Ok(())
    }

    // Seals a closed job with the pad, and gives the number and the tag.
    pub fn seal<F: Family>(&mut self, pad: Pad, job: &ClosedJob<F>) -> Result<(u32, u64), WrongPad>
        ensures answer { result ≡ (sealed F.meaning.modulus job.now.root pad (office_view S.pads self.old)).0 }
        ensures book { office_view S.pads self.new ≡ (sealed F.meaning.modulus job.now.root pad (office_view S.pads self.old)).1 }
    {
        let number = pad.number;
        let tag = F::add_pad(job.root_tag(), pad.value);
        self.spend(pad, Fate::Sealed)?;
        Ok((number, tag))
    }

    // Strikes the pad's number.
    pub fn strike(&mut self, pad: Pad) -> Result<(), WrongPad>
        ensures answer { result ≡ (struck pad (office_view S.pads self.old)).0 }
        ensures book { office_view S.pads self.new ≡ (struck pad (office_view S.pads self.old)).1 }
    {
        self.spend(pad, Fate::Struck)
    }

    // Strikes the number that is out, where its pad went to another book, and says which it is.
    pub fn call_in(&mut self) -> Result<u32, NoneOut>
        ensures answer { result ≡ (called_in (office_view S.pads self.old)).0 }
        ensures book { office_view S.pads self.new ≡ (called_in (office_view S.pads self.old)).1 }
    {
        let number = self.out.ok_or(NoneOut)?;
        self.use_up(number, Fate::Struck);
        Ok(number)
    }
}
