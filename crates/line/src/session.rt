// A session over the two books, once a family was chosen.
ghost use Rattle.std.specs.Prelude.{◌≡◌, None as Nothing, Option};
ghost use Rattle.line.specs.Commands.{order_of};
ghost use Rattle.line.specs.Sessions.{opens, feeds, seals, strikes, checks, obeyed, finished};
ghost use Rattle.line.specs.Standing.{Stands, Does, Ends, idle};
ghost use Rattle.jobs.specs.Roots.{Job};

use crate::answer::Answer;
use crate::command::Command;
use crate::refusal::{Refusal, SessionFault};
use books::{OfficeBook, TableBook};
use families::Family;
use jobs::{ClosedJob, OpenJob};
use pads::PadSource;

// The key card, and the books of the two ends.
#[derive(Drop)]
pub(crate) struct Desk<S: PadSource> {
    pub(crate) card: [u32; 164],
    pub(crate) office: OfficeBook<S>,
    pub(crate) table: TableBook<S>,
}

#[derive(Drop)]
pub(crate) struct Session<F: Family, S: PadSource> {
    desk: Desk<S>,
    job: Option<OpenJob<F>>,
}

impl<F: Family, S: PadSource> Session<F, S> {
    // No job is open yet.
    pub(crate) fn new(desk: Desk<S>) -> Session<F, S>
        ensures { result ≡ record { desk = desk; job = Nothing } }
    {
        Session { desk, job: None }
    }

    fn open(&mut self, label: u32) -> Result<Option<Answer>, Refusal>
        ensures { Does S.pads F.meaning self.old self.new result (opens label) }
    {
        if self.job.is_some() {
            return Err(Refusal::Session(SessionFault::Job));
        }
        self.job = Some(OpenJob::<F>::open(&self.desk.card, label)?);
        Ok(None)
    }

    fn feed(&mut self, piece: &[u8]) -> Result<Option<Answer>, Refusal>
        ensures { Does S.pads F.meaning self.old self.new result (feeds piece.now) }
    {
        let job = self.job.as_mut().ok_or(SessionFault::Job)?;
        job.feed(piece)?;
        Ok(None)
    }

    // Ends the open job.
    fn close(&mut self) -> Result<ClosedJob<F>, SessionFault>
        ensures rest { self.new ≡ idle self.old }
        ensures answer { (job : Option Job) → Stands F.meaning self.old job → Ends F.meaning self.old.desk.card job result }
    {
        let job = self.job.take().ok_or(SessionFault::Job)?;
        Ok(job.close())
    }

    fn seal(&mut self) -> Result<Option<Answer>, Refusal>
        ensures { Does S.pads F.meaning self.old self.new result (seals F.meaning self.old.desk.card) }
    {
        let job = self.close()?;
        let pad = self.desk.office.take()?;
        let (number, tag) = self.desk.office.seal(pad, &job)?;
        Ok(Some(Answer::Sealed { number, tag }))
    }

    fn check(&mut self, number: u32, tag: u64) -> Result<Option<Answer>, Refusal>
        ensures { Does S.pads F.meaning self.old self.new result (checks F.meaning self.old.desk.card number tag) }
    {
        let job = self.close()?;
        self.desk.table.check(&job, number, tag)?;
        Ok(Some(Answer::Accepted { number }))
    }

    fn strike(&mut self) -> Result<Option<Answer>, Refusal>
        ensures { Does S.pads F.meaning self.old self.new result strikes }
    {
        let pad = self.desk.office.take()?;
        let number = pad.number();
        self.desk.office.strike(pad)?;
        Ok(Some(Answer::Struck { number }))
    }

    pub(crate) fn obey(&mut self, command: Command) -> Result<Option<Answer>, Refusal>
        ensures { Does S.pads F.meaning self.old self.new result (obeyed F.meaning self.old.desk.card (order_of command.entry)) }
    {
        match command {
            Command::Choose { .. } => Err(Refusal::Session(SessionFault::Choice)),
            Command::Open { label } => self.open(label),
            Command::Byte { byte } => self.feed(&[byte]),
            Command::Block { bytes, .. } => self.feed(bytes),
            Command::Seal => self.seal(),
            Command::Strike => self.strike(),
            Command::Check { number, tag } => self.check(number, tag),
        }
    }

    // The end of the line, which no job may be open at.
    pub(crate) fn finish(&self) -> Result<Option<Answer>, Refusal>
        ensures { (job : Option Job) → Stands F.meaning self.now job → result ≡ finished job }
    {
        if self.job.is_some() {
            return Err(Refusal::Session(SessionFault::Job));
        }
        Ok(None)
    }
}
