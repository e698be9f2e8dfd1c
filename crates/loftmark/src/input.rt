// The key card and the document.
ghost use Rattle.std.specs.Prelude.{ℕ, List, IfOk, OnOk};
ghost use Rattle.jobs.specs.Roots.{Job};
ghost use Rattle.jobs.specs.Jobs.{Holds, Closed, fresh, fed};

use crate::fault::Fault;
use families::{Family, FamilyName};
use jobs::{ClosedJob, OpenJob, read_card};
use std::io::Read;
use std::{fs, io};

// The most bytes that are asked for at a time.
const PIECE: usize = 65536;

// Loftexchange reads its card with an error of its own; there is no crate for what programs share.
pub fn read_card_file(rt: &HostRuntime) -> Result<[u32; 164], Fault> {
    let bytes = fs::read(rt, "card.bin").map_err(|_| Fault::NoCard)?;
    Ok(read_card(bytes.as_slice())?)
}

// Feeds the job all that standard input has, in pieces as they arrive: some bytes, behind what it had.
fn feed_input<F: Family>(rt: &HostRuntime, job: &mut OpenJob<F>) -> Result<(), Fault>
    ensures { OnOk result ((card : List ℕ) (j : Job) → Holds F.meaning card j job.old → (doc : List ℕ) × Holds F.meaning card (fed j doc) job.new) }
{
    let mut piece = [0u8; PIECE];
    let mut input = rt.stdin();
    // Whoever sends may never end, so the pieces are bounded by a count.
    for _ in 0..u64::MAX {
        let n = input.read(&mut piece)?;
        if n == 0 {
            return Ok(());
        }
        job.feed(&piece[0..n])?;
    }
    Err(Fault::Io(io::ErrorKind::Other.into()))
}

// Opens a job, feeds it what standard input has, and closes it, with a line for each step: the closed job is that
// of some document.
pub fn mark_input<F: Family>(
    rt: &HostRuntime,
    name: FamilyName,
    card: &[u32],
    label: u32,
) -> Result<ClosedJob<F>, Fault>
    ensures { IfOk result (λ closed. (doc : List ℕ) × Closed F.meaning card.now (fed (fresh label) doc) closed) }
{
    let mut job = OpenJob::<F>::open(card, label)?;
    println!(rt; "open    family {name}, label {label}")?;
    feed_input(rt, &mut job)?;
    let length = job.length();
    println!(rt; "feed    {length} bytes")?;
    Ok(job.close())
}
