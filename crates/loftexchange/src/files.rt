// The files of the folder where the program is run.
ghost use Rattle.std.specs.Prelude.{◌≤◌, IfOk, vec_len};

use anyhow::{anyhow, ensure};
use books::MOST_PADS;
use families::Nh;
use jobs::{ClosedJob, OpenJob, read_card};
use pads::read_sheet;
use std::fs;

// The label of every job of this program.
const LABEL: u32 = 7;

// Loftmark reads its card with a fault of its own; there is no crate for what programs share.
pub fn read_card_file(rt: &HostRuntime) -> anyhow::Result<[u32; 164]> {
    let bytes = fs::read(rt, "card.bin")?;
    let card = read_card(bytes.as_slice()).map_err(|_| anyhow!("card.bin is not 656 bytes long"))?;
    println!(rt; "card    164 words read from card.bin")?;
    Ok(card)
}

// The pads of sheet.bin.
pub fn read_sheet_file(rt: &HostRuntime) -> anyhow::Result<Vec<u64>>
    ensures { IfOk result (λ pads. vec_len pads ≤ 256) }
{
    let bytes = fs::read(rt, "sheet.bin")?;
    let sheet = bytes.as_slice();
    let count = read_sheet(sheet, &mut []).map_err(|_| anyhow!(
        "sheet.bin is no whole number of pads"
    ))?;
    ensure!(count <= MOST_PADS, "sheet.bin has more than 256 pads");
    let mut pads = vec![in rt.alloc(); 0u64; count]?;
    let _ = read_sheet(sheet, pads.as_mut_slice());
    println!(rt; "sheet   {count} pads read from sheet.bin")?;
    Ok(pads)
}

// The closed job of a panel file.
pub fn close_job(rt: &HostRuntime, card: &[u32], path: &str) -> anyhow::Result<ClosedJob<Nh>> {
    let document = fs::read(rt, path)?;
    let mut job = OpenJob::<Nh>::open(card, LABEL).map_err(|_| anyhow!(
        "the card is not 164 words long"
    ))?;
    job.feed(document.as_slice())
        .map_err(|_| anyhow!("a panel file is longer than 8388608 bytes"))?;
    let closed = job.close();
    let length = closed.length();
    let root = closed.root_tag();
    println!(rt; "job     {path}: NH, label {LABEL}, {length} bytes, root tag {root:#018x}")?;
    Ok(closed)
}
