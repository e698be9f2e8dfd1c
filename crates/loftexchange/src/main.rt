// loftexchange: an office and a cutting table exchange the panel files of one folder, and each step is printed.
#![tactic(auto)]

mod files;
mod steps;

use anyhow::anyhow;
use books::open_books;
use files::{close_job, read_card_file, read_sheet_file};
use pads::Sheet;
use steps::{check, list, lose, seal, strike};

fn run(rt: &HostRuntime) -> anyhow::Result<()> {
    let card = read_card_file(rt)?;
    let pads = read_sheet_file(rt)?;
    let sheet = Sheet::new(pads.as_slice());
    let port = close_job(rt, &card, "port.panel")?;
    let swapped = close_job(rt, &card, "swapped.panel")?;
    let (mut office, mut table) = open_books(sheet, sheet).map_err(|_| anyhow!(
        "the sheet does not have 1 to 256 pads"
    ))?;
    let (number, tag) = seal(rt, &mut office, &port, "port.panel")?;
    check(rt, &mut table, &swapped, "swapped.panel", number, tag)?;
    check(rt, &mut table, &port, "port.panel", number, tag)?;
    check(rt, &mut table, &port, "port.panel", number, tag)?;
    strike(rt, &mut office)?;
    lose(rt, &mut office, sheet)?;
    list(rt, &office)
}

fn main(rt: HostRuntime) -> anyhow::Result<()> {
    run(&rt)
}
