// loftmark FAMILY LABEL: marks the document on standard input under the key card in card.bin, and prints each step.
#![tactic(auto)]

mod fault;
mod input;
mod order;

use families::{Family, FamilyName, Mmh, MmhStar, Nh, Nhs};
use fault::Fault;
use input::{mark_input, read_card_file};
use order::read_order;
use std::process::ExitCode;

fn mark<F: Family>(rt: &HostRuntime, name: FamilyName, label: u32) -> Result<(), Fault> {
    let card = read_card_file(rt)?;
    println!(rt; "card    164 words read from card.bin")?;
    let closed = mark_input::<F>(rt, name, &card, label)?;
    let root = closed.root_tag();
    println!(rt; "close   root tag {root} = {root:#018x}")?;
    Ok(())
}

fn run(rt: &HostRuntime) -> Result<(), Fault> {
    let (name, label) = read_order(rt)?;
    // A family is a type, and no closure is generic: the four are named here.
    match name {
        FamilyName::Nh => mark::<Nh>(rt, name, label),
        FamilyName::Nhs => mark::<Nhs>(rt, name, label),
        FamilyName::MmhStar => mark::<MmhStar>(rt, name, label),
        FamilyName::Mmh => mark::<Mmh>(rt, name, label),
    }
}

// As loftline's: there is no crate for what programs share.
fn main(rt: HostRuntime) -> ExitCode {
    if let Err(fault) = run(&rt) {
        let _ = eprintln!(rt; "loftmark: {fault}");
        return ExitCode::FAILURE;
    }
    ExitCode::SUCCESS
}
