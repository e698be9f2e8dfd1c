// What the office and the table do, a line for each step.
use anyhow::{anyhow, ensure};
use books::{CheckError, MOST_PADS, OfficeBook, Pad, TableBook};
use families::Nh;
use jobs::ClosedJob;
use pads::Sheet;

fn take(office: &mut OfficeBook<Sheet>) -> anyhow::Result<Pad> {
    office.take().map_err(|_| anyhow!("no pad to take"))
}

pub fn seal(
    rt: &HostRuntime,
    office: &mut OfficeBook<Sheet>,
    job: &ClosedJob<Nh>,
    name: &str,
) -> anyhow::Result<(u32, u64)> {
    let pad = take(office)?;
    let (number, tag) = office
        .seal(pad, job)
        .map_err(|_| anyhow!("the pad was refused"))?;
    println!(rt; "office  seals {name}: number {number}, tag {tag:#018x}")?;
    Ok((number, tag))
}

// The words are this program's; a Display would have to stand with the enum.
fn reason(error: CheckError) -> &'static str {
    match error {
        CheckError::Source(_) => "the sheet has no such number",
        CheckError::OldNumber => "the number is below the floor",
        CheckError::NotATag => "the number is no tag",
        CheckError::WrongTag => "the tag differs",
    }
}

// Granted or refused, a line is printed.
pub fn check(
    rt: &HostRuntime,
    table: &mut TableBook<Sheet>,
    job: &ClosedJob<Nh>,
    name: &str,
    number: u32,
    tag: u64,
) -> anyhow::Result<()> {
    match table.check(job, number, tag) {
        Ok(()) => println!(rt; "table   {name} under number {number}: accepted")?,
        Err(error) => {
            let why = reason(error);
            println!(rt; "table   {name} under number {number}: refused, {why}")?;
        }
    }
    Ok(())
}

pub fn strike(rt: &HostRuntime, office: &mut OfficeBook<Sheet>) -> anyhow::Result<()> {
    let pad = take(office)?;
    let number = pad.number();
    office
        .strike(pad)
        .map_err(|_| anyhow!("the pad was refused"))?;
    println!(rt; "office  takes the pad of number {number} and strikes it")?;
    Ok(())
}

// A pad goes to another book, which refuses it and uses it up; the office calls its number in.
pub fn lose(rt: &HostRuntime, office: &mut OfficeBook<Sheet>, sheet: Sheet) -> anyhow::Result<()> {
    let mut other = OfficeBook::open(sheet).map_err(|_| anyhow!(
        "the sheet does not have 1 to 256 pads"
    ))?;
    let pad = take(office)?;
    ensure!(other.strike(pad).is_err(), "another book took the pad");
    let number = office.call_in().map_err(|_| anyhow!("no pad was out"))?;
    println!(rt; "office  its pad of number {number} went to another book; calls it in")?;
    Ok(())
}

pub fn list(rt: &HostRuntime, office: &OfficeBook<Sheet>) -> anyhow::Result<()> {
    // The book writes its list into lent places, and counts it.
    let mut places = [0u32; MOST_PADS];
    let count = office
        .list_struck(&mut places)
        .map_err(|_| anyhow!("more than 256 struck numbers"))?;
    print!(rt; "office  struck numbers:")?;
    for number in places.iter().take(count) {
        print!(rt; " {number}")?;
    }
    println!(rt; "")?;
    Ok(())
}
