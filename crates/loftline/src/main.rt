// loftline: runs the line on standard input over the key card in card.bin and the pads in sheet.bin, and writes the
// answers.
#![tactic(auto)]

mod fault;
mod input;

use fault::Fault;
use input::{read_file, read_part};
use line::{ANSWERS_ROOM, Answer, run_line};
use std::io::Write;
use std::process::ExitCode;

fn run(rt: &HostRuntime) -> Result<(), Fault> {
    let card = read_file(rt, "card.bin").map_err(|_| Fault::NoCard)?;
    let sheet = read_file(rt, "sheet.bin").map_err(|_| Fault::NoSheet)?;
    let line = read_part(rt.stdin(), rt.alloc())?;
    let mut answers = [0u8; ANSWERS_ROOM];
    let result = run_line(
        card.as_slice(),
        sheet.as_slice(),
        line.as_slice(),
        &mut answers,
    );
    let mut output = rt.stdout();
    // Answered or refused, bytes are written; the answers lie in a lent buffer, which the line counts.
    match result {
        Ok(count) => output.write_all(&answers[0..count])?,
        Err(refusal) => {
            let encoding = Answer::Refused { refusal, place: 0 }.encode();
            output.write_all(&encoding.bytes[0..encoding.count])?
        }
    }
    Ok(())
}

// As loftmark's: there is no crate for what programs share.
fn main(rt: HostRuntime) -> ExitCode {
    if let Err(fault) = run(&rt) {
        let _ = eprintln!(rt; "loftline: {fault}");
        return ExitCode::FAILURE;
    }
    ExitCode::SUCCESS
}
