// The commands of a line, one behind the other.
ghost use Rattle.std.specs.Prelude.{◌≡◌, ◌≤◌, length, IfOk};
ghost use Rattle.line.specs.Lines.{sized};
ghost use Rattle.std.specs.Result.{result_map_both};

use crate::command::Command;
use crate::reader::read_command;
use crate::refusal::LineFault;

// The most bytes of a line.
const MOST_BYTES: usize = 4096;

// The most bytes that a byte of the line may answer.
const MOST_ANSWERED: usize = 13;

// Room for the answers of the longest line.
pub const ANSWERS_ROOM: usize = MOST_ANSWERED * MOST_BYTES;

// What is left of a line: each command, with its place. A fault is the last.
#[derive(Drop)]
pub(crate) struct Commands<'a> {
    line: &'a [u8],
    at: usize,
    ghost short: { length line.now ≤ 4096 },
    ghost inside: { at ≤ length line.now },
}

impl<'a> Commands<'a> {
    ghost use Rattle.line.specs.Steps.{IsStartOf};

    // The commands of a line, if there are `room` bytes for what they may answer.
    pub(crate) fn new(line: &'a [u8], room: usize) -> Result<Commands<'a>, LineFault>
        ensures sizes { result_map_both (λ _. tt) (λ e. e) result ≡ sized (length line.now) room }
        ensures start { IfOk result (IsStartOf line.now room) }
    {
        if line.len() > MOST_BYTES {
            return Err(LineFault::LongLine);
        }
        if room < MOST_ANSWERED * line.len() {
            return Err(LineFault::ShortBuffer);
        }
        Ok(Commands { line, at: 0 })
    }

    // The place behind the whole line.
    pub(crate) fn end(&self) -> u32
        ensures { result ≡ length self.now.line.now }
    {
        self.line.len() as u32
    }
}

impl<'a> Iterator for Commands<'a> {
    ghost use Rattle.std.specs.Prelude.{◌-◌, length};
    ghost use Rattle.std.specs.Iterator.{at_most};
    ghost use Rattle.line.specs.Steps.{Steps};

    type Item = (u32, Result<Command<'a>, LineFault>);

    ghost next_gives = { Steps };

    ghost remaining = { λ c. at_most (length c.line.now - c.at) };

    #[inline]
    fn next(&mut self) -> Option<(u32, Result<Command<'a>, LineFault>)> {
        if self.at == self.line.len() {
            return None;
        }
        let place = self.at;
        let read = read_command(self.line, place);
        // A fault is the last.
        self.at = match read {
            Ok(command) => place + command.size(),
            Err(_) => self.line.len(),
        };
        Some((place as u32, read))
    }
}
