// What a line answers.
ghost use Rattle.std.specs.Prelude.{◌∷◌};
ghost use Rattle.line.specs.Bytes.{bytes_of};
ghost use Rattle.line.specs.Numbers.{answer_bytes};
ghost use Rattle.line.specs.Encodings.{Encodes};

use crate::refusal::Refusal;

// The bytes of the longest answer.
const LONGEST: usize = 13;

#[derive(Clone, Copy, PartialEq, Eq, Debug)]
pub enum Answer {
    Sealed { number: u32, tag: u64 },
    Struck { number: u32 },
    // A check was granted.
    Accepted { number: u32 },
    // The command at this place of the line was refused.
    Refused { refusal: Refusal, place: u32 },
}

// The bytes of an answer: the first `count` of these, and zeros behind them.
#[derive(Clone, Copy, PartialEq, Eq, Debug)]
pub struct AnswerBytes {
    pub bytes: [u8; LONGEST],
    pub count: usize,
}

// A byte that says what was granted, and a number.
fn granted(byte: u8, number: u32) -> AnswerBytes
    ensures { Encodes (byte ∷ bytes_of 4 number) result }
{
    let [a, b, c, d] = number.to_le_bytes();
    AnswerBytes {
        bytes: [byte, a, b, c, d, 0, 0, 0, 0, 0, 0, 0, 0],
        count: 5,
    }
}

fn sealed(number: u32, tag: u64) -> AnswerBytes
    ensures { Encodes (answer_bytes (Answer.Sealed number tag)) result }
{
    let [a, b, c, d] = number.to_le_bytes();
    let [s, t, u, v, w, x, y, z] = tag.to_le_bytes();
    AnswerBytes {
        bytes: [0x53, a, b, c, d, s, t, u, v, w, x, y, z],
        count: 13,
    }
}

fn refused(refusal: Refusal, place: u32) -> AnswerBytes
    ensures { Encodes (answer_bytes (Answer.Refused refusal place)) result }
{
    let (layer, number) = refusal.code();
    let [a, b, c, d] = place.to_le_bytes();
    AnswerBytes {
        bytes: [0x52, layer, number, a, b, c, d, 0, 0, 0, 0, 0, 0],
        count: 7,
    }
}

impl Answer {
    pub fn encode(self) -> AnswerBytes
        ensures { Encodes (answer_bytes self) result }
    {
        match self {
            Answer::Sealed { number, tag } => sealed(number, tag),
            Answer::Struck { number } => granted(0x58, number),
            Answer::Accepted { number } => granted(0x59, number),
            Answer::Refused { refusal, place } => refused(refusal, place),
        }
    }
}
