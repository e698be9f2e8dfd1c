// Answers as they are written into the buffer.
ghost use Rattle.std.specs.Prelude.{◌≡◌, ◌+◌, ◌≤◌, length};
ghost use Rattle.line.specs.Buffers.{put, answers_bytes};
ghost use Rattle.line.specs.Numbers.{answer_bytes};
ghost use Rattle.line.specs.Outputs.{Writes};
ghost use Rattle.line.specs.Sessions.{replies};
ghost use Rattle.std.specs.Option.{option_to_list};

use crate::answer::Answer;
use crate::refusal::Refusal;

// The buffer of the answers, and how many bytes of it are used.
#[derive(Drop)]
pub(crate) struct Output<'a> {
    pub(crate) answers: &'a mut [u8],
    pub(crate) used: usize,
}

// The answer to what stands at `place`, if it has one.
fn reply(place: u32, res: Result<Option<Answer>, Refusal>) -> Option<Answer>
    ensures { option_to_list result ≡ replies place res }
{
    res.unwrap_or_else(|refusal| Some(Answer::Refused { refusal, place }))
}

impl Output<'_> {
    // Writes an answer behind those that are there.
    #[inline]
    fn write(&mut self, answer: Answer)
        requires { self.old.used + length (answer_bytes answer) ≤ length self.old.answers.now }
        ensures { Writes (answer_bytes answer) self.old self.new }
    {
        let encoding = answer.encode();
        let end = self.used + encoding.count;
        self.answers[self.used..end].copy_from_slice(&encoding.bytes[0..encoding.count]);
        self.used = end;
    }

    // Writes the answer to what stands at `place`, if it has one.
    #[inline]
    pub(crate) fn respond(&mut self, place: u32, res: Result<Option<Answer>, Refusal>)
        requires { self.old.used + length (answers_bytes (replies place res)) ≤ length self.old.answers.now }
        ensures { Writes (answers_bytes (replies place res)) self.old self.new }
    {
        if let Some(answer) = reply(place, res) {
            self.write(answer);
        }
    }
}
