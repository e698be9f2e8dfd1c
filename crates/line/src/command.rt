// The commands of a line.
ghost use Rattle.std.specs.Prelude.{◌≡◌};
ghost use Rattle.line.specs.Commands.{order_of, width};

#[derive(Clone, Copy, PartialEq, Eq, Debug)]
pub enum Command<'a> {
    // Chooses a family by the number on the line: a number of no family is a command too, which the session refuses.
    Choose { family: u8 },
    // Opens a job.
    Open { label: u32 },
    // Feeds the open job a byte.
    Byte { byte: u8 },
    // Feeds it sixteen bytes, which lie in the line at this place.
    Block { bytes: &'a [u8], place: usize },
    // Closes the job, takes a pad and seals.
    Seal,
    // Takes a pad and strikes its number.
    Strike,
    // Closes the job and checks it.
    Check { number: u32, tag: u64 },
}

impl Command<'_> {
    // The command's bytes in the line.
    pub fn size(self) -> usize
        ensures { result ≡ width (order_of self.entry) }
    {
        match self {
            Command::Choose { .. } => 2,
            Command::Open { .. } => 5,
            Command::Byte { .. } => 2,
            Command::Block { .. } => 17,
            Command::Seal => 1,
            Command::Strike => 1,
            Command::Check { .. } => 13,
        }
    }
}
