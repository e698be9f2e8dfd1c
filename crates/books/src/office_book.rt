// What the office book holds.
use crate::fate::Fate;
use crate::opening::MOST_PADS;
use pads::PadSource;

// The office's record of which pads were used.
#[derive(Drop)]
pub struct OfficeBook<S: PadSource> {
    pub(crate) source: S,
    pub(crate) next: u32,
    // The number whose pad is out.
    pub(crate) out: Option<u32>,
    pub(crate) fates: [Fate; MOST_PADS],
}
