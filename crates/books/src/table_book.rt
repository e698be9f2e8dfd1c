// What the table book holds.
use pads::PadSource;

// The cutting table's record of which numbers it accepted.
#[derive(Drop)]
pub struct TableBook<S: PadSource> {
    pub(crate) source: S,
    // The lowest number that may still be accepted.
    pub(crate) floor: u64,
}
