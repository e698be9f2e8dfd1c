// Sources of one-time pads. A pad is a number below 2^64, and a source numbers its pads from 0.
#![tactic(auto)]

mod bytes;
mod sheet;
mod source;
mod split_sheet;

pub use bytes::{SheetError, read_sheet};
pub use sheet::Sheet;
pub use source::{NoSuchPad, PadSource};
pub use split_sheet::SplitSheet;
