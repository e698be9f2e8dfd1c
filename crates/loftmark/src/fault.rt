// Why nothing was marked.
use families::UnknownFamily;
use jobs::{CardError, TooLong};
use std::io;
use thiserror::Error;

#[derive(Clone, Copy, Debug, Drop, Error)]
pub enum Fault {
    #[error("usage: loftmark FAMILY LABEL, with the document on standard input")]
    Usage,
    #[error("no such family; the families are NH, NHS, MMH* (or MMHSTAR) and MMH")]
    UnknownFamily(#[from] UnknownFamily),
    #[error("the label is not a whole number from 0 to 4294967295")]
    BadLabel,
    #[error("cannot read card.bin in this folder")]
    NoCard,
    #[error("card.bin is not 656 bytes long")]
    CardSize(#[from] CardError),
    #[error("the document is longer than 8388608 bytes")]
    TooLong(#[from] TooLong),
    // Standard input or output failed, or memory ran out.
    #[error("cannot read standard input or write standard output")]
    Io(#[from] io::Error),
}
