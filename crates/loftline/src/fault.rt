// Why nothing was answered.
use std::io;
use thiserror::Error;

#[derive(Clone, Copy, Debug, Drop, Error)]
pub enum Fault {
    #[error("cannot read card.bin in this folder")]
    NoCard,
    #[error("cannot read sheet.bin in this folder")]
    NoSheet,
    // Standard input or output failed, or memory ran out.
    #[error("cannot read standard input or write standard output")]
    Io(#[from] io::Error),
}
