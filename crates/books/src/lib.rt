// The books that an office and a cutting table keep of one list of one-time pads, and the law over them.
#![tactic(auto)]

mod fate;
mod listing;
mod office;
mod office_book;
mod opening;
mod pad;
mod refusals;
mod run;
mod table;
mod table_book;

pub use office_book::OfficeBook;
pub use opening::MOST_PADS;
pub use pad::Pad;
pub use refusals::{CheckError, FewPlaces, NoneOut, PadCountError, TakeError, WrongPad};
pub use run::open_books;
pub use table_book::TableBook;
