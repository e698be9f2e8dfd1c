// Jobs: a document that comes in pieces, under a key card and a label, and the root tag that it has once it is closed.
#![tactic(auto)]

mod block;
mod card;
mod closed_job;
mod examples;
mod laws;
mod level;
mod open_job;
mod state;
mod stream;
mod tag;
mod waiting;

pub use card::{CardError, read_card};
pub use examples::worked_examples;
pub use laws::layout_laws;
pub use open_job::{LIMIT, TooLong};
pub use state::{ClosedJob, OpenJob};
pub use tag::split_tag;
