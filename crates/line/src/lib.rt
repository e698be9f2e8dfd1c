// The cutter line: commands in bytes, the session that obeys them, and the answers in bytes.
#![tactic(auto)]

mod answer;
mod begin;
mod choice;
mod command;
mod commands;
mod fault;
mod laws;
mod output;
mod reader;
mod refusal;
mod run;
mod serve;
mod session;

pub use answer::{Answer, AnswerBytes};
pub use command::Command;
pub use commands::ANSWERS_ROOM;
pub use laws::line_laws;
pub use reader::read_command;
pub use refusal::{BookFault, FamilyFault, LineFault, PadFault, Refusal, SessionFault};
pub use run::run_line;
