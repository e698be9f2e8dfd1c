// One job from the office to the cutting table, and what the law says where another job is accepted in its place.
#![tactic(auto)]

mod laws;
mod one_job;
mod refusal;

pub use laws::run_exists;
pub use one_job::transfer;
pub use refusal::Refusal;

#[cfg(test)]
mod tests;
