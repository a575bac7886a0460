//! What a request is told of its file, and what its reply tells: preconditions, entity tags, outcomes
//! and waiting times. No call takes memory.
#![tactic(auto)]

mod condition;
mod laws;
mod only;
mod outcome;
mod retry;
mod seen;

pub use condition::Precondition;
pub use laws::one_seen;
pub use outcome::{Outcome, outcome_of};
pub use retry::retry_after;
pub use seen::{precondition, seen_after};
