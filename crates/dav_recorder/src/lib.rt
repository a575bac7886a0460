//! The disk of a desk: what a step changes is on the disk before it is answered, and a stop at any moment leaves the table from
//! before the step or from after it.
#![tactic(auto)]

mod commit;
mod laws;
mod opening;
mod reading;
mod recorder;

pub use laws::{last_bytes_survive, steps_are_planned, survives_from};
pub use recorder::Recorder;
