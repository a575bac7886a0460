//! The desk over a disk: what it is asked is done in its table and on the disk, or in neither.
#![tactic(auto)]

mod desk;
mod entry;
mod laws;

pub use desk::Desk;
pub use laws::kept_bodies_are_not_touched;
