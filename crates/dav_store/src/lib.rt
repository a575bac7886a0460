//! What the cache keeps on its disk: an index of rows, and bodies.
#![tactic(auto)]

mod bodies;
mod body_id;
mod fault;
mod gate;
mod head;
mod journal;
mod laws;
mod reading;
mod row;
mod starting;

pub use bodies::Bodies;
pub use body_id::BodyId;
pub use fault::StoreFault;
pub use head::head_payload;
pub use journal::Journal;
pub use laws::{body_stays, index_stays, one_reading};
