//! The exchange that sends a file: one request with its precondition, and what its reply tells. Over a desk on a disk,
//! turns that take a job, send its file and settle it, and the drain that sends each file once. Beside them the laws that
//! bytes closed on a desk are on its disk, or were sent whole.
#![tactic(auto)]

mod came;
mod did;
mod drains;
mod ending;
mod exchange;
mod laws;
mod turns;

pub use came::Came;
pub use did::{Did, UploadFault};
pub use drains::drain;
pub use ending::send_job;
pub use exchange::upload;
pub use laws::{
    asks_back_their_steps, backs_join, drains_send_their_jobs, drains_take_once,
    last_bytes_are_kept_whole, last_bytes_outlive_a_stop, last_bytes_outlive_each_stop,
    shells_leave_no_job, turns_are_backed,
};
pub use turns::turn;
