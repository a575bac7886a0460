//! A disk of numbered files: what its calls do, and what a stop may leave of it at each moment.
#![tactic(auto)]

mod call;
mod calls;
mod change;
mod disk;
mod image;
mod laws;
mod mem_disk;
mod modelled;
mod note;
mod record;
mod start;

pub use call::Call;
pub use calls::Calls;
pub use change::Change;
pub use dav_edge::Failed;
pub use disk::Disk;
pub use laws::{
    cut_is_taken, fresh_is_honest, read_is_compared, size_is_compared, sync_is_taken,
    write_is_taken,
};
pub use mem_disk::MemDisk;
pub use modelled::Modelled;
pub use note::Note;
pub use record::Record;
pub use start::Start;
