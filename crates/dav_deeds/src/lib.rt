//! The deeds of a desk: what it is asked, what each ask comes to in its table, and what became of
//! the bytes that were closed last of each path.
#![tactic(auto)]

mod answer;
mod ask;
mod bare;
mod deed;
mod desk_table;
mod fates;
mod fault;
mod laws;
mod made;
mod pause;
mod plan;
mod queries;
mod refusals;
mod spare;

pub use answer::{Answer, Fated, Flight, Job, Told};
pub use ask::{Ask, Done, Who};
pub use deed::{Deed, Mark, Step, Trace};
pub use desk_table::DeskTable;
pub use fault::DeskFault;
pub use laws::{
    deeds_keep_bounds, deeds_name_one_body, ends_have_room, last_bytes_are_kept,
    records_are_enough, records_are_written, released_files_are_free, starts_keep_bodies,
};
pub use made::Made;
pub use plan::{Change, Planned};
pub use spare::{Spare, kept_spare};
