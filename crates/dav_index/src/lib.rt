//! The records of the cache's index as text, both ways, and the table that they replay to.
#![tactic(auto)]

mod bounds;
mod entries;
mod entry;
mod fault;
mod flaw;
mod fresh;
mod laws;
mod lost;
mod read;
mod reader;
mod record;
mod room;
mod table;
mod write;

pub use entries::{Entries, Held};
pub use entry::{Entry, Waiting};
pub use fault::RecordFault;
pub use fresh::Prepared;
pub use laws::{fresh_is_within, one_text_one_record, records_are_not_refused, records_fit};
pub use lost::{LostItem, LostList};
pub use record::Record;
pub use table::Table;
