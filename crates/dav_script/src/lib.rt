//! Rows: texts that a person writes, each with what a call is given and what is to come of it; lists of rows; and what is
//! printed of each. `docs/ROWS.md` says how a row is written.
#![tactic(auto)]

mod compare;
mod entry;
mod escapes;
mod fault;
mod list;
mod play;

pub use compare::{difference, shown};
pub use entry::{Entry, entries_of};
pub use escapes::bytes_of;
pub use fault::RowFault;
pub use list::{List, Listed, Wanted, list_of};
pub use play::{Player, Row, play_all};
