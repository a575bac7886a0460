//! Bytes, text, paths, methods and numbers: the values that the other crates speak of.
#![tactic(auto)]

mod blanks;
mod blob;
mod digits;
mod escape;
mod fault;
mod laws;
mod memory;
mod method;
mod path;
mod reading;
mod sets;
mod tag;
mod text;
mod which;

pub use blanks::Blanks;
pub use blob::Blob;
pub use digits::{decimal, number_of};
pub use escape::{hex_u32, quote, xml_escape};
pub use fault::PathFault;
pub use laws::{read_is_path, reads_back, same_is_equivalence, typed_is_path, under_is_strict};
pub use memory::Memory;
pub use method::Method;
pub use path::Path;
pub use tag::{Etag, Seen, Tag};
pub use text::Text;
pub use which::Which;
