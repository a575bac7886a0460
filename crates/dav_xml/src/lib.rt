//! The scanner of DAV documents: pieces of bytes in, the events of the document out.
//!
//! Which texts are documents, what their events are, and the machine that reads one byte by byte stand in `dav_doc`; what each byte
//! does in a part of a document stands in `dav_markup`. Here the parts are joined: a scanner keeps a place in the document, the
//! open elements, and the limits. `Document` reads a text in one piece.
#![tactic(auto)]

mod ahead;
mod content;
mod document;
mod end_tag;
mod event;
mod fault;
mod laws;
mod limit;
mod markup;
mod position;
mod scan;
mod start_tag;
mod step;
mod turn;

pub use document::{Document, Node};
pub use event::Event;
pub use fault::XmlFault;
pub use laws::{bad_is_bad, documents_have_no_fault, nodes_tell_trees, read_goes_on, read_runs};
pub use scan::{Fed, Scan};
