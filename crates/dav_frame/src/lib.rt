//! The text of an HTTP/1.1 request, and a reader of one reply that comes in pieces.
#![tactic(auto)]

mod body;
mod chunk;
mod fault;
mod fields;
mod head;
mod laws;
mod phase;
mod put;
mod reader;
mod request;

pub use dav_head::BODY_LIMIT;
pub use dav_text::Method;
pub use fault::FrameFault;
pub use fields::{FieldName, Fields, is_clean};
pub use laws::{one_outcome, pieces_join, place_of_bad_chunk, place_of_no_reply};
pub use reader::{Progress, Reply, ReplyReader};
pub use request::{Req, idempotent, write_request};
