//! Judges of the bytes of a reply: its head, its fields, the kind of its body, the size line of a chunk and trailers.
#![tactic(auto)]

mod body;
mod codings;
mod elements;
mod fields;
mod head;
mod lengths;
mod limit;
mod line;
mod trailers;

pub use body::{BODY_LIMIT, Body, BodyFault, decide, is_interim, may_persist};
pub use codings::{Transfer, is_encoded, says_close, transfer_coding};
pub use fields::fields_of;
pub use head::{HeadState, judge_head};
pub use lengths::{Length, content_length};
pub use limit::{free_bytes, keep};
pub use line::{LineState, judge_line};
pub use trailers::{TrailersState, judge_trailers};
