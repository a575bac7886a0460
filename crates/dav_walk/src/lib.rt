//! A walker over a DAV document that comes in pieces: it lends each response to a handler when its last byte has come, keeps one
//! response at most, and says what a response tells without memory. RFC 4918 section 14.24.
#![tactic(auto)]

mod code;
mod collector;
mod fault;
mod found;
mod gathered;
mod handler;
mod laws;
mod node;
mod opened;
mod props;
mod reading;
mod root;
mod walker;

pub use fault::WalkFault;
pub use found::Found;
pub use handler::{Handler, Next};
pub use laws::{
    all_given, large_responses, lent_are_first, lent_end_in_the_text, lent_fit, other_roots,
    unfit_responses, walked_are_responses,
};
pub use node::{Node, Span};
pub use props::{Prop, Props};
pub use root::Root;
pub use walker::{Walk, Walker};
