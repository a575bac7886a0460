//! Digest logins: what a challenge asks for, the answer to it, and the field that carries it.
#![tactic(auto)]

mod algorithm;
mod challenge;
mod choice;
mod clean;
mod digits;
mod fault;
mod field;
mod formulas;
mod hashes;
mod info;
mod kind;
mod laws;
mod piece;
mod place;
mod put;
mod reader;
mod secret;

pub use algorithm::{Algorithm, Qop};
pub use challenge::Challenge;
pub use digits::proved;
pub use fault::AuthFault;
pub use field::authorization;
pub use formulas::{answer, rspauth};
pub use info::rspauth_of;
pub use laws::{one_list, one_reading, quotes_undone, value_carries};
pub use secret::Secret;
