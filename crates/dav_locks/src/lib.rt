//! Locks that are held: where they reach, which of them a request submits, and how it names them.
#![tactic(auto)]

mod conditions;
mod fault;
mod laws;
mod list;
mod lock;
mod places;
mod reach;
mod request;
mod store;
mod submitted;
mod timeout;
mod token;

pub use conditions::if_text;
pub use fault::LockFault;
pub use laws::{held_once, one_reading, submitted_by_cases};
pub use list::Locks;
pub use lock::Lock;
pub use reach::{Depth, Use};
pub use request::submits;
pub use store::LockStore;
pub use submitted::Submits;
pub use timeout::timeout_of;
pub use token::{Token, is_token};
