//! Bases, references and redirects: what a URL stands for on one server.
#![tactic(auto)]

mod base;
mod fault;
mod redirect;
mod target;

pub use base::Base;
pub use fault::UriFault;
pub use redirect::Follow;
pub use target::{Target, resolve};
