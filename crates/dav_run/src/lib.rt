//! The run of the program: words, lines of input, what they ask of the desk and what they print, and the drain at the end.
#![tactic(auto)]

mod ask;
mod cause;
mod ended;
mod input;
mod last_line;
mod line;
mod pending;
mod shell;
mod stop;
mod whole;
mod words;

pub use ended::{Ended, Status};
pub use whole::run;
