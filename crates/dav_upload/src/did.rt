use dav_deeds::{DeskFault, Fated};
use std::error::Error;
use std::fmt;

/// What a turn came to.
#[derive(Clone, Copy, Debug, PartialEq, Eq)]
pub enum Did {
    /// There was nothing to send.
    Nothing,
    /// A file was sent, and this became of its bytes.
    Settled(Fated),
}

/// Why a turn gave up.
#[derive(Debug, Drop)]
pub enum UploadFault {
    /// The desk is dead by this fault.
    Desk(DeskFault),
    /// Want of memory.
    Memory,
}

impl fmt::Display for UploadFault {
    fn fmt<W: fmt::Write>(&self, f: &mut fmt::Formatter<W>) -> fmt::Result {
        match self {
            UploadFault::Desk(fault) => write!(f, "{fault}"),
            UploadFault::Memory => write!(f, "out of memory"),
        }
    }
}

impl Error for UploadFault {}
