use std::alloc::{AllocError, AllocFailed, Global};
use std::fmt;

/// Why a text is no row. Lines are counted from 1.
#[derive(Clone, Copy, Debug, PartialEq, Eq)]
pub enum RowFault {
    /// A backslash begins none of the escapes.
    BadEscape {
        /// The line.
        line: u32,
    },
    /// A line of a block has no entry before it.
    NoEntry {
        /// The line.
        line: u32,
    },
    /// A word that is unknown here, or stands in the wrong place.
    BadWord {
        /// The line.
        line: u32,
    },
    /// What stands behind the word is not what it takes.
    BadValue {
        /// The line.
        line: u32,
    },
    /// What a row has to expect is missing, from this line on.
    NoExpectation {
        /// The line.
        line: u32,
    },
    /// There was no memory.
    Memory,
}

impl fmt::Display for RowFault {
    fn fmt<W: fmt::Write>(&self, f: &mut fmt::Formatter<W>) -> fmt::Result {
        match self {
            RowFault::BadEscape { line } => write!(f, "line {line}: a bad escape"),
            RowFault::NoEntry { line } => write!(f, "line {line}: a block without an entry"),
            RowFault::BadWord { line } => write!(f, "line {line}: an unknown word"),
            RowFault::BadValue { line } => write!(f, "line {line}: a bad value"),
            RowFault::NoExpectation { line } => write!(f, "line {line}: without an expectation"),
            RowFault::Memory => write!(f, "no memory"),
        }
    }
}

impl From<AllocError> for RowFault {
    fn from(_: AllocError) -> RowFault {
        RowFault::Memory
    }
}

impl<T: Drop> From<AllocFailed<T>> for RowFault {
    fn from(_: AllocFailed<T>) -> RowFault {
        RowFault::Memory
    }
}
