use crate::memory::Memory;
use std::error::Error;
use std::fmt;

/// Why a text is no path.
#[derive(Clone, Copy, Debug, PartialEq, Eq)]
pub enum PathFault {
    /// It does not begin with a slash.
    NotRooted,
    /// The place of a `%` without two hexadecimal digits behind it.
    BadEscape { at: usize },
    /// Where the first segment begins that decodes to no UTF-8.
    NotText { at: usize },
    /// The escaped text has so many bytes, which are more than 1,024.
    TooLong { len: usize },
    /// Want of memory.
    Memory,
}

impl fmt::Display for PathFault {
    fn fmt<W: fmt::Write>(&self, f: &mut fmt::Formatter<W>) -> fmt::Result {
        match self {
            PathFault::NotRooted => f.write_str("a path begins with a slash"),
            PathFault::BadEscape { at } => write!(f, "a bad escape at byte {at}"),
            PathFault::NotText { at } => write!(f, "a segment that is no text at byte {at}"),
            PathFault::TooLong { len } => write!(f, "a path of {len} bytes is too long"),
            PathFault::Memory => f.write_str("out of memory"),
        }
    }
}

impl Error for PathFault {}

impl From<Memory> for PathFault {
    ghost use Rattle.std.specs.Prelude.{◌≡◌};
    ghost use Rattle.dav_text.specs.declared.fault.PathFault.TheVariants as fault;

    ghost from_gives = { λ _ e. e ≡ fault.Memory };

    fn from(_memory: Memory) -> PathFault {
        PathFault::Memory
    }
}
