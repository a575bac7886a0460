use dav_text::{Memory, Which};
use std::error::Error;
use std::fmt;

/// Why a walk ends. Every later call answers the same.
#[derive(Clone, Copy, Debug, PartialEq, Eq)]
pub enum WalkFault {
    /// No document goes on with the byte at this place. The first byte is at 0.
    Xml { at: u64 },
    /// The root is another element than the one that is expected.
    WrongRoot,
    /// The response before which so many came has no child `href`.
    NoHref { index: u64 },
    /// The response before which so many came has a `status` that is no status line, or a `propstat`
    /// without one.
    BadStatus { index: u64 },
    /// The text is over, and no whole document.
    Cut,
    /// A limit is passed: of the document, or 4,096 elements or 1,048,576 bytes of namespaces, names and
    /// texts in one response.
    Limit { which: Which },
    /// Want of memory.
    Memory,
}

impl fmt::Display for WalkFault {
    fn fmt<W: fmt::Write>(&self, f: &mut fmt::Formatter<W>) -> fmt::Result {
        match self {
            WalkFault::Xml { at } => write!(f, "no document has the byte at {at}"),
            WalkFault::WrongRoot => write!(f, "the root is another element"),
            WalkFault::NoHref { index } => write!(f, "response {index} has no href"),
            WalkFault::BadStatus { index } => write!(f, "response {index} has a bad status"),
            WalkFault::Cut => write!(f, "the document is cut off"),
            WalkFault::Limit { which } => write!(f, "the limit {which:?} is passed"),
            WalkFault::Memory => write!(f, "out of memory"),
        }
    }
}

impl Error for WalkFault {}

impl From<Memory> for WalkFault {
    ghost use Rattle.std.specs.Prelude.{◌≡◌};
    ghost use Rattle.dav_walk.specs.declared.fault.WalkFault.TheVariants as faults;

    ghost from_gives = { λ _ e. e ≡ faults.Memory };

    fn from(_memory: Memory) -> WalkFault {
        WalkFault::Memory
    }
}
