use dav_text::Memory;
use std::error::Error;
use std::fmt;

/// Why a lock was not taken.
#[derive(Clone, Copy, Debug, PartialEq, Eq)]
pub enum LockFault {
    /// There is no token, or it is not one that can be submitted.
    NoToken,
    /// No active lock has the token.
    NotActive,
    /// The active lock's timeout can't be read.
    BadTimeout,
    /// 256 locks of other tokens are held.
    Full,
    /// Want of memory.
    Memory,
}

impl fmt::Display for LockFault {
    fn fmt<W: fmt::Write>(&self, f: &mut fmt::Formatter<W>) -> fmt::Result {
        match self {
            LockFault::NoToken => f.write_str("no lock token"),
            LockFault::NotActive => f.write_str("no active lock has the token"),
            LockFault::BadTimeout => f.write_str("a timeout that can't be read"),
            LockFault::Full => f.write_str("too many locks are held"),
            LockFault::Memory => f.write_str("out of memory"),
        }
    }
}

impl Error for LockFault {}

impl From<Memory> for LockFault {
    ghost use Rattle.std.specs.Prelude.{◌≡◌};
    ghost use Rattle.dav_locks.specs.declared.fault.LockFault.TheVariants as fault;

    ghost from_gives = { λ _ e. e ≡ fault.Memory };

    fn from(_memory: Memory) -> LockFault {
        LockFault::Memory
    }
}
