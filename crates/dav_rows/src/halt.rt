use dav_edge::Failed;
use dav_script::RowFault;
use dav_text::Memory;
use std::alloc::{AllocError, AllocFailed, Global};

/// Why a row is not carried out further.
#[derive(Debug, Drop)]
pub enum Halt {
    /// Something is not as it is to be.
    Differs(String),
    /// The row is none, or there was no memory.
    Fault(RowFault),
}

impl From<RowFault> for Halt {
    fn from(fault: RowFault) -> Halt {
        Halt::Fault(fault)
    }
}

impl From<AllocError> for Halt {
    fn from(_: AllocError) -> Halt {
        Halt::Fault(RowFault::Memory)
    }
}

impl<T: Drop> From<AllocFailed<T>> for Halt {
    fn from(_: AllocFailed<T>) -> Halt {
        Halt::Fault(RowFault::Memory)
    }
}

impl From<Memory> for Halt {
    fn from(_: Memory) -> Halt {
        Halt::Fault(RowFault::Memory)
    }
}

// A device in memory of which no call is to fail fails for want of memory alone.
impl From<Failed> for Halt {
    fn from(_: Failed) -> Halt {
        Halt::Fault(RowFault::Memory)
    }
}

/// Ok where this is so; else what differs.
pub fn ensure(alloc: Global, holds: bool, what: &str) -> Result<(), Halt> {
    if holds {
        return Ok(());
    }
    Err(Halt::Differs(String::from_str(alloc, what)?))
}

/// The same, where something differs with its place.
pub fn within(alloc: Global, place: &str, came: Result<(), Halt>) -> Result<(), Halt> {
    match came {
        Err(Halt::Differs(what)) => {
            let text = format!(in alloc; "{place}: {what}")?;
            Err(Halt::Differs(text))
        }
        other => other,
    }
}
