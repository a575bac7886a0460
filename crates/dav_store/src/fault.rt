ghost use Rattle.std.specs.Prelude.{◌≡◌};
ghost use Rattle.dav_store.specs.declared.fault.StoreFault.TheVariants.{Memory as MemoryFault, Disk as DiskFault};

use dav_disk::Failed;
use dav_text::Memory;
use std::alloc::{AllocError, AllocFailed};

/// Why a call on the index or the bodies gave up.
#[derive(Clone, Copy, Debug, PartialEq, Eq)]
pub enum StoreFault {
    /// A call of the disk failed.
    Disk,
    /// The index is none, from this offset of its file on.
    NotACache {
        at: u64,
    },
    /// A body's bytes do not have the stored SHA-256, but another.
    Damaged {
        file: u32,
        stored: [u8; 32],
        found: [u8; 32],
    },
    /// There was no memory.
    Memory,
}

impl From<Failed> for StoreFault {
    ghost from_gives = { λ _ e. e ≡ DiskFault };

    fn from(_failed: Failed) -> StoreFault {
        StoreFault::Disk
    }
}

impl From<Memory> for StoreFault {
    ghost from_gives = { λ _ e. e ≡ MemoryFault };

    fn from(_memory: Memory) -> StoreFault {
        StoreFault::Memory
    }
}

impl From<AllocError> for StoreFault {
    ghost from_gives = { λ _ e. e ≡ MemoryFault };

    fn from(_error: AllocError) -> StoreFault {
        StoreFault::Memory
    }
}

impl<T: Drop> From<AllocFailed<T>> for StoreFault {
    ghost from_gives = { λ _ e. e ≡ MemoryFault };

    fn from(_failed: AllocFailed<T>) -> StoreFault {
        StoreFault::Memory
    }
}
