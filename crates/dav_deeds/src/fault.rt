ghost use Rattle.std.specs.Prelude.{◌≡◌, IfOk};

use dav_text::{Memory, Path, Text, Which};
use std::alloc::Global;
use std::error::Error;
use std::fmt;

/// Why a desk did not start or did not make a step.
#[derive(Debug, Drop)]
pub enum DeskFault {
    /// The disk failed. The desk does nothing any more.
    Disk,
    /// The index is none: a row of it is none, or goes beyond the bounds.
    NotACache {
        /// Where in the index the row begins, in bytes.
        at: u64,
    },
    /// The bytes of a body aren't those that were stored. The desk does nothing any more.
    Damaged {
        /// The file of the body.
        file: u32,
        /// The SHA-256 of the bytes that were stored.
        stored: [u8; 32],
        /// The SHA-256 of the bytes that were found.
        found: [u8; 32],
    },
    /// The cache is one of another server.
    OtherServer {
        /// The URL whose files the cache keeps.
        kept: Text,
        /// The URL that was asked for.
        asked: Text,
    },
    /// Bytes of this path are queued.
    Queued {
        /// The path.
        path: Path,
    },
    /// No job with this number is in flight.
    NoSuchJob {
        /// The number that was asked for.
        number: u64,
    },
    /// No more paths can be known.
    Crowded {
        /// The known path that may be forgotten and was written longest ago.
        oldest: Path,
    },
    /// A limit is reached.
    Limit {
        /// The limit.
        which: Which,
    },
    /// Want of memory.
    Memory,
}

impl DeskFault {
    /// Another value of the same fault.
    pub fn copy(&self, alloc: Global) -> Result<DeskFault, Memory>
        ensures { IfOk result (λ fault. fault ≡ self.now) }
    {
        match self {
            DeskFault::Disk => Ok(DeskFault::Disk),
            DeskFault::NotACache { at } => Ok(DeskFault::NotACache { at: *at }),
            DeskFault::Damaged {
                file,
                stored,
                found,
            } => Ok(DeskFault::Damaged {
                file: *file,
                stored: *stored,
                found: *found,
            }),
            DeskFault::OtherServer { kept, asked } => {
                let kept = kept.copy(alloc)?;
                let asked = asked.copy(alloc)?;
                Ok(DeskFault::OtherServer { kept, asked })
            }
            DeskFault::Queued { path } => {
                let path = path.copy(alloc)?;
                Ok(DeskFault::Queued { path })
            }
            DeskFault::NoSuchJob { number } => Ok(DeskFault::NoSuchJob { number: *number }),
            DeskFault::Crowded { oldest } => {
                let oldest = oldest.copy(alloc)?;
                Ok(DeskFault::Crowded { oldest })
            }
            DeskFault::Limit { which } => Ok(DeskFault::Limit { which: *which }),
            DeskFault::Memory => Ok(DeskFault::Memory),
        }
    }
}

impl fmt::Display for DeskFault {
    fn fmt<W: fmt::Write>(&self, f: &mut fmt::Formatter<W>) -> fmt::Result {
        match self {
            DeskFault::Disk => write!(f, "the disk failed"),
            DeskFault::NotACache { at } => write!(f, "no index of a cache from byte {at} on"),
            DeskFault::Damaged { file, .. } => write!(f, "the body in file {file} is damaged"),
            DeskFault::OtherServer { .. } => write!(f, "the cache is one of another server"),
            DeskFault::Queued { .. } => write!(f, "the path is queued"),
            DeskFault::NoSuchJob { number } => write!(f, "no job {number} is in flight"),
            DeskFault::Crowded { .. } => write!(f, "no more paths can be known"),
            DeskFault::Limit { which } => write!(f, "the limit {which:?} is reached"),
            DeskFault::Memory => write!(f, "out of memory"),
        }
    }
}

impl Error for DeskFault {}

impl From<Memory> for DeskFault {
    ghost use Rattle.std.specs.Prelude.{◌≡◌};
    ghost use Rattle.dav_deeds.specs.declared.fault.DeskFault.TheVariants as faults;

    ghost from_gives = { λ _ e. e ≡ faults.Memory };

    fn from(_memory: Memory) -> DeskFault {
        DeskFault::Memory
    }
}
