ghost use Rattle.std.specs.Prelude.{◌≡◌};
ghost use Rattle.dav_run.specs.Causes.{cause_of};

use dav_deeds::DeskFault;
use dav_text::{Path, Which};

/// What a fault of the desk means to the program.
#[derive(Debug, Drop)]
pub enum Cause {
    /// No more paths can be known, and this one was written longest ago.
    Crowded(Path),
    /// A limit is reached.
    Limit(Which),
    /// Want of memory.
    Memory,
    /// The disk failed.
    Disk,
    /// There is no cache for this run.
    Cache(DeskFault),
}

/// What the fault means.
pub fn cause_of(fault: DeskFault) -> Cause
    ensures { result ≡ cause_of fault }
{
    match fault {
        DeskFault::Crowded { oldest } => Cause::Crowded(oldest),
        DeskFault::Limit { which } => Cause::Limit(which),
        DeskFault::Memory => Cause::Memory,
        DeskFault::Disk => Cause::Disk,
        DeskFault::NotACache { at } => Cause::Cache(DeskFault::NotACache { at }),
        DeskFault::Damaged {
            file,
            stored,
            found,
        } => Cause::Cache(DeskFault::Damaged {
            file,
            stored,
            found,
        }),
        DeskFault::OtherServer { kept, asked } => {
            Cause::Cache(DeskFault::OtherServer { kept, asked })
        }
        DeskFault::Queued { path } => Cause::Cache(DeskFault::Queued { path }),
        DeskFault::NoSuchJob { number } => Cause::Cache(DeskFault::NoSuchJob { number }),
    }
}
