ghost use Rattle.std.specs.Prelude.{◌≡◌};
ghost use Rattle.dav_deeds.specs.Change.{job_with as job_with_lem, jobs_with as jobs_with_lem};

use crate::answer::Flight;
use crate::made::Made;
use dav_index::{Prepared, Record, Waiting};
use dav_text::Path;

/// A step that is planned: it is made but for its change of the table, which needs no memory any more.
#[derive(Drop)]
pub struct Planned {
    /// The step, and what has to be done for it.
    pub made: Made,
    /// What it changes in the table.
    pub change: Change,
}

/// What a step changes in the table of a desk.
#[derive(Drop)]
pub struct Change {
    pub(crate) noting: Option<Noting>,
    pub(crate) waits: Option<Waits>,
    pub(crate) job: NextJob,
    pub(crate) stopping: bool,
}

impl Change {
    /// Nothing but whether the desk is about to end.
    pub(crate) fn only_stopping(stopping: bool) -> Change
        ensures { result ≡ record { noting = None; waits = None; job = NextJob.Same; stopping = stopping } }
    {
        Change {
            noting: None,
            waits: None,
            job: NextJob::Same,
            stopping,
        }
    }
}

/// A record that is noted, its number, and the memory for that.
#[derive(Drop)]
pub(crate) struct Noting {
    pub what: Record,
    pub row: u64,
    pub prepared: Prepared,
}

/// How the bytes of a path wait from then on.
#[derive(Drop)]
pub(crate) struct Waits {
    pub path: Path,
    pub waiting: Waiting,
}

/// The job in flight afterwards.
#[derive(Drop)]
pub(crate) enum NextJob {
    /// The same, if there is one.
    Same,
    /// This one.
    Taken(Flight),
    /// None.
    Ended,
}

/// The number of jobs so far.
pub(crate) fn jobs_with(jobs: u64, next: &NextJob) -> u64
    ensures { result ≡ jobs_with_lem jobs next.now }
{
    match next {
        NextJob::Same => jobs,
        NextJob::Taken(flight) => flight.number,
        NextJob::Ended => jobs,
    }
}

/// The job in flight afterwards.
pub(crate) fn job_with(job: Option<Flight>, next: NextJob) -> Option<Flight>
    ensures { result ≡ job_with_lem job next }
{
    match next {
        NextJob::Same => job,
        NextJob::Taken(flight) => Some(flight),
        NextJob::Ended => None,
    }
}
