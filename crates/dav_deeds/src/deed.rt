use crate::answer::Told;
use crate::ask::{Done, Who};
use crate::fault::DeskFault;
use dav_store::BodyId;
use dav_text::Path;

/// What was asked, with a body in place of its bytes.
#[derive(Debug, Drop)]
pub enum Deed {
    /// Bytes were to be kept.
    Store {
        /// The path of the file.
        path: Path,
        /// How many bytes there were.
        len: u64,
        /// The body that they became. There is none exactly where the store was refused.
        body: Option<BodyId>,
    },
    /// A path was to be forgotten.
    Forget {
        /// The path.
        path: Path,
        /// Whether its locks were to be forgotten too.
        locks: bool,
        /// Whether all below the path was to be forgotten too.
        below: bool,
    },
    /// The next job was asked for.
    Take,
    /// A job ended.
    Settle {
        /// The number of the job.
        job: u64,
        /// How it ended.
        done: Done,
    },
    /// The desk is about to end.
    Stop,
}

impl Deed {
    ghost use Rattle.std.specs.Prelude.{◌≡◌};
    ghost use Rattle.dav_deeds.specs.Legal.{new_body};

    /// The new body that it names.
    pub fn body(&self) -> Option<BodyId>
        ensures { result ≡ new_body self.now }
    {
        match self {
            Deed::Store { body, .. } => *body,
            _ => None,
        }
    }
}

/// What a deed came to.
#[derive(Debug, Drop)]
pub enum Mark {
    /// It was done.
    Plain,
    /// The bytes became this body.
    Body(BodyId),
    /// The job with this number was given.
    Job(u64),
    /// The bytes of the job were lost under this number.
    LostAs(u32),
    /// It was refused, and changed nothing.
    Refused(DeskFault),
}

/// One deed of a desk and what it came to.
#[derive(Debug, Drop)]
pub struct Step {
    /// Who asked.
    pub who: Who,
    /// When it was asked, in seconds.
    pub now: u64,
    /// What was asked.
    pub deed: Deed,
    /// What it came to.
    pub mark: Mark,
    /// What was answered. There is nothing where it was refused.
    pub told: Option<Told>,
    /// How many calls the disk had been asked when the step ended.
    pub moment: u64,
}

/// The steps of a desk, in their order.
#[derive(Debug, Drop)]
pub struct Trace {
    /// The steps.
    pub steps: Vec<Step>,
}
