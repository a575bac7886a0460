ghost use Rattle.std.specs.Prelude.{◌≡◌};
ghost use Rattle.dav_deeds.specs.Answers.{job_of};

use dav_store::BodyId;
use dav_text::{Blob, Memory, Path, Seen};
use std::alloc::Global;

/// What a desk answers to a step that it made.
#[derive(Debug, Drop)]
pub enum Answer {
    /// The bytes are queued as this body.
    Closed(BodyId),
    /// What was asked to be forgotten is forgotten.
    Forgot,
    /// The next job.
    Took(Job),
    /// There is nothing to take, or a job is in flight.
    Idle,
    /// What became of the bytes of the job.
    Settled(Fated),
    /// No attempt waits any more.
    Stopping,
}

/// A file that is to be sent.
#[derive(Debug, Drop)]
pub struct Job {
    /// The number of the job.
    pub number: u64,
    /// Where the bytes go.
    pub path: Path,
    /// The body that is sent.
    pub body: BodyId,
    /// What was known of the file on the server when the job was taken.
    pub seen: Seen,
    /// The bytes of the body.
    pub bytes: Blob,
}

/// What became of the bytes of a job.
#[derive(Clone, Copy, Debug, PartialEq, Eq)]
pub enum Fated {
    /// They are queued no more.
    Clean,
    /// Newer bytes of the path are queued.
    Superseded,
    /// They stay queued.
    Waits {
        /// How often they were sent in vain.
        attempts: u32,
        /// From when on they may be sent again, in seconds.
        due: u64,
    },
    /// They are among the lost files.
    Lost {
        /// The number that they have there.
        number: u32,
    },
}

/// A job without its bytes.
#[derive(Debug, Drop)]
pub struct Flight {
    /// The number of the job.
    pub number: u64,
    /// Where the bytes go.
    pub path: Path,
    /// The body that is sent.
    pub body: BodyId,
    /// What was known of the file on the server when the job was taken.
    pub seen: Seen,
}

/// An answer without the bytes of a body.
#[derive(Debug, Drop)]
pub enum Told {
    /// The bytes are queued as this body.
    Closed(BodyId),
    /// What was asked to be forgotten is forgotten.
    Forgot,
    /// The next job.
    Took(Flight),
    /// There is nothing to take, or a job is in flight.
    Idle,
    /// What became of the bytes of the job.
    Settled(Fated),
    /// No attempt waits any more.
    Stopping,
}

impl Flight {
    ghost use Rattle.std.specs.Prelude.{◌≡◌, IfOk};

    /// Another value of the same job.
    pub fn copy(&self, alloc: Global) -> Result<Flight, Memory>
        ensures { IfOk result (λ flight. flight ≡ self.now) }
    {
        let path = self.path.copy(alloc)?;
        Ok(Flight {
            number: self.number,
            path,
            body: self.body,
            seen: self.seen.copy(),
        })
    }
}

impl Answer {
    ghost use Rattle.std.specs.Prelude.{◌≡◌};
    ghost use Rattle.dav_deeds.specs.Answers.{fate_in, job_in};

    /// The job that it gives.
    pub fn job(self) -> Option<Job>
        ensures { result ≡ job_in self }
    {
        match self {
            Answer::Took(job) => Some(job),
            _ => None,
        }
    }

    /// What it says became of a job.
    pub fn fate(&self) -> Option<Fated>
        ensures { result ≡ fate_in self.now }
    {
        match self {
            Answer::Settled(fated) => Some(*fated),
            _ => None,
        }
    }
}

impl Told {
    ghost use Rattle.std.specs.Prelude.{◌≡◌, IfOk};
    ghost use Rattle.dav_deeds.specs.Answers.{answer_of, body_wanted, is_end as is_end_lem, kind_of};

    /// Whether this is told of the end of a job.
    pub fn is_end(&self) -> bool
        ensures { result ≡ is_end_lem (kind_of self.now) }
    {
        match self {
            Told::Settled(_) => true,
            _ => false,
        }
    }

    /// The body whose bytes belong to the answer.
    pub fn body(&self) -> Option<BodyId>
        ensures { result ≡ body_wanted self.now }
    {
        match self {
            Told::Took(flight) => Some(flight.body),
            _ => None,
        }
    }

    /// The answer, where these are the bytes of the body that it names.
    pub fn with_bytes(self, bytes: Blob) -> Answer
        ensures { result ≡ answer_of self bytes }
    {
        match self {
            Told::Closed(body) => Answer::Closed(body),
            Told::Forgot => Answer::Forgot,
            Told::Took(flight) => Answer::Took(job_with(flight, bytes)),
            Told::Idle => Answer::Idle,
            Told::Settled(fated) => Answer::Settled(fated),
            Told::Stopping => Answer::Stopping,
        }
    }

    /// Another value of the same answer.
    pub fn copy(&self, alloc: Global) -> Result<Told, Memory>
        ensures { IfOk result (λ told. told ≡ self.now) }
    {
        match self {
            Told::Closed(body) => Ok(Told::Closed(*body)),
            Told::Forgot => Ok(Told::Forgot),
            Told::Took(flight) => {
                let flight = flight.copy(alloc)?;
                Ok(Told::Took(flight))
            }
            Told::Idle => Ok(Told::Idle),
            Told::Settled(fated) => Ok(Told::Settled(*fated)),
            Told::Stopping => Ok(Told::Stopping),
        }
    }
}

// The job with its bytes.
fn job_with(flight: Flight, bytes: Blob) -> Job
    ensures { result ≡ job_of flight bytes }
{
    let Flight {
        number,
        path,
        body,
        seen,
    } = flight;
    Job {
        number,
        path,
        body,
        seen,
        bytes,
    }
}
