ghost use Rattle.std.specs.Prelude.{◌≡◌};

use dav_text::{Blob, Path, Seen};

/// Who asks.
#[derive(Clone, Copy, Debug, PartialEq, Eq)]
pub enum Who {
    /// The commands of a user.
    Shell,
    /// What sends the queued files.
    Uploader,
}

/// What a desk is asked to do.
#[derive(Debug, Drop)]
pub enum Ask {
    /// Keep these bytes as the newest of this path, and send them.
    Store {
        /// The path of the file.
        path: Path,
        /// The bytes of the file.
        bytes: Blob,
    },
    /// Forget what is known of this path.
    Forget {
        /// The path.
        path: Path,
        /// Whether its locks are forgotten too.
        locks: bool,
        /// Whether all below the path is forgotten too.
        below: bool,
    },
    /// Give the next job.
    Take,
    /// Note how a job ended.
    Settle {
        /// The number of the job.
        job: u64,
        /// How it ended.
        done: Done,
    },
    /// Take no rest between attempts any more: the desk is about to end.
    Stop,
}

/// How a job ended.
#[derive(Debug, Drop)]
pub enum Done {
    /// The server took the bytes.
    Sent {
        /// What is known of the file on the server now. It isn't `Unknown`.
        seen: Seen,
    },
    /// The bytes have to be sent again.
    Again {
        /// How many seconds the server asked to wait.
        after: u64,
    },
    /// The server refused the bytes.
    Refused,
}

impl Ask {
    ghost use Rattle.dav_deeds.specs.Legal.{bytes_in};

    /// The bytes that it brings for a new body.
    pub fn bytes(&self) -> &[u8]
        ensures { result.now ≡ bytes_in self.now }
    {
        match self {
            Ask::Store { bytes, .. } => bytes.as_slice(),
            _ => b"",
        }
    }
}

impl Done {
    /// The same again.
    pub fn copy(&self) -> Done
        ensures { result ≡ self.now }
    {
        match self {
            Done::Sent { seen } => Done::Sent { seen: seen.copy() },
            Done::Again { after } => Done::Again { after: *after },
            Done::Refused => Done::Refused,
        }
    }
}
