use dav_store::BodyId;
use dav_text::{Path, Seen};

/// What a row of the index puts on record.
#[derive(Debug, Drop)]
pub enum Record {
    /// What was known of a file is forgotten.
    Forgot {
        /// The path that was named, with the slash that it was named with.
        path: Path,
        /// Whether its locks are forgotten too.
        locks: bool,
        /// Whether this holds for all that stands below it too.
        below: bool,
    },
    /// A file was closed: these bytes are to be sent.
    Closed {
        /// The file's path.
        path: Path,
        /// Its bytes.
        body: BodyId,
    },
    /// The server took bytes of a file.
    Sent {
        /// The file's path.
        path: Path,
        /// The number of the body that was sent.
        file: u32,
        /// What is known of the file since.
        seen: Seen,
    },
    /// The server refused bytes, which are now among the lost ones.
    Lost {
        /// The number that they have there.
        number: u32,
        /// The path of the file.
        path: Path,
        /// Whether the file stays, without its bytes.
        stays: bool,
    },
    /// Lost bytes were dropped.
    Dropped {
        /// The number that they had.
        number: u32,
    },
}
