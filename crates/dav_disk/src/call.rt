ghost use Rattle.std.specs.Prelude.{◌≡◌, ◌↔◌, IsTrue};

use crate::Change;

/// A device call of a disk in memory, as its record keeps it. `next` is what stood in the file behind the call; where it
/// failed, that is what stood there before.
#[derive(Drop)]
pub enum Call {
    /// A size or a read, or a call that changed nothing.
    Look,
    /// A write that ends at `end`.
    Write {
        file: u32,
        change: Change,
        end: u64,
        next: Vec<u8>,
    },
    /// A cut to a length.
    Cut {
        file: u32,
        len: u64,
        next: Vec<u8>,
    },
    /// A sync, and whether it was done.
    Sync {
        file: u32,
        done: bool,
    },
}

/// What some calls made of a file, but what they touched since its last sync.
#[derive(Clone, Copy)]
pub(crate) struct Standing<'a> {
    pub(crate) seen: &'a [u8],
    pub(crate) synced: &'a [u8],
    pub(crate) least: u64,
    pub(crate) greatest: u64,
}

impl Call {
    ghost use Rattle.dav_disk.specs.Disk.{IsOutside};
    ghost use Rattle.dav_disk.specs.Image.{Shows};
    ghost use Rattle.dav_disk.specs.Record.{FileState, stepped};

    // What stands in a file after this call, given what stood there before it.
    pub(crate) fn content_after<'a>(&'a self, file: u32, before: &'a [u8]) -> &'a [u8]
        ensures { (s : FileState) → s.seen ≡ before.now → (stepped file self.now s).seen ≡ result.now }
    {
        match self {
            Call::Write { file: f, next, .. } if *f == file => next.as_slice(),
            Call::Cut { file: f, next, .. } if *f == file => next.as_slice(),
            _ => before,
        }
    }

    // The same of all but what was touched.
    pub(crate) fn standing_after<'a>(&'a self, file: u32, before: Standing<'a>) -> Standing<'a>
        ensures { (s : FileState) → Shows before.entry.seen.now before.entry.synced.now before.entry.least before.entry.greatest s
            → Shows result.seen.now result.synced.now result.least result.greatest (stepped file self.now s) }
    {
        match self {
            Call::Write {
                file: f,
                end,
                next,
                ..
            } if *f == file => Standing {
                seen: next.as_slice(),
                synced: before.synced,
                least: before.least,
                greatest: before.greatest.max(*end),
            },
            Call::Cut { file: f, len, next } if *f == file => Standing {
                seen: next.as_slice(),
                synced: before.synced,
                least: before.least.min(*len),
                greatest: before.greatest,
            },
            Call::Sync {
                file: f,
                done: true,
            } if *f == file => Standing {
                seen: before.seen,
                synced: before.seen,
                least: before.seen.len() as u64,
                greatest: before.seen.len() as u64,
            },
            _ => before,
        }
    }

    // Whether no call since the file's last sync touched the byte at a place, given whether none had before this call.
    pub(crate) fn spared_after(&self, file: u32, place: u64, before: bool) -> bool
        ensures { (s : FileState) → (IsTrue before ↔ IsOutside place s.doubt.changes) → (IsTrue result ↔ IsOutside place (stepped file self.now s).doubt.changes) }
    {
        match self {
            Call::Write {
                file: f,
                change,
                ..
            } if *f == file => before && change.spares(place),
            Call::Cut { file: f, len, .. } if *f == file => before && place < *len,
            Call::Sync {
                file: f,
                done: true,
            } if *f == file => true,
            _ => before,
        }
    }
}
