ghost use Rattle.std.specs.Prelude.{◌≡◌, Some, None};
ghost use Rattle.dav_index.specs.Tables.{closed_seen as closed_seen_lem, closed_entry, sent_entry, emptied_entry, waiting_so as waiting_so_lem, has_file as has_file_lem, queued_body, fresh_waiting};

use dav_store::BodyId;
use dav_text::Seen;

/// What is known of a file, and what is to be sent of it.
#[derive(Debug, Drop)]
pub struct Entry {
    /// What is known of the file on the server.
    pub seen: Seen,
    /// The bytes that are kept.
    pub body: Option<BodyId>,
    /// Whether these bytes wait to be sent, and how.
    pub queued: Option<Waiting>,
    /// The number of records up to and with the one that last wrote this entry.
    pub age: u64,
}

/// How bytes wait to be sent.
#[derive(Clone, Copy, Debug, PartialEq, Eq)]
pub struct Waiting {
    /// How many times they were to be sent again.
    pub attempts: u32,
    /// The second from which on they are due.
    pub due: u64,
    /// Whether they were tried since the desk was asked to stop.
    pub tried: bool,
}

impl Waiting {
    /// How bytes wait after a start.
    pub fn fresh() -> Waiting
        ensures { result ≡ fresh_waiting }
    {
        Waiting {
            attempts: 0,
            due: 0,
            tried: false,
        }
    }
}

impl Entry {
    /// The body that waits to be sent.
    pub fn queued_body(&self) -> Option<BodyId>
        ensures { result ≡ queued_body self.now }
    {
        match self.queued {
            Some(_) => self.body,
            None => None,
        }
    }

    /// The entry of a path that had none, closed with this body.
    pub(crate) fn new(body: BodyId, row: u64) -> Entry
        ensures { result ≡ closed_entry body row None }
    {
        Entry {
            seen: Seen::Absent,
            body: Some(body),
            queued: Some(Waiting::fresh()),
            age: row,
        }
    }

    /// The entry, closed with this body.
    pub(crate) fn closed(&self, body: BodyId, row: u64) -> Entry
        ensures { result ≡ closed_entry body row (Some self.now) }
    {
        Entry {
            seen: closed_seen(&self.seen),
            body: Some(body),
            queued: Some(Waiting::fresh()),
            age: row,
        }
    }

    /// The entry, the body in this file being sent.
    pub(crate) fn sent(&self, file: u32, seen: &Seen, row: u64) -> Entry
        ensures { result ≡ sent_entry file seen.now row self.now }
    {
        Entry {
            seen: seen.copy(),
            body: self.body,
            queued: if has_file(self.body, file) {
                None
            } else {
                self.queued
            },
            age: row,
        }
    }

    /// The entry without its bytes.
    pub(crate) fn emptied(&self, row: u64) -> Entry
        ensures { result ≡ emptied_entry row self.now }
    {
        Entry {
            seen: self.seen.copy(),
            body: None,
            queued: None,
            age: row,
        }
    }

    /// The entry, what waits of it waiting so.
    pub(crate) fn waiting_so(&self, waiting: Waiting) -> Entry
        ensures { result ≡ waiting_so_lem waiting self.now }
    {
        Entry {
            seen: self.seen.copy(),
            body: self.body,
            queued: self.queued.map(|_| waiting),
            age: self.age,
        }
    }
}

/// Whether the body is in this file.
pub(crate) fn has_file(body: Option<BodyId>, file: u32) -> bool
    ensures { result ≡ has_file_lem file body }
{
    match body {
        Some(body) => body.file == file,
        None => false,
    }
}

// What is known of a file once it was closed.
fn closed_seen(seen: &Seen) -> Seen
    ensures { result ≡ closed_seen_lem seen.now }
{
    match seen {
        Seen::Unknown => Seen::Absent,
        _ => seen.copy(),
    }
}
