ghost use Rattle.std.specs.Prelude.{◌≡◌, List, [], ◌∷◌};
ghost use Rattle.std.specs.Borrow.{ftrue};
ghost use Rattle.dav_disk.specs.Events.{Event};

use crate::Note;
use std::marker::{Model, PhantomData};

/// The device calls so far with their answers, the newest first. Clauses alone read it: it takes no room.
#[derive(Drop)]
pub struct Record {
    marker: PhantomData<u8>,
    pub ghost events: { List Event },
}

impl Model for Record {
    ghost also_owns = { λ _. ftrue };
}

impl Record {
    ghost use Rattle.dav_disk.specs.Note.{event_of};

    /// The record of no calls.
    pub fn new() -> Record
        ensures { result.events ≡ [] }
    {
        Record {
            marker: PhantomData,
        }
    }

    /// One call more, with the bytes that came or went.
    pub fn note(&mut self, _note: &Note, _bytes: &[u8])
        ensures { self.new.events ≡ event_of _note.now _bytes.now ∷ self.old.events }
    {}
}
