ghost use Rattle.std.specs.Prelude.{◌≡◌};
ghost use Rattle.dav_index.specs.Bounds.{IsWithin};
ghost use Rattle.dav_deeds.specs.Effects.{waiting_at as waiting_at_lem, is_current as is_current_lem, fated_again as fated_again_lem, fated_current as fated_current_lem, fated_of};

use crate::answer::{Fated, Flight};
use crate::ask::Done;
use crate::pause::{later, pause};
use dav_index::{Table, Waiting};
use dav_text::Path;

/// How often the bytes of a path are sent.
const ATTEMPTS_MAX: u32 = 15;

/// The next number of lost bytes.
pub fn next_number(index: &Table) -> u32
    requires { IsWithin index.now }
    ensures { result ≡ index.now.next_lost }
{
    index.next_lost as u32
}

/// How the bytes of the path wait.
pub fn waiting_at(index: &Table, path: &Path) -> Waiting
    ensures { result ≡ waiting_at_lem path.now index.now.entries }
{
    match index.entries.get(path) {
        Some(entry) => match entry.queued {
            Some(waiting) => waiting,
            None => Waiting::fresh(),
        },
        None => Waiting::fresh(),
    }
}

/// Whether the bytes of the job are still those that are queued.
pub fn is_current(index: &Table, flight: &Flight) -> bool
    ensures { result ≡ is_current_lem index.now flight.now }
{
    match index.entries.queued(&flight.path) {
        Some(body) => body.file == flight.body.file,
        None => false,
    }
}

// What becomes of bytes that were sent in vain once more.
fn fated_again(index: &Table, waiting: Waiting, now: u64, after: u64) -> Fated
    requires { IsWithin index.now }
    ensures { result ≡ fated_again_lem index.now waiting now after }
{
    if waiting.attempts >= ATTEMPTS_MAX - 1 {
        return Fated::Lost {
            number: next_number(index),
        };
    }
    let attempts = waiting.attempts + 1;
    Fated::Waits {
        attempts,
        due: later(now, pause(attempts, after)),
    }
}

// What becomes of the bytes of a job that are still queued.
fn fated_current(index: &Table, flight: &Flight, now: u64, done: &Done) -> Fated
    requires { IsWithin index.now }
    ensures { result ≡ fated_current_lem index.now flight.now now done.now }
{
    match done {
        Done::Sent { .. } => Fated::Clean,
        Done::Again { after } => {
            let waiting = waiting_at(index, &flight.path);
            fated_again(index, waiting, now, *after)
        }
        Done::Refused => Fated::Lost {
            number: next_number(index),
        },
    }
}

/// What becomes of the bytes of the job.
pub fn fated(index: &Table, flight: &Flight, now: u64, done: &Done) -> Fated
    requires { IsWithin index.now }
    ensures { result ≡ fated_of index.now flight.now now done.now }
{
    if is_current(index, flight) {
        fated_current(index, flight, now, done)
    } else {
        Fated::Superseded
    }
}
