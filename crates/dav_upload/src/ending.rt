ghost use Rattle.std.specs.Prelude.{◌≡◌, ℕ, List, IfOk, Ok};
ghost use Rattle.dav_text.specs.declared.tag.Seen.{Seen};
ghost use Rattle.dav_deeds.specs.declared.ask.Done.TheVariants.{Sent};
ghost use Rattle.dav_deeds.specs.Legal.{IsDone};
ghost use Rattle.dav_upload.specs.Ending.{done_by, done_of, Sends, flight_in, Puts};

use crate::came::Came;
use crate::exchange::upload;
use dav_deeds::{Done, Job};
use dav_edge::Wire;
use dav_text::Memory;
use dav_uri::Base;
use dav_verbs::{Outcome, outcome_of};
use std::alloc::Global;

/// Sends the bytes of a job, only if what is there is what was known of the file as the job was taken, and tells
/// how the job ends. It ends as sent only where the whole request went and a whole reply said that the server did
/// what was asked.
pub fn send_job<V: Wire>(alloc: Global, base: &Base, wire: &mut V, job: Job) -> Result<Done, Memory>
    ensures sends { Sends base.now job (V.log wire.old) (V.log wire.new) result }
    ensures done { IfOk result IsDone }
    ensures put { (seen : Seen) → result ≡ Ok (Sent seen) → (bodies : ℕ → List ℕ) → bodies job.body.file ≡ job.bytes
        → Puts base.now bodies (flight_in job) (V.log wire.old) (V.log wire.new) }
{
    let bytes = job.bytes;
    match upload(alloc, base, wire, &job.path, bytes, &job.seen) {
        Ok(came) => Ok(done_of(came)),
        Err(want) => Err(want),
    }
}

/// How a job ends, by what came of its file. None is no whole reply. At 401 a login is wanted, and there is
/// none to give.
fn done_of(came: Option<Came>) -> Done
    ensures { result ≡ done_of came }
{
    match came {
        None | Some(Came { status: 401, .. }) => Done::Again { after: 0 },
        Some(came) => {
            let outcome = outcome_of(came.status);
            done_by(outcome, came)
        }
    }
}

/// The same, by what the status says of the file.
fn done_by(outcome: Outcome, came: Came) -> Done
    ensures { result ≡ done_by outcome came }
{
    match outcome {
        Outcome::Sent => Done::Sent { seen: came.seen },
        Outcome::Again => Done::Again {
            after: came.retry_after,
        },
        Outcome::Refused => Done::Refused,
    }
}
