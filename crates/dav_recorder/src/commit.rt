ghost use Rattle.std.specs.Prelude.{◌≡◌, ◌⊎◌, ℕ, ◌+◌, ◌≤◌, List, [], ◌∷◌, ◌++◌, IsOk, OnOk, IfErr, None, Some, All, Contains};
ghost use Rattle.dav_disk.specs.Disk.{Touches, HasCause};
ghost use Rattle.dav_store.specs.Cause.{IsCaused, OnlyDisk};
ghost use Rattle.dav_store.specs.Counts.{IsCountedAs};
ghost use Rattle.dav_store.specs.Rows.{IsPayload, IsReady};
ghost use Rattle.dav_store.specs.View.{journal_end};
ghost use Rattle.dav_store.specs.declared.body_id.BodyId.{BodyId};
ghost use Rattle.dav_recorder.specs.Stands.{EachBody, EachImage, IsHeld, IsSafe, Stands, StandsEither, IsFile, IsWritten, IsAdding, Spares, IsCommit};
ghost use Rattle.dav_recorder.specs.Files.{RestStays, AreEmpty, IsStored};
ghost use Rattle.dav_index.specs.declared.record.Record.{Record};
ghost use Rattle.dav_index.specs.declared.table.Table.{Table};
ghost use Rattle.dav_recorder.specs.Recovers.{Recovers, RecoversEither, IsConsistent};
ghost use Rattle.dav_recorder.specs.Due.{IsDue};
ghost use Rattle.dav_recorder.specs.Calls.{body_calls, freeing_calls, entry_calls, IsUnbegun, IsBegun};
ghost use Rattle.dav_recorder.specs.declared.commit.Stop.TheVariants.{Before, Under};

use dav_disk::Disk;
use dav_store::{Bodies, Journal, StoreFault};

/// When the disk stopped a commit.
#[derive(Clone, Copy, Debug, PartialEq, Eq)]
pub(crate) enum Stop {
    /// Nothing of the row was written yet.
    Before,
    /// The row was being written, or it stands.
    Under,
}

/// Keeps a new body in its file, where there is one. At each moment a stop leaves the rows and bodies as they were.
fn keep<D: Disk>(
    bodies: &mut Bodies,
    disk: &mut D,
    fresh: Option<u32>,
    bytes: &[u8],
) -> Result<(), StoreFault>
    requires apart { (f : ℕ) → fresh ≡ Some f → 2 ≤ f }

    ensures held { D.honest disk.new → OnOk result ((rows : List (List ℕ)) (holds holds_after : List BodyId) (given : ℕ → List ℕ) (end : ℕ) → IsAdding holds holds_after given fresh bytes.now
        → IsSafe rows holds given end (D.seen disk.old) (D.past disk.old (D.moment disk.old))
        → IsSafe rows holds given end (D.seen disk.new) (D.past disk.new (D.moment disk.new)) × EachBody holds_after (IsHeld given (D.past disk.new (D.moment disk.new)))) }
    ensures any_moment { D.honest disk.new → (rows : List (List ℕ)) (holds holds_after : List BodyId) (given : ℕ → List ℕ) (end : ℕ) → IsAdding holds holds_after given fresh bytes.now
        → IsSafe rows holds given end (D.seen disk.old) (D.past disk.old (D.moment disk.old))
        → EachImage (D.past disk.new) (D.moment disk.old) (D.moment disk.new) (Stands rows holds given) }
    ensures ready { D.honest disk.new → (end : ℕ) → IsReady end (D.seen disk.old 0) (D.past disk.old (D.moment disk.old) 0)
        → IsReady end (D.seen disk.new 0) (D.past disk.new (D.moment disk.new) 0) }
    ensures touches { D.honest disk.new → Touches (IsFile fresh) (D.moment disk.old) (D.moment disk.new) (D.past disk.old) (D.past disk.new) }
    ensures others { D.honest disk.new → RestStays (IsFile fresh) (D.seen disk.old) (D.seen disk.new) }
    ensures stored { D.honest disk.new → OnOk result (IsStored fresh bytes.now [] (D.seen disk.new) (D.past disk.new (D.moment disk.new))) }
    ensures counts { IsCountedAs (body_calls fresh) (D.moment disk.old) (D.moment disk.new) result }
    ensures none { fresh ≡ None → IsOk result }
    ensures only { OnlyDisk result }
    ensures keeps { D.honest disk.new → D.honest disk.old }
    ensures cause { IsCaused (D.faults disk.old) (D.faults disk.new) result }
{
    match fresh {
        None => Ok(()),
        Some(file) => {
            bodies.keep(disk, file, bytes)?;
            Ok(())
        }
    }
}

/// Empties files in which no body is kept any more. At each moment a stop leaves the rows and bodies as they were.
pub(crate) fn release<D: Disk>(
    bodies: &mut Bodies,
    disk: &mut D,
    freed: &[u32],
) -> Result<(), StoreFault>
    requires apart { All (λ f. 2 ≤ f) freed.now }

    ensures safe { D.honest disk.new → (rows : List (List ℕ)) (holds : List BodyId) (given : ℕ → List ℕ) (end : ℕ) → Spares freed.now holds
        → IsSafe rows holds given end (D.seen disk.old) (D.past disk.old (D.moment disk.old))
        → IsSafe rows holds given end (D.seen disk.new) (D.past disk.new (D.moment disk.new)) }
    ensures any_moment { D.honest disk.new → (rows : List (List ℕ)) (holds : List BodyId) (given : ℕ → List ℕ) (end : ℕ) → Spares freed.now holds
        → IsSafe rows holds given end (D.seen disk.old) (D.past disk.old (D.moment disk.old))
        → EachImage (D.past disk.new) (D.moment disk.old) (D.moment disk.new) (Stands rows holds given) }
    ensures ready { D.honest disk.new → (end : ℕ) → IsReady end (D.seen disk.old 0) (D.past disk.old (D.moment disk.old) 0)
        → IsReady end (D.seen disk.new 0) (D.past disk.new (D.moment disk.new) 0) }
    ensures touches { D.honest disk.new → Touches (Contains freed.now) (D.moment disk.old) (D.moment disk.new) (D.past disk.old) (D.past disk.new) }
    ensures others { D.honest disk.new → RestStays (Contains freed.now) (D.seen disk.old) (D.seen disk.new) }
    ensures emptied { D.honest disk.new → OnOk result (AreEmpty freed.now (D.seen disk.new) (D.past disk.new (D.moment disk.new))) }
    ensures counts { IsCountedAs (freeing_calls freed.now) (D.moment disk.old) (D.moment disk.new) result }
    ensures only { OnlyDisk result }
    ensures keeps { D.honest disk.new → D.honest disk.old }
    ensures cause { IsCaused (D.faults disk.old) (D.faults disk.new) result }
{
    for file in freed {
        bodies.release(disk, *file)?;
    }
    Ok(())
}

/// Puts a row on the disk: first a new body, then the row that names it, then an end to the files of bodies that are named no more.
/// At each moment a stop leaves the rows and bodies from before, or those from after. Takes no memory.
fn commit_rows<D: Disk>(
    journal: &mut Journal,
    bodies: &mut Bodies,
    disk: &mut D,
    fresh: Option<u32>,
    bytes: &[u8],
    row: &[u8],
    freed: &[u32],
) -> Result<(), Stop>
    requires fits { IsPayload row.now }
    requires fresh_apart { (f : ℕ) → fresh ≡ Some f → 2 ≤ f }
    requires freed_apart { All (λ f. 2 ≤ f) freed.now }
    requires ready { D.honest disk.old → IsReady (journal_end journal.old) (D.seen disk.old 0) (D.past disk.old (D.moment disk.old) 0) }

    ensures safe { D.honest disk.new → OnOk result ((rows : List (List ℕ)) (holds holds_after : List BodyId) (given : ℕ → List ℕ) → IsCommit holds holds_after given fresh bytes.now freed.now
        → IsSafe rows holds given (journal_end journal.old) (D.seen disk.old) (D.past disk.old (D.moment disk.old))
        → IsSafe (rows ++ row.now ∷ []) holds_after given (journal_end journal.new) (D.seen disk.new) (D.past disk.new (D.moment disk.new))) }
    ensures any_moment { D.honest disk.new → (rows : List (List ℕ)) (holds holds_after : List BodyId) (given : ℕ → List ℕ) → IsCommit holds holds_after given fresh bytes.now freed.now
        → IsSafe rows holds given (journal_end journal.old) (D.seen disk.old) (D.past disk.old (D.moment disk.old))
        → EachImage (D.past disk.new) (D.moment disk.old) (D.moment disk.new) (StandsEither rows holds (rows ++ row.now ∷ []) holds_after given) }
    ensures before { D.honest disk.new → IfErr result (λ stop. stop ≡ Before → (rows : List (List ℕ)) (holds holds_after : List BodyId) (given : ℕ → List ℕ) → IsCommit holds holds_after given fresh bytes.now freed.now
        → IsSafe rows holds given (journal_end journal.old) (D.seen disk.old) (D.past disk.old (D.moment disk.old))
        → EachImage (D.past disk.new) (D.moment disk.old) (D.moment disk.new) (Stands rows holds given)) }
    ensures ready { D.honest disk.new → OnOk result (IsReady (journal_end journal.new) (D.seen disk.new 0) (D.past disk.new (D.moment disk.new) 0)) }
    ensures touches { D.honest disk.new → Touches (IsWritten fresh freed.now) (D.moment disk.old) (D.moment disk.new) (D.past disk.old) (D.past disk.new) }
    ensures others { D.honest disk.new → RestStays (IsWritten fresh freed.now) (D.seen disk.old) (D.seen disk.new) }
    ensures counts { IsCountedAs (entry_calls fresh freed.now) (D.moment disk.old) (D.moment disk.new) result }
    ensures unbegun { IfErr result (λ stop. stop ≡ Before → IsUnbegun D.honest D.moment D.seen D.past fresh disk.old disk.new) }
    ensures begun { IfErr result (λ stop. stop ≡ Under → IsBegun D.honest D.moment D.seen D.past fresh bytes.now freed.now disk.old disk.new) }
    ensures stored { D.honest disk.new → OnOk result (IsStored fresh bytes.now freed.now (D.seen disk.new) (D.past disk.new (D.moment disk.new))) }
    ensures emptied { D.honest disk.new → OnOk result (AreEmpty freed.now (D.seen disk.new) (D.past disk.new (D.moment disk.new))) }
    ensures keeps { D.honest disk.new → D.honest disk.old }
    ensures cause { HasCause (D.faults disk.old) (D.faults disk.new) result }
{
    match keep(bodies, disk, fresh, bytes) {
        Ok(()) => {}
        Err(_) => return Err(Stop::Before),
    }
    match journal.append(disk, row) {
        Ok(()) => {}
        Err(_) => return Err(Stop::Under),
    }
    match release(bodies, disk, freed) {
        Ok(()) => Ok(()),
        Err(_) => Err(Stop::Under),
    }
}

/// Puts a step on the disk: a new body, then the record that names it, then an end to the files of bodies that are named no
/// more. At each moment a stop leaves what recovers to the table from before, or to the one from after; where the record was
/// not begun, to the one from before. Takes no memory.
pub(crate) fn commit<D: Disk>(
    journal: &mut Journal,
    bodies: &mut Bodies,
    disk: &mut D,
    fresh: Option<u32>,
    bytes: &[u8],
    row: &[u8],
    freed: &[u32],
) -> Result<(), Stop>
    requires fits { IsPayload row.now }
    requires fresh_apart { (f : ℕ) → fresh ≡ Some f → 2 ≤ f }
    requires freed_apart { All (λ f. 2 ≤ f) freed.now }
    requires ready { D.honest disk.old → IsReady (journal_end journal.old) (D.seen disk.old 0) (D.past disk.old (D.moment disk.old) 0) }

    ensures consistent { D.honest disk.new → OnOk result ((url : List ℕ) (before after : Table) (r : Record) (given : ℕ → List ℕ) → IsDue before after r given fresh bytes.now row.now freed.now
        → IsConsistent url before given (journal_end journal.old) (D.seen disk.old) (D.past disk.old (D.moment disk.old))
        → IsConsistent url after given (journal_end journal.new) (D.seen disk.new) (D.past disk.new (D.moment disk.new))) }
    ensures any_moment { D.honest disk.new → (url : List ℕ) (before after : Table) (r : Record) (given : ℕ → List ℕ) → IsDue before after r given fresh bytes.now row.now freed.now
        → IsConsistent url before given (journal_end journal.old) (D.seen disk.old) (D.past disk.old (D.moment disk.old))
        → EachImage (D.past disk.new) (D.moment disk.old) (D.moment disk.new) (RecoversEither url before after given) }
    ensures before { D.honest disk.new → IfErr result (λ stop. stop ≡ Before → (url : List ℕ) (before after : Table) (r : Record) (given : ℕ → List ℕ) → IsDue before after r given fresh bytes.now row.now freed.now
        → IsConsistent url before given (journal_end journal.old) (D.seen disk.old) (D.past disk.old (D.moment disk.old))
        → EachImage (D.past disk.new) (D.moment disk.old) (D.moment disk.new) (Recovers url before given)) }
    ensures ready { D.honest disk.new → OnOk result (IsReady (journal_end journal.new) (D.seen disk.new 0) (D.past disk.new (D.moment disk.new) 0)) }
    ensures touches { D.honest disk.new → Touches (IsWritten fresh freed.now) (D.moment disk.old) (D.moment disk.new) (D.past disk.old) (D.past disk.new) }
    ensures others { D.honest disk.new → RestStays (IsWritten fresh freed.now) (D.seen disk.old) (D.seen disk.new) }
    ensures counts { IsCountedAs (entry_calls fresh freed.now) (D.moment disk.old) (D.moment disk.new) result }
    ensures unbegun { IfErr result (λ stop. stop ≡ Before → IsUnbegun D.honest D.moment D.seen D.past fresh disk.old disk.new) }
    ensures begun { IfErr result (λ stop. stop ≡ Under → IsBegun D.honest D.moment D.seen D.past fresh bytes.now freed.now disk.old disk.new) }
    ensures stored { D.honest disk.new → OnOk result (IsStored fresh bytes.now freed.now (D.seen disk.new) (D.past disk.new (D.moment disk.new))) }
    ensures emptied { D.honest disk.new → OnOk result (AreEmpty freed.now (D.seen disk.new) (D.past disk.new (D.moment disk.new))) }
    ensures keeps { D.honest disk.new → D.honest disk.old }
    ensures cause { HasCause (D.faults disk.old) (D.faults disk.new) result }
{
    commit_rows(journal, bodies, disk, fresh, bytes, row, freed)
}
