ghost use Rattle.std.specs.Prelude.{◌≡◌, ◌≢◌, ◌⊎◌, ℕ, ◌<◌, ◌≤◌, List, [], ◌∷◌, ◌++◌, length, All, Contains, IfOk, IfErr, OnOk, OnErr, Option, None, Some, vec_capacity};
ghost use Rattle.sha2.specs.Sha256.{sha256};
ghost use Rattle.dav_machine.specs.Log.{Rose};
ghost use Rattle.dav_store.specs.Counts.{IsCountedAs};
ghost use Rattle.dav_store.specs.Rows.{IsPayload, IsReady};
ghost use Rattle.dav_store.specs.View.{journal_end};
ghost use Rattle.dav_store.specs.declared.body_id.BodyId.{BodyId};
ghost use Rattle.dav_index.specs.Bounds.{bodies_of};
ghost use Rattle.dav_deeds.specs.Answers.{wanted};
ghost use Rattle.dav_deeds.specs.DeskTable.{DeskTable};
ghost use Rattle.dav_deeds.specs.Legal.{new_body, table_after};
ghost use Rattle.dav_deeds.specs.declared.fault.DeskFault.TheVariants.{Disk as DiskFault, Memory as MemoryFault};
ghost use Rattle.dav_recorder.specs.Calls.{IsUnder};
ghost use Rattle.dav_recorder.specs.Files.{ChangesOnly, AreEmpty, IsStored};
ghost use Rattle.dav_recorder.specs.Opening.{IsUndamaged};
ghost use Rattle.dav_recorder.specs.Planned.{kept_table};
ghost use Rattle.dav_recorder.specs.Stands.{IsWritten};
ghost use Rattle.dav_recorder.specs.Survives.{IsLive, IsLeft};
ghost use Rattle.dav_desk.specs.Called.{told_calls};
ghost use Rattle.dav_desk.specs.Calls.{row_calls};
ghost use Rattle.dav_desk.specs.Entry.{file_in, IsEntry, IsMissing};

use dav_deeds::{Deed, DeskFault, Step, Told};
use dav_disk::Disk;
use dav_recorder::Recorder;
use dav_text::Blob;
use std::alloc::Global;

/// The file of the new body, if there is one.
fn fresh_of(deed: &Deed) -> Option<u32>
    ensures { result ≡ file_in (new_body deed.now) }
{
    match deed.body() {
        Some(body) => Some(body.file),
        None => None,
    }
}

/// The bytes of the body that is told, and none where no body is. Answers `Memory` only before the first device call; after
/// `Disk` and `Damaged` the desk is dead. At any answer a stop leaves what it left before.
pub(crate) fn told_bytes<D: Disk>(
    alloc: Global,
    recorder: &mut Recorder<D>,
    told: &Option<Told>,
) -> Result<Blob, DeskFault>
    ensures bytes { D.honest recorder.new.disk → IfOk result (λ blob. (body : BodyId) → wanted told.now ≡ Some body → (url : List ℕ) (opening : DeskTable) (start : ℕ) (given : ℕ → List ℕ)
        → IsLive D.moment D.seen D.past url opening start given recorder.old → Contains (bodies_of (kept_table (table_after opening recorder.old.trace.steps.items))) body → blob ≡ given body.file) }
    ensures live { D.honest recorder.new.disk → (url : List ℕ) (opening : DeskTable) (start : ℕ) (given : ℕ → List ℕ) → IsLive D.moment D.seen D.past url opening start given recorder.old
        → IsLive D.moment D.seen D.past url opening start given recorder.new }
    ensures sum { IfOk result (λ blob. (body : BodyId) → wanted told.now ≡ Some body → sha256 blob ≡ body.sum) }
    ensures undamaged { D.honest recorder.new.disk → IfErr result (λ e. (body : BodyId) → wanted told.now ≡ Some body → (url : List ℕ) (opening : DeskTable) (start : ℕ) (given : ℕ → List ℕ)
        → IsLive D.moment D.seen D.past url opening start given recorder.old → Contains (bodies_of (kept_table (table_after opening recorder.old.trace.steps.items))) body → IsUndamaged e) }
    ensures fault { IfErr result (λ e. IsMissing (D.honest recorder.new.disk) (D.seen recorder.old.disk) (D.seen recorder.new.disk) (D.faults recorder.old.disk) (D.faults recorder.new.disk) told.now e) }
    ensures starved { IfErr result (λ e. e ≡ MemoryFault → (recorder.new.disk ≡ recorder.old.disk) × (recorder.new.dead ≡ recorder.old.dead)) }
    ensures stopped { IfErr result (λ e. e ≢ MemoryFault → recorder.new.dead ≡ Some e) }
    ensures alive { OnOk result (recorder.new.dead ≡ recorder.old.dead) }
    ensures trace { (recorder.new.trace ≡ recorder.old.trace) × (recorder.new.under ≡ recorder.old.under) }
    ensures ready { D.honest recorder.new.disk → IsReady (journal_end recorder.old.journal) (D.seen recorder.old.disk 0) (D.past recorder.old.disk (D.moment recorder.old.disk) 0)
        → IsReady (journal_end recorder.new.journal) (D.seen recorder.new.disk 0) (D.past recorder.new.disk (D.moment recorder.new.disk) 0) }
    ensures changes { D.honest recorder.new.disk → ChangesOnly D.moment D.seen D.past (λ _. ⊥) recorder.old.disk recorder.new.disk }
    ensures counts { IsCountedAs (told_calls told.now) (D.moment recorder.old.disk) (D.moment recorder.new.disk) result }
    ensures keeps { D.honest recorder.new.disk → D.honest recorder.old.disk }
    ensures faults { D.faults recorder.old.disk ≤ D.faults recorder.new.disk }
{
    let Some(told) = told else {
        return Ok(Blob::from_vec(Vec::new(alloc)));
    };
    let Some(body) = told.body() else {
        return Ok(Blob::from_vec(Vec::new(alloc)));
    };
    match recorder.fetch(&body) {
        Ok(bytes) => Ok(bytes),
        Err(fault) => Err(fault),
    }
}

/// Puts a step on the disk, with the bytes of its new body, if there is one, and its row, unless that is empty. Then it stands in
/// the trace.
pub(crate) fn enter<D: Disk>(
    recorder: &mut Recorder<D>,
    step: Step,
    bytes: &[u8],
    row: &[u8],
    freed: &[u32],
) -> Result<(), DeskFault>
    requires fits { row.now ≢ [] → IsPayload row.now }
    requires fresh_apart { (id : BodyId) → new_body step.deed ≡ Some id → 2 ≤ id.file }
    requires freed_apart { All (λ f. 2 ≤ f) freed.now }
    requires room { length recorder.old.trace.steps.items < vec_capacity recorder.old.trace.steps }
    requires ready { D.honest recorder.old.disk → IsReady (journal_end recorder.old.journal) (D.seen recorder.old.disk 0) (D.past recorder.old.disk (D.moment recorder.old.disk) 0) }

    ensures live { D.honest recorder.new.disk → OnOk result ((url : List ℕ) (opening : DeskTable) (start : ℕ) (given : ℕ → List ℕ) → IsEntry (table_after opening recorder.old.trace.steps.items) step given bytes.now row.now freed.now
        → IsLive D.moment D.seen D.past url opening start given recorder.old → IsLive D.moment D.seen D.past url opening start given recorder.new) }
    ensures left { D.honest recorder.new.disk → OnErr result ((url : List ℕ) (opening : DeskTable) (start : ℕ) (given : ℕ → List ℕ) → IsEntry (table_after opening recorder.old.trace.steps.items) step given bytes.now row.now freed.now
        → IsLive D.moment D.seen D.past url opening start given recorder.old → IsLeft D.moment D.past url opening start given recorder.new) }
    ensures ended { OnOk result ((recorder.new.trace.steps.items ≡ recorder.old.trace.steps.items ++ record step { moment = D.moment recorder.new.disk } ∷ [])
        × (recorder.new.under ≡ recorder.old.under) × (recorder.new.dead ≡ recorder.old.dead)) }
    ensures stopped { IfErr result (λ e. (e ≡ DiskFault) × (recorder.new.dead ≡ Some DiskFault) × Rose (D.faults recorder.old.disk) (D.faults recorder.new.disk)
        × (recorder.new.trace.steps.items ≡ recorder.old.trace.steps.items)
        × ((recorder.new.under ≡ recorder.old.under) ⊎ (recorder.new.under ≡ Some (record step { moment = D.moment recorder.new.disk })))) }
    ensures ready { D.honest recorder.new.disk → OnOk result (IsReady (journal_end recorder.new.journal) (D.seen recorder.new.disk 0) (D.past recorder.new.disk (D.moment recorder.new.disk) 0)) }
    ensures changes { D.honest recorder.new.disk → ChangesOnly D.moment D.seen D.past (IsWritten (file_in (new_body step.deed)) freed.now) recorder.old.disk recorder.new.disk }
    ensures stored { D.honest recorder.new.disk → OnOk result (row.now ≢ [] → IsStored (file_in (new_body step.deed)) bytes.now freed.now (D.seen recorder.new.disk) (D.past recorder.new.disk (D.moment recorder.new.disk))) }
    ensures emptied { D.honest recorder.new.disk → OnOk result (AreEmpty freed.now (D.seen recorder.new.disk) (D.past recorder.new.disk (D.moment recorder.new.disk))) }
    ensures counts { IsCountedAs (row_calls row.now (file_in (new_body step.deed)) freed.now) (D.moment recorder.old.disk) (D.moment recorder.new.disk) result }
    ensures quietly { D.honest recorder.new.disk → row.now ≡ [] → ChangesOnly D.moment D.seen D.past (Contains freed.now) recorder.old.disk recorder.new.disk }
    ensures quiet { OnErr result (row.now ≡ [] → recorder.new.under ≡ recorder.old.under) }
    ensures under { OnErr result (row.now ≢ [] → IsUnder D.honest D.moment D.seen D.past (file_in (new_body step.deed)) bytes.now freed.now step recorder.old.disk recorder.new.disk recorder.old.under recorder.new.under) }
    ensures capacity { vec_capacity recorder.old.trace.steps ≤ vec_capacity recorder.new.trace.steps }
    ensures keeps { D.honest recorder.new.disk → D.honest recorder.old.disk }
    ensures faults { D.faults recorder.old.disk ≤ D.faults recorder.new.disk }
{
    if row.is_empty() {
        return match recorder.enter_quiet(step, freed) {
            Ok(()) => Ok(()),
            Err(fault) => Err(fault),
        };
    }
    let fresh = fresh_of(&step.deed);
    match recorder.enter(step, fresh, bytes, row, freed) {
        Ok(()) => Ok(()),
        Err(fault) => Err(fault),
    }
}
