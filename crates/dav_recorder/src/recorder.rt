ghost use Rattle.std.specs.Prelude.{◌≡◌, ◌≢◌, ◌⊎◌, ℕ, ◌+◌, ◌<◌, ◌≤◌, List, [], ◌∷◌, ◌++◌, length, All, Contains, IsOk, OnOk, OnErr, IfOk, IfErr, MatchResult, Some, None, option_map, vec_capacity};
ghost use Rattle.sha2.specs.Sha256.{sha256};
ghost use Rattle.dav_machine.specs.Log.{Rose};
ghost use Rattle.dav_disk.specs.Disk.{AllStay};
ghost use Rattle.dav_store.specs.Counts.{IsCountedAs};
ghost use Rattle.dav_store.specs.Rows.{IsPayload, IsReady};
ghost use Rattle.dav_store.specs.View.{journal_end};
ghost use Rattle.dav_deeds.specs.DeskTable.{DeskTable, started};
ghost use Rattle.dav_index.specs.declared.table.Table.{Table};
ghost use Rattle.dav_recorder.specs.Stands.{EachImage};
ghost use Rattle.dav_recorder.specs.Recovers.{Recovers, AllRecover};
ghost use Rattle.dav_deeds.specs.Legal.{IsLegal, table_after};
ghost use Rattle.dav_deeds.specs.declared.fault.DeskFault.TheVariants.{Disk as DiskFault, Memory as MemoryFault};
ghost use Rattle.dav_index.specs.Bounds.{bodies_of, IsWithin};

use crate::commit::{Stop, commit, release};
use crate::opening::{fault_of, open};
use dav_deeds::{DeskFault, Step, Trace};
use dav_disk::Disk;
use dav_index::Table;
use dav_store::{Bodies, BodyId, Journal, StoreFault};
use dav_text::{Blob, Memory};
use std::alloc::Global;

/// The disk of a desk, and the steps that were put on it.
#[derive(Drop)]
pub struct Recorder<D> {
    pub(crate) disk: D,
    pub(crate) journal: Journal,
    pub(crate) bodies: Bodies,
    pub(crate) trace: Trace,
    pub(crate) under: Option<Step>,
    pub(crate) dead: Option<DeskFault>,
}

impl<D: Disk> Recorder<D> {
    ghost use Rattle.dav_recorder.specs.Planned.{IsPlanned, IsQuiet, kept_table};
    ghost use Rattle.dav_recorder.specs.Opening.{IsIndexOf, IsStartFault, IsFetchFault, IsUndamaged, desk_fault, dead_after};
    ghost use Rattle.dav_recorder.specs.Survives.{IsLive, IsLeft};
    ghost use Rattle.dav_recorder.specs.Files.{ChangesOnly, AreEmpty, IsStored};
    ghost use Rattle.dav_recorder.specs.Calls.{entry_calls, freeing_calls, IsUnder};
    ghost use Rattle.dav_recorder.specs.Stands.{IsWritten};

    /// Opens the index of a disk for a URL, which is made where nothing stands, and gives the table that it leads to. Answers
    /// `NotACache` with the offset of the first row that is not as it must be, and `OtherServer` where the index is one of
    /// another URL; the disk is given back. A stop while it runs leaves what recovers to the same table.
    pub fn start(alloc: Global, disk: D, url: &str) -> Result<(Recorder<D>, Table), (D, DeskFault)>
        requires { length url.now < 65505 }

        ensures live { IfOk result (λ both. D.honest both.0.disk → (table : Table) (given : ℕ → List ℕ) → AllRecover url.now table given (D.past disk (D.moment disk))
            → (both.1 ≡ table) × IsLive D.moment D.seen D.past url.now (started table) (D.moment disk) given both.0) }
        ensures any_moment { (table : Table) (given : ℕ → List ℕ) → AllRecover url.now table given (D.past disk (D.moment disk))
            → MatchResult result (λ both. D.honest both.0.disk → EachImage (D.past both.0.disk) (D.moment disk) (D.moment both.0.disk) (Recovers url.now table given))
            (λ both. D.honest both.0 → EachImage (D.past both.0) (D.moment disk) (D.moment both.0) (Recovers url.now table given)) }
        ensures opened { IfOk result (λ both. D.honest both.0.disk → (length (D.seen disk 0) < 1099511627776) × IsIndexOf url.now both.1 (D.seen disk 0)) }
        ensures indexed { IfOk result (λ both. (file : List ℕ) × IsIndexOf url.now both.1 file) }
        ensures within { IfOk result (λ both. IsWithin both.1) }
        ensures fault { IfErr result (λ both. IsStartFault (D.honest both.0) url.now (D.seen disk 0) (D.faults disk) (D.faults both.0) both.1) }
        ensures ready { IfOk result (λ both. D.honest both.0.disk → IsReady (journal_end both.0.journal) (D.seen both.0.disk 0) (D.past both.0.disk (D.moment both.0.disk) 0)) }
        ensures fresh { IfOk result (λ both. (both.0.trace.steps.items ≡ []) × (both.0.under ≡ None) × (both.0.dead ≡ None)) }
        ensures changes { MatchResult result (λ both. D.honest both.0.disk → ChangesOnly D.moment D.seen D.past (λ f. f ≡ 0) disk both.0.disk) (λ both. D.honest both.0 → ChangesOnly D.moment D.seen D.past (λ f. f ≡ 0) disk both.0) }
        ensures keeps { MatchResult result (λ both. D.honest both.0.disk → D.honest disk) (λ both. D.honest both.0 → D.honest disk) }
        ensures moments { MatchResult result (λ both. D.moment disk ≤ D.moment both.0.disk) (λ both. D.moment disk ≤ D.moment both.0) }
        ensures faults { MatchResult result (λ both. D.faults disk ≤ D.faults both.0.disk) (λ both. D.faults disk ≤ D.faults both.0) }
    {
        let mut disk = disk;
        match open(alloc, &mut disk, url) {
            Ok(opened) => Ok((Recorder::begin(alloc, disk, opened.journal), opened.table)),
            Err(fault) => Err((disk, fault)),
        }
    }

    // One that has put no step on the disk.
    fn begin(alloc: Global, disk: D, journal: Journal) -> Recorder<D>
        ensures disk { result.disk ≡ disk }
        ensures journal { result.journal ≡ journal }
        ensures none { result.trace.steps.items ≡ [] }
        ensures idle { result.under ≡ None }
        ensures alive { result.dead ≡ None }
    {
        Recorder {
            disk,
            journal,
            bodies: Bodies::new(alloc),
            trace: Trace {
                steps: Vec::new(alloc),
            },
            under: None,
            dead: None,
        }
    }

    /// Puts a step on the disk that has a record: a new body, if there is one, the record's row, and an end to files that are
    /// needed no more. Then the step stands in the trace, with the number of calls that the disk was asked. A stop at any moment
    /// leaves the table from before the step or from after it. Where the disk fails, the desk is dead, and the step is the one
    /// under way exactly where its record was begun: then its body is stored.
    pub fn enter(
        &mut self,
        step: Step,
        fresh: Option<u32>,
        bytes: &[u8],
        row: &[u8],
        freed: &[u32],
    ) -> Result<(), DeskFault>
        requires fits { IsPayload row.now }
        requires fresh_apart { (f : ℕ) → fresh ≡ Some f → 2 ≤ f }
        requires freed_apart { All (λ f. 2 ≤ f) freed.now }
        requires room { length self.old.trace.steps.items < vec_capacity self.old.trace.steps }
        requires ready { D.honest self.old.disk → IsReady (journal_end self.old.journal) (D.seen self.old.disk 0) (D.past self.old.disk (D.moment self.old.disk) 0) }

        ensures live { D.honest self.new.disk → OnOk result ((url : List ℕ) (opening : DeskTable) (start : ℕ) (given : ℕ → List ℕ) → IsLegal (table_after opening self.old.trace.steps.items) step
            → IsPlanned (table_after opening self.old.trace.steps.items) step given fresh bytes.now row.now freed.now
            → IsLive D.moment D.seen D.past url opening start given self.old → IsLive D.moment D.seen D.past url opening start given self.new) }
        ensures left { D.honest self.new.disk → OnErr result ((url : List ℕ) (opening : DeskTable) (start : ℕ) (given : ℕ → List ℕ) → IsLegal (table_after opening self.old.trace.steps.items) step
            → IsPlanned (table_after opening self.old.trace.steps.items) step given fresh bytes.now row.now freed.now
            → IsLive D.moment D.seen D.past url opening start given self.old → IsLeft D.moment D.past url opening start given self.new) }
        ensures ended { OnOk result ((self.new.trace.steps.items ≡ self.old.trace.steps.items ++ record step { moment = D.moment self.new.disk } ∷ [])
            × (self.new.under ≡ self.old.under) × (self.new.dead ≡ self.old.dead)) }
        ensures stopped { IfErr result (λ e. (e ≡ DiskFault) × (self.new.dead ≡ Some DiskFault) × Rose (D.faults self.old.disk) (D.faults self.new.disk)
            × (self.new.trace.steps.items ≡ self.old.trace.steps.items)
            × ((self.new.under ≡ self.old.under) ⊎ (self.new.under ≡ Some (record step { moment = D.moment self.new.disk })))) }
        ensures ready { D.honest self.new.disk → OnOk result (IsReady (journal_end self.new.journal) (D.seen self.new.disk 0) (D.past self.new.disk (D.moment self.new.disk) 0)) }
        ensures changes { D.honest self.new.disk → ChangesOnly D.moment D.seen D.past (IsWritten fresh freed.now) self.old.disk self.new.disk }
        ensures under { OnErr result (IsUnder D.honest D.moment D.seen D.past fresh bytes.now freed.now step self.old.disk self.new.disk self.old.under self.new.under) }
        ensures counts { IsCountedAs (entry_calls fresh freed.now) (D.moment self.old.disk) (D.moment self.new.disk) result }
        ensures stored { D.honest self.new.disk → OnOk result (IsStored fresh bytes.now freed.now (D.seen self.new.disk) (D.past self.new.disk (D.moment self.new.disk))) }
        ensures emptied { D.honest self.new.disk → OnOk result (AreEmpty freed.now (D.seen self.new.disk) (D.past self.new.disk (D.moment self.new.disk))) }
        ensures capacity { vec_capacity self.old.trace.steps ≤ vec_capacity self.new.trace.steps }
        ensures keeps { D.honest self.new.disk → D.honest self.old.disk }
        ensures faults { D.faults self.old.disk ≤ D.faults self.new.disk }
    {
        let mut step = step;
        match commit(
            &mut self.journal,
            &mut self.bodies,
            &mut self.disk,
            fresh,
            bytes,
            row,
            freed,
        ) {
            Ok(()) => {
                step.moment = self.disk.calls();
                self.push(step);
                Ok(())
            }
            Err(Stop::Before) => {
                self.dead = Some(DeskFault::Disk);
                Err(DeskFault::Disk)
            }
            Err(Stop::Under) => {
                step.moment = self.disk.calls();
                self.dead = Some(DeskFault::Disk);
                self.under = Some(step);
                Err(DeskFault::Disk)
            }
        }
    }

    /// Puts a step on the disk that has no record: at most files are emptied that are needed no more. Then the step stands in the
    /// trace, as one with a record does. A stop at any moment leaves the same table. Where the disk fails, the desk is dead.
    pub fn enter_quiet(&mut self, step: Step, freed: &[u32]) -> Result<(), DeskFault>
        requires freed_apart { All (λ f. 2 ≤ f) freed.now }
        requires room { length self.old.trace.steps.items < vec_capacity self.old.trace.steps }

        ensures live { D.honest self.new.disk → OnOk result ((url : List ℕ) (opening : DeskTable) (start : ℕ) (given : ℕ → List ℕ) → IsLegal (table_after opening self.old.trace.steps.items) step
            → IsQuiet (table_after opening self.old.trace.steps.items) step freed.now
            → IsLive D.moment D.seen D.past url opening start given self.old → IsLive D.moment D.seen D.past url opening start given self.new) }
        ensures left { D.honest self.new.disk → OnErr result ((url : List ℕ) (opening : DeskTable) (start : ℕ) (given : ℕ → List ℕ)
            → IsQuiet (table_after opening self.old.trace.steps.items) step freed.now
            → IsLive D.moment D.seen D.past url opening start given self.old → IsLeft D.moment D.past url opening start given self.new) }
        ensures ended { OnOk result ((self.new.trace.steps.items ≡ self.old.trace.steps.items ++ record step { moment = D.moment self.new.disk } ∷ [])
            × (self.new.under ≡ self.old.under) × (self.new.dead ≡ self.old.dead)) }
        ensures stopped { IfErr result (λ e. (e ≡ DiskFault) × (self.new.dead ≡ Some DiskFault) × Rose (D.faults self.old.disk) (D.faults self.new.disk)
            × (self.new.trace.steps.items ≡ self.old.trace.steps.items) × (self.new.under ≡ self.old.under)) }
        ensures ready { D.honest self.new.disk → IsReady (journal_end self.old.journal) (D.seen self.old.disk 0) (D.past self.old.disk (D.moment self.old.disk) 0)
            → IsReady (journal_end self.new.journal) (D.seen self.new.disk 0) (D.past self.new.disk (D.moment self.new.disk) 0) }
        ensures changes { D.honest self.new.disk → ChangesOnly D.moment D.seen D.past (Contains freed.now) self.old.disk self.new.disk }
        ensures counts { IsCountedAs (freeing_calls freed.now) (D.moment self.old.disk) (D.moment self.new.disk) result }
        ensures emptied { D.honest self.new.disk → OnOk result (AreEmpty freed.now (D.seen self.new.disk) (D.past self.new.disk (D.moment self.new.disk))) }
        ensures capacity { vec_capacity self.old.trace.steps ≤ vec_capacity self.new.trace.steps }
        ensures keeps { D.honest self.new.disk → D.honest self.old.disk }
        ensures faults { D.faults self.old.disk ≤ D.faults self.new.disk }
    {
        let mut step = step;
        match release(&mut self.bodies, &mut self.disk, freed) {
            Ok(()) => {
                step.moment = self.disk.calls();
                self.push(step);
                Ok(())
            }
            Err(_) => {
                self.dead = Some(DeskFault::Disk);
                Err(DeskFault::Disk)
            }
        }
    }

    /// The bytes of a body. Answers `Damaged` where they do not have the body's SHA-256, which does not come to a body of the
    /// table over a disk that keeps the model, and `Memory` only before the first
    /// device call; after `Disk` and `Damaged` the desk is dead. At any answer a stop leaves what it left before.
    pub fn fetch(&mut self, id: &BodyId) -> Result<Blob, DeskFault>
        ensures bytes { D.honest self.new.disk → IfOk result (λ blob. (url : List ℕ) (opening : DeskTable) (start : ℕ) (given : ℕ → List ℕ) → IsLive D.moment D.seen D.past url opening start given self.old
            → Contains (bodies_of (kept_table (table_after opening self.old.trace.steps.items))) id.now → blob ≡ given id.now.file) }
        ensures sum { IfOk result (λ blob. sha256 blob ≡ id.now.sum) }
        ensures live { D.honest self.new.disk → (url : List ℕ) (opening : DeskTable) (start : ℕ) (given : ℕ → List ℕ) → IsLive D.moment D.seen D.past url opening start given self.old
            → IsLive D.moment D.seen D.past url opening start given self.new }
        ensures seen { D.honest self.new.disk → AllStay (D.seen self.old.disk) (D.seen self.new.disk) }
        ensures fault { IfErr result (λ e. IsFetchFault (D.honest self.new.disk) id.now (D.seen self.old.disk id.now.file) (D.faults self.old.disk) (D.faults self.new.disk) e) }
        ensures undamaged { D.honest self.new.disk → IfErr result (λ e. (url : List ℕ) (opening : DeskTable) (start : ℕ) (given : ℕ → List ℕ) → IsLive D.moment D.seen D.past url opening start given self.old
            → Contains (bodies_of (kept_table (table_after opening self.old.trace.steps.items))) id.now → IsUndamaged e) }
        ensures starved { IfErr result (λ e. e ≡ MemoryFault → (self.new.disk ≡ self.old.disk) × (self.new.dead ≡ self.old.dead)) }
        ensures stopped { IfErr result (λ e. e ≢ MemoryFault → self.new.dead ≡ Some e) }
        ensures alive { OnOk result (self.new.dead ≡ self.old.dead) }
        ensures trace { (self.new.trace ≡ self.old.trace) × (self.new.under ≡ self.old.under) }
        ensures ready { D.honest self.new.disk → IsReady (journal_end self.old.journal) (D.seen self.old.disk 0) (D.past self.old.disk (D.moment self.old.disk) 0)
            → IsReady (journal_end self.new.journal) (D.seen self.new.disk 0) (D.past self.new.disk (D.moment self.new.disk) 0) }
        ensures changes { D.honest self.new.disk → ChangesOnly D.moment D.seen D.past (λ _. ⊥) self.old.disk self.new.disk }
        ensures counts { IsCountedAs 1 (D.moment self.old.disk) (D.moment self.new.disk) result }
        ensures keeps { D.honest self.new.disk → D.honest self.old.disk }
        ensures faults { D.faults self.old.disk ≤ D.faults self.new.disk }
    {
        match self.bodies.fetch(&mut self.disk, id) {
            Ok(bytes) => Ok(bytes),
            Err(fault) => Err(self.fail(fault)),
        }
    }

    // The desk is dead from then on, unless there was only no memory.
    fn fail(&mut self, fault: StoreFault) -> DeskFault
        ensures fault { result ≡ desk_fault fault }
        ensures rest { self.new ≡ record self.old { dead = self.new.dead } }
        ensures dead { self.new.dead ≡ dead_after self.old.dead fault }
    {
        match fault {
            StoreFault::Memory => {}
            StoreFault::Disk => self.dead = Some(DeskFault::Disk),
            StoreFault::NotACache { at } => self.dead = Some(DeskFault::NotACache { at }),
            StoreFault::Damaged {
                file,
                stored,
                found,
            } => {
                self.dead = Some(DeskFault::Damaged {
                    file,
                    stored,
                    found,
                })
            }
        }
        fault_of(fault)
    }

    /// Takes room for so many steps more. Where there is that room it is Ok.
    pub fn reserve(&mut self, steps: usize) -> Result<(), Memory>
        ensures room { OnOk result (length self.new.trace.steps.items + steps ≤ vec_capacity self.new.trace.steps) }
        ensures succeeds { length self.old.trace.steps.items + steps ≤ vec_capacity self.old.trace.steps → IsOk result }
        ensures capacity { vec_capacity self.old.trace.steps ≤ vec_capacity self.new.trace.steps }
        ensures items { self.new.trace.steps.items ≡ self.old.trace.steps.items }
        ensures rest { self.new ≡ record self.old { trace = self.new.trace } }
    {
        self.trace.steps.reserve(steps)?;
        Ok(())
    }

    /// The steps so far.
    pub fn trace(&self) -> &Trace
        ensures { result.now ≡ self.now.trace }
    {
        &self.trace
    }

    /// Why the desk is dead, if it is: the disk failed, or a body is damaged.
    pub fn dead(&self) -> Option<&DeskFault>
        ensures { option_map (λ fault. fault.now) result ≡ self.now.dead }
    {
        self.dead.as_ref()
    }

    /// The disk, the steps, and the one whose record was begun when the disk failed.
    pub fn into_parts(self) -> (D, Trace, Option<Step>)
        ensures disk { result.0 ≡ self.disk }
        ensures trace { result.1 ≡ self.trace }
        ensures under { result.2 ≡ self.under }
    {
        let Recorder {
            disk,
            journal: _,
            bodies: _,
            trace,
            under,
            dead: _,
        } = self;
        (disk, trace, under)
    }

    // The step stands in the trace.
    fn push(&mut self, step: Step)
        requires { length self.old.trace.steps.items < vec_capacity self.old.trace.steps }
        ensures rest { self.new ≡ record self.old { trace = self.new.trace } }
        ensures items { self.new.trace.steps.items ≡ self.old.trace.steps.items ++ step ∷ [] }
        ensures capacity { vec_capacity self.new.trace.steps ≡ vec_capacity self.old.trace.steps }
    {
        self.trace.steps.push_reserved(step);
    }
}
