ghost use Rattle.std.specs.Prelude.{◌≡◌, ◌≢◌, ◌⊎◌, ℕ, ◌<◌, ◌≤◌, true, List, [], length, All, IfOk, IfErr, OnOk, OnErr, MatchResult, None, Some, option_map, vec_capacity};
ghost use Rattle.dav_machine.specs.Log.{Rose};
ghost use Rattle.dav_store.specs.Rows.{IsPayload, IsReady};
ghost use Rattle.dav_store.specs.View.{journal_end};
ghost use Rattle.dav_index.specs.Bounds.{queued_count as queued_in};
ghost use Rattle.dav_index.specs.declared.table.Table.{Table};
ghost use Rattle.dav_deeds.specs.Answers.{kind_told, Ends};
ghost use Rattle.dav_deeds.specs.DeskTable.{DeskTable, started};
ghost use Rattle.dav_deeds.specs.Effects.{after, told_of};
ghost use Rattle.dav_deeds.specs.Legal.{IsAsk, deed_of};
ghost use Rattle.dav_deeds.specs.Spare.{HasSpare, kept_spare as kept_spare_lem, ends_job};
ghost use Rattle.dav_deeds.specs.declared.fault.DeskFault.{DeskFault as TheFault};
ghost use Rattle.dav_deeds.specs.declared.fault.DeskFault.TheVariants.{Memory as MemoryFault};
ghost use Rattle.dav_deeds.specs.Sound.{IsSound};
ghost use Rattle.dav_recorder.specs.Stands.{EachImage};
ghost use Rattle.dav_recorder.specs.Recovers.{Recovers, AllRecover};
ghost use Rattle.dav_recorder.specs.Opening.{IsIndexOf, IsStartFault, IsUndamaged};
ghost use Rattle.dav_deeds.specs.Change.{IsPlan};
ghost use Rattle.dav_desk.specs.Verdict.{with_bytes as with_bytes_lem};
ghost use Rattle.dav_desk.specs.Ends.{IsEnd};
ghost use Rattle.dav_desk.specs.Room.{slots as slots_lem};

use crate::entry::{enter, told_bytes};
use dav_deeds::{
    Answer, Ask, DeskFault, DeskTable, Made, Planned, Spare, Step, Told, Trace, Who, kept_spare,
};
use dav_disk::Disk;
use dav_recorder::Recorder;
use dav_text::Blob;
use std::alloc::Global;

// The fault by which a desk is dead, again.
fn again(fault: &DeskFault) -> DeskFault
    requires { IsEnd fault.now }
    ensures { result ≡ fault.now }
{
    match fault {
        DeskFault::Disk => DeskFault::Disk,
        DeskFault::NotACache { at } => DeskFault::NotACache { at: *at },
        DeskFault::Damaged {
            file,
            stored,
            found,
        } => DeskFault::Damaged {
            file: *file,
            stored: *stored,
            found: *found,
        },
        _ => unreachable!(),
    }
}

// What was told with these bytes, or why the ask was refused.
fn with_bytes(answer: Result<Told, DeskFault>, bytes: Blob) -> Result<Answer, DeskFault>
    ensures { result ≡ with_bytes_lem answer bytes }
{
    match answer {
        Ok(told) => Ok(told.with_bytes(bytes)),
        Err(fault) => Err(fault),
    }
}

// For how many steps there has to be room: the end of a job is the one for which room was left before, and any other step leaves
// room for that.
fn slots(told: &Option<Told>) -> usize
    ensures { result ≡ slots_lem told.now }
{
    match told {
        Some(told) => { if told.is_end() { 1 } else { 2 } }
        None => 2,
    }
}

/// A desk: the table of the files that it keeps, and the disk on which each of its steps stands.
#[derive(Drop)]
pub struct Desk<D> {
    alloc: Global,
    recorder: Recorder<D>,
    table: DeskTable,
    /// What the end of the job in flight needs.
    spare: Option<Spare>,
}

impl<D: Disk> Desk<D> {
    ghost use Rattle.dav_desk.specs.Ended.{IsAsked};
    ghost use Rattle.dav_recorder.specs.Files.{ChangesOnly};
    ghost use Rattle.dav_desk.specs.Called.{AreTimed, IsCalled};
    ghost use Rattle.dav_desk.specs.Changed.{ChangesAsked, IsPut};
    ghost use Rattle.dav_desk.specs.Room.{IsHeldFor};
    ghost use Rattle.dav_desk.specs.Working.{IsReadied, IsWorking, IsStopped, AreGiven, HasBytes, HasSum};

    /// Starts a desk over the index of a disk for a URL. Where nothing stands there an index is made. Answers `NotACache` with
    /// the offset of the first row that is not as it must be, and `OtherServer` where the index is one of another URL; the
    /// disk is given back. A stop while it runs leaves what a start finds the same table in.
    pub fn start(alloc: Global, disk: D, url: &str) -> Result<Desk<D>, (D, DeskFault)>
        requires { length url.now < 65505 }

        ensures working { IfOk result (λ desk. D.honest desk.recorder.disk → (table : Table) (given : ℕ → List ℕ) → AllRecover url.now table given (D.past disk (D.moment disk))
            → (desk.table ≡ started table) × IsWorking D.moment D.seen D.past url.now (started table) (D.moment disk) given desk) }
        ensures any_moment { (table : Table) (given : ℕ → List ℕ) → AllRecover url.now table given (D.past disk (D.moment disk))
            → MatchResult result (λ desk. D.honest desk.recorder.disk → EachImage (D.past desk.recorder.disk) (D.moment disk) (D.moment desk.recorder.disk) (Recovers url.now table given))
            (λ both. D.honest both.0 → EachImage (D.past both.0) (D.moment disk) (D.moment both.0) (Recovers url.now table given)) }
        ensures opened { IfOk result (λ desk. D.honest desk.recorder.disk → (length (D.seen disk 0) < 1099511627776) × IsIndexOf url.now desk.table.index (D.seen disk 0)) }
        ensures indexed { IfOk result (λ desk. (file : List ℕ) × IsIndexOf url.now desk.table.index file) }
        ensures fault { IfErr result (λ both. IsStartFault (D.honest both.0) url.now (D.seen disk 0) (D.faults disk) (D.faults both.0) both.1) }
        ensures fresh { IfOk result (λ desk. (desk.table ≡ started desk.table.index) × IsSound desk.table × (desk.recorder.trace.steps.items ≡ [])
            × (desk.recorder.under ≡ None) × (desk.recorder.dead ≡ None)) }
        ensures readied { IfOk result (λ desk. IsReadied D.honest D.moment D.seen D.past desk) }
        ensures changes { MatchResult result (λ desk. D.honest desk.recorder.disk → ChangesOnly D.moment D.seen D.past (λ f. f ≡ 0) disk desk.recorder.disk) (λ both. D.honest both.0 → ChangesOnly D.moment D.seen D.past (λ f. f ≡ 0) disk both.0) }
        ensures keeps { MatchResult result (λ desk. D.honest desk.recorder.disk → D.honest disk) (λ both. D.honest both.0 → D.honest disk) }
        ensures moments { MatchResult result (λ desk. AreTimed (D.moment disk) desk.recorder.trace.steps.items (D.moment desk.recorder.disk)) (λ both. D.moment disk ≤ D.moment both.0) }
        ensures faults { MatchResult result (λ desk. D.faults disk ≤ D.faults desk.recorder.disk) (λ both. D.faults disk ≤ D.faults both.0) }
    {
        match Recorder::start(alloc, disk, url) {
            Ok((recorder, index)) => Ok(Desk {
                alloc,
                recorder,
                table: DeskTable::start(alloc, index),
                spare: None,
            }),
            Err(both) => Err(both),
        }
    }

    /// Does what is asked at this time, in seconds, and tells what it came to, or why it is refused. It is done in the table and
    /// on the disk, or in neither: a stop at any moment leaves the table from before or from after it. Then the step stands in
    /// the trace, a refused one too; a take that finds nothing is no step. Answers `Disk` where the disk failed, and `Damaged`
    /// where the bytes of a body that is told are not those that were kept. The desk is dead then, answers the same again, and does nothing
    /// any more. A step's moment is the count of the disk's calls at its end, and the step under way is this one exactly where the
    /// disk failed once the writing of its record had begun. Answers `Memory` only before the first device call, and nothing is changed then; never to the end of the job in
    /// flight, which uses the memory that was taken with the job.
    pub fn step(&mut self, who: Who, ask: &Ask, now: u64) -> Result<Answer, DeskFault>
        requires ask { IsAsk ask.now }
        requires readied { IsReadied D.honest D.moment D.seen D.past self.old }

        ensures asked { IsAsked D.honest D.moment D.seen D.faults who now ask.now self.old self.new result }
        ensures working { D.honest self.new.recorder.disk → (url : List ℕ) (opening : DeskTable) (start : ℕ) (given : ℕ → List ℕ) → AreGiven self.old.table given ask.now → IsWorking D.moment D.seen D.past url opening start given self.old
            → self.new.recorder.dead ≡ None → IsWorking D.moment D.seen D.past url opening start given self.new }
        ensures stopped { D.honest self.new.recorder.disk → (url : List ℕ) (opening : DeskTable) (start : ℕ) (given : ℕ → List ℕ) → AreGiven self.old.table given ask.now → IsWorking D.moment D.seen D.past url opening start given self.old
            → self.new.recorder.dead ≢ None → IsStopped D.moment D.past url opening start given self.new }
        ensures bytes { D.honest self.new.recorder.disk → IfOk result (λ answer. (url : List ℕ) (opening : DeskTable) (start : ℕ) (given : ℕ → List ℕ) → IsWorking D.moment D.seen D.past url opening start given self.old → HasBytes given (told_of self.old.table now (deed_of self.old.table ask.now)) answer) }
        ensures sum { IfOk result (HasSum (told_of self.old.table now (deed_of self.old.table ask.now))) }
        ensures sound { IsSound self.new.table }
        ensures readied { IsReadied D.honest D.moment D.seen D.past self.new }
        ensures changes { D.honest self.new.recorder.disk → ChangesAsked D.moment D.seen D.past now ask.now self.old self.new }
        ensures put { D.honest self.new.recorder.disk → OnOk result (IsPut D.moment D.seen D.past now ask.now self.old self.new) }
        ensures ends { ends_job self.old.table.job ask.now ≡ true → IfErr result (λ e. e ≢ MemoryFault) }
        ensures undamaged { D.honest self.new.recorder.disk → (url : List ℕ) (opening : DeskTable) (start : ℕ) (given : ℕ → List ℕ) → IsWorking D.moment D.seen D.past url opening start given self.old
            → (fault : TheFault) → self.new.recorder.dead ≡ Some fault → IsUndamaged fault }
        ensures called { IsCalled D.honest D.moment D.seen D.past who now ask.now self.old self.new }
        ensures keeps { D.honest self.new.recorder.disk → D.honest self.old.recorder.disk }
        ensures faults { D.faults self.old.recorder.disk ≤ D.faults self.new.recorder.disk }
    {
        let _ = self.table.index();
        if let Some(fault) = self.recorder.dead() {
            return Err(again(fault));
        }
        let mut row = Vec::new(self.alloc);
        if self.table.ends_job(ask) {
            let Some(spare) = self.spare.take() else {
                unreachable!();
            };
            let planned = self.table.plan_end(who, ask, now, spare, &mut row);
            return self.carry_out(planned, None, ask, row.as_slice());
        }
        let Some(planned) = self.table.plan(who, ask, now, &mut row)? else {
            return Ok(Answer::Idle);
        };
        let saved = self.table.save(&planned.made.step.told)?;
        self.carry_out(planned, saved, ask, row.as_slice())
    }

    // Puts the step that the ask is on the disk, and then makes its change of the table. What was saved for the end of the job is
    // kept with it.
    fn carry_out(
        &mut self,
        planned: Planned,
        saved: Option<Spare>,
        ask: &Ask,
        row: &[u8],
    ) -> Result<Answer, DeskFault>
        requires alive { self.old.recorder.dead ≡ None }
        requires sound { IsSound self.old.table }
        requires plan { IsPlan self.old.table planned.made.step.who planned.made.step.now ask.now (Some planned) row.now }
        requires ready { D.honest self.old.recorder.disk → IsReady (journal_end self.old.recorder.journal) (D.seen self.old.recorder.disk 0) (D.past self.old.recorder.disk (D.moment self.old.recorder.disk) 0) }
        requires held { IsHeldFor planned.made.step.told self.old }
        requires next { HasSpare (after self.old.table planned.made.step.now (deed_of self.old.table ask.now)) (kept_spare_lem saved self.old.spare) }

        ensures asked { IsAsked D.honest D.moment D.seen D.faults planned.made.step.who planned.made.step.now ask.now self.old self.new result }
        ensures working { D.honest self.new.recorder.disk → (url : List ℕ) (opening : DeskTable) (start : ℕ) (given : ℕ → List ℕ) → AreGiven self.old.table given ask.now → IsWorking D.moment D.seen D.past url opening start given self.old
            → self.new.recorder.dead ≡ None → IsWorking D.moment D.seen D.past url opening start given self.new }
        ensures stopped { D.honest self.new.recorder.disk → (url : List ℕ) (opening : DeskTable) (start : ℕ) (given : ℕ → List ℕ) → AreGiven self.old.table given ask.now → IsWorking D.moment D.seen D.past url opening start given self.old
            → self.new.recorder.dead ≢ None → IsStopped D.moment D.past url opening start given self.new }
        ensures bytes { D.honest self.new.recorder.disk → IfOk result (λ answer. (url : List ℕ) (opening : DeskTable) (start : ℕ) (given : ℕ → List ℕ) → IsWorking D.moment D.seen D.past url opening start given self.old → HasBytes given planned.made.step.told answer) }
        ensures sum { IfOk result (HasSum planned.made.step.told) }
        ensures sound { IsSound self.new.table }
        ensures readied { IsReadied D.honest D.moment D.seen D.past self.new }
        ensures changes { D.honest self.new.recorder.disk → ChangesAsked D.moment D.seen D.past planned.made.step.now ask.now self.old self.new }
        ensures put { D.honest self.new.recorder.disk → OnOk result (IsPut D.moment D.seen D.past planned.made.step.now ask.now self.old self.new) }
        ensures ends { kind_told planned.made.step.told ≡ Ends → IfErr result (λ e. e ≢ MemoryFault) }
        ensures undamaged { D.honest self.new.recorder.disk → (url : List ℕ) (opening : DeskTable) (start : ℕ) (given : ℕ → List ℕ) → IsWorking D.moment D.seen D.past url opening start given self.old
            → (fault : TheFault) → self.new.recorder.dead ≡ Some fault → IsUndamaged fault }
        ensures called { IsCalled D.honest D.moment D.seen D.past planned.made.step.who planned.made.step.now ask.now self.old self.new }
        ensures keeps { D.honest self.new.recorder.disk → D.honest self.old.recorder.disk }
        ensures faults { D.faults self.old.recorder.disk ≤ D.faults self.new.recorder.disk }
    {
        let Planned { made, change } = planned;
        let Made {
            step,
            answer,
            released,
        } = made;
        self.recorder.reserve(slots(&step.told))?;
        let bytes = match told_bytes(self.alloc, &mut self.recorder, &step.told) {
            Ok(bytes) => bytes,
            Err(fault) => return Err(fault),
        };
        match enter(
            &mut self.recorder,
            step,
            ask.bytes(),
            row,
            released.as_slice(),
        ) {
            Ok(()) => {}
            Err(fault) => return Err(fault),
        }
        self.table.apply(change);
        self.spare = kept_spare(saved, self.spare.take());
        with_bytes(answer, bytes)
    }

    /// The steps so far, in their order.
    pub fn trace(&self) -> &Trace
        ensures { result.now ≡ self.now.recorder.trace }
    {
        self.recorder.trace()
    }

    /// How many files are queued.
    pub fn queued_count(&self) -> u32
        ensures { result ≡ queued_in self.now.table.index.entries }
    {
        self.table.queued_count()
    }

    /// How many files are lost.
    pub fn lost_count(&self) -> u32
        ensures { result ≡ length self.now.table.index.lost }
    {
        self.table.lost_count()
    }

    /// Why the desk is dead, if it is: the disk failed, or a body is damaged.
    pub fn dead(&self) -> Option<&DeskFault>
        ensures { option_map (λ fault. fault.now) result ≡ self.now.recorder.dead }
    {
        self.recorder.dead()
    }

    /// The disk, the steps, and the one whose record was begun when the disk failed.
    pub fn into_parts(self) -> (D, Trace, Option<Step>)
        ensures disk { result.0 ≡ self.recorder.disk }
        ensures trace { result.1 ≡ self.recorder.trace }
        ensures under { result.2 ≡ self.recorder.under }
    {
        self.recorder.into_parts()
    }
}
