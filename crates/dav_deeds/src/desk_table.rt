ghost use Rattle.std.specs.Prelude.{◌≡◌, ℕ, ◌+◌, ◌<◌, ◌^◌, ◌≤◌, true, false, [], length, IfOk, OnOk, OnErr, Ok, Option, None, Some};
ghost use Rattle.std.specs.Vec.{vec_capacity};
ghost use Rattle.dav_text.specs.Path.{IsPath};
ghost use Rattle.std.specs.List.{list_any};
ghost use Rattle.dav_index.specs.Items.{goes_with};
ghost use Rattle.dav_index.specs.Bounds.{IsWithin, queued_count as queued_in};
ghost use Rattle.dav_index.specs.Tables.{restarted};
ghost use Rattle.dav_index.specs.Records.{IsBare, IsRecord, text_of};
ghost use Rattle.dav_index.specs.declared.record.Record.{Record};
ghost use Rattle.dav_deeds.specs.declared.deed.Deed.{Deed};
ghost use Rattle.dav_deeds.specs.declared.ask.Ask.TheVariants as asks;
ghost use Rattle.dav_deeds.specs.DeskTable.{started};
ghost use Rattle.dav_deeds.specs.Refusals.{store_refusal, queued_with};
ghost use Rattle.dav_deeds.specs.Effects.{Wait, after, quiet, effect_of, bare, file_of, files_of, going, body_at as body_at_lem, is_flying, grounded, forgot_record as forgot_record_lem, mark_of_fate, record_of_fate, released_by_fate, fated_of, store_effect, forget_effect, taken, take_effect, settle_by_fate, waited, recorded};
ghost use Rattle.dav_deeds.specs.Legal.{IsAsk, IsDeed, IsDone};
ghost use Rattle.dav_deeds.specs.Sound.{IsSound};
ghost use Rattle.dav_deeds.specs.Made.{row_of, AreRecords, tried_by, wait_by as wait_by_lem, file_going as file_going_lem, IsMade};
ghost use Rattle.dav_deeds.specs.declared.answer.Fated.{Fated};
ghost use Rattle.dav_deeds.specs.declared.answer.Flight.{Flight};
ghost use Rattle.dav_deeds.specs.declared.answer.Told.TheVariants as answers;
ghost use Rattle.dav_deeds.specs.Spare.{HasTwo, AreRows, IsSpare, HasSpare, IsSaved, ends_job as ends_job_lem};
ghost use Rattle.dav_deeds.specs.Change.{CanNote, Notes, IsWaiting, IsChange, CanChange, IsPlannedBy, IsPlan};

use crate::answer::{Fated, Flight, Told};
use crate::ask::{Ask, Done, Who};
use crate::bare::bare_path;
use crate::deed::{Deed, Mark, Step};
use crate::fates::{fated, waiting_at};
use crate::fault::DeskFault;
use crate::made::{Made, refused};
use crate::pause::later;
use crate::plan::{Change, NextJob, Noting, Planned, Waits, job_with, jobs_with};
use crate::queries::{next_due, queued_count};
use crate::refusals::{forget_fault, store_fault};
use crate::spare::{Rows, Spare};
use dav_index::{Held, Prepared, Record, Table, Waiting};
use dav_store::BodyId;
use dav_text::{Blob, Memory, Path, Seen};
use std::alloc::Global;
use std::marker::Model;

/// How many seconds bytes wait before they are sent first.
const FIRST_PAUSE: u64 = 10;

/// The table of a desk: that of its index, the job in flight, how many jobs there were, and whether the
/// desk is about to end.
#[derive(Drop)]
pub struct DeskTable {
    alloc: Global,
    index: Table,
    job: Option<Flight>,
    jobs: u64,
    stopping: bool,
}

impl Model for DeskTable {
    ghost use Rattle.dav_deeds.specs.DeskTable.{DeskTable};

    ghost Value = { DeskTable };

    ghost use Rattle.dav_deeds.specs.DeskView.{table_of, IsHeld};

    ghost view = { table_of };

    ghost invariant = { IsHeld };
}

// Whether it is the file of the job in flight.
fn flies(job: &Option<Flight>, file: u32) -> bool
    ensures { result ≡ is_flying job.now file }
{
    match job {
        Some(flight) => flight.body.file == file,
        None => false,
    }
}

// The body that is kept of the path.
fn body_at(index: &Table, path: &Path) -> Option<BodyId>
    ensures { result ≡ body_at_lem path.now index.now.entries }
{
    match index.entries.get(path) {
        Some(entry) => entry.body,
        None => None,
    }
}

// The file of the body, unless it is that of the job in flight.
fn file_but(alloc: Global, job: &Option<Flight>, body: Option<BodyId>) -> Result<Vec<u32>, Memory>
    ensures { IfOk result (λ files. files.items ≡ grounded job.now (file_of body)) }
{
    let mut files = Vec::new(alloc);
    let Some(body) = body else {
        return Ok(files);
    };
    if flies(job, body.file) {
        return Ok(files);
    }
    files.push(body.file)?;
    Ok(files)
}

// The number of the next record.
fn next_row(index: &Table) -> Result<u64, Memory>
    ensures { IfOk result (λ row. row ≡ index.now.records + 1) }
{
    match index.records.checked_add(1) {
        Some(row) => Ok(row),
        None => Err(Memory),
    }
}

// Whether an entry goes with the path.
fn goes_any(index: &Table, path: &Path, below: bool) -> bool
    ensures { result ≡ list_any (goes_with path.now below) index.now.entries }
{
    index
        .entries
        .as_slice()
        .iter()
        .any(|held| held.goes_with(path, below))
}

// The record that the path is forgotten, where anything goes with it.
fn forgot_record(
    alloc: Global,
    index: &Table,
    path: &Path,
    locks: bool,
    below: bool,
) -> Result<Option<Record>, Memory>
    ensures { IfOk result (λ found. found ≡ forgot_record_lem path.now locks below (going path.now below index.now.entries)) }
{
    if !goes_any(index, path, below) {
        return Ok(None);
    }
    let path = path.copy(alloc)?;
    Ok(Some(Record::Forgot { path, locks, below }))
}

// The file of the entry's body, where the entry goes with the path and the file isn't that of the job in
// flight.
fn file_going(held: &Held, job: &Option<Flight>, path: &Path, below: bool) -> Option<u32>
    ensures { result ≡ file_going_lem job.now path.now below held.now }
{
    if !held.goes_with(path, below) {
        return None;
    }
    match held.entry().body {
        Some(body) => {
            if flies(job, body.file) {
                None
            } else {
                Some(body.file)
            }
        }
        None => None,
    }
}

// The files of the bodies that go with the path, but that of the job in flight.
fn files_going(
    alloc: Global,
    index: &Table,
    job: &Option<Flight>,
    path: &Path,
    below: bool,
) -> Result<Vec<u32>, Memory>
    ensures { IfOk result (λ files. files.items ≡ grounded job.now (files_of (going path.now below index.now.entries))) }
{
    let mut files = Vec::new(alloc);
    for held in index.entries.as_slice() {
        let Some(file) = file_going(held, job, path, below) else {
            continue;
        };
        files.push(file)?;
    }
    Ok(files)
}

// The record with the memory to note it, and its row.
fn noting(index: &Table, what: Record, row: &mut Vec<u8>) -> Result<Noting, Memory>
    requires is_record { IsRecord what }
    requires blank { row.old.items ≡ [] }
    ensures noting { IfOk result (λ noting. CanNote index.now what noting) }
    ensures row { OnOk result (row.new.items ≡ text_of what) }
{
    let prepared = index.prepare(&what)?;
    let number = next_row(index)?;
    what.write(row)?;
    Ok(Noting {
        what,
        row: number,
        prepared,
    })
}

// The same where there is a record, and no row where there is none.
fn noting_if(
    index: &Table,
    found: Option<Record>,
    row: &mut Vec<u8>,
) -> Result<Option<Noting>, Memory>
    requires is_record { AreRecords found }
    requires blank { row.old.items ≡ [] }
    ensures noting { IfOk result (λ noting. Notes index.now found noting) }
    ensures row { OnOk result (row.new.items ≡ row_of found) }
{
    let Some(found) = found else {
        return Ok(None);
    };
    let noting = noting(index, found, row)?;
    Ok(Some(noting))
}

// The bytes of the job count as tried, where the desk is about to end.
fn tried_if(
    alloc: Global,
    index: &Table,
    stopping: bool,
    flight: &Flight,
) -> Result<Option<Waits>, Memory>
    ensures { IfOk result (λ waits. IsWaiting (tried_by stopping index.now flight.now) waits) }
{
    if !stopping {
        return Ok(None);
    }
    let waiting = waiting_at(index, &flight.path);
    let path = flight.path.copy(alloc)?;
    Ok(Some(Waits {
        path,
        waiting: Waiting {
            attempts: waiting.attempts,
            due: waiting.due,
            tried: true,
        },
    }))
}

// The bytes of the job of this path wait, where that became of them.
fn waits_by(path: Path, tried: bool, fated: Fated) -> Option<Waits>
    ensures { (flight : Flight) → path ≡ flight.path → IsWaiting (wait_by_lem flight tried fated) result }
{
    let Fated::Waits { attempts, due } = fated else {
        return None;
    };
    Some(Waits {
        path,
        waiting: Waiting {
            attempts,
            due,
            tried,
        },
    })
}

// Notes the record, if there is one.
fn note(index: &mut Table, noting: Option<Noting>)
    requires { (found : Option Record) × Notes index.old found noting }
    ensures { (found : Option Record) → Notes index.old found noting → index.new ≡ recorded index.old found }
{
    if let Some(
        Noting {
            what,
            row,
            prepared,
        },
    ) = noting
    {
        index.replay_prepared(row, &what, prepared);
    }
}

// The bytes of the path wait so, if that changes.
fn wait(index: &mut Table, waits: Option<Waits>)
    ensures { (found : Option Wait) → IsWaiting found waits → index.new ≡ waited index.old found }
{
    if let Some(Waits { path, waiting }) = waits {
        index.entries.wait(&path, waiting);
    }
}

// The record that the bytes of the job were sent, with its row.
fn sent_noting(index: &Table, flight: &Flight, seen: &Seen, rows: Rows, row: &mut Vec<u8>) -> Noting
    requires rows { AreRows index.now flight.now rows }
    requires is_record { IsRecord (Record.Sent flight.now.path flight.now.body.file seen.now) }
    ensures noting { CanNote index.now (Record.Sent flight.now.path flight.now.body.file seen.now) result }
    ensures row { row.new.items ≡ text_of (Record.Sent flight.now.path flight.now.body.file seen.now) }
{
    let Rows {
        path,
        mut sent,
        lost: _,
        loss: _,
    } = rows;
    Record::end_sent(seen, &mut sent);
    *row = sent;
    Noting {
        what: Record::Sent {
            path,
            file: flight.body.file,
            seen: seen.copy(),
        },
        row: index.records + 1,
        prepared: Prepared::nothing(),
    }
}

// The record that the bytes of the job are lost under this number, with its row.
fn lost_noting(index: &Table, flight: &Flight, number: u32, rows: Rows, row: &mut Vec<u8>) -> Noting
    requires rows { AreRows index.now flight.now rows }
    requires number { number ≡ index.now.next_lost }
    requires is_record { IsRecord (Record.Lost number flight.now.path false) }
    ensures noting { CanNote index.now (Record.Lost number flight.now.path false) result }
    ensures row { row.new.items ≡ text_of (Record.Lost number flight.now.path false) }
{
    let _ = flight;
    let Rows {
        path,
        sent: _,
        lost,
        loss,
    } = rows;
    *row = lost;
    Noting {
        what: Record::Lost {
            number,
            path,
            stays: false,
        },
        row: index.records + 1,
        prepared: loss,
    }
}

// The record of the end of a job, if there is one, with its row.
fn ended(
    index: &Table,
    flight: &Flight,
    done: &Done,
    fated: Fated,
    rows: Rows,
    row: &mut Vec<u8>,
) -> Option<Noting>
    requires rows { AreRows index.now flight.now rows }
    requires number { (n : ℕ) → fated ≡ Fated.Lost n → n ≡ index.now.next_lost }
    requires is_record { AreRecords (record_of_fate flight.now done.now fated) }
    requires blank { row.old.items ≡ [] }
    ensures noting { Notes index.now (record_of_fate flight.now done.now fated) result }
    ensures row { row.new.items ≡ row_of (record_of_fate flight.now done.now fated) }
{
    if let Done::Sent { seen } = done {
        return Some(sent_noting(index, flight, seen, rows, row));
    }
    match fated {
        Fated::Lost { number } => Some(lost_noting(index, flight, number, rows, row)),
        _ => None,
    }
}

// The file of the job, where newer bytes are queued.
fn settled_files(room: Vec<u32>, flight: &Flight, fated: Fated) -> Vec<u32>
    requires blank { room.items ≡ [] }
    requires room { 0 < vec_capacity room }
    ensures { result.items ≡ released_by_fate flight.now fated }
{
    let mut files = room;
    if fated == Fated::Superseded {
        files.push_reserved(flight.body.file);
    }
    files
}

// Whether two records more can be counted.
fn count_two(index: &Table) -> Result<(), Memory>
    ensures { OnOk result (HasTwo index.now) }
{
    match index.records.checked_add(2) {
        Some(_) => Ok(()),
        None => Err(Memory),
    }
}

// The mark of a settling.
fn settled_mark(fated: Fated) -> Mark
    ensures { result ≡ mark_of_fate fated }
{
    match fated {
        Fated::Lost { number } => Mark::LostAs(number),
        _ => Mark::Plain,
    }
}

// The step of a store.
fn closed(who: Who, now: u64, path: Path, len: u64, body: BodyId, released: Vec<u32>) -> Made
    ensures { result ≡ record {
      step = record { who = who; now = now; deed = Deed.Store path len (Some body); mark = Mark.Body body; told = Some (Told.Closed body); moment = 0 };
      answer = Ok (Told.Closed body);
      released = released;
    } }
{
    Made {
        step: Step {
            who,
            now,
            deed: Deed::Store {
                path,
                len,
                body: Some(body),
            },
            mark: Mark::Body(body),
            told: Some(Told::Closed(body)),
            moment: 0,
        },
        answer: Ok(Told::Closed(body)),
        released,
    }
}

// The step of a settling.
fn settled(who: Who, now: u64, deed: Deed, fated: Fated, released: Vec<u32>) -> Made
    ensures { result ≡ record {
      step = record { who = who; now = now; deed = deed; mark = mark_of_fate fated; told = Some (Told.Settled fated); moment = 0 };
      answer = Ok (Told.Settled fated);
      released = released;
    } }
{
    Made {
        step: Step {
            who,
            now,
            deed,
            mark: settled_mark(fated),
            told: Some(Told::Settled(fated)),
            moment: 0,
        },
        answer: Ok(Told::Settled(fated)),
        released,
    }
}

impl DeskTable {
    /// The table of a desk that starts with this index.
    pub fn start(alloc: Global, index: Table) -> DeskTable
        requires { IsWithin index }
        ensures { result ≡ started index }
    {
        DeskTable {
            alloc,
            index,
            job: None,
            jobs: 0,
            stopping: false,
        }
    }

    /// The table of the index.
    pub fn index(&self) -> &Table
        ensures index { result.now ≡ self.now.index }
        ensures sound { IsSound self.now }
    {
        &self.index
    }

    /// How many files are queued.
    pub fn queued_count(&self) -> u32
        ensures { result ≡ queued_in self.now.index.entries }
    {
        queued_count(self.index.entries.as_slice()) as u32
    }

    /// How many files are lost.
    pub fn lost_count(&self) -> u32
        ensures { result ≡ length self.now.index.lost }
    {
        self.index.lost.as_slice().len() as u32
    }

    /// Makes the step that the ask is, if it is one, and its change of the table with it.
    pub fn make(
        &mut self,
        who: Who,
        ask: &Ask,
        now: u64,
        row: &mut Vec<u8>,
    ) -> Result<Option<Made>, Memory>
        requires ask { IsAsk ask.now }
        requires blank { row.old.items ≡ [] }
        ensures ok { IfOk result (λ made. IsMade self.old who now ask.now made row.new.items self.new) }
        ensures err { OnErr result (self.new ≡ self.old) }
    {
        let Some(Planned { made, change }) = self.plan(who, ask, now, row)? else {
            return Ok(None);
        };
        self.apply(change);
        Ok(Some(made))
    }

    /// Plans the step that the ask is, if it is one: a take that finds nothing is none. Tells what has to be
    /// written: of a store first the bytes in their body's file, then `row` in the index, unless it is
    /// empty, and then the released files are cut. Nothing is changed yet; a refused ask changes nothing but
    /// the trace.
    pub fn plan(
        &self,
        who: Who,
        ask: &Ask,
        now: u64,
        row: &mut Vec<u8>,
    ) -> Result<Option<Planned>, Memory>
        requires ask { IsAsk ask.now }
        requires blank { row.old.items ≡ [] }
        ensures plan { IfOk result (λ planned. IsPlan self.now who now ask.now planned row.new.items) }
        ensures sound { IsSound self.now }
    {
        let _ = &self.index;
        match ask {
            Ask::Store { path, bytes } => {
                let planned = self.plan_store(who, now, path, bytes, row)?;
                Ok(Some(planned))
            }
            Ask::Forget { path, locks, below } => {
                let planned = self.plan_forget(who, now, path, *locks, *below, row)?;
                Ok(Some(planned))
            }
            Ask::Take => {
                let planned = self.plan_take(who, now)?;
                Ok(planned)
            }
            Ask::Settle { job, done } => {
                let planned = self.plan_settle(who, now, *job, done, row)?;
                Ok(Some(planned))
            }
            Ask::Stop => Ok(Some(self.plan_stop(who, now))),
        }
    }

    /// Whether the ask is the end of the job in flight.
    pub fn ends_job(&self, ask: &Ask) -> bool
        ensures { result ≡ ends_job_lem self.now.job ask.now }
    {
        match ask {
            Ask::Settle { job, .. } => match &self.job {
                Some(flight) => flight.number == *job,
                None => false,
            },
            _ => false,
        }
    }

    /// Plans the end of the job in flight with the memory that was taken with the job. Takes none.
    pub fn plan_end(
        &self,
        who: Who,
        ask: &Ask,
        now: u64,
        spare: Spare,
        row: &mut Vec<u8>,
    ) -> Planned
        requires ask { IsAsk ask.now }
        requires ends { ends_job_lem self.now.job ask.now ≡ true }
        requires spare { HasSpare self.now (Some spare) }
        requires blank { row.old.items ≡ [] }
        ensures { IsPlan self.now who now ask.now (Some result) row.new.items }
    {
        let Ask::Settle { job, done } = ask else {
            unreachable!();
        };
        let Some(flight) = &self.job else {
            unreachable!();
        };
        let deed = Deed::Settle {
            job: *job,
            done: done.copy(),
        };
        self.land(who, now, flight, done, deed, spare, row)
    }

    /// Takes with a job the memory that its end needs, and none with another answer. Answers `Memory` also where the
    /// records of this step and of the end could not be counted any more, and never to the end of a job.
    pub fn save(&self, told: &Option<Told>) -> Result<Option<Spare>, Memory>
        requires bare { (flight : Flight) → told.now ≡ Some (answers.Took flight) → IsBare flight.path }
        ensures saved { IfOk result (IsSaved self.now.index told.now) }
        ensures ends { (fated : Fated) → told.now ≡ Some (answers.Settled fated) → result ≡ Ok None }
    {
        match told {
            Some(told) => self.save_for(told),
            None => {
                count_two(&self.index)?;
                Ok(None)
            }
        }
    }

    // The same for what was told.
    fn save_for(&self, told: &Told) -> Result<Option<Spare>, Memory>
        requires bare { (flight : Flight) → told.now ≡ answers.Took flight → IsBare flight.path }
        ensures saved { IfOk result (IsSaved self.now.index (Some told.now)) }
        ensures ends { (fated : Fated) → told.now ≡ answers.Settled fated → result ≡ Ok None }
    {
        match told {
            Told::Settled(_) => Ok(None),
            Told::Took(flight) => {
                count_two(&self.index)?;
                let spare = Spare::new(self.alloc, &self.index, flight)?;
                Ok(Some(spare))
            }
            _ => {
                count_two(&self.index)?;
                Ok(None)
            }
        }
    }

    /// Makes a change that was planned of this table. Takes no memory.
    pub fn apply(&mut self, change: Change)
        requires { CanChange self.old change }
        ensures { (now : ℕ) (deed : Deed) → IsChange self.old (effect_of self.old now deed) change → self.new ≡ after self.old now deed }
    {
        let Change {
            noting,
            waits,
            job,
            stopping,
        } = change;
        note(&mut self.index, noting);
        wait(&mut self.index, waits);
        self.jobs = jobs_with(self.jobs, &job);
        self.job = job_with(self.job.take(), job);
        self.stopping = stopping;
    }

    // The desk is about to end: no attempt waits any more.
    fn plan_stop(&self, who: Who, now: u64) -> Planned
        ensures { IsPlan self.now who now asks.Stop (Some result) [] }
    {
        let made = Made {
            step: Step {
                who,
                now,
                deed: Deed::Stop,
                mark: Mark::Plain,
                told: Some(Told::Stopping),
                moment: 0,
            },
            answer: Ok(Told::Stopping),
            released: Vec::new(self.alloc),
        };
        Planned {
            made,
            change: Change::only_stopping(true),
        }
    }

    // A refused step.
    fn refuse(&self, who: Who, now: u64, deed: Deed, fault: DeskFault) -> Result<Planned, Memory>
        requires { IsDeed self.now deed }
        ensures { IfOk result (λ planned. IsPlannedBy self.now who now deed (quiet self.now (Mark.Refused fault) None) planned []) }
    {
        let made = refused(self.alloc, who, now, deed, fault)?;
        Ok(Planned {
            made,
            change: Change::only_stopping(self.stopping),
        })
    }

    // The bytes are to be kept as the newest of the path.
    fn plan_store(
        &self,
        who: Who,
        now: u64,
        path: &Path,
        bytes: &Blob,
        row: &mut Vec<u8>,
    ) -> Result<Planned, Memory>
        requires path { IsPath path.now }
        requires blank { row.old.items ≡ [] }
        ensures { IfOk result (λ planned. IsPlan self.now who now (asks.Store path.now bytes.now) (Some planned) row.new.items) }
    {
        let len = bytes.len() as u64;
        if let Some(fault) = store_fault(self.alloc, &self.index, path, len)? {
            let asked = path.copy(self.alloc)?;
            let deed = Deed::Store {
                path: asked,
                len,
                body: None,
            };
            let planned = self.refuse(who, now, deed, fault)?;
            return Ok(planned);
        }
        let body = BodyId::of(self.index.next_file as u32, bytes.as_slice());
        self.plan_close(who, now, path, len, body, row)
    }

    // The body of the path is to be kept.
    fn plan_close(
        &self,
        who: Who,
        now: u64,
        path: &Path,
        len: u64,
        body: BodyId,
        row: &mut Vec<u8>,
    ) -> Result<Planned, Memory>
        requires path { IsPath path.now }
        requires free { store_refusal self.now.index path.now len ≡ None }
        requires file { body.file ≡ self.now.index.next_file }
        requires len { body.len ≡ len }
        requires blank { row.old.items ≡ [] }
        ensures { IfOk result (λ planned. IsPlannedBy self.now who now (Deed.Store path.now len (Some body)) (store_effect self.now path.now now (Some body)) planned row.new.items) }
    {
        let asked = path.copy(self.alloc)?;
        let bare = bare_path(self.alloc, path)?;
        let waits_for = bare.copy(self.alloc)?;
        let released = file_but(self.alloc, &self.job, body_at(&self.index, path))?;
        let noting = noting(&self.index, Record::Closed { path: bare, body }, row)?;
        Ok(Planned {
            made: closed(who, now, asked, len, body, released),
            change: Change {
                noting: Some(noting),
                waits: Some(Waits {
                    path: waits_for,
                    waiting: Waiting {
                        attempts: 0,
                        due: later(now, FIRST_PAUSE),
                        tried: false,
                    },
                }),
                job: NextJob::Same,
                stopping: self.stopping,
            },
        })
    }

    // What is known of the path is to be forgotten.
    fn plan_forget(
        &self,
        who: Who,
        now: u64,
        path: &Path,
        locks: bool,
        below: bool,
        row: &mut Vec<u8>,
    ) -> Result<Planned, Memory>
        requires path { IsPath path.now }
        requires blank { row.old.items ≡ [] }
        ensures { IfOk result (λ planned. IsPlan self.now who now (asks.Forget path.now locks below) (Some planned) row.new.items) }
    {
        let asked = path.copy(self.alloc)?;
        let deed = Deed::Forget {
            path: asked,
            locks,
            below,
        };
        if let Some(fault) = forget_fault(self.alloc, &self.index, path, below)? {
            let planned = self.refuse(who, now, deed, fault)?;
            return Ok(planned);
        }
        let planned = self.plan_leave(who, now, path, locks, below, deed, row)?;
        Ok(planned)
    }

    // What goes with the path is to be forgotten.
    fn plan_leave(
        &self,
        who: Who,
        now: u64,
        path: &Path,
        locks: bool,
        below: bool,
        deed: Deed,
        row: &mut Vec<u8>,
    ) -> Result<Planned, Memory>
        requires path { IsPath path.now }
        requires deed { IsDeed self.now deed }
        requires free { queued_with path.now below self.now.index.entries ≡ None }
        requires blank { row.old.items ≡ [] }
        ensures { IfOk result (λ planned. IsPlannedBy self.now who now deed (forget_effect self.now path.now locks below) planned row.new.items) }
    {
        let released = files_going(self.alloc, &self.index, &self.job, path, below)?;
        let found = forgot_record(self.alloc, &self.index, path, locks, below)?;
        let noting = noting_if(&self.index, found, row)?;
        Ok(Planned {
            made: Made {
                step: Step {
                    who,
                    now,
                    deed,
                    mark: Mark::Plain,
                    told: Some(Told::Forgot),
                    moment: 0,
                },
                answer: Ok(Told::Forgot),
                released,
            },
            change: Change {
                noting,
                waits: None,
                job: NextJob::Same,
                stopping: self.stopping,
            },
        })
    }

    // The job that a take would give.
    fn next_flight(&self, now: u64) -> Result<Option<Flight>, Memory>
        ensures { IfOk result (λ flight. flight ≡ taken self.now now) }
    {
        if self.job.is_some() {
            return Ok(None);
        }
        let Some(held) = next_due(self.index.entries.as_slice(), now, self.stopping) else {
            return Ok(None);
        };
        let Some(body) = held.entry().body else {
            return Ok(None);
        };
        let path = held.path().copy(self.alloc)?;
        Ok(Some(Flight {
            number: self.jobs.saturating_add(1),
            path,
            body,
            seen: held.entry().seen.copy(),
        }))
    }

    // The next job, if there is one to take.
    fn plan_take(&self, who: Who, now: u64) -> Result<Option<Planned>, Memory>
        ensures { IfOk result (λ planned. IsPlan self.now who now asks.Take planned []) }
    {
        let Some(flight) = self.next_flight(now)? else {
            return Ok(None);
        };
        let planned = self.plan_flight(who, now, flight)?;
        Ok(Some(planned))
    }

    // This job is to be given.
    fn plan_flight(&self, who: Who, now: u64, flight: Flight) -> Result<Planned, Memory>
        requires { taken self.now now ≡ Some flight }
        ensures { IfOk result (λ planned. IsPlannedBy self.now who now Deed.Take (take_effect self.now (Some flight)) planned []) }
    {
        let told = flight.copy(self.alloc)?;
        let answer = flight.copy(self.alloc)?;
        let waits = tried_if(self.alloc, &self.index, self.stopping, &flight)?;
        Ok(Planned {
            made: Made {
                step: Step {
                    who,
                    now,
                    deed: Deed::Take,
                    mark: Mark::Job(flight.number),
                    told: Some(Told::Took(told)),
                    moment: 0,
                },
                answer: Ok(Told::Took(answer)),
                released: Vec::new(self.alloc),
            },
            change: Change {
                noting: None,
                waits,
                job: NextJob::Taken(flight),
                stopping: self.stopping,
            },
        })
    }

    // It is to be noted how the job of this number ended.
    fn plan_settle(
        &self,
        who: Who,
        now: u64,
        job: u64,
        done: &Done,
        row: &mut Vec<u8>,
    ) -> Result<Planned, Memory>
        requires done { IsDone done.now }
        requires blank { row.old.items ≡ [] }
        ensures { IfOk result (λ planned. IsPlan self.now who now (asks.Settle job done.now) (Some planned) row.new.items) }
    {
        let deed = Deed::Settle {
            job,
            done: done.copy(),
        };
        let fault = DeskFault::NoSuchJob { number: job };
        let Some(flight) = &self.job else {
            let planned = self.refuse(who, now, deed, fault)?;
            return Ok(planned);
        };
        if flight.number != job {
            let planned = self.refuse(who, now, deed, fault)?;
            return Ok(planned);
        }
        count_two(&self.index)?;
        let spare = Spare::new(self.alloc, &self.index, flight)?;
        Ok(self.land(who, now, flight, done, deed, spare, row))
    }

    // The job in flight is to be ended.
    fn land(
        &self,
        who: Who,
        now: u64,
        flight: &Flight,
        done: &Done,
        deed: Deed,
        spare: Spare,
        row: &mut Vec<u8>,
    ) -> Planned
        requires flight { self.now.job ≡ Some flight.now }
        requires done { IsDone done.now }
        requires deed { IsDeed self.now deed }
        requires spare { IsSpare self.now.index flight.now spare }
        requires blank { row.old.items ≡ [] }
        ensures { IsPlannedBy self.now who now deed (settle_by_fate self.now flight.now done.now (fated_of self.now.index flight.now now done.now)) result row.new.items }
    {
        let fated = fated(&self.index, flight, now, done);
        let tried = waiting_at(&self.index, &flight.path).tried;
        let Spare {
            rows,
            waits,
            released,
        } = spare;
        let released = settled_files(released, flight, fated);
        let noting = ended(&self.index, flight, done, fated, rows, row);
        Planned {
            made: settled(who, now, deed, fated, released),
            change: Change {
                noting,
                waits: waits_by(waits, tried, fated),
                job: NextJob::Ended,
                stopping: self.stopping,
            },
        }
    }
}
