ghost use Rattle.std.specs.Prelude.{◌≡◌, ℕ, List};
ghost use Rattle.dav_machine.specs.Machine.{Does};
ghost use Rattle.dav_edge.specs.Device.{DeviceLog};
ghost use Rattle.dav_deeds.specs.DeskTable.{DeskTable};
ghost use Rattle.dav_deeds.specs.Legal.{IsAsk};
ghost use Rattle.dav_deeds.specs.Sound.{IsSound};
ghost use Rattle.dav_desk.specs.Working.{IsReadied};
ghost use Rattle.dav_upload.specs.Desks.{disk_view, AskedSo};
ghost use Rattle.dav_upload.specs.Pair.{pair, PairGrew};
ghost use Rattle.dav_upload.specs.Drain.{fault_of, did_in, did_of, TurnsOf, SentSo, TurnSo};
ghost use Rattle.dav_upload.specs.AtWork.{IsAtWork, IsAfter};

use crate::did::{Did, UploadFault};
use crate::ending::send_job;
use dav_deeds::{Answer, Ask, DeskFault, Job, Who};
use dav_desk::Desk;
use dav_disk::Disk;
use dav_edge::Wire;
use dav_uri::Base;
use std::alloc::Global;

/// Takes the next job of the desk at this time, in seconds, sends its file, and settles how it ended. Answers `Nothing` where
/// there is none to take. Where the desk fails, or there is no memory, the turn ends at once, and the file stays queued on the
/// disk.
pub fn turn<V: Wire, D: Disk>(
    alloc: Global,
    base: &Base,
    wire: &mut V,
    desk: &mut Desk<D>,
    now: u64,
) -> Result<Did, UploadFault>
    requires readied { IsReadied D.honest D.moment D.seen D.past desk.old }

    ensures does { Does pair (PairGrew (disk_view D.honest D.moment D.seen D.past D.faults) (V.log wire.old) (V.log wire.new) desk.old desk.new) (TurnsOf base.now now desk.old.table) (result, desk.new.table) }
    ensures work { D.honest desk.new.recorder.disk → (url : List ℕ) (opening : DeskTable) (start : ℕ) (given : ℕ → List ℕ) (begun : DeviceLog)
        → IsAtWork (disk_view D.honest D.moment D.seen D.past D.faults) base.now url opening start given begun (V.log wire.old) desk.old
        → IsAfter result (disk_view D.honest D.moment D.seen D.past D.faults) base.now url opening start given begun (V.log wire.new) desk.new }
    ensures sound { IsSound desk.old.table → IsSound desk.new.table }
    ensures readied { IsReadied D.honest D.moment D.seen D.past desk.new }
{
    make_turn(alloc, base, wire, desk, now)
}

/// The same, as all that happens in it.
pub(crate) fn make_turn<V: Wire, D: Disk>(
    alloc: Global,
    base: &Base,
    wire: &mut V,
    desk: &mut Desk<D>,
    now: u64,
) -> Result<Did, UploadFault>
    requires readied { IsReadied D.honest D.moment D.seen D.past desk.old }
    ensures turned { TurnSo (disk_view D.honest D.moment D.seen D.past D.faults) base.now now (V.log wire.old) (V.log wire.new) desk.old desk.new result }
    ensures readied { IsReadied D.honest D.moment D.seen D.past desk.new }
{
    let answer = match ask(desk, &Ask::Take, now) {
        Ok(answer) => answer,
        Err(fault) => return Err(fault_of(fault)),
    };
    match answer.job() {
        Some(job) => send(alloc, base, wire, desk, job, now),
        None => Ok(Did::Nothing),
    }
}

/// Sends the file of a job that was taken, and settles how it ended.
fn send<V: Wire, D: Disk>(
    alloc: Global,
    base: &Base,
    wire: &mut V,
    desk: &mut Desk<D>,
    job: Job,
    now: u64,
) -> Result<Did, UploadFault>
    requires readied { IsReadied D.honest D.moment D.seen D.past desk.old }
    ensures sent { SentSo (disk_view D.honest D.moment D.seen D.past D.faults) base.now now job (V.log wire.old) (V.log wire.new) desk.old desk.new result }
    ensures readied { IsReadied D.honest D.moment D.seen D.past desk.new }
{
    let number = job.number;
    let done = match send_job(alloc, base, wire, job) {
        Ok(done) => done,
        Err(_) => return Err(UploadFault::Memory),
    };
    let settling = Ask::Settle { job: number, done };
    did_of(ask(desk, &settling, now))
}

/// What the desk answers to what sends files.
fn ask<D: Disk>(desk: &mut Desk<D>, ask: &Ask, now: u64) -> Result<Answer, DeskFault>
    requires ask { IsAsk ask.now }
    requires readied { IsReadied D.honest D.moment D.seen D.past desk.old }
    ensures asked { AskedSo (disk_view D.honest D.moment D.seen D.past D.faults) now ask.now desk.old desk.new result }
    ensures readied { IsReadied D.honest D.moment D.seen D.past desk.new }
{
    desk.step(Who::Uploader, ask, now)
}

/// What a settling comes to.
fn did_in(answer: &Answer) -> Did
    ensures { result ≡ did_in answer.now }
{
    match answer.fate() {
        Some(fated) => Did::Settled(fated),
        None => Did::Nothing,
    }
}

/// The same, or why the desk did not settle.
fn did_of(answered: Result<Answer, DeskFault>) -> Result<Did, UploadFault>
    ensures { result ≡ did_of answered }
{
    match answered {
        Ok(answer) => Ok(did_in(&answer)),
        Err(fault) => Err(fault_of(fault)),
    }
}

/// Why a turn gives up, by the fault of the desk.
fn fault_of(fault: DeskFault) -> UploadFault
    ensures { result ≡ fault_of fault }
{
    match fault {
        DeskFault::Memory => UploadFault::Memory,
        DeskFault::Disk => UploadFault::Desk(DeskFault::Disk),
        DeskFault::NotACache { at } => UploadFault::Desk(DeskFault::NotACache { at }),
        DeskFault::Damaged {
            file,
            stored,
            found,
        } => UploadFault::Desk(DeskFault::Damaged {
            file,
            stored,
            found,
        }),
        DeskFault::OtherServer { kept, asked } => {
            UploadFault::Desk(DeskFault::OtherServer { kept, asked })
        }
        DeskFault::Queued { path } => UploadFault::Desk(DeskFault::Queued { path }),
        DeskFault::NoSuchJob { number } => UploadFault::Desk(DeskFault::NoSuchJob { number }),
        DeskFault::Crowded { oldest } => UploadFault::Desk(DeskFault::Crowded { oldest }),
        DeskFault::Limit { which } => UploadFault::Desk(DeskFault::Limit { which }),
    }
}
