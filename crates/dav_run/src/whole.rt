ghost use Rattle.std.specs.Prelude.{◌≡◌, ◌⊎◌, ◌<◌, ℕ, List, [], length, IfOk, IfErr, MatchOption, Ok, Err, true, false, if◌then◌else◌, None};
ghost use Rattle.dav_machine.specs.Log.{Rose};
ghost use Rattle.dav_machine.specs.Machine.{Does};
ghost use Rattle.dav_text.specs.Path.{IsPath};
ghost use Rattle.dav_recorder.specs.Recovers.{AllRecover};
ghost use Rattle.dav_deeds.specs.declared.fault.DeskFault.{DeskFault as Fault};
ghost use Rattle.dav_index.specs.declared.table.Table.{Table};
ghost use Rattle.dav_uri.specs.Target.{BaseParts};
ghost use Rattle.dav_upload.specs.Desks.{disk_view};
ghost use Rattle.dav_run.specs.Answering.{IsFit};
ghost use Rattle.dav_run.specs.Codes.{IsBehind};
ghost use Rattle.dav_run.specs.Devices.{all, AllGrew};
ghost use Rattle.dav_run.specs.Function.{IsTheRun, BeginsFed};
ghost use Rattle.dav_run.specs.Headline.{Headline, IsCacheCause, IsGoing, HasIndex};
ghost use Rattle.dav_run.specs.Kept.{Keeps};
ghost use Rattle.dav_run.specs.Ran.{Ran, RanOn, end_of};
ghost use Rattle.dav_run.specs.Run.{after_shell, ending, no_desk, starves as starves_lem};
ghost use Rattle.dav_run.specs.Said.{state_of};
ghost use Rattle.dav_run.specs.Words.{HasNoBase, IsBase, IsRefusal, texts_of};
ghost use Rattle.dav_run.specs.declared.ended.Status.TheVariants as status;
ghost use Rattle.dav_run.specs.declared.stop.Stop.TheVariants as stops;

use crate::ask::ask_desk;
use crate::ended::{Ended, Status};
use crate::input::read_lines;
use crate::last_line::{tell_fault, tell_left, tell_memory};
use crate::shell::Shell;
use crate::stop::Stop;
use crate::words::base_of;
use dav_deeds::{Ask, Trace};
use dav_desk::Desk;
use dav_disk::Disk;
use dav_edge::{Sink, Source, Wire, put_whole};
use dav_text::{Memory, Path};
use dav_upload::{UploadFault, drain};
use dav_uri::Base;
use std::alloc::Global;

/// Whether there was want of memory: so it is where that ended the run.
fn starves(status: &Status, starved: bool) -> bool
    ensures { result ≡ starves_lem status.now starved }
{
    match status {
        Status::Memory => true,
        _ => starved,
    }
}

/// What a run leaves whose desk was started.
fn ended<D: Disk>(shell: Shell<D>, status: Status) -> (Status, D, Ended)
    ensures end { end_of result.0 result.2 ≡ ending status (state_of shell) }
    ensures disk { result.1 ≡ shell.desk.recorder.disk }
    ensures trace { (result.2.trace ≡ shell.desk.recorder.trace) × (result.2.under ≡ shell.desk.recorder.under) }
{
    let lost = shell.desk.lost_count();
    let Shell {
        alloc: _,
        current: _,
        desk,
        text: _,
        faulty: _,
        starved,
        done,
    } = shell;
    let (disk, trace, under) = desk.into_parts();
    let starved = starves(&status, starved);
    (
        status,
        disk,
        Ended {
            trace,
            under,
            lost,
            starved,
            done,
        },
    )
}

/// What a run leaves without a desk.
fn unopened<D: Disk>(alloc: Global, disk: D, status: Status) -> (Status, D, Ended)
    ensures end { end_of result.0 result.2 ≡ ending status no_desk }
    ensures disk { result.1 ≡ disk }
    ensures trace { (result.2.trace.steps.items ≡ []) × (result.2.under ≡ None) }
{
    let starved = starves(&status, false);
    (
        status,
        disk,
        Ended {
            trace: Trace {
                steps: Vec::new(alloc),
            },
            under: None,
            lost: 0,
            starved,
            done: 0,
        },
    )
}

/// The end of the input: each file that is due is sent, and what is left is told.
fn finish<O: Sink, V: Wire, D: Disk>(
    base: &Base,
    out: &mut O,
    up_wire: &mut V,
    shell: &mut Shell<D>,
) -> Status
    requires { IsFit D.honest D.moment D.seen D.past shell.old }
    ensures does { Does all (AllGrew (disk_view D.honest D.moment D.seen D.past D.faults) (O.log out.old) (O.log out.new) (V.log up_wire.old) (V.log up_wire.new)
        shell.old.desk shell.new.desk)
        (after_shell base.now (state_of shell.old) stops.End) (ending result (state_of shell.new)) }
    ensures behind { IsBehind result }
{
    match ask_desk(&mut shell.desk, &Ask::Stop) {
        Ok(_) => {}
        Err(fault) => return tell_fault(shell.alloc, out, fault),
    }
    match drain(shell.alloc, base, up_wire, &mut shell.desk, 0) {
        Ok(()) => {
            let queued = shell.desk.queued_count();
            let lost = shell.desk.lost_count();
            tell_left(shell.alloc, out, queued, lost, shell.faulty)
        }
        Err(UploadFault::Desk(fault)) => tell_fault(shell.alloc, out, fault),
        Err(UploadFault::Memory) => tell_memory(out),
    }
}

/// The run of a fresh shell at the base's path.
fn run_on<S: Source, O: Sink, V: Wire, D: Disk>(
    base: &Base,
    shell: &mut Shell<D>,
    input: &mut S,
    out: &mut O,
    up_wire: &mut V,
) -> Status
    requires { IsFit D.honest D.moment D.seen D.past shell.old }
    ensures { RanOn (disk_view D.honest D.moment D.seen D.past D.faults) base.now (S.log input.old) (S.log input.new) (O.log out.old) (O.log out.new)
        (V.log up_wire.old) (V.log up_wire.new) shell.old.desk shell.new.desk (state_of shell.old) (ending result (state_of shell.new)) }
{
    match read_lines(input, out, shell) {
        Stop::Output => Status::Output,
        Stop::Input => {
            let _ = put_whole(out, b"end: input\n".as_slice());
            Status::Input
        }
        Stop::Desk(fault) => tell_fault(shell.alloc, out, fault),
        Stop::End => finish(base, out, up_wire, shell),
    }
}

/// The run over a desk that starts on the disk.
fn run_over<S: Source, O: Sink, V: Wire, D: Disk>(
    alloc: Global,
    base: &Base,
    current: Path,
    input: &mut S,
    out: &mut O,
    up_wire: &mut V,
    disk: D,
) -> (Status, D, Ended)
    requires short { length base.now.text < 65505 }
    requires path { IsPath current }
    ensures { (words : List (List ℕ)) → IsBase words base.now → current ≡ base.now.path → Ran (disk_view D.honest D.moment D.seen D.past D.faults) words (S.log input.old) (S.log input.new) (O.log out.old) (O.log out.new)
        (V.log up_wire.old) (V.log up_wire.new) disk result.1 result.2.trace.steps.items result.2.under (end_of result.0 result.2) }
{
    match Desk::start(alloc, disk, base.text()) {
        Ok(desk) => {
            let mut shell = Shell::new(alloc, current, desk);
            let status = run_on(base, &mut shell, input, out, up_wire);
            ended(shell, status)
        }
        Err((disk, fault)) => {
            let status = tell_fault(alloc, out, fault);
            unopened(alloc, disk, status)
        }
    }
}

/// The base that the words name, and its path; None where they name none.
fn begin(alloc: Global, words: &[String]) -> Result<Option<(Base, Path)>, Memory>
    ensures { IfOk result (λ begun. MatchOption begun (HasNoBase (texts_of words.now))
        (λ b. IsBase (texts_of words.now) b.0 × (b.1 ≡ b.0.path))) }
{
    let Some(base) = base_of(alloc, words)? else {
        return Ok(None);
    };
    let current = base.path().copy(alloc)?;
    Ok(Some((base, current)))
}

/// The whole run.
fn run_all<S: Source, O: Sink, V: Wire, D: Disk>(
    alloc: Global,
    words: &[String],
    input: &mut S,
    out: &mut O,
    up_wire: &mut V,
    disk: D,
) -> (Status, D, Ended)
    ensures { Ran (disk_view D.honest D.moment D.seen D.past D.faults) (texts_of words.now) (S.log input.old) (S.log input.new) (O.log out.old) (O.log out.new)
        (V.log up_wire.old) (V.log up_wire.new) disk result.1 result.2.trace.steps.items result.2.under (end_of result.0 result.2) }
{
    match begin(alloc, words) {
        Err(_) => {
            let status = tell_memory(out);
            unopened(alloc, disk, status)
        }
        Ok(None) => {
            let _ = put_whole(out, b"end: words\n".as_slice());
            unopened(alloc, disk, Status::Words)
        }
        Ok(Some((base, current))) => run_over(alloc, &base, current, input, out, up_wire, disk),
    }
}

/// Runs the program: reads lines from `input`, carries each out over the cache on `disk` and writes its answer to `out`, and
/// at the end of the input sends each file that is still queued once on `up_wire`. Gives the status, the disk, and what the
/// run leaves.
///
/// The one word is the URL of a base. A line `fput PATH TEXT` stores the text under the path, and an
/// empty line does nothing. Every other line answers a fault and changes nothing.
pub fn run<S: Source, O: Sink, V: Wire, D: Disk>(
    alloc: Global,
    words: &[String],
    input: &mut S,
    out: &mut O,
    up_wire: &mut V,
    disk: D,
) -> (Status, D, Ended)
    ensures kept { Keeps (texts_of words.now) (S.log input.old) (S.log input.new) (O.log out.old) (O.log out.new)
        (V.log up_wire.old) (V.log up_wire.new) result.2.trace.steps.items result.2.under (end_of result.0 result.2) }
    ensures headline { D.honest result.1 → (base : BaseParts) → IsBase (texts_of words.now) base → (table : Table) (given : ℕ → List ℕ) → AllRecover base.text table given (D.past disk (D.moment disk))
        → Headline (S.log input.old) (S.log input.new) (V.log up_wire.old) (V.log up_wire.new) (D.past result.1) (D.moment disk) (D.moment result.1) base table given result.2.trace.steps.items result.2.under }
    ensures words { IsRefusal (texts_of words.now) result.0 }
    ensures input { result.0 ≡ status.Input → Rose (S.log input.old).faults (S.log input.new).faults }
    ensures output { result.0 ≡ status.Output → Rose (O.log out.old).faults (O.log out.new).faults }
    ensures disk { result.0 ≡ status.Disk → Rose (D.faults disk) (D.faults result.1) }
    ensures cache { (fault : Fault) → result.0 ≡ status.Cache fault → IsCacheCause (D.honest result.1) (texts_of words.now) (D.seen disk) (D.seen result.1) (D.faults disk) (D.faults result.1) fault }
    ensures index { D.honest result.1 → IsGoing result.0 → HasIndex (texts_of words.now) (D.seen disk 0) }
    ensures memory { result.0 ≡ status.Memory → result.2.starved ≡ true }
    ensures function { result.2.starved ≡ false
        → IsTheRun (texts_of words.now) (S.log input.old) (S.log input.new) (O.log out.old) (O.log out.new)
        (V.log up_wire.old) (V.log up_wire.new) result.2.trace.steps.items result.2.under (end_of result.0 result.2) }
    ensures beginning { BeginsFed (texts_of words.now) (S.log input.old) (S.log input.new) (O.log out.old) (O.log out.new)
        (V.log up_wire.old) (V.log up_wire.new) result.2.trace.steps.items result.2.under (end_of result.0 result.2) }
{
    run_all(alloc, words, input, out, up_wire, disk)
}
