//! The desk: asks one after another, what each answers, and what is left.

ghost use Rattle.std.specs.Prelude.{IfOk};
ghost use Rattle.dav_deeds.specs.Legal.{IsAsk};
ghost use Rattle.dav_desk.specs.Working.{IsReadied};
ghost use Rattle.dav_text.specs.Path.{IsPath};

use crate::case::Case;
use crate::devices::{call_of, calls_of, numbers_of};
use dav_deeds::{Answer, Ask, DeskFault, Done, Fated, Job, Mark, Who};
use dav_desk::Desk;
use dav_disk::{Disk, MemDisk};
use dav_script::{Entry, RowFault, shown};
use dav_text::{Blob, Path, Seen, Tag};
use std::alloc::{AllocError, Global};

/// The URL of the desks.
pub(crate) const URL: &str = "http://h/";

/// The path of a text.
pub(crate) fn path_at(alloc: Global, text: &str, fault: RowFault) -> Result<Path, RowFault>
    ensures { IfOk result (λ path. IsPath path) }
{
    match Path::read(alloc, text) {
        Ok(path) => Ok(path),
        Err(_) => Err(fault),
    }
}

/// The number of a text.
fn number_of(text: &str, fault: RowFault) -> Result<u64, RowFault> {
    text.parse::<u64>().map_err(|_| fault)
}

/// `PATH TEXT`: the ask to keep these bytes.
fn store(alloc: Global, text: &str, fault: RowFault) -> Result<Ask, RowFault>
    ensures { IfOk result (λ ask. IsAsk ask) }
{
    let (path, bytes) = call_of(text);
    let path = path_at(alloc, path, fault)?;
    let Ok(bytes) = Blob::copy_of(alloc, bytes.as_bytes()) else {
        return Err(RowFault::Memory);
    };
    Ok(Ask::Store { path, bytes })
}

/// `PATH`: the ask to forget the path, and all below it where the word is `below`.
fn forget(alloc: Global, text: &str, below: bool, fault: RowFault) -> Result<Ask, RowFault>
    ensures { IfOk result (λ ask. IsAsk ask) }
{
    let path = path_at(alloc, text, fault)?;
    Ok(Ask::Forget {
        path,
        locks: false,
        below,
    })
}

/// `JOB TAG`: the job was sent, and the file has this tag now; without one it has none that is kept.
fn sent(text: &str, fault: RowFault) -> Result<Ask, RowFault>
    ensures { IfOk result (λ ask. IsAsk ask) }
{
    let (job, tag) = call_of(text);
    let job = number_of(job, fault)?;
    match Tag::read(tag.as_bytes()) {
        Some(tag) => Ok(Ask::Settle {
            job,
            done: Done::Sent {
                seen: Seen::Tagged(tag),
            },
        }),
        None => Ok(Ask::Settle {
            job,
            done: Done::Sent {
                seen: Seen::Untagged,
            },
        }),
    }
}

/// `JOB AFTER`: the job is to be sent again, after so many seconds at least.
fn again(text: &str, fault: RowFault) -> Result<Ask, RowFault>
    ensures { IfOk result (λ ask. IsAsk ask) }
{
    let (job, after) = call_of(text);
    let job = number_of(job, fault)?;
    let after = number_of(after, fault)?;
    Ok(Ask::Settle {
        job,
        done: Done::Again { after },
    })
}

/// `JOB`: the server refused the bytes of the job.
fn refused(text: &str, fault: RowFault) -> Result<Ask, RowFault>
    ensures { IfOk result (λ ask. IsAsk ask) }
{
    let job = number_of(text, fault)?;
    Ok(Ask::Settle {
        job,
        done: Done::Refused,
    })
}

/// The ask that a word and what stands behind it spell.
fn ask_of(alloc: Global, word: &str, text: &str, fault: RowFault) -> Result<Ask, RowFault>
    ensures { IfOk result (λ ask. IsAsk ask) }
{
    match word {
        "store" => store(alloc, text, fault),
        "forget" => forget(alloc, text, false, fault),
        "leave" => forget(alloc, text, true, fault),
        "take" => Ok(Ask::Take),
        "sent" => sent(text, fault),
        "again" => again(text, fault),
        "refused" => refused(text, fault),
        "stop" => Ok(Ask::Stop),
        _ => Err(fault),
    }
}

/// What became of a job, as text.
pub(crate) fn fated(alloc: Global, fated: Fated) -> Result<String, AllocError> {
    match fated {
        Fated::Clean => String::from_str(alloc, "clean"),
        Fated::Superseded => String::from_str(alloc, "superseded"),
        Fated::Waits { attempts, due } => { format!(in alloc; "waits {attempts}, due {due}") }
        Fated::Lost { number } => format!(in alloc; "lost {number}"),
    }
}

/// A job, as text.
fn job_text(alloc: Global, job: &Job) -> Result<String, AllocError> {
    let number = job.number;
    let file = job.body.file;
    let bytes = shown(alloc, job.bytes.as_slice())?;
    format!(in alloc; "job {number} of file {file} \"{bytes}\"")
}

/// An answer, as text.
fn answer_text(alloc: Global, answer: &Answer) -> Result<String, AllocError> {
    match answer {
        Answer::Closed(body) => {
            let file = body.file;
            format!(in alloc; "closed in file {file}")
        }
        Answer::Forgot => String::from_str(alloc, "forgot"),
        Answer::Took(job) => job_text(alloc, job),
        Answer::Idle => String::from_str(alloc, "idle"),
        Answer::Settled(what) => fated(alloc, *what),
        Answer::Stopping => String::from_str(alloc, "stopping"),
    }
}

/// What a desk says to an ask at this time.
fn asked<D: Disk>(
    alloc: Global,
    desk: &mut Desk<D>,
    ask: &Ask,
    now: u64,
) -> Result<String, AllocError>
    requires ask { IsAsk ask.now }
    requires readied { IsReadied D.honest D.moment D.seen D.past desk.old }
    ensures { IsReadied D.honest D.moment D.seen D.past desk.new }
{
    match desk.step(Who::Shell, ask, now) {
        Ok(answer) => answer_text(alloc, &answer),
        Err(fault) => format!(in alloc; "fault: {fault}"),
    }
}

/// Makes the ask of a line, `NOW WORD ..`, and appends what is said.
pub(crate) fn ask_line<D: Disk>(
    alloc: Global,
    desk: &mut Desk<D>,
    line: &str,
    fault: RowFault,
    out: &mut String,
) -> Result<(), RowFault>
    requires { IsReadied D.honest D.moment D.seen D.past desk.old }
    ensures { IsReadied D.honest D.moment D.seen D.past desk.new }
{
    let (now, rest) = call_of(line);
    let now = number_of(now, fault)?;
    let (word, text) = call_of(rest);
    let ask = ask_of(alloc, word, text, fault)?;
    let said = asked(alloc, desk, &ask, now)?;
    writeln!(out, "{line}: {said}")?;
    Ok(())
}

/// Makes the asks of all lines.
fn ask_lines<D: Disk>(
    alloc: Global,
    desk: &mut Desk<D>,
    case: &Case<'_>,
    out: &mut String,
) -> Result<(), RowFault>
    requires { IsReadied D.honest D.moment D.seen D.past desk.old }
{
    let fault = case.given.bad_value();
    for line in calls_of(case)?.lines() {
        ask_line(alloc, desk, line, fault, out)?;
    }
    Ok(())
}

/// Appends what is left of a desk: what is queued and lost, and how many steps there are, and of them refused.
pub(crate) fn tell_left<D: Disk>(desk: &Desk<D>, out: &mut String) -> Result<(), AllocError> {
    let queued = desk.queued_count();
    let lost = desk.lost_count();
    let steps = desk.trace().steps.len();
    let mut refusals = 0u32;
    for step in desk.trace().steps.as_slice() {
        if let Mark::Refused(_) = &step.mark {
            refusals = refusals.saturating_add(1);
        }
    }
    writeln!(
        out,
        "queued {queued}, lost {lost}, steps {steps}, refused {refusals}"
    )
}

/// Appends what a disk holds in a file, up to 256 bytes.
fn tell_file(
    alloc: Global,
    disk: &mut MemDisk,
    file: u32,
    out: &mut String,
) -> Result<(), AllocError> {
    let mut bytes = vec![in alloc; 0u8; 256]?;
    let Ok(count) = disk.read(file, 0, bytes.as_mut_slice()) else {
        return writeln!(out, "file {file}: failed");
    };
    bytes.truncate(count);
    let text = shown(alloc, bytes.as_slice())?;
    writeln!(out, "file {file}: \"{text}\"")
}

/// Writes the bytes of a setting `file NUMBER` into its file, and settles them.
fn fill(disk: &mut MemDisk, entry: &Entry) -> Result<(), RowFault> {
    let file = u32::try_from(entry.number()?).map_err(|_| entry.bad_value())?;
    let Ok(()) = disk.write_at(file, 0, entry.block_bytes()) else {
        return Err(entry.bad_value());
    };
    let Ok(()) = disk.sync(file) else {
        return Err(entry.bad_value());
    };
    Ok(())
}

/// A disk with the files of the settings `file`.
fn disk_of(alloc: Global, case: &Case<'_>) -> Result<MemDisk, RowFault> {
    let mut disk = MemDisk::new(alloc, Vec::new(alloc));
    for entry in case.settings {
        if entry.word.as_str() == "file" {
            fill(&mut disk, entry)?;
        }
    }
    Ok(disk)
}

/// Appends what a disk holds in the files of the setting `show`.
fn tell_files(
    alloc: Global,
    disk: &mut MemDisk,
    case: &Case<'_>,
    out: &mut String,
) -> Result<(), RowFault> {
    for file in &numbers_of(alloc, case, "show")? {
        let file = u32::try_from(*file).unwrap_or(u32::MAX);
        tell_file(alloc, disk, file, out)?;
    }
    Ok(())
}

/// What a desk over a disk with the files of the settings `file` says to the asks of the lines, each `NOW WORD ..`, what is left
/// then, and what the files of the setting `show` hold.
pub fn outcome_of_desk(alloc: Global, case: &Case<'_>) -> Result<Vec<u8>, RowFault> {
    let disk = disk_of(alloc, case)?;
    let mut out = String::new(alloc);
    let mut desk = match Desk::start(alloc, disk, URL) {
        Ok(desk) => desk,
        Err((_, fault)) => return Ok(format!(in alloc; "fault: {fault}")?.into_bytes()),
    };
    let asked = ask_lines(alloc, &mut desk, case, &mut out);
    let told = tell_left(&desk, &mut out);
    let (mut disk, _, under) = desk.into_parts();
    asked?;
    told?;
    if under.is_some() {
        writeln!(out, "a step is under way")?;
    }
    tell_files(alloc, &mut disk, case, &mut out)?;
    Ok(out.into_bytes())
}
