ghost use Rattle.std.specs.Prelude.{◌≡◌, ◌++◌, IfOk, OnOk, true, false, if◌then◌else◌};
ghost use Rattle.dav_edge.specs.Whole.{DoesOn};
ghost use Rattle.dav_run.specs.Codes.{IsBehind, IsCutShort};
ghost use Rattle.dav_run.specs.Run.{cache_end, place_text, urls_text, sums_text, closing_status as closing_status_lem, left_text, SaysCache, SaysFault, SaysLeft, SaysMemory};
ghost use Rattle.dav_run.specs.declared.ended.Status.TheVariants as status;
ghost use Rattle.hex.specs.Hex.{encode_lower};

use crate::cause::{Cause, cause_of};
use crate::ended::Status;
use dav_deeds::DeskFault;
use dav_edge::{Sink, put_whole};
use dav_text::{Memory, decimal, quote};
use hex::encode_to_slice;
use std::alloc::Global;

/// Tells that want of memory ends the run.
pub fn tell_memory<O: Sink>(out: &mut O) -> Status
    ensures says { DoesOn (O.log out.old) (O.log out.new) SaysMemory result }
    ensures status { result ≡ status.Memory }
{
    let _ = put_whole(out, b"end: memory\n".as_slice());
    Status::Memory
}

/// Tells that a fault of the desk ends the run. Where there is no memory to tell it, want of memory ends the run.
pub fn tell_fault<O: Sink>(alloc: Global, out: &mut O, fault: DeskFault) -> Status
    ensures says { DoesOn (O.log out.old) (O.log out.new) (SaysFault fault) result }
    ensures short { IsCutShort result }
{
    match cause_of(fault) {
        Cause::Disk => {
            let _ = put_whole(out, b"end: disk\n".as_slice());
            Status::Disk
        }
        Cause::Memory => tell_memory(out),
        Cause::Cache(fault) => tell_cache(alloc, out, fault),
        Cause::Crowded(oldest) => tell_cache(alloc, out, DeskFault::Crowded { oldest }),
        Cause::Limit(which) => tell_cache(alloc, out, DeskFault::Limit { which }),
    }
}

// Tells why there is no cache for this run.
fn tell_cache<O: Sink>(alloc: Global, out: &mut O, fault: DeskFault) -> Status
    ensures says { DoesOn (O.log out.old) (O.log out.new) (SaysCache fault) result }
    ensures short { IsCutShort result }
{
    let Ok(line) = cache_line(alloc, &fault) else {
        return tell_memory(out);
    };
    let _ = put_whole(out, line.as_slice());
    Status::Cache(fault)
}

// The line that tells why there is no cache for this run.
fn cache_line(alloc: Global, fault: &DeskFault) -> Result<Vec<u8>, Memory>
    ensures { IfOk result (λ line. line.items ≡ cache_end fault.now) }
{
    let mut line = Vec::new(alloc);
    line.extend_from_slice(b"end: cache")?;
    match fault {
        DeskFault::NotACache { at } => write_place(*at, &mut line)?,
        DeskFault::OtherServer { kept, asked } => {
            write_urls(kept.as_bytes(), asked.as_bytes(), &mut line)?
        }
        DeskFault::Damaged {
            file,
            stored,
            found,
        } => write_sums(*file, stored, found, &mut line)?,
        DeskFault::Disk
        | DeskFault::Queued { .. }
        | DeskFault::NoSuchJob { .. }
        | DeskFault::Crowded { .. }
        | DeskFault::Limit { .. }
        | DeskFault::Memory => {}
    }
    line.push(b'\n')?;
    Ok(line)
}

// Writes where the index is none.
fn write_place(at: u64, line: &mut Vec<u8>) -> Result<(), Memory>
    ensures { OnOk result (line.new.items ≡ line.old.items ++ place_text at) }
{
    line.extend_from_slice(b" not-a-cache ")?;
    decimal(at, line)?;
    Ok(())
}

// Writes whose cache it is, and whose was asked for.
fn write_urls(kept: &[u8], asked: &[u8], line: &mut Vec<u8>) -> Result<(), Memory>
    ensures { OnOk result (line.new.items ≡ line.old.items ++ urls_text kept.now asked.now) }
{
    line.extend_from_slice(b" other ")?;
    quote(kept, line)?;
    line.push(b' ')?;
    quote(asked, line)?;
    Ok(())
}

// Writes which body is damaged.
fn write_sums(
    file: u32,
    stored: &[u8; 32],
    found: &[u8; 32],
    line: &mut Vec<u8>,
) -> Result<(), Memory>
    ensures { OnOk result (line.new.items ≡ line.old.items ++ sums_text file stored.now found.now) }
{
    line.extend_from_slice(b" damaged ")?;
    decimal(u64::from(file), line)?;
    line.push(b' ')?;
    write_sum(stored, line)?;
    line.push(b' ')?;
    write_sum(found, line)?;
    Ok(())
}

// Writes a sum in lower hexadecimal digits.
fn write_sum(sum: &[u8; 32], line: &mut Vec<u8>) -> Result<(), Memory>
    ensures { OnOk result (line.new.items ≡ line.old.items ++ encode_lower sum.now) }
{
    let mut digits = [0u8; 64];
    let Ok(()) = encode_to_slice(sum.as_slice(), &mut digits) else {
        unreachable!();
    };
    line.extend_from_slice(digits.as_slice())?;
    Ok(())
}

/// Tells what is left where something is, and gives the status of a run that came to its end.
pub fn tell_left<O: Sink>(
    alloc: Global,
    out: &mut O,
    queued: u32,
    lost: u32,
    faulty: bool,
) -> Status
    ensures says { DoesOn (O.log out.old) (O.log out.new) (SaysLeft (left_text queued lost) faulty) result }
    ensures behind { IsBehind result }
{
    let Ok(line) = left_line(alloc, queued, lost) else {
        return tell_memory(out);
    };
    match put_whole(out, line.as_slice()) {
        Ok(()) => closing_status(faulty),
        Err(_) => Status::Output,
    }
}

fn closing_status(faulty: bool) -> Status
    ensures { result ≡ closing_status_lem faulty }
{
    if faulty { Status::Faults } else { Status::Done }
}

// The line that tells what is left, where something is.
fn left_line(alloc: Global, queued: u32, lost: u32) -> Result<Vec<u8>, Memory>
    ensures { IfOk result (λ line. line.items ≡ left_text queued lost) }
{
    let mut line = Vec::new(alloc);
    if queued == 0 && lost == 0 {
        return Ok(line);
    }
    line.extend_from_slice(b"left: queued ")?;
    decimal(u64::from(queued), &mut line)?;
    line.extend_from_slice(b" lost ")?;
    decimal(u64::from(lost), &mut line)?;
    line.push(b'\n')?;
    Ok(line)
}
