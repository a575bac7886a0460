//! Turns of what sends files: asks of a desk and turns, one after another, and what was sent.

ghost use Rattle.dav_desk.specs.Working.{IsReadied};

use crate::asks::{URL, ask_line, fated, tell_left};
use crate::case::Case;
use crate::devices::{call_of, calls_of};
use crate::jobs::{tell_sent, wire_of};
use dav_desk::Desk;
use dav_disk::{Disk, MemDisk};
use dav_edge::{MemWire, Wire};
use dav_script::RowFault;
use dav_upload::{Did, UploadFault, turn};
use dav_uri::Base;
use std::alloc::{AllocError, Global};

/// What a turn came to, as text.
fn did_text(alloc: Global, did: Result<Did, UploadFault>) -> Result<String, AllocError> {
    match did {
        Ok(Did::Nothing) => String::from_str(alloc, "nothing"),
        Ok(Did::Settled(what)) => fated(alloc, what),
        Err(fault) => format!(in alloc; "fault: {fault}"),
    }
}

/// Makes the ask of a line, or the turn of a line `NOW turn`, and appends what is said.
fn turn_line<V: Wire, D: Disk>(
    alloc: Global,
    base: &Base,
    wire: &mut V,
    desk: &mut Desk<D>,
    line: &str,
    fault: RowFault,
    out: &mut String,
) -> Result<(), RowFault>
    requires { IsReadied D.honest D.moment D.seen D.past desk.old }
    ensures { IsReadied D.honest D.moment D.seen D.past desk.new }
{
    let (now, rest) = call_of(line);
    if rest != "turn" {
        return ask_line(alloc, desk, line, fault, out);
    }
    let now = now.parse::<u64>().map_err(|_| fault)?;
    let did = turn(alloc, base, wire, desk, now);
    let said = did_text(alloc, did)?;
    writeln!(out, "{line}: {said}")?;
    Ok(())
}

/// Makes the asks and turns of all lines.
fn turn_lines<V: Wire, D: Disk>(
    alloc: Global,
    base: &Base,
    wire: &mut V,
    desk: &mut Desk<D>,
    case: &Case<'_>,
    out: &mut String,
) -> Result<(), RowFault>
    requires { IsReadied D.honest D.moment D.seen D.past desk.old }
{
    let fault = case.given.bad_value();
    for line in calls_of(case)?.lines() {
        turn_line(alloc, base, wire, desk, line, fault, out)?;
    }
    Ok(())
}

/// Makes the asks and turns of all lines over a desk, and appends what is left.
fn turn_and_tell<V: Wire, D: Disk>(
    alloc: Global,
    base: &Base,
    wire: &mut V,
    desk: &mut Desk<D>,
    case: &Case<'_>,
    out: &mut String,
) -> Result<(), RowFault>
    requires { IsReadied D.honest D.moment D.seen D.past desk.old }
{
    turn_lines(alloc, base, wire, desk, case, out)?;
    tell_left(desk, out)?;
    Ok(())
}

/// The same over a fresh disk.
fn turn_over_a_disk<V: Wire>(
    alloc: Global,
    base: &Base,
    wire: &mut V,
    case: &Case<'_>,
    out: &mut String,
) -> Result<(), RowFault> {
    match Desk::start(alloc, MemDisk::new(alloc, Vec::new(alloc)), URL) {
        Ok(mut desk) => turn_and_tell(alloc, base, wire, &mut desk, case, out),
        Err(_) => Err(RowFault::Memory),
    }
}

/// The same over the wire of a base, and what was sent on it.
fn turn_over_a_wire(
    alloc: Global,
    wire: &mut MemWire,
    case: &Case<'_>,
    out: &mut String,
) -> Result<(), RowFault> {
    match Base::read(alloc, URL) {
        Ok(base) => turn_over_a_disk(alloc, &base, wire, case, out)?,
        Err(_) => return Err(RowFault::Memory),
    }
    tell_sent(alloc, wire, out)?;
    Ok(())
}

/// What comes of asks and turns over a fresh disk and a server that gives the bytes of the setting `reply`, what is left then, and what
/// was sent.
pub fn outcome_of_turn(alloc: Global, case: &Case<'_>) -> Result<Vec<u8>, RowFault> {
    let mut wire = wire_of(alloc, case.bytes_or_none("reply"))?;
    let mut out = String::new(alloc);
    turn_over_a_wire(alloc, &mut wire, case, &mut out)?;
    Ok(out.into_bytes())
}
