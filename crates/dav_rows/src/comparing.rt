use crate::files::{File, bytes_of_file};
use crate::halt::{Halt, ensure};
use crate::playing::Played;
use crate::story::{Connection, Count, Script};
use dav_edge::MemConnection;
use dav_script::difference;
use std::alloc::{AllocError, Global};

/// Adds a difference to those that were found.
fn add(found: &mut String, what: Option<String>) -> Result<(), AllocError> {
    if let Some(what) = what {
        if !found.is_empty() {
            found.push_str("; ")?;
        }
        found.push_str(what.as_str())?;
    }
    Ok(())
}

/// What differs of a number.
fn number_difference(
    alloc: Global,
    part: &str,
    wanted: u64,
    found: u64,
) -> Result<Option<String>, AllocError> {
    if wanted == found {
        return Ok(None);
    }
    let text = format!(in alloc; "{part}: wanted {wanted}, found {found}")?;
    Ok(Some(text))
}

/// Adds what differs of a connection of this number, from 1.
fn compare_connection(
    alloc: Global,
    number: usize,
    wanted: &Connection,
    made: &MemConnection,
    found: &mut String,
) -> Result<(), AllocError> {
    let (host, port) = (wanted.host.as_str(), wanted.port);
    let wanted_to = format!(in alloc; "{host}:{port}")?;
    let (host, port) = (made.host.as_str(), made.port);
    let made_to = format!(in alloc; "{host}:{port}")?;
    let part = format!(in alloc; "connection {number} to")?;
    let (to, other) = (wanted_to.as_bytes(), made_to.as_bytes());
    add(found, difference(alloc, part.as_str(), to, other)?)?;
    let part = format!(in alloc; "connection {number} sent")?;
    let (sent, other) = (wanted.sent.as_slice(), made.sent.as_slice());
    add(found, difference(alloc, part.as_str(), sent, other)?)
}

/// Adds what differs of the connections.
fn compare_connections(
    alloc: Global,
    wanted: &[Connection],
    made: &[MemConnection],
    found: &mut String,
) -> Result<(), AllocError> {
    let (count, other) = (wanted.len() as u64, made.len() as u64);
    add(
        found,
        number_difference(alloc, "connections", count, other)?,
    )?;
    let mut number = 0usize;
    for (wanted, made) in wanted.iter().zip(made.iter()) {
        number = number.saturating_add(1);
        compare_connection(alloc, number, wanted, made, found)?;
    }
    Ok(())
}

/// Adds what differs of the files.
fn compare_files(
    alloc: Global,
    wanted: &[File],
    files: &[File],
    found: &mut String,
) -> Result<(), AllocError> {
    for file in wanted {
        let number = file.number;
        let part = if number == 0 {
            String::from_str(alloc, "index")?
        } else {
            format!(in alloc; "file {number}")?
        };
        let other = bytes_of_file(files, number);
        add(
            found,
            difference(alloc, part.as_str(), file.bytes.as_slice(), other)?,
        )?;
    }
    Ok(())
}

/// The name of a number in a row, and what a run came to.
fn count_of(played: &Played, count: Count) -> (&'static str, u64) {
    let ended = &played.ended;
    match count {
        Count::Status => ("status", u64::from(played.status)),
        Count::Lost => ("lost", u64::from(ended.lost)),
        Count::Lines => ("lines", ended.done),
        Count::Steps => ("steps", ended.trace.steps.len() as u64),
        Count::DiskCalls => ("calls disk", played.calls.disk),
        Count::Under => ("under", u64::from(ended.under.is_some())),
    }
}

/// Adds what differs of the numbers.
fn compare_counts(
    alloc: Global,
    wanted: &[(Count, u64)],
    played: &Played,
    found: &mut String,
) -> Result<(), AllocError> {
    for (count, number) in wanted {
        let (part, other) = count_of(played, *count);
        add(found, number_difference(alloc, part, *number, other)?)?;
    }
    Ok(())
}

/// Ok where all came of a run that its row expects, and these files lie on the disk then.
pub fn compare(
    alloc: Global,
    script: &Script,
    played: &Played,
    files: &[File],
) -> Result<(), Halt> {
    let mut found = String::new(alloc);
    if let Some(output) = &script.output {
        let other = played.output.as_slice();
        add(
            &mut found,
            difference(alloc, "output", output.as_slice(), other)?,
        )?;
    }
    compare_counts(alloc, script.counts.as_slice(), played, &mut found)?;
    let made = played.made.as_slice();
    compare_connections(alloc, script.connections.as_slice(), made, &mut found)?;
    compare_files(alloc, script.holds.as_slice(), files, &mut found)?;
    ensure(alloc, !played.ended.starved, "want of memory")?;
    ensure(alloc, found.is_empty(), found.as_str())
}
