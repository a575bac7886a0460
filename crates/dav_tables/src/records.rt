//! Records of the index, both ways, and the tables that they replay to.

ghost use Rattle.std.specs.Prelude.{IsTrue, IfOk};
ghost use Rattle.dav_index.specs.Bounds.{IsWithin};
ghost use Rattle.dav_index.specs.Records.{IsRecord};

use crate::case::{Case, starved};
use crate::told::{Told, plain};
use crate::words::word_of;
use dav_index::{Record, RecordFault, Table};
use dav_script::RowFault;
use dav_store::BodyId;
use dav_text::{Memory, Path, PathFault};
use std::alloc::Global;

/// The text of a path.
fn path_text(alloc: Global, path: &Path) -> Result<dav_text::Text, RowFault> {
    path.escaped(alloc).map_err(starved)
}

/// A body: its file, its length and its checksum in hexadecimal digits.
fn body_text(alloc: Global, body: &BodyId) -> Result<String, RowFault> {
    let (file, len) = (body.file, body.len);
    let mut text = format!(in alloc; "file {file}, {len} bytes, sum ")?;
    for byte in &body.sum {
        text.push_str(format!(in alloc; "{byte:02x}")?.as_str())?;
    }
    Ok(text)
}

/// A record in words.
fn record_text(alloc: Global, rec: &Record) -> Result<Vec<u8>, RowFault> {
    match rec {
        Record::Forgot { path, locks, below } => {
            let mut text = format!(in alloc;
                "forgot {path}",
                path = path_text(alloc, path)?.as_str()
            )?;
            text.push_str(if *locks { " locks" } else { "" })?;
            text.push_str(if *below { " below" } else { "" })?;
            Ok(text.into_bytes())
        }
        Record::Closed { path, body } => {
            let (path, body) = (path_text(alloc, path)?, body_text(alloc, body)?);
            Ok(format!(in alloc; "closed {path} {body}", path = path.as_str())?.into_bytes())
        }
        Record::Sent { path, file, seen } => {
            let path = path_text(alloc, path)?;
            let mut text = format!(in alloc;
                "sent {path} file {file}, ",
                path = path.as_str()
            )?.into_bytes();
            text.extend_from_slice(word_of(seen))?;
            Ok(text)
        }
        Record::Lost {
            number,
            path,
            stays,
        } => {
            let path = path_text(alloc, path)?;
            let word = if *stays { "stays" } else { "goes" };
            Ok(format!(in alloc; "lost {number} {path} {word}", path = path.as_str())?.into_bytes())
        }
        Record::Dropped { number } => Ok(format!(in alloc; "dropped {number}")?.into_bytes()),
    }
}

/// The record that bytes are, which has to be written as these bytes.
fn told_record(alloc: Global, case: &Case<'_>, rec: &Record) -> Result<Vec<u8>, RowFault>
    requires { IsRecord rec.now }
{
    let mut written = Vec::new(alloc);
    rec.write(&mut written).map_err(starved)?;
    if written.as_slice() != case.given.bytes() {
        return plain(alloc, "written otherwise");
    }
    record_text(alloc, rec)
}

/// The record that bytes are, or why they are none.
pub fn outcome_of_record(alloc: Global, case: &Case<'_>) -> Result<Vec<u8>, RowFault> {
    match Record::read(alloc, case.given.bytes()) {
        Ok(record) => told_record(alloc, case, &record),
        Err(RecordFault::Memory) => Err(RowFault::Memory),
        Err(fault) => Ok(format!(in alloc; "fault {fault}")?.into_bytes()),
    }
}

/// A record in words, one after the other.
#[derive(Clone, Copy)]
enum Act<'a> {
    Closed(&'a str, u32, u64),
    Sent(&'a str, u32),
    Lost(u32, &'a str, bool),
    Dropped(u32),
    Forgot(&'a str, u8),
}

/// The record that the words of a line say: `closed PATH FILE LENGTH`, `sent PATH FILE`, `lost NUMBER PATH goes`, `lost NUMBER PATH
/// stays`, `dropped NUMBER`, or `forgot PATH alone`, with `locks`, `below` or `all` in place of `alone`.
fn act_of(line: &str) -> Option<Act<'_>> {
    let mut words = line.split(' ');
    let (word, first) = (words.next()?, words.next()?);
    let second = words.next().unwrap_or("");
    let third = words.next().unwrap_or("");
    match word {
        "closed" => Some(Act::Closed(
            first,
            second.parse::<u32>().ok()?,
            third.parse::<u64>().ok()?,
        )),
        "sent" => Some(Act::Sent(first, second.parse::<u32>().ok()?)),
        "lost" => Some(Act::Lost(first.parse::<u32>().ok()?, second, stays_of(third)?)),
        "dropped" => Some(Act::Dropped(first.parse::<u32>().ok()?)),
        "forgot" => Some(Act::Forgot(first, flags_of(second)?)),
        _ => None,
    }
}

/// Whether a file stays, in a word.
fn stays_of(word: &str) -> Option<bool> {
    match word {
        "stays" => Some(true),
        "goes" => Some(false),
        _ => None,
    }
}

/// How much is forgotten, in a word.
fn flags_of(word: &str) -> Option<u8> {
    match word {
        "alone" => Some(0),
        "locks" => Some(1),
        "below" => Some(2),
        "all" => Some(3),
        _ => None,
    }
}

/// Appends a path of at most 255 bytes behind its length.
fn push_path(path: &str, out: &mut Vec<u8>) -> Result<(), RowFault> {
    out.push(0)?;
    out.push(u8::try_from(path.len()).unwrap_or(0))?;
    out.extend_from_slice(path.as_bytes())?;
    Ok(())
}

/// The payload of a record. The bytes of a close have a checksum of sevens.
fn payload_of(alloc: Global, act: Act<'_>) -> Result<Vec<u8>, RowFault> {
    let mut out = Vec::new(alloc);
    match act {
        Act::Closed(path, file, len) => {
            out.push(3)?;
            push_path(path, &mut out)?;
            out.extend_from_slice(&file.to_be_bytes())?;
            out.extend_from_slice(&len.to_be_bytes())?;
            out.extend_from_slice(&[7; 32])?;
        }
        Act::Sent(path, file) => {
            out.push(4)?;
            push_path(path, &mut out)?;
            out.extend_from_slice(&file.to_be_bytes())?;
            out.push(2)?;
        }
        Act::Lost(number, path, stays) => {
            out.push(5)?;
            out.extend_from_slice(&number.to_be_bytes())?;
            push_path(path, &mut out)?;
            out.push(u8::from(stays))?;
        }
        Act::Dropped(number) => {
            out.push(6)?;
            out.extend_from_slice(&number.to_be_bytes())?;
        }
        Act::Forgot(path, flags) => {
            out.push(2)?;
            push_path(path, &mut out)?;
            out.push(flags)?;
        }
    }
    Ok(out)
}

/// The record of a line.
fn record_of(alloc: Global, case: &Case<'_>, line: &str) -> Result<Record, RowFault>
    ensures { IfOk result (λ r. IsRecord r) }
{
    let Some(act) = act_of(line) else {
        return Err(case.bad_given());
    };
    match Record::read(alloc, payload_of(alloc, act)?.as_slice()) {
        Ok(record) => Ok(record),
        Err(RecordFault::Memory) => Err(RowFault::Memory),
        Err(_) => Err(case.bad_given()),
    }
}

/// The lines that are given.
fn lines_of<'a>(case: &Case<'a>) -> Result<&'a str, RowFault> {
    let Ok(text) = str::from_utf8(case.given.bytes()) else {
        return Err(case.bad_given());
    };
    Ok(text.strip_suffix('\n').unwrap_or(text))
}

/// Replays a record behind those of a table.
fn replay(table: &mut Table, rec: &Record) -> Result<(), Memory>
    requires { IsRecord rec.now }
{
    match table.records.checked_add(1) {
        Some(row) => table.replay(row, rec),
        None => Err(Memory),
    }
}

/// The table of the records that are given.
fn table_of(alloc: Global, case: &Case<'_>) -> Result<Table, RowFault> {
    let mut table = Table::new(alloc);
    for line in lines_of(case)?.split('\n') {
        if line != "none" {
            let record = record_of(alloc, case, line)?;
            replay(&mut table, &record).map_err(starved)?;
        }
    }
    Ok(table)
}

/// The lines of the entries: the path, whether its bytes are queued, their file, and the age.
fn tell_entries(alloc: Global, table: &Table, told: &mut Told<'_>) -> Result<(), RowFault> {
    for held in table.entries.as_slice() {
        let path = path_text(alloc, held.path())?;
        let entry = held.entry();
        let mark = if entry.queued.is_some() {
            "queued"
        } else {
            "kept"
        };
        let file = match entry.body {
            Some(body) => body.file,
            None => 0,
        };
        let age = entry.age;
        let text = format!(in alloc; "{path} {mark} in {file}, age {age}", path = path.as_str())?;
        told.line("entry", text.as_bytes())?;
    }
    Ok(())
}

/// The lines of what is lost: its number, the path and the file.
fn tell_lost(alloc: Global, table: &Table, told: &mut Told<'_>) -> Result<(), RowFault> {
    for item in table.lost.as_slice() {
        let path = path_text(alloc, &item.path)?;
        let (number, file) = (item.number, item.body.file);
        let text = format!(in alloc; "{number} {path} in {file}", path = path.as_str())?;
        told.line("lost", text.as_bytes())?;
    }
    Ok(())
}

/// What the table that the records replay to holds, and the next numbers.
pub fn outcome_of_table(alloc: Global, case: &Case<'_>) -> Result<Vec<u8>, RowFault> {
    let table = table_of(alloc, case)?;
    let mut told = Told::new(alloc, case);
    tell_entries(alloc, &table, &mut told)?;
    tell_lost(alloc, &table, &mut told)?;
    told.number("next_file", table.next_file)?;
    told.number("next_lost", table.next_lost)?;
    told.end()
}

/// What the table that the records replay to says of the path of the setting `path`.
pub fn outcome_of_entry(alloc: Global, case: &Case<'_>) -> Result<Vec<u8>, RowFault> {
    let table = table_of(alloc, case)?;
    let path = match Path::read(alloc, case.text_or("path", "/")?) {
        Ok(path) => path,
        Err(PathFault::Memory) => return Err(RowFault::Memory),
        Err(_) => return Err(case.bad_given()),
    };
    let mut told = Told::new(alloc, case);
    told.yes("known", table.entries.get(&path).is_some())?;
    told.yes("queued", table.entries.queued(&path).is_some())?;
    told.end()
}

/// Replays a record behind those of a table that is within its bounds. Whether it still is.
fn replay_within(table: &mut Table, rec: &Record) -> Result<bool, Memory>
    requires is_record { IsRecord rec.now }
    requires within { IsWithin table.old }
    ensures { IfOk result (λ told. IsTrue told → IsWithin table.new) }
{
    match table.records.checked_add(1) {
        Some(row) => table.replay_within(row, rec),
        None => Err(Memory),
    }
}

/// Whether each of the records that are given leaves the table within its bounds.
fn are_within(alloc: Global, case: &Case<'_>, lines: &str) -> Result<bool, RowFault> {
    let mut table = Table::new(alloc);
    for line in lines.split('\n') {
        if line != "none" {
            let record = record_of(alloc, case, line)?;
            if !replay_within(&mut table, &record).map_err(starved)? {
                return Ok(false);
            }
        }
    }
    Ok(true)
}

/// Whether each of the records that are given leaves the table within its bounds, in a word.
pub fn outcome_of_bounds(alloc: Global, case: &Case<'_>) -> Result<Vec<u8>, RowFault> {
    if are_within(alloc, case, lines_of(case)?)? {
        plain(alloc, "within")
    } else {
        plain(alloc, "past")
    }
}
