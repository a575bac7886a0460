//! A disk in memory: calls one after another, what each answers, and what a stop may leave.

use crate::case::Case;
use crate::devices::{call_of, calls_of, numbers_of};
use dav_disk::{Disk, Failed, MemDisk};
use dav_script::{RowFault, shown};
use std::alloc::{AllocError, Global};

/// A call of a disk.
#[derive(Clone, Copy)]
enum Call<'a> {
    Size(u32),
    Read(u32, u64, usize),
    Write(u32, u64, &'a str),
    Cut(u32, u64),
    Sync(u32),
    /// What a stop at this moment may leave of the file, as near to the wish as may be.
    Image(u64, u32, &'a str),
}

/// The number in front of a text, and what stands behind it and one blank.
fn number_before(text: &str) -> Option<(u64, &str)> {
    let (number, rest) = call_of(text);
    Some((number.parse::<u64>().ok()?, rest))
}

/// The file's number in front of a text, and what stands behind it and one blank.
fn file_before(text: &str) -> Option<(u32, &str)> {
    let (number, rest) = call_of(text);
    Some((number.parse::<u32>().ok()?, rest))
}

/// The call that a line spells.
fn disk_call(line: &str) -> Option<Call<'_>> {
    let (word, rest) = call_of(line);
    match word {
        "size" => Some(Call::Size(file_before(rest)?.0)),
        "sync" => Some(Call::Sync(file_before(rest)?.0)),
        "cut" => {
            let (file, rest) = file_before(rest)?;
            Some(Call::Cut(file, number_before(rest)?.0))
        }
        "read" => {
            let (file, rest) = file_before(rest)?;
            let (at, rest) = number_before(rest)?;
            Some(Call::Read(file, at, rest.parse::<usize>().ok()?))
        }
        "write" => {
            let (file, rest) = file_before(rest)?;
            let (at, text) = number_before(rest)?;
            Some(Call::Write(file, at, text))
        }
        "image" => {
            let (moment, rest) = number_before(rest)?;
            let (file, wish) = file_before(rest)?;
            Some(Call::Image(moment, file, wish))
        }
        _ => None,
    }
}

/// A text in quotes, as a row writes it.
fn quoted(alloc: Global, bytes: &[u8]) -> Result<String, AllocError> {
    let text = shown(alloc, bytes)?;
    format!(in alloc; "\"{text}\"")
}

/// What a read of this many bytes gives.
fn read(
    alloc: Global,
    disk: &mut MemDisk,
    file: u32,
    at: u64,
    length: usize,
) -> Result<String, AllocError> {
    let mut buf = vec![in alloc; 0u8; length.min(64)]?;
    let Ok(count) = disk.read(file, at, buf.as_mut_slice()) else {
        return String::from_str(alloc, "failed");
    };
    buf.truncate(count);
    quoted(alloc, buf.as_slice())
}

/// What a call without an answer of its own says.
fn done(alloc: Global, answer: Result<(), Failed>) -> Result<String, AllocError> {
    match answer {
        Ok(()) => String::from_str(alloc, "done"),
        Err(Failed) => String::from_str(alloc, "failed"),
    }
}

/// Writes at a place that is not past the file's end. The size is asked first, which is a call too.
fn write(disk: &mut MemDisk, file: u32, at: u64, bytes: &[u8]) -> Result<(), Failed> {
    let size = disk.size(file)?;
    if at > size {
        return Err(Failed);
    }
    disk.write_at(file, at, bytes)?;
    Ok(())
}

/// Cuts a file to a length that is not greater than its own, with the size asked first.
fn cut(disk: &mut MemDisk, file: u32, length: u64) -> Result<(), Failed> {
    let size = disk.size(file)?;
    if length > size {
        return Err(Failed);
    }
    disk.cut(file, length)?;
    Ok(())
}

/// Makes a call. What it answers.
fn answer_to(alloc: Global, disk: &mut MemDisk, call: &Call<'_>) -> Result<String, AllocError> {
    match call {
        Call::Size(file) => match disk.size(*file) {
            Ok(size) => format!(in alloc; "{size}"),
            Err(Failed) => String::from_str(alloc, "failed"),
        },
        Call::Read(file, at, length) => read(alloc, disk, *file, *at, *length),
        Call::Write(file, at, text) => done(alloc, write(disk, *file, *at, text.as_bytes())),
        Call::Cut(file, length) => done(alloc, cut(disk, *file, *length)),
        Call::Sync(file) => done(alloc, disk.sync(*file)),
        Call::Image(moment, file, wish) => {
            let image = disk.image(*moment, *file, wish.as_bytes())?;
            quoted(alloc, image.as_slice())
        }
    }
}

/// The answers of a disk to calls, from the moment of the setting `moment` on, and how many calls were made and failed: `size FILE`,
/// `read FILE AT LENGTH`, `write FILE AT TEXT`, `cut FILE LENGTH`, `sync FILE`, and `image MOMENT FILE WISH`, which is no call of the
/// disk. A write and a cut ask the size first.
pub fn outcome_of_disk(alloc: Global, case: &Case<'_>) -> Result<Vec<u8>, RowFault> {
    let fails = numbers_of(alloc, case, "fails")?;
    let moment = match case.setting("moment") {
        Some(entry) => entry.number()?,
        None => 0,
    };
    let mut disk = MemDisk::starting_at(alloc, moment, fails);
    let mut out = String::new(alloc);
    for line in calls_of(case)?.lines() {
        let Some(call) = disk_call(line) else {
            return Err(case.given.bad_value());
        };
        let answer = answer_to(alloc, &mut disk, &call)?;
        writeln!(out, "{line}: {answer}")?;
    }
    let calls = disk.calls();
    let faults = disk.faults();
    writeln!(out, "calls {calls}\nfaults {faults}")?;
    Ok(out.into_bytes())
}
