//! Local files in memory: calls one after another, and what each answers.

use crate::case::{Case, starved};
use crate::devices::{call_of, calls_of, numbers_of};
use dav_edge::{LocalFault, LocalFile, Locals, MemLocals};
use dav_script::{RowFault, shown};
use std::alloc::{AllocError, Global};

/// The files of the settings `file NAME TEXT`.
fn files_of(alloc: Global, case: &Case<'_>) -> Result<Vec<LocalFile>, RowFault> {
    let mut files = Vec::new(alloc);
    for entry in case.settings {
        if entry.word.as_str() == "file" {
            let (name, text) = call_of(entry.text()?);
            match LocalFile::copy_of(alloc, name, text.as_bytes()) {
                Ok(file) => files.push(file)?,
                Err(memory) => return Err(starved(memory)),
            }
        }
    }
    Ok(files)
}

/// A fault, in words.
fn words_of(fault: LocalFault) -> &'static str {
    match fault {
        LocalFault::NoFile => "no file",
        LocalFault::TooLong => "too long",
        LocalFault::Failed => "failed",
        LocalFault::Memory => "no memory",
    }
}

/// Makes a call of local files, and appends what it answers.
fn call_locals(
    alloc: Global,
    locals: &mut MemLocals,
    line: &str,
    out: &mut String,
) -> Result<(), AllocError> {
    let (word, rest) = call_of(line);
    let (first, text) = call_of(rest);
    let fault = match word {
        "load" => match locals.load(text, first.parse::<u64>().unwrap_or(u64::MAX)) {
            Ok(bytes) => {
                let bytes = shown(alloc, bytes.as_slice())?;
                return writeln!(out, "{line}: \"{bytes}\"");
            }
            Err(fault) => words_of(fault),
        },
        "store" => match locals.store(first, text.as_bytes()) {
            Ok(()) => "done",
            Err(fault) => words_of(fault),
        },
        _ => "no such call",
    };
    writeln!(out, "{line}: {fault}")
}

/// The answers of local files, those of the settings `file NAME TEXT`, to `load LIMIT NAME` and `store NAME TEXT`, and how many
/// calls failed.
pub fn outcome_of_locals(alloc: Global, case: &Case<'_>) -> Result<Vec<u8>, RowFault> {
    let fails = numbers_of(alloc, case, "fails")?;
    let mut locals = MemLocals::new(alloc, files_of(alloc, case)?, fails);
    let mut out = String::new(alloc);
    for line in calls_of(case)?.lines() {
        call_locals(alloc, &mut locals, line, &mut out)?;
    }
    let faults = locals.faults();
    writeln!(out, "faults {faults}")?;
    Ok(out.into_bytes())
}
