//! Paths: what a text is read as, what a typed word stands for, and how two paths stand to each other.

use crate::case::Case;
use crate::told::plain;
use dav_script::RowFault;
use dav_text::{Path, PathFault};
use std::alloc::Global;

/// The text of a path, which both ways of writing it, its copy and its last slash have to agree with.
fn agreed(alloc: Global, path: &Path) -> Result<Vec<u8>, PathFault> {
    let copy = path.copy(alloc)?;
    let mut out = Vec::new(alloc);
    copy.escaped_into(&mut out)?;
    let text = path.escaped(alloc)?;
    let is_slash_last = out.last() == Some(&b'/');
    if !path.same(&copy) || text.as_bytes() != out.as_slice() || path.has_slash() != is_slash_last {
        out.extend_from_slice(b", which the path does not agree with")
            .map_err(dav_text::Memory::from)?;
    }
    Ok(out)
}

/// The outcome of a text of a path.
fn told(alloc: Global, text: Result<Vec<u8>, PathFault>) -> Result<Vec<u8>, RowFault> {
    match text {
        Ok(text) => Ok(text),
        Err(PathFault::Memory) => Err(RowFault::Memory),
        Err(fault) => Ok(format!(in alloc; "fault {fault}")?.into_bytes()),
    }
}

/// The text of the path that a text stands for.
fn read(alloc: Global, text: &str) -> Result<Vec<u8>, PathFault> {
    let path = Path::read(alloc, text)?;
    agreed(alloc, &path)
}

/// The path that a text of a URL stands for, or why it is none.
pub fn outcome_of_path(alloc: Global, case: &Case<'_>) -> Result<Vec<u8>, RowFault> {
    told(alloc, read(alloc, case.given.text()?))
}

/// The text of the path that a word stands for where it is typed.
fn typed(alloc: Global, here: &Path, word: &str) -> Result<Vec<u8>, PathFault> {
    let path = Path::typed(alloc, here, word)?;
    agreed(alloc, &path)
}

/// The path of a text that has to be one.
fn path_of(alloc: Global, case: &Case<'_>, text: &str) -> Result<Path, RowFault> {
    match Path::read(alloc, text) {
        Ok(path) => Ok(path),
        Err(PathFault::Memory) => Err(RowFault::Memory),
        Err(_) => Err(case.bad_given()),
    }
}

/// The path that a word stands for where it is typed: below the setting `here`, and below the top without one.
pub fn outcome_of_typed(alloc: Global, case: &Case<'_>) -> Result<Vec<u8>, RowFault> {
    let here = match case.setting("here") {
        Some(entry) => path_of(alloc, case, entry.text()?)?,
        None => Path::top(alloc),
    };
    told(alloc, typed(alloc, &here, case.given.text()?))
}

/// How a path stands to the one of the setting `other`: the same, under it, its parent, or apart from it.
pub fn outcome_of_two_paths(alloc: Global, case: &Case<'_>) -> Result<Vec<u8>, RowFault> {
    let path = path_of(alloc, case, case.given.text()?)?;
    let other = path_of(alloc, case, case.text_or("other", "/")?)?;
    match (
        path.same(&other),
        path.is_under(&other),
        path.is_parent_of(&other),
    ) {
        (true, false, false) => plain(alloc, "same"),
        (false, true, false) => plain(alloc, "under"),
        (false, false, true) => plain(alloc, "parent"),
        (false, false, false) => plain(alloc, "apart"),
        _ => plain(alloc, "more than one"),
    }
}
