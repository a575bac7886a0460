//! Entity tags, what is known of files, methods, and texts as they are written.

use crate::case::{Case, starved};
use crate::told::{Told, plain};
use crate::words::{method_of, seen_of};
use dav_frame::idempotent;
use dav_script::RowFault;
use dav_text::{Blob, Etag, Tag, Text, decimal, hex_u32, quote, xml_escape};
use std::alloc::Global;

/// The kind of an entity tag: weak, strong, or strong and kept.
fn kind_of(value: &[u8], tag: &Etag<'_>) -> &'static str {
    match (tag.weak, Tag::read(value)) {
        (true, None) => "weak",
        (true, Some(_)) => "weak, and kept",
        (false, None) => "strong",
        (false, Some(kept)) if kept.as_slice() != tag.opaque => "kept otherwise",
        (false, Some(_)) => "kept",
    }
}

/// What a value of an ETag field is: `kept` stands before a strong tag of at most 128 bytes.
pub fn outcome_of_tag(alloc: Global, case: &Case<'_>) -> Result<Vec<u8>, RowFault> {
    let value = case.given.bytes();
    match (Etag::read(value), Tag::read(value)) {
        (Some(tag), _) => {
            let mut told = Told::new(alloc, case);
            told.always(kind_of(value, &tag), tag.opaque)?;
            told.end()
        }
        (None, None) => plain(alloc, "no tag"),
        (None, Some(_)) => plain(alloc, "no tag, and kept"),
    }
}

/// Whether what is known of a file is the same as that of the setting `other`, copies of both included.
pub fn outcome_of_two_seen(alloc: Global, case: &Case<'_>) -> Result<Vec<u8>, RowFault> {
    let Some(seen) = seen_of(case.given.bytes()) else {
        return Err(case.bad_given());
    };
    let Some(other) = seen_of(case.bytes_or_none("other")) else {
        return Err(case.bad_given());
    };
    match (seen.same(&other), other.copy().same(&seen.copy())) {
        (true, true) => plain(alloc, "same"),
        (false, false) => plain(alloc, "other"),
        _ => plain(alloc, "same in one way"),
    }
}

/// A text as the setting `as` says that it is written: `xml`, `quoted`, `hex` or `decimal`, behind an `x` that stood before.
pub fn outcome_of_written(alloc: Global, case: &Case<'_>) -> Result<Vec<u8>, RowFault> {
    let mut out = Vec::from_slice(alloc, b"x")?;
    let given = case.given;
    match case.text_or("as", "")? {
        "xml" => xml_escape(given.bytes(), &mut out).map_err(starved)?,
        "quoted" => quote(given.bytes(), &mut out).map_err(starved)?,
        "decimal" => decimal(given.number()?, &mut out).map_err(starved)?,
        "hex" => match u32::try_from(given.number()?) {
            Ok(number) => out.extend_from_slice(&hex_u32(number))?,
            Err(_) => return Err(case.bad_given()),
        },
        _ => return Err(case.bad_given()),
    }
    Ok(out)
}

/// What a value that owns bytes says of them.
#[derive(Clone, Copy)]
struct Holding<'a> {
    value: &'a [u8],
    len: usize,
    is_empty: bool,
    is_copy_same: bool,
    is_other_same: bool,
}

/// The lines of what is held.
fn told_holding(
    alloc: Global,
    case: &Case<'_>,
    holding: &Holding<'_>,
) -> Result<Vec<u8>, RowFault> {
    let mut told = Told::new(alloc, case);
    told.line("value", holding.value)?;
    told.number("length", holding.len as u64)?;
    told.yes("empty", holding.is_empty)?;
    told.yes("copy", holding.is_copy_same)?;
    told.yes("other", holding.is_other_same)?;
    told.end()
}

/// Bytes that are held, with a copy of them, and other ones.
pub fn outcome_of_bytes(alloc: Global, case: &Case<'_>) -> Result<Vec<u8>, RowFault> {
    let held = Blob::copy_of(alloc, case.given.bytes()).map_err(starved)?;
    let copy = Blob::from_vec(held.copy(alloc).map_err(starved)?.into_vec());
    let other = Blob::copy_of(alloc, case.bytes_or_none("other")).map_err(starved)?;
    let holding = Holding {
        value: held.as_slice(),
        len: copy.len(),
        is_empty: copy.is_empty(),
        is_copy_same: held.same(&copy),
        is_other_same: held.same(&other),
    };
    told_holding(alloc, case, &holding)
}

/// Text that is held, with a copy of it, and another one.
pub fn outcome_of_text(alloc: Global, case: &Case<'_>) -> Result<Vec<u8>, RowFault> {
    let held = Text::copy_of(alloc, case.given.text()?).map_err(starved)?;
    let copy = held.copy(alloc).map_err(starved)?;
    let other = String::from_str(alloc, case.text_or("other", "")?)?;
    let other = Text::from_string(other);
    let holding = Holding {
        value: held.as_bytes(),
        len: copy.len(),
        is_empty: copy.is_empty(),
        is_copy_same: held.same(&copy) && held.as_str() == copy.as_str(),
        is_other_same: held.same(&other),
    };
    told_holding(alloc, case, &holding)
}

/// The method of a name: its name, and whether its request may be sent again.
pub fn outcome_of_method(alloc: Global, case: &Case<'_>) -> Result<Vec<u8>, RowFault> {
    let Some(method) = method_of(case.given.text()?) else {
        return Err(case.bad_given());
    };
    let mut told = Told::new(alloc, case);
    told.line("name", method.name().as_bytes())?;
    told.yes("again", idempotent(method))?;
    told.end()
}
