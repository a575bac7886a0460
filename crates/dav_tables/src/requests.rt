//! Requests as they are written, and values that can stand in a field.

ghost use Rattle.std.specs.Prelude.{◌≡◌};
ghost use Rattle.dav_frame.specs.Request.{has_length as has_length_lem};

use crate::case::{Case, starved};
use crate::told::plain;
use crate::words::{field_of, method_of};
use dav_frame::{Fields, Method, Req, is_clean, write_request};
use dav_script::RowFault;
use dav_text::{Blob, Text};
use std::alloc::Global;

/// Sets the field of a line `NAME: VALUE`.
fn set_line(case: &Case<'_>, line: &str, fields: &mut Fields) -> Result<(), RowFault> {
    let Some((name, value)) = line.split_once(": ") else {
        return Err(case.bad_given());
    };
    let value = value.as_bytes();
    match field_of(name) {
        Some(name) if is_clean(value) => fields.set(name, value).map_err(starved),
        _ => Err(case.bad_given()),
    }
}

/// The fields of the lines of the block that is given, set one after the other.
fn fields_of(alloc: Global, case: &Case<'_>) -> Result<Fields, RowFault> {
    let mut fields = Fields::new(alloc);
    let Ok(text) = str::from_utf8(case.given.block_bytes()) else {
        return Err(case.bad_given());
    };
    for line in text.split('\n') {
        if !line.is_empty() {
            set_line(case, line, &mut fields)?;
        }
    }
    Ok(fields)
}

/// Whether a request of a method states the length of its body.
fn has_length(method: Method) -> bool
    ensures { result ≡ has_length_lem method }
{
    match method {
        Method::Put | Method::Lock | Method::Propfind | Method::Proppatch => true,
        _ => false,
    }
}

/// Appends the request of a method with a body.
fn write(
    alloc: Global,
    case: &Case<'_>,
    (method, target): (Method, &str),
    out: &mut Vec<u8>,
) -> Result<(), RowFault> {
    let body = Blob::copy_of(alloc, case.bytes_or_none("body")).map_err(starved)?;
    if !has_length(method) && !body.is_empty() {
        return Err(case.bad_given());
    }
    let req = Req {
        method,
        host: Text::copy_of(alloc, case.text_or("host", "h")?).map_err(starved)?,
        target: Text::copy_of(alloc, target).map_err(starved)?,
        fields: fields_of(alloc, case)?,
        body,
    };
    write_request(&req, out).map_err(starved)
}

/// The bytes of a request `METHOD TARGET` with the fields of its block, behind a `|` that stood before.
pub fn outcome_of_request(alloc: Global, case: &Case<'_>) -> Result<Vec<u8>, RowFault> {
    let Some((name, target)) = case.given.text()?.split_once(' ') else {
        return Err(case.bad_given());
    };
    let Some(method) = method_of(name) else {
        return Err(case.bad_given());
    };
    let mut out = Vec::from_slice(alloc, b"|")?;
    write(alloc, case, (method, target), &mut out)?;
    Ok(out)
}

/// Whether a value can stand in a field.
pub fn outcome_of_value(alloc: Global, case: &Case<'_>) -> Result<Vec<u8>, RowFault> {
    if is_clean(case.given.bytes()) {
        plain(alloc, "clean")
    } else {
        plain(alloc, "not clean")
    }
}
