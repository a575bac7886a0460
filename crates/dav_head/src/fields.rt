ghost use Rattle.std.specs.Prelude.{◌≡◌, length, map, All, IfOk, OnOk};
ghost use Rattle.httparse.specs.Grammar.{ResponseHead};
ghost use Rattle.httparse.specs.Spans.{IsHeaderWithin, header_bytes, IsResponseWithin, IsResponseAt};
ghost use Rattle.dav_head.specs.Fields.{with_field, field_map, head_map};

use dav_text::Memory;
use http_header::{HeaderMap, HeaderName, HeaderNameError, HeaderValue, HeaderValueError};
use httparse::spans::{HeaderSpan, ResponseSpans};
use std::alloc::Global;

/// Adds a field to the map, or passes it over where `http_header` refuses its name or its value.
fn add_field(alloc: Global, fields: &mut HeaderMap, name: &[u8], value: &[u8]) -> Result<(), Memory>
    ensures { OnOk result (fields.new ≡ with_field fields.old (name.now, value.now)) }
{
    let name = match HeaderName::from_bytes(alloc, name) {
        Ok(name) => name,
        Err(HeaderNameError::Invalid) => return Ok(()),
        Err(_) => return Err(Memory),
    };
    let value = match HeaderValue::from_bytes(alloc, value) {
        Ok(value) => value,
        Err(HeaderValueError::Invalid) => return Ok(()),
        Err(_) => return Err(Memory),
    };
    match fields.append(name, value) {
        Ok(_) => Ok(()),
        Err(_) => Err(Memory),
    }
}

/// The map of the fields that the spans cover, without those that `http_header` refuses.
fn map_of(alloc: Global, bytes: &[u8], headers: &[HeaderSpan]) -> Result<HeaderMap, Memory>
    requires { All (IsHeaderWithin (length bytes.now)) headers.now }
    ensures { IfOk result (λ fields. fields ≡ field_map (map (header_bytes bytes.now) headers.now)) }
{
    let mut fields = HeaderMap::new(alloc);
    for header in headers {
        add_field(
            alloc,
            &mut fields,
            header.name.of(bytes),
            header.value.of(bytes),
        )?;
    }
    Ok(fields)
}

/// The fields of a head whose parts `judge_head` found, without those that `http_header` refuses.
///
/// # Errors
///
/// Want of memory, or of room in a `HeaderMap`.
pub fn fields_of(
    alloc: Global,
    bytes: &[u8],
    headers: &[HeaderSpan],
    spans: ResponseSpans,
) -> Result<HeaderMap, Memory>
    requires { IsResponseWithin bytes.now headers.now spans }
    ensures { (h : ResponseHead) → IsResponseAt bytes.now headers.now spans h
        → IfOk result (λ fields. fields ≡ head_map h) }
{
    map_of(alloc, bytes, &headers[..spans.headers])
}
