ghost use Rattle.std.specs.Prelude.{◌≡◌, fold, codes};
ghost use Rattle.http_header.specs.HeaderMap.{get_all};
ghost use Rattle.dav_head.specs.Lengths.{with_element as with_element_lem, with_value as with_value_lem, content_length as content_length_lem};

use crate::elements::trimmed;
use dav_text::number_of;
use http_header::{CONTENT_LENGTH, HeaderMap, HeaderValue};

// How many digits a length may have.
const DIGITS_MAX: usize = 15;

/// The length of a body, as the Content-Length fields of a reply state it.
#[derive(Clone, Copy, Debug, PartialEq, Eq)]
pub enum Length {
    /// No such field is there.
    Missing,
    /// So many bytes.
    Stated(u64),
    /// An element is no number of 1 to 15 digits, or two of them differ.
    Bad,
}

/// What is known after one element more.
fn with_element(length: Length, element: &[u8]) -> Length
    ensures { result ≡ with_element_lem length element.now }
{
    match (length, number_of(trimmed(element), DIGITS_MAX)) {
        (Length::Bad, _) => Length::Bad,
        (_, None) => Length::Bad,
        (Length::Missing, Some(number)) => Length::Stated(number),
        (Length::Stated(before), Some(number)) => {
            if before == number {
                Length::Stated(before)
            } else {
                Length::Bad
            }
        }
    }
}

/// What is known after one value more.
fn with_value(length: Length, value: &HeaderValue) -> Length
    ensures { result ≡ with_value_lem length value.now }
{
    value
        .as_bytes()
        .split(|b| *b == b',')
        .fold(length, |now, element| with_element(now, element))
}

/// What is known after the value of each Content-Length field.
fn length_after_all(fields: &HeaderMap) -> Length
    ensures { result ≡ fold with_value_lem Length.Missing (get_all fields.now (codes "content-length")) }
{
    fields
        .get_all(CONTENT_LENGTH)
        .iter()
        .fold(Length::Missing, |now, value| with_value(now, value))
}

/// The length that the Content-Length fields state: RFC 9112 section 6.3.
pub fn content_length(fields: &HeaderMap) -> Length
    ensures { result ≡ content_length_lem fields.now }
{
    length_after_all(fields)
}
