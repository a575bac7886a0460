ghost use Rattle.std.specs.Prelude.{◌≡◌, not, false, fold, codes};
ghost use Rattle.http_header.specs.HeaderMap.{get_all};
ghost use Rattle.dav_head.specs.Codings.{with_coding as with_coding_lem, with_codings as with_codings_lem, transfer_coding as transfer_coding_lem, is_encoded as is_encoded_lem, says_close as says_close_lem, found_in, is_other_coding, is_close};
ghost use Rattle.dav_head.specs.Elements.{is_token as is_token_lem};

use crate::elements::is_token;
use http_header::{CONNECTION, CONTENT_ENCODING, HeaderMap, HeaderValue, TRANSFER_ENCODING};

/// What the Transfer-Encoding fields of a reply say.
#[derive(Clone, Copy, Debug, PartialEq, Eq)]
pub enum Transfer {
    /// No such field is there.
    Missing,
    /// `chunked` alone.
    Chunked,
    /// Another coding, or more than one.
    Other,
}

/// What is known after one transfer coding more.
fn with_coding(transfer: Transfer, coding: &[u8]) -> Transfer
    ensures { result ≡ with_coding_lem transfer coding.now }
{
    match transfer {
        Transfer::Missing => {
            if is_token(b"chunked", coding) {
                Transfer::Chunked
            } else {
                Transfer::Other
            }
        }
        Transfer::Chunked | Transfer::Other => Transfer::Other,
    }
}

/// What is known after one value more.
fn with_codings(transfer: Transfer, value: &HeaderValue) -> Transfer
    ensures { result ≡ with_codings_lem transfer value.now }
{
    value
        .as_bytes()
        .split(|b| *b == b',')
        .fold(transfer, |now, coding| with_coding(now, coding))
}

/// What is known after the value of each Transfer-Encoding field.
fn transfer_after_all(fields: &HeaderMap) -> Transfer
    ensures { result ≡ fold with_codings_lem Transfer.Missing (get_all fields.now (codes "transfer-encoding")) }
{
    fields
        .get_all(TRANSFER_ENCODING)
        .iter()
        .fold(Transfer::Missing, |now, value| with_codings(now, value))
}

/// What the Transfer-Encoding fields say: RFC 9112 section 6.1.
pub fn transfer_coding(fields: &HeaderMap) -> Transfer
    ensures { result ≡ transfer_coding_lem fields.now }
{
    transfer_after_all(fields)
}

/// Whether the token was found before, or is an element of the value.
fn found_token(found: bool, value: &HeaderValue, token: &[u8]) -> bool
    ensures { result ≡ found_in (is_token_lem token.now) found value.now }
{
    value
        .as_bytes()
        .split(|b| *b == b',')
        .fold(found, |now, element| now | is_token(token, element))
}

/// Whether another element than the token was found before, or is in the value.
fn found_other(found: bool, value: &HeaderValue, token: &[u8]) -> bool
    ensures { result ≡ found_in (λ element. not (is_token_lem token.now element)) found value.now }
{
    value
        .as_bytes()
        .split(|b| *b == b',')
        .fold(found, |now, element| now | !is_token(token, element))
}

/// Whether the value of a Content-Encoding field holds another coding than `identity`.
fn is_other_found(fields: &HeaderMap) -> bool
    ensures { result ≡ fold (found_in is_other_coding) false (get_all fields.now (codes "content-encoding")) }
{
    fields.get_all(CONTENT_ENCODING).iter().fold(
        false,
        |found, value| found_other(found, value, b"identity"),
    )
}

/// Whether a Content-Encoding field has a coding other than `identity`: RFC 9110 section 8.4.
pub fn is_encoded(fields: &HeaderMap) -> bool
    ensures { result ≡ is_encoded_lem fields.now }
{
    is_other_found(fields)
}

/// Whether the value of a Connection field holds the token `close`.
fn is_close_found(fields: &HeaderMap) -> bool
    ensures { result ≡ fold (found_in is_close) false (get_all fields.now (codes "connection")) }
{
    fields
        .get_all(CONNECTION)
        .iter()
        .fold(false, |found, value| found_token(found, value, b"close"))
}

/// Whether a Connection field has the token `close`: RFC 9112 section 9.6.
pub fn says_close(fields: &HeaderMap) -> bool
    ensures { result ≡ says_close_lem fields.now }
{
    is_close_found(fields)
}
