ghost use Rattle.std.specs.Prelude.{◌≡◌};
ghost use Rattle.dav_head.specs.Body.{is_interim as is_interim_lem, is_head as is_head_lem, is_bodyless as is_bodyless_lem, by_length as by_length_lem, body_of, is_to_end as is_to_end_lem, has_transfer, has_length, may_persist as may_persist_lem};

use crate::codings::{Transfer, is_encoded, says_close, transfer_coding};
use crate::lengths::{Length, content_length};
use dav_text::Method;
use http_header::HeaderMap;

/// The most bytes that a reply's body may have.
pub const BODY_LIMIT: u64 = 8_388_608;

/// Where the body of a reply ends.
#[derive(Clone, Copy, Debug, PartialEq, Eq)]
pub enum Body {
    /// There is no body.
    Empty,
    /// After so many bytes, at most `BODY_LIMIT`.
    Sized(u64),
    /// After its last chunk and its trailers.
    Chunked,
    /// Where the connection ends.
    ToEnd,
}

/// What is wrong with the fields that say where a body ends.
#[derive(Clone, Copy, Debug, PartialEq, Eq)]
pub enum BodyFault {
    /// A transfer coding other than `chunked` alone, or a content coding other than `identity`.
    Coding,
    /// A Content-Length that is no number of 1 to 15 digits, or two that differ.
    BadLength,
    /// A Content-Length above `BODY_LIMIT`.
    BodyLimit,
}

/// Whether a reply of this status is an interim one: RFC 9110 section 15.2.
pub fn is_interim(status: u16) -> bool
    ensures { result ≡ is_interim_lem status }
{
    100 <= status && status < 200
}

/// Whether the method is HEAD.
fn is_head(method: Method) -> bool
    ensures { result ≡ is_head_lem method }
{
    match method {
        Method::Head => true,
        _ => false,
    }
}

/// Whether a reply to this method with this status has no body, whatever its fields say.
fn is_bodyless(method: Method, status: u16) -> bool
    ensures { result ≡ is_bodyless_lem method status }
{
    is_head(method) || is_interim(status) || status == 204 || status == 304
}

/// The body where no transfer coding is stated.
fn by_length(length: Length) -> Result<Body, BodyFault>
    ensures { result ≡ by_length_lem length }
{
    match length {
        Length::Missing => Ok(Body::ToEnd),
        Length::Bad => Err(BodyFault::BadLength),
        Length::Stated(number) => {
            if number <= BODY_LIMIT {
                Ok(Body::Sized(number))
            } else {
                Err(BodyFault::BodyLimit)
            }
        }
    }
}

/// Where the body of a reply to this method ends, by its status and its fields: RFC 9112
/// section 6.3.
///
/// # Errors
///
/// Exactly by `body_of`: codings are looked at before lengths, and these before the limit.
pub fn decide(method: Method, status: u16, fields: &HeaderMap) -> Result<Body, BodyFault>
    ensures { result ≡ body_of method status fields.now }
{
    if is_bodyless(method, status) {
        return Ok(Body::Empty);
    }
    if is_encoded(fields) {
        return Err(BodyFault::Coding);
    }
    match transfer_coding(fields) {
        Transfer::Other => Err(BodyFault::Coding),
        Transfer::Chunked => Ok(Body::Chunked),
        Transfer::Missing => by_length(content_length(fields)),
    }
}

/// Whether a body ends where the connection does.
fn is_to_end(body: Body) -> bool
    ensures { result ≡ is_to_end_lem body }
{
    match body {
        Body::ToEnd => true,
        Body::Empty | Body::Sized(_) | Body::Chunked => false,
    }
}

/// Whether a Transfer-Encoding field is there.
fn is_transfer_there(transfer: Transfer) -> bool
    ensures { result ≡ has_transfer transfer }
{
    match transfer {
        Transfer::Missing => false,
        Transfer::Chunked | Transfer::Other => true,
    }
}

/// Whether a Content-Length field is there.
fn is_length_there(length: Length) -> bool
    ensures { result ≡ has_length length }
{
    match length {
        Length::Missing => false,
        Length::Stated(_) | Length::Bad => true,
    }
}

/// Whether the connection may serve another request after the reply, as far as the reply's head
/// says: RFC 9112 sections 6.1 and 9.3. `minor` is the second number of its version.
pub fn may_persist(minor: u8, fields: &HeaderMap, body: Body) -> bool
    ensures { result ≡ may_persist_lem minor fields.now body }
{
    minor == 1
        && !says_close(fields)
        && !is_to_end(body)
        && !(is_transfer_there(transfer_coding(fields)) && is_length_there(content_length(fields)))
}
