ghost use Rattle.std.specs.Prelude.{◌≡◌, ◌++◌, OnOk, OnErr};
ghost use Rattle.dav_frame.specs.Request.{request_text, request_line, start_of, has_length as has_length_lem, is_idempotent, length_line, StatesBody, BeginsWith};

use crate::fields::{Fields, put_field};
use crate::put::put_all;
use dav_text::{Blob, Memory, Method, Text, decimal};

/// A request. The host and the target are written as they are, so that they must be the text of a
/// host and of a request target.
#[derive(Drop)]
pub struct Req {
    pub method: Method,
    pub host: Text,
    pub target: Text,
    pub fields: Fields,
    pub body: Blob,
}

/// Appends the line of a request. On an error some of it may stand after the old bytes.
fn put_line(method: &str, target: &[u8], out: &mut Vec<u8>) -> Result<(), Memory>
    ensures ok { OnOk result (out.new.items ≡ out.old.items ++ request_line method.now target.now) }
    ensures err { OnErr result (BeginsWith out.old.items out.new.items) }
{
    put_all(&[method.as_bytes(), b" ", target, b" HTTP/1.1\r\n"], out)
}

/// Appends the line of a request and the fields that each has. On an error some of them may
/// stand after the old bytes.
fn put_start(req: &Req, out: &mut Vec<u8>) -> Result<(), Memory>
    ensures ok { OnOk result (out.new.items ≡ out.old.items ++ (start_of req.now)) }
    ensures err { OnErr result (BeginsWith out.old.items out.new.items) }
{
    put_line(req.method.name(), req.target.as_bytes(), out)?;
    put_field("Host", req.host.as_bytes(), out)?;
    put_field("User-Agent", b"davsh/1", out)?;
    put_field("Accept-Encoding", b"identity", out)
}

/// Whether a request of this method states the length of its body.
fn has_length(method: Method) -> bool
    ensures { result ≡ has_length_lem method }
{
    match method {
        Method::Put | Method::Lock | Method::Propfind | Method::Proppatch => true,
        _ => false,
    }
}

/// Whether a request of this method may be sent again where no reply came: RFC 9110 section 9.2.2. LOCK
/// alone may not: a second one makes another lock, or meets the first.
pub fn idempotent(method: Method) -> bool
    ensures { result ≡ is_idempotent method }
{
    match method {
        Method::Lock => false,
        _ => true,
    }
}

/// Appends the line that states the length of the body, where the method has one. On an error some
/// of it may stand after the old bytes.
fn put_length(method: Method, size: usize, out: &mut Vec<u8>) -> Result<(), Memory>
    ensures ok { OnOk result (out.new.items ≡ out.old.items ++ length_line method size) }
    ensures err { OnErr result (BeginsWith out.old.items out.new.items) }
{
    if !has_length(method) {
        return Ok(());
    }
    put_all(&[b"Content-Length: "], out)?;
    decimal(size as u64, out)?;
    put_all(&[b"\r\n"], out)
}

/// Appends each part of a request. On an error some of them may stand after the old bytes.
fn put_parts(req: &Req, out: &mut Vec<u8>) -> Result<(), Memory>
    ensures ok { OnOk result (out.new.items ≡ out.old.items ++ request_text req.now) }
    ensures err { OnErr result (BeginsWith out.old.items out.new.items) }
{
    put_start(req, out)?;
    req.fields.put(out)?;
    put_length(req.method, req.body.len(), out)?;
    put_all(&[b"\r\n", req.body.as_slice()], out)
}

/// Appends the text of a request: RFC 9112 section 3. A body needs a method whose request states
/// its length: PUT, LOCK, PROPFIND or PROPPATCH.
///
/// # Errors
///
/// Want of memory, which changes nothing.
pub fn write_request(req: &Req, out: &mut Vec<u8>) -> Result<(), Memory>
    requires { StatesBody req.now }
    ensures ok { OnOk result (out.new.items ≡ out.old.items ++ request_text req.now) }
    ensures err { OnErr result (out.new.items ≡ out.old.items) }
{
    let before = out.len();
    if put_parts(req, out).is_err() {
        out.truncate(before);
        return Err(Memory);
    }
    Ok(())
}
