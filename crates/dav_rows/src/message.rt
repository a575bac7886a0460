use crate::story::Connection;
use dav_script::{Entry, RowFault};
use std::alloc::{AllocError, Global};

/// The first line of a text without its line feed, and what stands behind it.
fn first_line(text: &[u8]) -> (&[u8], &[u8]) {
    let end = text.iter().position(|b| *b == b'\n').unwrap_or(text.len());
    match text.split_at_checked(end) {
        Some((line, rest)) => (line, rest.strip_prefix(b"\n").unwrap_or(rest)),
        None => (text, &[]),
    }
}

/// Writes the lines before the first empty one as fields. What stands behind the empty line is the body.
fn write_fields<'a>(block: &'a [u8], out: &mut Vec<u8>) -> Result<&'a [u8], AllocError> {
    let mut rest = block;
    for _ in 0..block.len() {
        let (line, more) = first_line(rest);
        rest = more;
        if line.is_empty() {
            break;
        }
        out.extend_from_slice(line)?;
        out.extend_from_slice(b"\r\n")?;
    }
    Ok(rest)
}

/// Writes the fields and the body of a block, with the body's length.
fn write_block(alloc: Global, block: &[u8], out: &mut Vec<u8>) -> Result<(), AllocError> {
    let body = write_fields(block, out)?;
    let length = body.len();
    let field = format!(in alloc; "Content-Length: {length}\r\n\r\n")?;
    out.extend_from_slice(field.as_bytes())?;
    out.extend_from_slice(body)?;
    Ok(())
}

/// The field that names the host, where its port is not 80 with it.
fn host_field(alloc: Global, host: &str, port: u16) -> Result<String, AllocError> {
    if port == 80 {
        format!(in alloc; "Host: {host}\r\n")
    } else {
        format!(in alloc; "Host: {host}:{port}\r\n")
    }
}

/// Adds a request to what is sent on a connection: the entry has its method and target, and its further fields and body.
pub fn add_request(
    alloc: Global,
    connection: &mut Connection,
    entry: &Entry,
) -> Result<(), RowFault> {
    let line = entry.text()?;
    let host = host_field(alloc, connection.host.as_str(), connection.port)?;
    let sent = &mut connection.sent;
    sent.extend_from_slice(line.as_bytes())?;
    sent.extend_from_slice(b" HTTP/1.1\r\n")?;
    sent.extend_from_slice(host.as_bytes())?;
    sent.extend_from_slice(b"User-Agent: davsh/1\r\nAccept-Encoding: identity\r\n")?;
    write_block(alloc, entry.block_bytes(), sent)?;
    Ok(())
}

/// Adds a reply to what the server answers on a connection: the entry has its status and reason, and its fields and body.
pub fn add_reply(
    alloc: Global,
    connection: &mut Connection,
    entry: &Entry,
) -> Result<(), RowFault> {
    let line = entry.text()?;
    let answer = &mut connection.answer;
    answer.extend_from_slice(b"HTTP/1.1 ")?;
    answer.extend_from_slice(line.as_bytes())?;
    answer.extend_from_slice(b"\r\n")?;
    write_block(alloc, entry.block_bytes(), answer)?;
    Ok(())
}
