//! Jobs: how the sending of a file ends by what the server replies, and what was sent.

use crate::case::{Case, starved};
use crate::words::{seen_of, word_of};
use dav_deeds::{Done, Job};
use dav_edge::{MemWire, Stream};
use dav_script::{RowFault, shown};
use dav_store::BodyId;
use dav_text::{Blob, Path};
use dav_upload::send_job;
use dav_uri::Base;
use std::alloc::{AllocError, Global};

/// The bytes of the file.
const BYTES: &[u8] = b"hello";

/// The job of the file `/a`, of which the setting `before` says what was known.
fn job_of(alloc: Global, case: &Case<'_>) -> Result<Job, RowFault> {
    let Some(seen) = seen_of(case.bytes_or_none("before")) else {
        return Err(case.bad_given());
    };
    let Ok(path) = Path::read(alloc, "/a") else {
        return Err(RowFault::Memory);
    };
    let bytes = Blob::copy_of(alloc, BYTES).map_err(starved)?;
    Ok(Job {
        number: 1,
        path,
        body: BodyId::of(2, BYTES),
        seen,
        bytes,
    })
}

/// How a job ended, as text.
fn done_text(alloc: Global, done: &Done) -> Result<String, AllocError> {
    match done {
        Done::Sent { seen } => {
            let seen = shown(alloc, word_of(seen))?;
            format!(in alloc; "sent, {seen} then")
        }
        Done::Again { after } => format!(in alloc; "again after {after}"),
        Done::Refused => String::from_str(alloc, "refused"),
    }
}

/// A wire on which a server gives these bytes.
pub(crate) fn wire_of(alloc: Global, reply: &[u8]) -> Result<MemWire, RowFault> {
    let bytes = Vec::from_slice(alloc, reply)?;
    let streams = vec![in alloc; Stream::new(bytes, Vec::new(alloc))]?;
    Ok(MemWire::new(alloc, streams, 1024, Vec::new(alloc)))
}

/// Appends what was sent on each connection.
pub(crate) fn tell_sent(alloc: Global, wire: &MemWire, out: &mut String) -> Result<(), AllocError> {
    let Some(connections) = wire.connections()? else {
        return writeln!(out, "it does not tell");
    };
    for connection in &connections {
        let sent = shown(alloc, connection.sent.as_slice())?;
        writeln!(out, "{sent}")?;
    }
    Ok(())
}

/// How a job ends where the server gives these bytes, and what was sent.
pub fn outcome_of_job(alloc: Global, case: &Case<'_>) -> Result<Vec<u8>, RowFault> {
    let job = job_of(alloc, case)?;
    let Ok(base) = Base::read(alloc, "http://h/") else {
        return Err(RowFault::Memory);
    };
    let mut wire = wire_of(alloc, case.given.bytes())?;
    let done = send_job(alloc, &base, &mut wire, job).map_err(starved)?;
    let mut out = done_text(alloc, &done)?;
    out.push('\n')?;
    tell_sent(alloc, &wire, &mut out)?;
    Ok(out.into_bytes())
}
