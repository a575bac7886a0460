//! Replies: a stream that comes in pieces, and the reply at its front.

use crate::case::Case;
use crate::told::Told;
use dav_frame::{FrameFault, Reply, ReplyReader};
use dav_script::RowFault;
use std::alloc::Global;

/// How far a stream was read.
#[derive(Clone, Copy)]
struct Fed {
    taken: usize,
    is_done: bool,
    fault: Option<FrameFault>,
}

/// Feeds one more piece, where the reply is not whole yet and none was refused.
fn feed(reader: &mut ReplyReader, fed: Fed, piece: &[u8]) -> Fed {
    if fed.is_done || fed.fault.is_some() {
        return fed;
    }
    match reader.feed(piece) {
        Ok(progress) => Fed {
            taken: fed.taken.saturating_add(progress.used),
            is_done: progress.done,
            fault: None,
        },
        Err(fault) => Fed {
            fault: Some(fault),
            ..fed
        },
    }
}

/// Feeds what is given: in pieces of the size that the setting `by` states, and in two pieces without one.
fn feed_given(reader: &mut ReplyReader, case: &Case<'_>) -> Result<Fed, RowFault> {
    let mut fed = Fed {
        taken: 0,
        is_done: false,
        fault: None,
    };
    let size = usize::try_from(case.number_or("by", 0)?).unwrap_or(0);
    if size == 0 {
        let (first, second) = case.pieces();
        fed = feed(reader, fed, first);
        return Ok(feed(reader, fed, second));
    }
    for piece in case.given.bytes().chunks(size.max(1)) {
        fed = feed(reader, fed, piece);
    }
    Ok(fed)
}

/// A fault in words.
fn fault_text(alloc: Global, fault: FrameFault) -> Result<String, RowFault> {
    match fault {
        FrameFault::NotAReply { at } => Ok(format!(in alloc; "not a reply at {at}")?),
        FrameFault::Cut { got } => Ok(format!(in alloc; "cut after {got}")?),
        FrameFault::BadLength => Ok(String::from_str(alloc, "bad length")?),
        FrameFault::BadChunk { at } => Ok(format!(in alloc; "bad chunk at {at}")?),
        FrameFault::Coding => Ok(String::from_str(alloc, "coding")?),
        FrameFault::HeadLimit => Ok(String::from_str(alloc, "head limit")?),
        FrameFault::BodyLimit => Ok(String::from_str(alloc, "body limit")?),
        FrameFault::Memory => Err(RowFault::Memory),
    }
}

/// The lines of a reply.
fn tell_reply(reply: &Reply, fed: Fed, told: &mut Told<'_>) -> Result<(), RowFault> {
    told.number("status", u64::from(reply.status))?;
    told.line("body", reply.body.as_slice())?;
    told.asked("size", reply.body.len() as u64)?;
    told.number("taken", fed.taken as u64)?;
    told.yes("reusable", reply.reusable)
}

/// The lines of the fault at the end of a stream. One that came of a piece has to come again at the end.
fn tell_fault(
    alloc: Global,
    fault: FrameFault,
    fed: Fed,
    told: &mut Told<'_>,
) -> Result<(), RowFault> {
    if let Some(earlier) = fed.fault
        && earlier != fault
    {
        told.always("earlier", fault_text(alloc, earlier)?.as_bytes())?;
    }
    told.always("fault", fault_text(alloc, fault)?.as_bytes())?;
    told.asked("taken", fed.taken as u64)
}

/// Sees that a piece that follows a fault comes to the same fault.
fn tell_again(
    alloc: Global,
    reader: &mut ReplyReader,
    fed: Fed,
    told: &mut Told<'_>,
) -> Result<(), RowFault> {
    let Some(fault) = fed.fault else {
        return Ok(());
    };
    match reader.feed(b"") {
        Err(again) if again == fault => Ok(()),
        Err(again) => told.always("again", fault_text(alloc, again)?.as_bytes()),
        Ok(_) => told.always("again", b"none"),
    }
}

/// The reply at the front of a stream, or why it has none.
pub fn outcome_of_reply(alloc: Global, case: &Case<'_>) -> Result<Vec<u8>, RowFault> {
    let mut told = Told::new(alloc, case);
    let mut reader = ReplyReader::new(alloc, case.method()?);
    let fed = feed_given(&mut reader, case)?;
    tell_again(alloc, &mut reader, fed, &mut told)?;
    match reader.end() {
        Ok(reply) => tell_reply(&reply, fed, &mut told)?,
        Err(fault) => tell_fault(alloc, fault, fed, &mut told)?,
    }
    told.end()
}

/// The reply that a text is, whole.
pub fn reply_of(alloc: Global, case: &Case<'_>) -> Result<Reply, RowFault> {
    let mut reader = ReplyReader::new(alloc, case.method()?);
    match reader.feed(case.given.bytes()) {
        Err(FrameFault::Memory) => Err(RowFault::Memory),
        _ => match reader.end() {
            Ok(reply) => Ok(reply),
            Err(FrameFault::Memory) => Err(RowFault::Memory),
            Err(_) => Err(case.bad_given()),
        },
    }
}
