ghost use Rattle.std.specs.Prelude.{◌≡◌, ◌⊎◌, [], IfOk, false, ℕ, List, Some, None, Ok};
ghost use Rattle.dav_edge.specs.Whole.{DoesOn};
ghost use Rattle.dav_upload.specs.Exchange.{put_request, put_text, precondition_fields, IsHeardOf, IsCameOf, IsToldOf, Hears, Talks, Exchanges, Uploads};
ghost use Rattle.dav_frame.specs.Framing.{Message, Gives, Closes, Short};
ghost use Rattle.dav_frame.specs.Reading.{FromPhase, IsWhole, IsReading, is_alone, reply_of};

use crate::came::Came;
use dav_edge::{Wire, send_whole};
use dav_frame::{Fields, FrameFault, Reply, ReplyReader, Req, write_request};
use dav_text::{Blob, Memory, Method, Path, Seen};
use dav_uri::Base;
use dav_verbs::{precondition, retry_after, seen_after};
use std::alloc::Global;

/// Stores the bytes under the path, of which `seen` is known on the server: one connection, one request and its
/// reply. Tells what came of it; None is no whole reply.
pub fn upload<V: Wire>(
    alloc: Global,
    base: &Base,
    wire: &mut V,
    path: &Path,
    bytes: Blob,
    seen: &Seen,
) -> Result<Option<Came>, Memory>
    ensures { DoesOn (V.log wire.old) (V.log wire.new) (Uploads base.now path.now seen.now bytes) result }
{
    let Ok(text) = write_put(alloc, base, path, bytes, seen) else {
        return Err(Memory);
    };
    let heard = exchange(alloc, base, wire, text.as_slice());
    told_of(seen, heard)
}

/// What came of an upload, by what was heard.
fn told_of(seen: &Seen, heard: Result<Option<Reply>, Memory>) -> Result<Option<Came>, Memory>
    ensures { IsToldOf seen.now heard result }
{
    match heard {
        Ok(Some(reply)) => Ok(Some(came_of(seen, &reply))),
        Ok(None) => Ok(None),
        Err(want) => Err(want),
    }
}

/// What is kept of the reply to an upload.
fn came_of(seen: &Seen, reply: &Reply) -> Came
    ensures { IsCameOf seen.now reply.now result }
{
    Came {
        status: reply.status,
        seen: seen_after(seen, Method::Put, reply),
        retry_after: retry_after(reply),
    }
}

/// The text of the request that stores the bytes under the path.
fn write_put(
    alloc: Global,
    base: &Base,
    path: &Path,
    bytes: Blob,
    seen: &Seen,
) -> Result<Vec<u8>, Memory>
    ensures { IfOk result (λ text. text.items ≡ put_text base.now path.now seen.now bytes) }
{
    let req = put_request(alloc, base, path, bytes, seen)?;
    let mut text = Vec::new(alloc);
    write_request(&req, &mut text)?;
    Ok(text)
}

/// The request that stores the bytes, only if what is there is what is known of it: RFC 9110 section 13.1.
fn put_request(
    alloc: Global,
    base: &Base,
    path: &Path,
    bytes: Blob,
    seen: &Seen,
) -> Result<Req, Memory>
    ensures { IfOk result (λ req. req ≡ put_request base.now path.now seen.now bytes) }
{
    Ok(Req {
        method: Method::Put,
        host: base.host_field(alloc)?,
        target: path.escaped(alloc)?,
        fields: precondition_fields(alloc, seen)?,
        body: bytes,
    })
}

/// The fields that ask for what is known of a file.
fn precondition_fields(alloc: Global, seen: &Seen) -> Result<Fields, Memory>
    ensures { IfOk result (λ fields. fields ≡ precondition_fields seen.now) }
{
    let mut fields = Fields::new(alloc);
    let precondition = precondition(seen);
    if let Some((name, value)) = precondition.field() {
        fields.set(name, value)?;
    }
    Ok(fields)
}

/// Connects, sends the text, reads one reply and shuts. None is no whole reply.
fn exchange<V: Wire>(
    alloc: Global,
    base: &Base,
    wire: &mut V,
    text: &[u8],
) -> Result<Option<Reply>, Memory>
    ensures { DoesOn (V.log wire.old) (V.log wire.new) (Exchanges base.now text.now) result }
{
    let Ok(()) = wire.connect(base.host(), base.port()) else {
        return Ok(None);
    };
    let heard = talk(alloc, wire, text);
    wire.shut();
    heard
}

fn talk<V: Wire>(alloc: Global, wire: &mut V, text: &[u8]) -> Result<Option<Reply>, Memory>
    ensures { DoesOn (V.log wire.old) (V.log wire.new) (Talks text.now) result }
{
    let Ok(()) = send_whole(wire, text) else {
        return Ok(None);
    };
    hear(alloc, wire)
}

/// Reads one reply. None where it is not whole.
fn hear<V: Wire>(alloc: Global, wire: &mut V) -> Result<Option<Reply>, Memory>
    ensures { DoesOn (V.log wire.old) (V.log wire.new) (Hears []) result }
{
    let mut reader = ReplyReader::new(alloc, Method::Put);
    loop {
        let mut buf = [0u8; 4096];
        let Ok(count) = wire.receive(&mut buf) else {
            return Ok(None);
        };
        if count == 0 {
            return Ok(ended(reader));
        }
        match reader.feed(&buf[..count]) {
            Ok(progress) => {
                if progress.done {
                    return Ok(Some(whole(reader)));
                }
            }
            Err(fault) => return heard_of(fault),
        }
    }
}

/// What a fault of the reply comes to: no reply, or want of memory.
fn heard_of(fault: FrameFault) -> Result<Option<Reply>, Memory>
    ensures { IsHeardOf fault result }
{
    match fault {
        FrameFault::Memory => Err(Memory),
        _ => Ok(None),
    }
}

/// The reply that was read.
fn whole(reader: ReplyReader) -> Reply
    requires { IsWhole reader }
    ensures { (message : Message) × ((rest : List ℕ) → FromPhase reader rest (Gives message rest))
        × (result ≡ reply_of message (is_alone reader)) }
{
    match reader.end() {
        Ok(reply) => reply,
        Err(_) => unreachable!(),
    }
}

/// A reply whose body ends where the connection did.
fn ended(reader: ReplyReader) -> Option<Reply>
    requires { IsReading reader }
    ensures { ((message : Message) × FromPhase reader [] (Closes message) × (result ≡ Some (reply_of message false)))
        ⊎ (FromPhase reader [] Short × (result ≡ None)) }
{
    match reader.end() {
        Ok(reply) => Some(reply),
        Err(_) => None,
    }
}
