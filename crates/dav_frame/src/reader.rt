ghost use Rattle.std.specs.Prelude.{◌≡◌, ◌≢◌, ◌⊎◌, ℕ, ◌+◌, ◌≤◌, ◌==◌, ◌↔◌, false, length, drop, List, [], ◌++◌, IfOk, IfErr, IsTrue};
ghost use Rattle.dav_frame.specs.Framing.{Outcome, message, Faults, Framing};
ghost use Rattle.dav_frame.specs.Reading.{FromPhase, Leads, IsWhole, IsReading, Waits, bytes_read, is_alone, reply_of as reply_of_lem, IsSound, IsWholeEnd, IsReadingEnd};

use crate::fault::FrameFault;
use crate::phase::{FinalHead, Phase, take_all};
use dav_text::{Blob, Method};
use http_header::HeaderMap;
use std::alloc::Global;
use std::marker::Model;
use std::mem;

/// A reply.
#[derive(Drop)]
pub struct Reply {
    pub status: u16,
    /// The fields of the final head, without those whose name or value `http_header` refuses.
    pub fields: HeaderMap,
    pub body: Blob,
    /// The connection may serve another request: RFC 9112 section 9.3. No byte followed the reply in
    /// the piece in which it ended.
    pub reusable: bool,
}

/// How many bytes of a piece were taken, and whether the reply is whole.
#[derive(Clone, Copy, Debug, PartialEq, Eq)]
pub struct Progress {
    pub used: usize,
    pub done: bool,
}

/// Reads one reply from a stream that comes in pieces: RFC 9112 sections 2 to 7, with interim heads,
/// and a body of a stated length, in chunks, or to the connection's end.
#[derive(Drop)]
pub struct ReplyReader {
    alloc: Global,
    phase: Phase,
}

impl Model for ReplyReader {
    ghost use Rattle.dav_frame.specs.declared.phase.Phase.{Phase};
    ghost use Rattle.dav_frame.specs.Reading.{IsSound};

    ghost Value = { Phase };

    ghost view = { λ r. r.phase };

    ghost invariant = { λ r. IsSound r.phase };
}

impl ReplyReader {
    /// A reader at the start of a stream, for the reply to a request of this method.
    pub fn new(alloc: Global, method: Method) -> ReplyReader
        ensures starts { (stream : List ℕ) (outcome : Outcome) → FromPhase result stream outcome
            → Framing method stream outcome }
        ensures reading { IsReading result }
        ensures none_read { bytes_read result ≡ 0 }
    {
        ReplyReader {
            alloc,
            phase: Phase::AtHead {
                method,
                before: 0,
                kept: Vec::new(alloc),
            },
        }
    }

    /// Takes the next piece of the stream. `used` is the whole piece, except that it ends with the
    /// reply. `done` where the reply is whole; a body that ends with the connection never is here.
    ///
    /// # Errors
    ///
    /// The first fault of the stream, or want of memory. After a fault each call answers the same.
    pub fn feed(&mut self, piece: &[u8]) -> Result<Progress, FrameFault>
        ensures used { IfOk result (λ p. p.used ≤ length piece.now) }
        ensures leads { IfOk result (λ p. Leads self.old piece.now self.new (drop p.used piece.now)) }
        ensures count { IfOk result (λ p. p.done ≡ false → bytes_read self.new ≡ bytes_read self.old + p.used) }
        ensures done { IfOk result (λ p. IsTrue p.done ↔ IsWhole self.new) }
        ensures all { IfOk result (λ p. p.done ≡ false
            → (p.used ≡ length piece.now) × IsReading self.new × Waits self.new) }
        ensures alone { IfOk result (λ p. IsTrue p.done → IsReading self.old
            → is_alone self.new ≡ (p.used == length piece.now)) }
        ensures fault { IfErr result (λ f. f ≢ FrameFault.Memory
            → (more : List ℕ) → FromPhase self.old (piece.now ++ more) (Faults f)) }
        ensures failed { IfErr result (λ f. self.new ≡ Phase.Failed f) }
        ensures again { (f : FrameFault) → self.old ≡ Phase.Failed f → result ≡ Err f }
    {
        let phase = mem::replace(&mut self.phase, Phase::Failed(FrameFault::Memory));
        let step = take_all(self.alloc, phase, piece);
        self.phase = step.phase;
        match &self.phase {
            Phase::Failed(fault) => Err(*fault),
            Phase::Whole { .. } => Ok(Progress {
                used: step.used,
                done: true,
            }),
            _ => Ok(Progress {
                used: step.used,
                done: false,
            }),
        }
    }

    /// The reply, where the stream ends here or the reply is done.
    ///
    /// # Errors
    ///
    /// The fault that `feed` answered before, or `Cut` where the reply is not whole.
    pub fn end(self) -> Result<Reply, FrameFault>
        ensures whole { IsWhole self → IsWholeEnd self result }
        ensures ended { IsReading self → IsReadingEnd self result }
        ensures fault { (f : FrameFault) → self ≡ Phase.Failed f → result ≡ Err f }
    {
        at_end(self.phase)
    }
}

/// The reply of a phase, where the stream ends there.
fn at_end(phase: Phase) -> Result<Reply, FrameFault>
    requires { IsSound phase }
    ensures whole { IsWhole phase → IsWholeEnd phase result }
    ensures ended { IsReading phase → IsReadingEnd phase result }
    ensures fault { (f : FrameFault) → phase ≡ Phase.Failed f → result ≡ Err f }
{
    match phase {
        Phase::Whole { head, body, alone } => Ok(reply_of(head, body, alone)),
        Phase::ToEnd { head, body, .. } => Ok(reply_of(head, body, false)),
        Phase::Failed(fault) => Err(fault),
        Phase::AtHead { before, kept, .. } => cut(before + kept.len()),
        Phase::InBody { at, body, .. } => cut(at + body.len()),
        Phase::AtLine { chunks, kept } => cut(chunks.at + kept.len()),
        Phase::InData { got, .. } => cut(got),
        Phase::AfterData { got, .. } => cut(got),
        Phase::AtTrailers { chunks, kept } => cut(chunks.at + kept.len()),
    }
}

/// The fault of a stream that ended after so many bytes of a reply.
fn cut(got: usize) -> Result<Reply, FrameFault>
    ensures { result ≡ Err (FrameFault.Cut got) }
{
    Err(FrameFault::Cut { got: got as u64 })
}

/// The reply with this head and this body.
fn reply_of(head: FinalHead, body: Vec<u8>, alone: bool) -> Reply
    ensures { result ≡ reply_of_lem (message head body.items) alone }
{
    Reply {
        status: head.status,
        fields: head.fields,
        body: Blob::from_vec(body),
        reusable: head.persists && alone,
    }
}
