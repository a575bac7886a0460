ghost use Rattle.std.specs.Prelude.{◌≡◌, ℕ, ◌<◌, ◌≤◌, ◌⊎◌, ◌↔◌, ◌==◌, List, length, take, drop, IsTrue};
ghost use Rattle.dav_frame.specs.Framing.{Outcome};
ghost use Rattle.dav_frame.specs.Reading.{FromPhase, Leads, IsSound, IsReading, IsWhole, Waits, Counts, bytes_read, is_alone};

use crate::body::{in_body, to_end};
use crate::chunk::{after_data, in_data, in_line, in_trailers};
use crate::fault::FrameFault;
use crate::head::in_head;
use dav_text::Method;
use http_header::HeaderMap;
use std::alloc::Global;

/// What is kept of a final head.
#[derive(Drop)]
pub struct FinalHead {
    pub(crate) status: u16,
    pub(crate) fields: HeaderMap,
    /// The connection may serve another request, as far as the head says.
    pub(crate) persists: bool,
}

/// A chunked body: the bytes of all heads, the offset at which the chunk or the trailers begin, and the
/// data so far.
#[derive(Drop)]
pub struct Chunks {
    pub(crate) head: FinalHead,
    pub(crate) before: usize,
    pub(crate) at: usize,
    pub(crate) body: Vec<u8>,
}

/// Where the reader stands in a reply.
#[derive(Drop)]
pub enum Phase {
    /// In a head, after interim heads of `before` bytes.
    AtHead {
        method: Method,
        before: usize,
        kept: Vec<u8>,
    },
    /// In a body of a stated length, after heads of `at` bytes: `need` bytes more are to come.
    InBody {
        head: FinalHead,
        at: usize,
        body: Vec<u8>,
        need: usize,
    },
    /// In a body that ends with the connection, after heads of `at` bytes.
    ToEnd {
        head: FinalHead,
        at: usize,
        body: Vec<u8>,
    },
    /// In the size line of a chunk.
    AtLine {
        chunks: Chunks,
        kept: Vec<u8>,
    },
    /// In the data of a chunk, after `got` bytes of the reply: `need` bytes more are to come.
    InData {
        chunks: Chunks,
        got: usize,
        need: u64,
    },
    /// In the CR LF behind the data of a chunk, after `got` bytes of the reply.
    AfterData {
        chunks: Chunks,
        got: usize,
        has_cr: bool,
    },
    /// In the trailers.
    AtTrailers {
        chunks: Chunks,
        kept: Vec<u8>,
    },
    /// After the last byte of the reply. `alone` where the piece in which it ended held no byte more.
    Whole {
        head: FinalHead,
        body: Vec<u8>,
        alone: bool,
    },
    /// After a fault.
    Failed(FrameFault),
}

/// A phase, and how many bytes of the piece led to it.
#[derive(Drop)]
pub(crate) struct Step {
    pub(crate) phase: Phase,
    pub(crate) used: usize,
}

pub(crate) fn failed(fault: FrameFault, used: usize) -> Step
    ensures { result ≡ record { phase = Phase.Failed fault; used = used } }
{
    Step {
        phase: Phase::Failed(fault),
        used,
    }
}

/// Whether the reader waits for more bytes.
fn is_reading(phase: &Phase) -> bool
    ensures { IsTrue result ↔ IsReading phase.now }
{
    match phase {
        Phase::AtHead { .. } => true,
        Phase::InBody { .. } => true,
        Phase::ToEnd { .. } => true,
        Phase::AtLine { .. } => true,
        Phase::InData { .. } => true,
        Phase::AfterData { .. } => true,
        Phase::AtTrailers { .. } => true,
        Phase::Whole { .. } => false,
        Phase::Failed(_) => false,
    }
}

/// The bytes up to the first line feed, or all: so that no body is taken for a part of a head.
fn first_line(piece: &[u8]) -> &[u8]
    ensures front { result.now ≡ take (length result.now) piece.now }
    ensures inside { length result.now ≤ length piece.now }
    ensures some { 0 < length piece.now → 0 < length result.now }
{
    match piece.iter().position(|byte| *byte == b'\n') {
        Some(at) => &piece[..at + 1],
        None => piece,
    }
}

/// Takes a piece, or its first line, in a phase that waits for more.
fn take_piece(alloc: Global, phase: Phase, piece: &[u8]) -> Step
    requires sound { IsSound phase }
    requires reading { IsReading phase }
    requires some { 0 < length piece.now }
    ensures used { result.used ≤ length piece.now }
    ensures moves { 0 < result.used }
    ensures sound { IsSound result.phase }
    ensures counts { Counts (bytes_read phase) result.used result.phase }
    ensures leads { Leads phase piece.now result.phase (drop result.used piece.now) }
{
    match phase {
        Phase::AtHead {
            method,
            before,
            kept,
        } => in_head(alloc, method, before, kept, first_line(piece)),
        Phase::InBody {
            head,
            at,
            body,
            need,
        } => in_body(head, at, body, need, piece),
        Phase::ToEnd { head, at, body } => to_end(head, at, body, piece),
        Phase::AtLine { chunks, kept } => in_line(alloc, chunks, kept, first_line(piece)),
        Phase::InData { chunks, got, need } => in_data(chunks, got, need, piece),
        Phase::AfterData {
            chunks,
            got,
            has_cr,
        } => after_data(alloc, chunks, got, has_cr, piece),
        Phase::AtTrailers { chunks, kept } => in_trailers(chunks, kept, first_line(piece)),
        Phase::Whole { .. } => unreachable!(),
        Phase::Failed(_) => unreachable!(),
    }
}

/// The phase with the note whether the piece held no byte behind the reply, where it is whole.
fn noted(phase: Phase, alone: bool) -> Phase
    ensures sound { IsSound phase → IsSound result }
    ensures reading { IsReading phase ↔ IsReading result }
    ensures alone { IsWhole result → is_alone result ≡ alone }
    ensures counts { (before used : ℕ) → Counts before used phase → Counts before used result }
    ensures leads { (rest : List ℕ) (outcome : Outcome) → FromPhase result rest outcome → FromPhase phase rest outcome }
{
    match phase {
        Phase::Whole { head, body, .. } => Phase::Whole { head, body, alone },
        _ => phase,
    }
}

/// Takes a piece in each phase that it leads to.
pub(crate) fn take_all(alloc: Global, phase: Phase, piece: &[u8]) -> Step
    requires { IsSound phase }
    ensures used { result.used ≤ length piece.now }
    ensures sound { IsSound result.phase }
    ensures all { IsReading result.phase → result.used ≡ length piece.now }
    ensures counts { Counts (bytes_read phase) result.used result.phase }
    ensures leads { Leads phase piece.now result.phase (drop result.used piece.now) }
    ensures waits { IsReading result.phase → Waits result.phase }
    ensures failed { IsReading phase ⊎ (result.phase ≡ phase) }
    ensures alone { IsReading phase → IsWhole result.phase
        → is_alone result.phase ≡ (result.used == length piece.now) }
{
    if !is_reading(&phase) {
        return Step { phase, used: 0 };
    }
    let mut now = phase;
    let mut used: usize = 0;
    while used < piece.len() && is_reading(&now) {
        let step = take_piece(alloc, now, &piece[used..]);
        now = step.phase;
        used += step.used;
    }
    Step {
        phase: noted(now, used == piece.len()),
        used,
    }
}
