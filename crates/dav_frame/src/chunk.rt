ghost use Rattle.std.specs.Prelude.{◌≡◌, ℕ, ◌+◌, ◌*◌, ◌<◌, ◌≤◌, List, length, take, drop, true, false};
ghost use Rattle.dav_frame.specs.Framing.{Outcome};
ghost use Rattle.dav_frame.specs.Reading.{FromPhase, AfterLine, Leads, IsSound, Counts};

use crate::fault::FrameFault;
use crate::head::ends_past;
use crate::phase::{Chunks, Phase, Step, failed};
use dav_head::{BODY_LIMIT, LineState, TrailersState, judge_line, judge_trailers, keep};
use std::alloc::Global;

/// The fault of a chunk, or of trailers, that no continuation makes one.
fn bad(chunks: &Chunks, used: usize) -> Step
    ensures { result ≡ record { phase = Phase.Failed (FrameFault.BadChunk chunks.now.at); used = used } }
{
    failed(
        FrameFault::BadChunk {
            at: chunks.at as u64,
        },
        used,
    )
}

/// The phase behind the size line of a chunk, which ends at the offset `got`.
fn after_line(alloc: Global, chunks: Chunks, got: usize, size: u64) -> Phase
    requires heads { chunks.before ≤ 65536 }
    requires few { got + 3 ≤ 65537 + 4100 * (length chunks.body.items + 1) }
    requires fits { length chunks.body.items ≤ 8388608 }
    ensures sound { IsSound result }
    ensures counts { Counts got 0 result }
    ensures leads { (rest : List ℕ) (outcome : Outcome) → FromPhase result rest outcome
        → AfterLine chunks got size rest outcome }
{
    if size > 0 {
        return Phase::InData {
            chunks,
            got,
            need: size,
        };
    }
    let kept = Vec::new(alloc);
    Phase::AtTrailers {
        chunks: Chunks { at: got, ..chunks },
        kept,
    }
}

/// Takes a piece in the size line of a chunk.
pub(crate) fn in_line(alloc: Global, chunks: Chunks, mut kept: Vec<u8>, piece: &[u8]) -> Step
    requires { IsSound (Phase.AtLine chunks kept) }
    ensures used { result.used ≤ length piece.now }
    ensures moves { 0 < length piece.now → 0 < result.used }
    ensures sound { IsSound result.phase }
    ensures counts { Counts (chunks.at + length kept.items) result.used result.phase }
    ensures leads { Leads (Phase.AtLine chunks kept) piece.now result.phase
        (drop result.used piece.now) }
{
    let old = kept.len();
    if kept.extend_from_slice(piece).is_err() {
        return failed(FrameFault::Memory, piece.len());
    }
    match judge_line(&kept) {
        LineState::Refused => bad(&chunks, piece.len()),
        LineState::Open => Step {
            phase: Phase::AtLine { chunks, kept },
            used: piece.len(),
        },
        LineState::Whole { size, used } => {
            let got = chunks.at + used;
            Step {
                phase: after_line(alloc, chunks, got, size),
                used: used - old,
            }
        }
    }
}

/// The first bytes of a piece, where no more than `need` are wanted.
fn wanted(piece: &[u8], need: u64) -> &[u8]
    ensures { result.now ≡ take need piece.now }
{
    if piece.len() as u64 <= need {
        return piece;
    }
    &piece[..need as usize]
}

/// Takes a piece in the data of a chunk, after `got` bytes of the reply.
pub(crate) fn in_data(mut chunks: Chunks, got: usize, need: u64, piece: &[u8]) -> Step
    requires { IsSound (Phase.InData chunks got need) }
    ensures used { result.used ≤ length piece.now }
    ensures moves { 0 < length piece.now → 0 < result.used }
    ensures sound { 0 < length piece.now → IsSound result.phase }
    ensures counts { Counts got result.used result.phase }
    ensures leads { Leads (Phase.InData chunks got need) piece.now result.phase
        (drop result.used piece.now) }
{
    let data = wanted(piece, need);
    let room = BODY_LIMIT - chunks.body.len() as u64;
    if data.len() as u64 > room {
        return failed(FrameFault::BodyLimit, piece.len());
    }
    if chunks.body.extend_from_slice(data).is_err() {
        return failed(FrameFault::Memory, piece.len());
    }
    let (used, got) = (data.len(), got + data.len());
    if (used as u64) < need {
        return Step {
            phase: Phase::InData {
                chunks,
                got,
                need: need - used as u64,
            },
            used,
        };
    }
    Step {
        phase: Phase::AfterData {
            chunks,
            got,
            has_cr: false,
        },
        used,
    }
}

/// The next byte behind the data of a chunk.
fn end_byte(has_cr: bool) -> u8
    ensures cr { has_cr ≡ false → result ≡ 13 }
    ensures lf { has_cr ≡ true → result ≡ 10 }
{
    if has_cr { b'\n' } else { b'\r' }
}

/// Takes a piece in the CR LF behind the data of a chunk, after `got` bytes of the reply.
pub(crate) fn after_data(
    alloc: Global,
    chunks: Chunks,
    got: usize,
    has_cr: bool,
    piece: &[u8],
) -> Step
    requires sound { IsSound (Phase.AfterData chunks got has_cr) }
    requires some { 0 < length piece.now }
    ensures used { result.used ≤ length piece.now }
    ensures moves { 0 < result.used }
    ensures sound { IsSound result.phase }
    ensures counts { Counts got result.used result.phase }
    ensures leads { Leads (Phase.AfterData chunks got has_cr) piece.now result.phase
        (drop result.used piece.now) }
{
    let wanted = end_byte(has_cr);
    if piece[0] != wanted {
        return bad(&chunks, piece.len());
    }
    if !has_cr {
        return Step {
            phase: Phase::AfterData {
                chunks,
                got: got + 1,
                has_cr: true,
            },
            used: 1,
        };
    }
    let kept = Vec::new(alloc);
    Step {
        phase: Phase::AtLine {
            chunks: Chunks {
                at: got + 1,
                ..chunks
            },
            kept,
        },
        used: 1,
    }
}

/// Takes a piece in the trailers.
pub(crate) fn in_trailers(chunks: Chunks, mut kept: Vec<u8>, piece: &[u8]) -> Step
    requires { IsSound (Phase.AtTrailers chunks kept) }
    ensures used { result.used ≤ length piece.now }
    ensures moves { 0 < length piece.now → 0 < result.used }
    ensures sound { IsSound result.phase }
    ensures counts { Counts (chunks.at + length kept.items) result.used result.phase }
    ensures leads { Leads (Phase.AtTrailers chunks kept) piece.now result.phase
        (drop result.used piece.now) }
{
    let old = kept.len();
    let Ok(past) = keep(&mut kept, piece, chunks.before) else {
        return failed(FrameFault::Memory, piece.len());
    };
    match judge_trailers(&kept) {
        TrailersState::Refused => bad(&chunks, piece.len()),
        TrailersState::Open => {
            if past {
                return failed(FrameFault::HeadLimit, piece.len());
            }
            Step {
                phase: Phase::AtTrailers { chunks, kept },
                used: piece.len(),
            }
        }
        TrailersState::Whole { used } => {
            let ends = ends_past(past, used, kept.len());
            if ends {
                return failed(FrameFault::HeadLimit, piece.len());
            }
            Step {
                phase: Phase::Whole {
                    head: chunks.head,
                    body: chunks.body,
                    alone: false,
                },
                used: used - old,
            }
        }
    }
}
