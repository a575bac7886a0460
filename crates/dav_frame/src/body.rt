ghost use Rattle.std.specs.Prelude.{◌≡◌, ℕ, ◌+◌, ◌<◌, ◌≤◌, List, length, drop};
ghost use Rattle.dav_frame.specs.Framing.{Outcome, FromBody};
ghost use Rattle.dav_frame.specs.Reading.{FromPhase, Leads, IsSound, Counts};
ghost use Rattle.dav_head.specs.declared.body.Body.{Body as Ending};

use crate::fault::FrameFault;
use crate::phase::{Chunks, FinalHead, Phase, Step, failed};
use dav_head::{BODY_LIMIT, Body};
use std::alloc::Global;

/// The phase at the start of a body, after heads of `at` bytes.
pub(crate) fn begin(alloc: Global, head: FinalHead, at: usize, body: Body) -> Phase
    requires heads { at ≤ 65536 }
    requires fits { (need : ℕ) → body ≡ Ending.Sized need → need ≤ 8388608 }
    ensures sound { IsSound result }
    ensures counts { Counts at 0 result }
    ensures begins { (rest : List ℕ) (outcome : Outcome) → FromPhase result rest outcome
        → FromBody head at body rest outcome }
{
    let bytes = Vec::new(alloc);
    let kept = Vec::new(alloc);
    match body {
        Body::Empty | Body::Sized(0) => Phase::Whole {
            head,
            body: bytes,
            alone: false,
        },
        Body::Sized(need) => Phase::InBody {
            head,
            at,
            body: bytes,
            need: need as usize,
        },
        Body::Chunked => Phase::AtLine {
            chunks: Chunks {
                head,
                before: at,
                at,
                body: bytes,
            },
            kept,
        },
        Body::ToEnd => Phase::ToEnd {
            head,
            at,
            body: bytes,
        },
    }
}

/// Takes a piece in a body of a stated length.
pub(crate) fn in_body(
    head: FinalHead,
    at: usize,
    mut body: Vec<u8>,
    need: usize,
    piece: &[u8],
) -> Step
    requires { IsSound (Phase.InBody head at body need) }
    ensures used { result.used ≤ length piece.now }
    ensures moves { 0 < length piece.now → 0 < result.used }
    ensures sound { IsSound result.phase }
    ensures counts { Counts (at + length body.items) result.used result.phase }
    ensures leads { Leads (Phase.InBody head at body need) piece.now result.phase
        (drop result.used piece.now) }
{
    if piece.len() < need {
        if body.extend_from_slice(piece).is_err() {
            return failed(FrameFault::Memory, piece.len());
        }
        return Step {
            phase: Phase::InBody {
                head,
                at,
                body,
                need: need - piece.len(),
            },
            used: piece.len(),
        };
    }
    if body.extend_from_slice(&piece[..need]).is_err() {
        return failed(FrameFault::Memory, piece.len());
    }
    Step {
        phase: Phase::Whole {
            head,
            body,
            alone: false,
        },
        used: need,
    }
}

/// Takes a piece in a body that ends with the connection.
pub(crate) fn to_end(head: FinalHead, at: usize, mut body: Vec<u8>, piece: &[u8]) -> Step
    requires { IsSound (Phase.ToEnd head at body) }
    ensures used { result.used ≤ length piece.now }
    ensures moves { 0 < length piece.now → 0 < result.used }
    ensures sound { IsSound result.phase }
    ensures counts { Counts (at + length body.items) result.used result.phase }
    ensures leads { Leads (Phase.ToEnd head at body) piece.now result.phase
        (drop result.used piece.now) }
{
    let room = BODY_LIMIT - body.len() as u64;
    if piece.len() as u64 > room {
        return failed(FrameFault::BodyLimit, piece.len());
    }
    if body.extend_from_slice(piece).is_err() {
        return failed(FrameFault::Memory, piece.len());
    }
    Step {
        phase: Phase::ToEnd { head, at, body },
        used: piece.len(),
    }
}
