ghost use Rattle.std.specs.Prelude.{◌≡◌, ℕ, ◌+◌, ◌<◌, ◌≤◌, ◌==◌, ◌&&◌, false, List, length, drop};
ghost use Rattle.httparse.specs.Grammar.{ResponseHead, status_code};
ghost use Rattle.httparse.specs.Spans.{IsResponseAt, IsResponseWithin};
ghost use Rattle.dav_head.specs.Body.{body_of};
ghost use Rattle.dav_head.specs.Fields.{head_map};
ghost use Rattle.dav_frame.specs.Framing.{Outcome, fault_of as fault_of_lem};
ghost use Rattle.dav_frame.specs.Reading.{FromPhase, AfterHead, Begins, Leads, IsSound, Counts};

use crate::body::begin;
use crate::fault::FrameFault;
use crate::phase::{FinalHead, Phase, Step, failed};
use dav_head::{
    BodyFault, HeadState, decide, fields_of, is_interim, judge_head, keep, may_persist,
};
use dav_text::Method;
use httparse::spans::{EMPTY_HEADER_SPAN, HeaderSpan, ResponseSpans};
use std::alloc::Global;

/// The fault of a final head, whose last byte is the first past the limit or not.
fn fault_of(fault: BodyFault, past: bool) -> FrameFault
    ensures { result ≡ fault_of_lem past fault }
{
    match fault {
        BodyFault::Coding => FrameFault::Coding,
        BodyFault::BadLength => FrameFault::BadLength,
        BodyFault::BodyLimit => {
            if past {
                FrameFault::HeadLimit
            } else {
                FrameFault::BodyLimit
            }
        }
    }
}

/// The phase after a final head, which ends at the offset `at`.
fn after_final(
    alloc: Global,
    method: Method,
    at: usize,
    kept: &[u8],
    headers: &[HeaderSpan],
    spans: ResponseSpans,
    past: bool,
) -> Phase
    requires within { IsResponseWithin kept.now headers.now spans }
    requires heads { past ≡ false → at ≤ 65536 }
    ensures sound { IsSound result }
    ensures counts { Counts at 0 result }
    ensures begins { (before : ℕ) (h : ResponseHead) → IsResponseAt kept.now headers.now spans h
        → at ≡ before + spans.len
        → (rest : List ℕ) (outcome : Outcome) → FromPhase result rest outcome
        → AfterHead method before h past false rest outcome }
{
    let Ok(fields) = fields_of(alloc, kept, headers, spans) else {
        return Phase::Failed(FrameFault::Memory);
    };
    match decide(method, spans.code, &fields) {
        Err(fault) => Phase::Failed(fault_of(fault, past)),
        Ok(body) => {
            if past {
                return Phase::Failed(FrameFault::HeadLimit);
            }
            let head = FinalHead {
                status: spans.code,
                persists: may_persist(spans.version, &fields, body),
                fields,
            };
            begin(alloc, head, at, body)
        }
    }
}

/// The phase after a whole head, which follows interim heads of `before` bytes, and is past the
/// limit or not.
fn after_head(
    alloc: Global,
    method: Method,
    before: usize,
    kept: &[u8],
    headers: &[HeaderSpan],
    spans: ResponseSpans,
    past: bool,
) -> Phase
    requires within { IsResponseWithin kept.now headers.now spans }
    requires size { before + spans.len ≤ 65537 }
    requires heads { past ≡ false → before + spans.len ≤ 65536 }
    ensures sound { IsSound result }
    ensures counts { Counts (before + spans.len) 0 result }
    ensures begins { (h : ResponseHead) → IsResponseAt kept.now headers.now spans h
        → Begins method before h past result }
{
    let at = before + spans.len;
    if !is_interim(spans.code) {
        return after_final(alloc, method, at, kept, headers, spans, past);
    }
    if past {
        return Phase::Failed(FrameFault::HeadLimit);
    }
    let kept = Vec::new(alloc);
    Phase::AtHead {
        method,
        before: at,
        kept,
    }
}

/// Whether the last byte of a head, or of trailers, is the first past the limit.
pub(crate) fn ends_past(past: bool, len: usize, kept: usize) -> bool
    ensures { result ≡ (past && (len == kept)) }
{
    past && len == kept
}

/// Takes a piece in a head.
pub(crate) fn in_head(
    alloc: Global,
    method: Method,
    before: usize,
    mut kept: Vec<u8>,
    piece: &[u8],
) -> Step
    requires { IsSound (Phase.AtHead method before kept) }
    ensures used { result.used ≤ length piece.now }
    ensures moves { 0 < length piece.now → 0 < result.used }
    ensures sound { IsSound result.phase }
    ensures counts { Counts (before + length kept.items) result.used result.phase }
    ensures leads { Leads (Phase.AtHead method before kept) piece.now result.phase
        (drop result.used piece.now) }
{
    let old = kept.len();
    let Ok(past) = keep(&mut kept, piece, before) else {
        return failed(FrameFault::Memory, piece.len());
    };
    let mut headers = [EMPTY_HEADER_SPAN; 132];
    match judge_head(&kept, &mut headers) {
        HeadState::Refused => failed(FrameFault::NotAReply { at: before as u64 }, piece.len()),
        HeadState::Open => {
            if past {
                return failed(FrameFault::HeadLimit, piece.len());
            }
            Step {
                phase: Phase::AtHead {
                    method,
                    before,
                    kept,
                },
                used: piece.len(),
            }
        }
        HeadState::Whole(spans) => {
            let ends = ends_past(past, spans.len, kept.len());
            Step {
                phase: after_head(alloc, method, before, &kept, &headers, spans, ends),
                used: spans.len - old,
            }
        }
    }
}
