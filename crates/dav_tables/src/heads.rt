//! Heads of replies, the size lines of chunks, trailers, and how much of them is kept.

use crate::case::{Case, starved};
use crate::told::{Told, plain};
use dav_head::{
    Body, BodyFault, HeadState, Length, LineState, TrailersState, Transfer, content_length, decide,
    fields_of, is_encoded, is_interim, judge_head, judge_line, judge_trailers, keep, may_persist,
    says_close, transfer_coding,
};
use dav_script::RowFault;
use http_header::HeaderMap;
use httparse::spans::EMPTY_HEADER_SPAN;
use std::alloc::Global;

/// A head that was read.
#[derive(Drop)]
struct Head {
    minor: u8,
    status: u16,
    fields: HeaderMap,
}

/// What bytes of a head are.
#[derive(Drop)]
enum Judged {
    /// They begin one.
    Open,
    /// They are one.
    Whole(Head),
    /// They begin none.
    Refused,
}

/// What these bytes of a head are.
fn judge(alloc: Global, bytes: &[u8]) -> Result<Judged, RowFault> {
    let mut kept = Vec::new(alloc);
    keep(&mut kept, bytes, 0).map_err(starved)?;
    let mut headers = [EMPTY_HEADER_SPAN; 132];
    match judge_head(&kept, &mut headers) {
        HeadState::Open => Ok(Judged::Open),
        HeadState::Refused => Ok(Judged::Refused),
        HeadState::Whole(spans) => Ok(Judged::Whole(Head {
            minor: spans.version,
            status: spans.code,
            fields: fields_of(alloc, &kept, &headers, spans).map_err(starved)?,
        })),
    }
}

/// The length that fields state.
fn length_text(alloc: Global, length: Length) -> Result<String, RowFault> {
    match length {
        Length::Missing => Ok(String::from_str(alloc, "missing")?),
        Length::Stated(length) => Ok(format!(in alloc; "{length}")?),
        Length::Bad => Ok(String::from_str(alloc, "bad")?),
    }
}

/// The transfer coding that fields state.
fn transfer_text(transfer: Transfer) -> &'static str {
    match transfer {
        Transfer::Missing => "missing",
        Transfer::Chunked => "chunked",
        Transfer::Other => "other",
    }
}

/// The body that follows a head.
fn body_text(alloc: Global, body: Body) -> Result<String, RowFault> {
    match body {
        Body::Empty => Ok(String::from_str(alloc, "empty")?),
        Body::Sized(size) => Ok(format!(in alloc; "of {size} bytes")?),
        Body::Chunked => Ok(String::from_str(alloc, "in chunks")?),
        Body::ToEnd => Ok(String::from_str(alloc, "to the end")?),
    }
}

/// Why a head says no body.
fn fault_text(fault: BodyFault) -> &'static str {
    match fault {
        BodyFault::Coding => "fault coding",
        BodyFault::BadLength => "fault bad length",
        BodyFault::BodyLimit => "fault body limit",
    }
}

/// The lines of a body that follows a head, and of its connection.
fn tell_body(
    alloc: Global,
    case: &Case<'_>,
    head: &Head,
    told: &mut Told<'_>,
) -> Result<(), RowFault> {
    match decide(case.method()?, head.status, &head.fields) {
        Ok(body) => {
            told.line("body", body_text(alloc, body)?.as_bytes())?;
            told.yes("persists", may_persist(head.minor, &head.fields, body))
        }
        Err(fault) => told.line("body", fault_text(fault).as_bytes()),
    }
}

/// What a head says of what follows it: the setting `method` names the method of the request.
pub fn outcome_of_head(alloc: Global, case: &Case<'_>) -> Result<Vec<u8>, RowFault> {
    let head = match judge(alloc, case.given.bytes())? {
        Judged::Open => return plain(alloc, "open"),
        Judged::Refused => return plain(alloc, "refused"),
        Judged::Whole(head) => head,
    };
    let mut told = Told::new(alloc, case);
    let length = length_text(alloc, content_length(&head.fields))?;
    told.line("length", length.as_bytes())?;
    let transfer = transfer_text(transfer_coding(&head.fields));
    told.line("transfer", transfer.as_bytes())?;
    told.yes("encoded", is_encoded(&head.fields))?;
    told.yes("close", says_close(&head.fields))?;
    told.yes("interim", is_interim(head.status))?;
    tell_body(alloc, case, &head, &mut told)?;
    told.end()
}

/// What bytes of the size line of a chunk are.
pub fn outcome_of_size_line(alloc: Global, case: &Case<'_>) -> Result<Vec<u8>, RowFault> {
    match judge_line(case.given.bytes()) {
        LineState::Open => plain(alloc, "open"),
        LineState::Refused => plain(alloc, "refused"),
        LineState::Whole { size, used } => {
            Ok(format!(in alloc; "size {size} in {used} bytes")?.into_bytes())
        }
    }
}

/// What bytes of trailers are, up to the first past the limit, and whether that byte was there.
pub fn outcome_of_trailers(alloc: Global, case: &Case<'_>) -> Result<Vec<u8>, RowFault> {
    let mut kept = Vec::new(alloc);
    let is_past = keep(&mut kept, case.given.bytes(), 0).map_err(starved)?;
    let past = if is_past { ", past the limit" } else { "" };
    match judge_trailers(&kept) {
        TrailersState::Open => Ok(format!(in alloc; "open{past}")?.into_bytes()),
        TrailersState::Refused => Ok(format!(in alloc; "refused{past}")?.into_bytes()),
        TrailersState::Whole { used } => {
            Ok(format!(in alloc; "whole in {used} bytes{past}")?.into_bytes())
        }
    }
}

/// How many bytes of a head are kept where those of the setting `before` came before, and whether one was past the limit.
pub fn outcome_of_kept(alloc: Global, case: &Case<'_>) -> Result<Vec<u8>, RowFault> {
    let before = match usize::try_from(case.number_or("before", 0)?) {
        Ok(before) if before <= 65_536 => before,
        _ => return Err(case.bad_given()),
    };
    let mut kept = Vec::new(alloc);
    let is_past = keep(&mut kept, case.given.bytes(), before).map_err(starved)?;
    let past = if is_past { ", past the limit" } else { "" };
    let length = kept.len();
    Ok(format!(in alloc; "{length}{past}")?.into_bytes())
}
