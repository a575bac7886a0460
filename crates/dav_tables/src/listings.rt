//! Listings: what a walk through a document lends, how it ends, and how many responses it counts. RFC 4918 section 14.

use crate::case::Case;
use crate::lent::{Asked, Teller};
use crate::pieces::{lengths_of, pieces_of};
use dav_script::RowFault;
use dav_walk::{Root, Walk, WalkFault, Walker};
use std::alloc::Global;

/// How many bytes a document may have here.
const ROOM: usize = 1_000_000_000;

/// How a walk ended: what it answered to its last piece, to an empty piece behind it, and at the end.
#[derive(Clone, Copy)]
struct Ended {
    fed: Result<Walk, WalkFault>,
    again: Result<Walk, WalkFault>,
    count: Result<u64, WalkFault>,
}

/// Feeds a piece.
fn feed_piece(
    walker: &mut Walker,
    piece: &[u8],
    teller: &mut Teller<'_>,
) -> Result<Walk, WalkFault> {
    if walker.taken() > 1_000_000_000 || piece.len() > ROOM {
        return Err(WalkFault::Memory);
    }
    walker.feed(piece, teller)
}

/// Feeds all pieces up to the first fault.
fn feed_all(
    walker: &mut Walker,
    pieces: &[&[u8]],
    teller: &mut Teller<'_>,
) -> Result<Walk, WalkFault> {
    let mut walk = Walk::Going;
    for piece in pieces {
        walk = feed_piece(walker, piece, teller)?;
    }
    Ok(walk)
}

/// Walks through the pieces.
fn walk(
    alloc: Global,
    root: Root,
    pieces: &[&[u8]],
    teller: &mut Teller<'_>,
) -> Result<Ended, RowFault> {
    let Ok(walker) = Walker::new(alloc, root) else {
        return Err(RowFault::Memory);
    };
    let mut walker = walker;
    let fed = feed_all(&mut walker, pieces, teller);
    let again = feed_piece(&mut walker, b"", teller);
    let count = walker.finish(teller);
    Ok(Ended { fed, again, count })
}

/// How a walk ended, as text.
fn ending_of(alloc: Global, ended: &Ended) -> Result<String, RowFault> {
    let text = match (ended.fed, ended.again, ended.count) {
        (Ok(Walk::Going), Ok(Walk::Going), Ok(count)) => format!(in alloc; "lent {count}")?,
        (Ok(Walk::Stopped), Ok(Walk::Stopped), Ok(count)) => {
            format!(in alloc; "stopped, lent {count}")?
        }
        (Ok(Walk::Going), Ok(Walk::Going), Err(fault)) => format!(in alloc; "fault {fault}")?,
        (Err(fault), Err(again), Err(last)) if fault == again && fault == last => {
            format!(in alloc; "fault {fault}")?
        }
        (fed, again, count) => format!(in alloc; "forgotten: {fed:?}, {again:?}, {count:?}")?,
    };
    Ok(text)
}

/// What a walk through the pieces lends, and how it ends. The last line has a line feed where others stand before it.
fn walked(alloc: Global, asked: Asked<'_>, pieces: &[&[u8]]) -> Result<Vec<u8>, RowFault> {
    let mut teller = Teller::new(alloc, asked);
    let ended = walk(alloc, asked.root, pieces, &mut teller)?;
    let mut lines = teller.into_lines()?;
    let is_one_line = lines.is_empty();
    lines.extend_from_slice(ending_of(alloc, &ended)?.as_bytes())?;
    if !is_one_line {
        lines.push(b'\n')?;
    }
    Ok(lines)
}

/// The root that a case expects: that of a listing where it does not say.
fn root_of(case: &Case<'_>) -> Result<Root, RowFault> {
    match case.setting("root") {
        None => Ok(Root::Multistatus),
        Some(entry) => match entry.text()? {
            "multistatus" => Ok(Root::Multistatus),
            "prop" => Ok(Root::Prop),
            _ => Err(entry.bad_value()),
        },
    }
}

/// What a case asks for.
fn asked_by<'a>(case: &Case<'a>) -> Result<Asked<'a>, RowFault> {
    let most = match case.setting("stops_behind") {
        Some(entry) => entry.number()?,
        None => u64::MAX,
    };
    Ok(Asked {
        root: root_of(case)?,
        most,
        shows: case.text_or("shows", "")?,
    })
}

/// What comes of a case: what a walk through the two pieces lends; where the second is empty, a walk through shorter pieces has to
/// lend the same.
pub fn outcome_of_listing(alloc: Global, case: &Case<'_>) -> Result<Vec<u8>, RowFault> {
    let asked = asked_by(case)?;
    let (front, back) = case.pieces();
    let lines = walked(alloc, asked, &[front, back])?;
    if !back.is_empty() {
        return Ok(lines);
    }
    for length in &lengths_of(alloc, case)? {
        let pieces = pieces_of(alloc, front, *length)?;
        let others = walked(alloc, asked, pieces.as_slice())?;
        if others.as_slice() != lines.as_slice() {
            let mut text = format!(in alloc; "in pieces of {length}: ")?.into_bytes();
            text.extend_from_slice(others.as_slice())?;
            return Ok(text);
        }
    }
    Ok(lines)
}
