//! Documents: what a scanner tells of a text that comes in pieces, and what the text has as a tree. XML 1.0 and Namespaces in XML.

use crate::case::Case;
use crate::pieces::{lengths_of, pieces_of};
use crate::telling::Telling;
use dav_script::RowFault;
use dav_text::Memory;
use dav_xml::{Document, Scan, XmlFault};
use std::alloc::Global;

/// How many bytes a text may have here.
const ROOM: usize = 1_000_000_000;

/// What came of a text.
#[derive(Drop)]
enum Came {
    /// It is a document, of which this is told.
    Told(Vec<u8>),
    /// It has a fault, before which so many bytes were taken.
    Fault { fault: XmlFault, taken: u64 },
    /// A fault that a later call did not answer again.
    Forgotten(XmlFault),
}

/// Whether two readings tell the same, or have the same fault.
fn is_same(came: &Came, other: &Came) -> bool {
    match (came, other) {
        (Came::Told(lines), Came::Told(others)) => lines.as_slice() == others.as_slice(),
        (
            Came::Fault { fault, taken: _ },
            Came::Fault {
                fault: last,
                taken: _,
            },
        ) => fault == last,
        _ => false,
    }
}

/// A fault as text. A limit has no place of its own: it is passed by the byte behind those that were taken.
fn fault_text(alloc: Global, fault: XmlFault, taken: u64) -> Result<Vec<u8>, RowFault> {
    let text = match fault {
        XmlFault::Bad { at } => format!(in alloc; "fault bad byte at {at}")?,
        XmlFault::Cut => format!(in alloc; "fault cut off")?,
        XmlFault::Limit { which } => format!(in alloc; "fault limit {which:?} at {taken}")?,
        XmlFault::Memory => return Err(RowFault::Memory),
    };
    Ok(text.into_bytes())
}

/// What came of a text, as text.
fn text_of(alloc: Global, came: Came) -> Result<Vec<u8>, RowFault> {
    match came {
        Came::Told(lines) => Ok(lines),
        Came::Fault { fault, taken } => fault_text(alloc, fault, taken),
        Came::Forgotten(fault) => {
            Ok(format!(in alloc; "forgotten afterwards: {fault:?}")?.into_bytes())
        }
    }
}

/// Feeds a piece, and tells its events.
fn feed_piece(scan: &mut Scan, piece: &[u8], telling: &mut Telling) -> Result<(), XmlFault> {
    let mut rest = piece;
    // Each event has a byte of its own, but for the end of an empty element: so there are at most twice as many, and one.
    for _ in 0..piece.len().saturating_mul(2).saturating_add(2) {
        if scan.taken() > 1_000_000_000 || rest.len() > ROOM {
            return Err(XmlFault::Memory);
        }
        let fed = scan.feed(rest)?;
        if !fed.ready {
            return Ok(());
        }
        if telling.tell(scan.event()).is_err() {
            return Err(XmlFault::Memory);
        }
        let Some((_, left)) = rest.split_at_checked(fed.used) else {
            return Err(XmlFault::Memory);
        };
        rest = left;
    }
    Err(XmlFault::Memory)
}

/// Feeds all pieces, tells their events, and asks whether they are a document.
fn feed_all(scan: &mut Scan, pieces: &[&[u8]], telling: &mut Telling) -> Result<(), XmlFault> {
    for piece in pieces {
        feed_piece(scan, piece, telling)?;
    }
    scan.end()
}

/// Whether a scanner that had a fault answers it again, at a further piece and at the end. A text that is cut off may go on.
fn answers_again(scan: &mut Scan, fault: XmlFault) -> bool {
    if scan.end() != Err(fault) || scan.taken() > 1_000_000_000 {
        return false;
    }
    match fault {
        XmlFault::Cut => true,
        _ => scan.feed(b"a") == Err(fault) && scan.end() == Err(fault),
    }
}

/// What a scanner makes of pieces.
fn scan_pieces(scan: &mut Scan, pieces: &[&[u8]], telling: &mut Telling) -> Option<Came> {
    let Err(fault) = feed_all(scan, pieces, telling) else {
        return None;
    };
    if answers_again(scan, fault) {
        return Some(Came::Fault {
            fault,
            taken: scan.taken(),
        });
    }
    Some(Came::Forgotten(fault))
}

/// What came of a text in pieces.
fn scanned(alloc: Global, pieces: &[&[u8]]) -> Result<Came, RowFault> {
    let mut telling = Telling::new(alloc);
    let fault = match Scan::new(alloc) {
        Ok(mut scan) => scan_pieces(&mut scan, pieces, &mut telling),
        Err(Memory) => return Err(RowFault::Memory),
    };
    Ok(fault.unwrap_or(Came::Told(telling.into_lines())))
}

/// What came of a text in one piece, as a tree.
fn read(alloc: Global, bytes: &[u8]) -> Result<Came, RowFault> {
    match Document::read(alloc, bytes) {
        Ok(document) => {
            let mut telling = Telling::new(alloc);
            telling.tell_nodes(document.nodes())?;
            Ok(Came::Told(telling.into_lines()))
        }
        Err(fault) => Ok(Came::Fault { fault, taken: 0 }),
    }
}

/// What came of a text of a case read in another way, behind the way's name; none where it is the same.
fn other(alloc: Global, came: &Came, way: &str, other: Came) -> Result<Option<Vec<u8>>, RowFault> {
    if is_same(came, &other) {
        return Ok(None);
    }
    let mut text = format!(in alloc; "{way}: ")?.into_bytes();
    text.extend_from_slice(text_of(alloc, other)?.as_slice())?;
    Ok(Some(text))
}

/// What is other of the text of a case in one of the lengths of pieces; none where all is the same.
fn other_in_pieces(
    alloc: Global,
    case: &Case<'_>,
    came: &Came,
) -> Result<Option<Vec<u8>>, RowFault> {
    for length in &lengths_of(alloc, case)? {
        let pieces = pieces_of(alloc, case.given.bytes(), *length)?;
        let way = format!(in alloc; "in pieces of {length}")?;
        let text = other(
            alloc,
            came,
            way.as_str(),
            scanned(alloc, pieces.as_slice())?,
        )?;
        if text.is_some() {
            return Ok(text);
        }
    }
    Ok(None)
}

/// What comes of a case: what a scanner tells of the two pieces; where the second is empty, what the text has as a tree, and what the
/// scanner tells of it in shorter pieces, has to be the same.
pub fn outcome_of_document(alloc: Global, case: &Case<'_>) -> Result<Vec<u8>, RowFault> {
    let (front, back) = case.pieces();
    let came = scanned(alloc, &[front, back])?;
    if !back.is_empty() {
        return text_of(alloc, came);
    }
    if let Some(text) = other(alloc, &came, "as a tree", read(alloc, front)?)? {
        return Ok(text);
    }
    match other_in_pieces(alloc, case, &came)? {
        Some(text) => Ok(text),
        None => text_of(alloc, came),
    }
}
