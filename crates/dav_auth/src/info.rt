ghost use Rattle.std.specs.Prelude.{◌≡◌, option_map, Some, None, if◌then◌else◌};
ghost use Rattle.std.specs.List.{list_any};
ghost use Rattle.std.specs.Str.{is_utf8};
ghost use Rattle.dav_auth.specs.Chosen.{parameters_in};
ghost use Rattle.dav_auth.specs.Info.{is_scheme as is_scheme_lem, first_text as first_text_lem, said_in as said_in_lem, SaysOf};

use crate::fault::AuthFault;
use crate::piece::Piece;
use crate::reader::read_pieces;
use dav_text::{Blob, Memory, Text};
use std::alloc::Global;
use std::str;

fn is_scheme(piece: &Piece) -> bool
    ensures { result ≡ is_scheme_lem piece.now }
{
    match piece {
        Piece::Scheme(_) => true,
        Piece::Parameter { name: _, value: _ } => false,
    }
}

/// The bytes as text, if they are.
fn text_in(bytes: &Blob) -> Option<&str>
    ensures { option_map (λ text. text.now) result ≡ (if is_utf8 bytes.now then Some bytes.now else None) }
{
    match str::from_utf8(bytes.as_slice()) {
        Ok(text) => Some(text),
        Err(_) => None,
    }
}

/// The first value that is text, of the parameters of this name before the next scheme.
fn first_text<'a>(pieces: &'a [Piece], name: &[u8]) -> Option<&'a str>
    ensures { option_map (λ text. text.now) result ≡ first_text_lem name.now (parameters_in pieces.now) }
{
    let mut rest = pieces;
    while let Some((first, more)) = rest.split_first() {
        match first {
            Piece::Scheme(_) => return None,
            Piece::Parameter { name: other, value } => {
                if other.as_slice().eq_ignore_ascii_case(name) {
                    if let Some(text) = text_in(value) {
                        return Some(text);
                    }
                }
            }
        }
        rest = more;
    }
    None
}

/// Whether a scheme is among the parts.
fn has_scheme(pieces: &[Piece]) -> bool
    ensures { result ≡ list_any is_scheme_lem pieces.now }
{
    pieces.iter().any(|piece| is_scheme(piece))
}

/// What a list of these parts says, if they are parameters alone.
fn said_in(pieces: &[Piece]) -> Option<&str>
    ensures { option_map (λ text. text.now) result ≡ said_in_lem pieces.now }
{
    if has_scheme(pieces) {
        None
    } else {
        first_text(pieces, b"rspauth")
    }
}

/// The digits by which a server proves that it knows the password, from the values of all
/// Authentication-Info fields, joined by `, `: RFC 7616 section 3.5. None where the bytes are no list
/// of parameters, or no `rspauth` among them is text.
///
/// # Errors
///
/// Want of memory.
pub fn rspauth_of(alloc: Global, value: &[u8]) -> Result<Option<Text>, Memory>
    ensures { SaysOf value.now result }
{
    let pieces = match read_pieces(alloc, value, true) {
        Ok(pieces) => pieces,
        Err(AuthFault::Memory) => return Err(Memory),
        Err(AuthFault::BadChallenge { at: _ }) => return Ok(None),
        Err(AuthFault::NoDigest | AuthFault::Unsupported) => return Ok(None),
    };
    match said_in(pieces.as_slice()) {
        Some(text) => {
            let text = Text::copy_of(alloc, text)?;
            Ok(Some(text))
        }
        None => Ok(None),
    }
}
