ghost use Rattle.std.specs.Prelude.{◌≡◌, ◌++◌, OnOk, MatchResult};
ghost use Rattle.dav_auth.specs.Elements.{Elements};
ghost use Rattle.dav_auth.specs.Reading.{IsUnread, Chooses};
ghost use Rattle.dav_auth.specs.Scan.{at_end};

use crate::challenge::Challenge;
use crate::choice::choose;
use crate::fault::AuthFault;
use crate::piece::Piece;
use crate::place::{Moved, Place, finish, step};
use dav_text::Memory;
use std::alloc::Global;

/// Keeps the part, if there is one.
fn keep(piece: Option<Piece>, pieces: &mut Vec<Piece>) -> Result<(), Memory>
    ensures { OnOk result (pieces.new.items ≡ pieces.old.items ++ at_end piece) }
{
    if let Some(piece) = piece {
        pieces.push(piece)?;
    }
    Ok(())
}

/// The parts of a list of challenges and parameters. `may` says whether it can begin with a
/// parameter.
pub(crate) fn read_pieces(alloc: Global, text: &[u8], may: bool) -> Result<Vec<Piece>, AuthFault>
    ensures { MatchResult result (λ pieces. Elements may pieces.items text.now) (λ fault. IsUnread may text.now fault) }
{
    let mut pieces = Vec::new(alloc);
    let mut place = Place::Start { may };
    for (at, byte) in text.iter().enumerate() {
        let Some(Moved { place: next, piece }) = step(alloc, place, *byte)? else {
            return Err(AuthFault::BadChallenge { at });
        };
        keep(piece, &mut pieces)?;
        place = next;
    }
    let Some(piece) = finish(place) else {
        return Err(AuthFault::BadChallenge { at: text.len() });
    };
    keep(piece, &mut pieces)?;
    Ok(pieces)
}

impl Challenge {
    /// Reads the values of all WWW-Authenticate fields, joined by `, `, and gives the first Digest
    /// challenge that can be answered: RFC 9110 section 11.6.1, RFC 7616 section 3.3.
    ///
    /// # Errors
    ///
    /// `BadChallenge` where the bytes are no list of challenges, `NoDigest` where none of them has
    /// the scheme Digest, `Unsupported` where none of those can be answered, and want of memory.
    pub fn read(alloc: Global, value: &[u8]) -> Result<Challenge, AuthFault>
        ensures { Chooses value.now result }
    {
        let pieces = read_pieces(alloc, value, false)?;
        choose(alloc, pieces.as_slice())
    }
}
