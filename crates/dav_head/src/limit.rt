ghost use Rattle.std.specs.Prelude.{◌≡◌, ℕ, ◌+◌, ◌<◌, ◌≤◌, length, take, IfOk, OnErr};
ghost use Rattle.dav_head.specs.Limit.{feeds, IsFree, Keeps};

use dav_text::Memory;

/// The most bytes that the heads and the trailers of one reply may have together.
const BYTE_LIMIT: usize = 65_536;

/// The most line feeds that one head, or the trailers, may have.
const FEED_LIMIT: usize = 130;

/// How many bytes at the front of a head, or of trailers, are within the limit, where so many bytes
/// of the reply's earlier heads came before.
pub fn free_bytes(bytes: &[u8], before: usize) -> usize
    requires { before ≤ 65536 }
    ensures in_range { result ≤ length bytes.now }
    ensures free { (place : ℕ) → place < result → IsFree before bytes.now place }
    ensures stops { result < length bytes.now → ¬ (IsFree before bytes.now result) }
    ensures few { feeds (take result bytes.now) ≤ 130 }
{
    let mut found: usize = 0;
    for (i, byte) in bytes.iter().enumerate() {
        if before + i >= BYTE_LIMIT || found >= FEED_LIMIT {
            return i;
        }
        if *byte == b'\n' {
            found += 1;
        }
    }
    bytes.len()
}

/// The first bytes of a piece, where no more than `room` can count.
fn front_of(piece: &[u8], room: usize) -> &[u8]
    ensures { result.now ≡ take room piece.now }
{
    if piece.len() <= room {
        return piece;
    }
    &piece[..room]
}

/// Appends a piece to the bytes of a head, or of trailers, up to the first byte past the limit, and
/// says whether that byte was there.
///
/// # Errors
///
/// Want of memory, which changes nothing.
pub fn keep(kept: &mut Vec<u8>, piece: &[u8], before: usize) -> Result<bool, Memory>
    requires { before + length kept.old.items ≤ 65536 }
    ensures ok { IfOk result (λ past. Keeps before kept.old.items piece.now kept.new.items past) }
    ensures err { OnErr result (kept.new.items ≡ kept.old.items) }
{
    let front = front_of(piece, BYTE_LIMIT + 1 - before - kept.len());
    kept.extend_from_slice(front)?;
    let end = free_bytes(kept, before);
    if end < kept.len() {
        kept.truncate(end + 1);
        return Ok(true);
    }
    Ok(false)
}
