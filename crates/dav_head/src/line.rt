ghost use Rattle.std.specs.Prelude.{◌≡◌, ◌≢◌, ℕ, ◌<◌, ◌≤◌, ◌⊎◌, length, slice_index, true, false};
ghost use Rattle.std.specs.Char.{is_ascii_hexdigit};
ghost use Rattle.dav_head.specs.Line.{JudgesLine};

use httparse::{Status, parse_chunk_size};

/// The most bytes that a size line may have, its line end included.
const LINE_LIMIT: usize = 4096;

/// The most digits that it may have.
const DIGIT_LIMIT: usize = 15;

/// What the bytes of a chunk's size line so far are.
#[derive(Clone, Copy, Debug, PartialEq, Eq)]
pub enum LineState {
    /// No size line yet, and one may come of them.
    Open,
    /// The first `used` bytes are the line of a chunk of `size` bytes.
    Whole { size: u64, used: usize },
    /// No size line, whatever follows.
    Refused,
}

/// The number of hexadecimal digits that the bytes begin with.
fn hex_front(bytes: &[u8]) -> usize
    ensures in_range { result ≤ length bytes.now }
    ensures pass { (k : ℕ) → k < result → is_ascii_hexdigit (slice_index bytes.now k) ≡ true }
    ensures stops { result < length bytes.now → is_ascii_hexdigit (slice_index bytes.now result) ≡ false }
{
    for (i, byte) in bytes.iter().enumerate() {
        if !byte.is_ascii_hexdigit() {
            return i;
        }
    }
    bytes.len()
}

/// Whether a line end that has not come yet would end past the limit.
fn is_too_long(bytes: &[u8]) -> bool
    ensures yes { result ≡ true
        → (4096 ≤ length bytes.now) ⊎ ((length bytes.now ≡ 4095) × (slice_index bytes.now 4094 ≢ 13)) }
    ensures no { result ≡ false
        → (length bytes.now ≤ 4094) ⊎ ((length bytes.now ≡ 4095) × (slice_index bytes.now 4094 ≡ 13)) }
{
    if bytes.len() == LINE_LIMIT - 1 {
        return bytes[LINE_LIMIT - 2] != b'\r';
    }
    bytes.len() >= LINE_LIMIT
}

/// What the bytes of a chunk's size line so far are: RFC 9112 section 7.1, with at most 15 digits and
/// 4,096 bytes, the line end included.
pub fn judge_line(bytes: &[u8]) -> LineState
    ensures { JudgesLine bytes.now result }
{
    if hex_front(bytes) > DIGIT_LIMIT {
        return LineState::Refused;
    }
    match parse_chunk_size(bytes) {
        Err(_) => LineState::Refused,
        Ok(Status::Complete((used, size))) => {
            if used > LINE_LIMIT {
                return LineState::Refused;
            }
            LineState::Whole { size, used }
        }
        Ok(Status::Partial) => {
            if is_too_long(bytes) {
                return LineState::Refused;
            }
            LineState::Open
        }
    }
}
