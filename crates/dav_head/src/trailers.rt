ghost use Rattle.std.specs.Prelude.{◌≡◌, ◌≤◌, length};
ghost use Rattle.dav_head.specs.Limit.{feeds};
ghost use Rattle.dav_head.specs.Trailers.{JudgesTrailers};

use httparse::Status;
use httparse::spans::{EMPTY_HEADER_SPAN, parse_headers};

/// What the bytes of a chunked body's trailers so far are.
#[derive(Clone, Copy, Debug, PartialEq, Eq)]
pub enum TrailersState {
    /// No trailers yet, and some may come of them.
    Open,
    /// The first `used` bytes are trailers, with the empty line that ends them.
    Whole { used: usize },
    /// No trailers, whatever follows.
    Refused,
}

/// What the bytes of the trailers so far are, where at most 131 line feeds are among them, so that
/// 132 spans are room enough.
pub fn judge_trailers(bytes: &[u8]) -> TrailersState
    requires { feeds bytes.now ≤ 131 }
    ensures { JudgesTrailers bytes.now result }
{
    let mut headers = [EMPTY_HEADER_SPAN; 132];
    match parse_headers(bytes, &mut headers) {
        Ok(Status::Complete((used, _))) => TrailersState::Whole { used },
        Ok(Status::Partial) => TrailersState::Open,
        Err(_) => TrailersState::Refused,
    }
}
