ghost use Rattle.std.specs.Prelude.{◌≡◌, ◌≤◌, length};
ghost use Rattle.dav_head.specs.Head.{JudgesHead};
ghost use Rattle.dav_head.specs.Limit.{feeds};

use httparse::Status;
use httparse::spans::{HeaderSpan, ResponseSpans, parse_response};

/// What the bytes of a head so far are.
#[derive(Clone, Copy, Debug)]
pub enum HeadState {
    /// No head yet, and one may come of them.
    Open,
    /// A whole head at the front.
    Whole(ResponseSpans),
    /// No head, whatever follows.
    Refused,
}

/// What the bytes of a head so far are, where at most 131 line feeds are among them: a head has
/// more line feeds than fields, so that 132 spans are room enough.
pub fn judge_head(bytes: &[u8], headers: &mut [HeaderSpan]) -> HeadState
    requires room { length headers.old ≡ 132 }
    requires few { feeds bytes.now ≤ 131 }
    ensures { JudgesHead bytes.now headers.new result }
{
    match parse_response(bytes, headers) {
        Ok(Status::Complete(spans)) => HeadState::Whole(spans),
        Ok(Status::Partial) => HeadState::Open,
        Err(_) => HeadState::Refused,
    }
}
