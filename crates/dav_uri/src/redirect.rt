ghost use Rattle.std.specs.Prelude.{◌≡◌};
ghost use Rattle.dav_uri.specs.Follow.{followed, is_redirect as is_redirect_lem, is_reading as is_reading_lem};

use dav_text::Method;

// How many redirects of one exchange are followed.
const HOPS_MAX: u8 = 5;

/// What is done about a reply.
#[derive(Clone, Copy, Debug, PartialEq, Eq)]
pub enum Follow {
    /// The request is made again, at the target that the reply names.
    Go,
    /// The reply is a redirect that is not followed.
    Answer,
    /// The reply is no redirect.
    Stay,
    /// The reply is one redirect more than are followed.
    TooMany,
}

impl Follow {
    /// What is done about a reply of this status to a request of this method, after so many
    /// redirects: 301, 302, 307 and 308 are followed up to five times for OPTIONS, GET, HEAD and
    /// PROPFIND.
    pub fn of(method: Method, status: u16, hops: u8) -> Follow
        ensures { result ≡ followed method status hops }
    {
        if !is_redirect(status) {
            return Follow::Stay;
        }
        if !is_reading(method) || status == 303 {
            return Follow::Answer;
        }
        if hops < HOPS_MAX {
            Follow::Go
        } else {
            Follow::TooMany
        }
    }
}

fn is_redirect(status: u16) -> bool
    ensures { result ≡ is_redirect_lem status }
{
    matches!(status, 301 | 302 | 303 | 307 | 308)
}

fn is_reading(method: Method) -> bool
    ensures { result ≡ is_reading_lem method }
{
    matches!(
        method,
        Method::Options | Method::Get | Method::Head | Method::Propfind
    )
}
