ghost use Rattle.std.specs.Prelude.{◌≡◌, MatchOption};
ghost use Rattle.dav_verbs.specs.Precondition.{precondition_of};
ghost use Rattle.dav_verbs.specs.Seen.{news_of as news_of_lem, HasTag, HasNoTag, IsShown, IsSeenAfter};

use crate::condition::Precondition;
use crate::only::only_value;
use dav_frame::Reply;
use dav_text::{Method, Seen, Tag};
use http_header::{ETAG, HeaderMap};

/// The precondition that lets a request through only where the file is what is known of it.
pub fn precondition(seen: &Seen) -> Precondition
    ensures { result ≡ precondition_of seen.now }
{
    match seen {
        Seen::Unknown => Precondition::Nothing,
        Seen::Absent => Precondition::IfNoneMatchAny,
        Seen::Untagged => Precondition::IfMatchAny,
        Seen::Tagged(tag) => Precondition::IfMatch(tag.copy()),
    }
}

/// What a reply says of the file.
#[derive(Clone, Copy, Debug, PartialEq, Eq)]
enum News {
    /// It is there, as the reply's fields say.
    There,
    /// It is not there.
    Gone,
    /// Nothing.
    Same,
}

/// What a status says of the file of a request with this method.
fn news_of(method: Method, status: u16) -> News
    ensures { result ≡ news_of_lem method status }
{
    match (method, status) {
        (Method::Get | Method::Head, 200) => News::There,
        (Method::Get | Method::Head, 404 | 410) => News::Gone,
        (Method::Put, 200..=299) => News::There,
        _ => News::Same,
    }
}

/// The tag of the one ETag field, where it is one that can be kept.
fn tag_of(fields: &HeaderMap) -> Option<Tag>
    ensures { MatchOption result (HasNoTag fields.now) (λ tag. HasTag fields.now tag) }
{
    Tag::read(only_value(fields, ETAG)?.as_bytes())
}

/// What the fields of a reply that shows the file tell of it.
fn shown(fields: &HeaderMap) -> Seen
    ensures { IsShown fields.now result }
{
    match tag_of(fields) {
        Some(tag) => Seen::Tagged(tag),
        None => Seen::Untagged,
    }
}

/// What is known of a file after the reply to a request of it, where `seen` was known before: RFC 9110
/// sections 8.8.3 and 15.
///
/// A GET or a HEAD with status 200, and a PUT with status 200 to 299, show the file: with its tag, where
/// there is one ETag field alone and it is a strong tag of at most 128 bytes. A GET or a HEAD with status 404
/// or 410 shows that there is none. Every other reply says nothing of it.
pub fn seen_after(seen: &Seen, method: Method, reply: &Reply) -> Seen
    ensures { IsSeenAfter seen.now method reply.now.status reply.now.fields result }
{
    match news_of(method, reply.status) {
        News::There => shown(&reply.fields),
        News::Gone => Seen::Absent,
        News::Same => seen.copy(),
    }
}
