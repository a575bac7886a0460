//! What words of a row stand for.

use dav_frame::FieldName;
use dav_text::{Method, Seen, Tag};

/// The method of a name.
pub fn method_of(name: &str) -> Option<Method> {
    match name {
        "OPTIONS" => Some(Method::Options),
        "GET" => Some(Method::Get),
        "HEAD" => Some(Method::Head),
        "PUT" => Some(Method::Put),
        "DELETE" => Some(Method::Delete),
        "MKCOL" => Some(Method::Mkcol),
        "COPY" => Some(Method::Copy),
        "MOVE" => Some(Method::Move),
        "LOCK" => Some(Method::Lock),
        "UNLOCK" => Some(Method::Unlock),
        "PROPFIND" => Some(Method::Propfind),
        "PROPPATCH" => Some(Method::Proppatch),
        _ => None,
    }
}

/// The field of a request of a name.
pub fn field_of(name: &str) -> Option<FieldName> {
    match name {
        "Depth" => Some(FieldName::Depth),
        "Destination" => Some(FieldName::Destination),
        "Overwrite" => Some(FieldName::Overwrite),
        "If-Match" => Some(FieldName::IfMatch),
        "If-None-Match" => Some(FieldName::IfNoneMatch),
        "If" => Some(FieldName::If),
        "Timeout" => Some(FieldName::Timeout),
        "Lock-Token" => Some(FieldName::LockToken),
        "Authorization" => Some(FieldName::Authorization),
        "Content-Type" => Some(FieldName::ContentType),
        _ => None,
    }
}

/// What is known of a file, as a word or a strong entity tag says it.
pub fn seen_of(word: &[u8]) -> Option<Seen> {
    match word {
        b"unknown" => Some(Seen::Unknown),
        b"absent" => Some(Seen::Absent),
        b"untagged" => Some(Seen::Untagged),
        _ => Some(Seen::Tagged(Tag::read(word)?)),
    }
}

/// The word, or the tag, of what is known of a file.
pub fn word_of(seen: &Seen) -> &[u8] {
    match seen {
        Seen::Unknown => b"unknown",
        Seen::Absent => b"absent",
        Seen::Untagged => b"untagged",
        Seen::Tagged(tag) => tag.as_slice(),
    }
}
