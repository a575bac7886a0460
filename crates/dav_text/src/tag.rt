ghost use Rattle.std.specs.Prelude.{◌≡◌, ℕ, ◌↔◌, ◌≤◌, List, take, length, false, MatchOption, IsTrue};
ghost use Rattle.std.specs.List.{list_all};
ghost use Rattle.dav_text.specs.Tag.{IsTagOf, IsNoTag, IsOpaque, IsKept, is_tag_byte as is_tag_byte_lem};

use std::marker::Model;

// How many bytes a tag that is kept may have, with its quotes.
const TAG_MAX: usize = 128;

/// An entity tag: RFC 9110 section 8.8.3. The quotes stand in `opaque`.
#[derive(Clone, Copy, Debug)]
pub struct Etag<'a> {
    pub weak: bool,
    pub opaque: &'a [u8],
}

impl<'a> Etag<'a> {
    /// The entity tag that the value is, if it is one.
    pub fn read(value: &'a [u8]) -> Option<Etag<'a>>
        ensures { MatchOption result (IsNoTag value.now)
            (λ tag. IsTagOf value.now tag.weak tag.opaque.now) }
    {
        let (weak, opaque) = match value.strip_prefix(b"W/") {
            Some(opaque) => (true, opaque),
            None => (false, value),
        };
        if is_opaque(opaque) {
            Some(Etag { weak, opaque })
        } else {
            None
        }
    }
}

// Whether this is a text in double quotes, all of whose bytes may stand there.
fn is_opaque(bytes: &[u8]) -> bool
    ensures { IsTrue result ↔ IsOpaque bytes.now }
{
    let Some(rest) = bytes.strip_prefix(b"\"") else {
        return false;
    };
    match rest.strip_suffix(b"\"") {
        Some(inner) => are_tag_bytes(inner),
        None => false,
    }
}

// Whether all of these may stand between the quotes of a tag.
fn are_tag_bytes(bytes: &[u8]) -> bool
    ensures { result ≡ list_all is_tag_byte_lem bytes.now }
{
    bytes.iter().all(|b| is_tag_byte(*b))
}

fn is_tag_byte(byte: u8) -> bool
    ensures { result ≡ is_tag_byte_lem byte }
{
    byte == b'!' || (byte >= 35 && (byte <= 126 || byte >= 128))
}

/// A strong entity tag of at most 128 bytes with its quotes. It is kept without memory.
#[derive(Debug, Drop)]
pub struct Tag {
    bytes: [u8; 128],
    len: usize,
}

impl Model for Tag {
    ghost Value = { List ℕ };

    ghost view = { λ t. take t.len t.bytes };

    ghost invariant = { λ t. (t.len ≤ 128) × IsKept (take t.len t.bytes) };
}

impl Tag {
    /// The tag that the value is, if it is a strong one of at most 128 bytes.
    pub fn read(value: &[u8]) -> Option<Tag>
        ensures { MatchOption result (¬ (IsKept value.now))
            (λ tag. (tag ≡ value.now) × IsKept value.now) }
    {
        if !is_opaque(value) || value.len() > TAG_MAX {
            return None;
        }
        let mut bytes = [0; TAG_MAX];
        for (i, byte) in value.iter().enumerate() {
            bytes[i] = *byte;
        }
        Some(Tag {
            bytes,
            len: value.len(),
        })
    }

    /// The tag with its quotes.
    pub fn as_slice(&self) -> &[u8]
        ensures value { result.now ≡ self.now }
        ensures kept { IsKept result.now }
    {
        &self.bytes[..self.len]
    }

    /// The same tag again.
    pub fn copy(&self) -> Tag
        ensures { result ≡ self.now }
    {
        Tag {
            bytes: self.bytes,
            len: self.len,
        }
    }

    /// Whether both are the same tag.
    pub fn same(&self, other: &Tag) -> bool
        ensures { IsTrue result ↔ (self.now ≡ other.now) }
    {
        self.as_slice() == other.as_slice()
    }
}

/// What is known of a file on a server: RFC 9110 sections 8.8 and 13.1.
#[derive(Debug, Drop)]
pub enum Seen {
    /// Nothing.
    Unknown,
    /// There is none.
    Absent,
    /// There is one, without a tag that can be kept.
    Untagged,
    /// There is one with this tag.
    Tagged(Tag),
}

impl Seen {
    /// The same again.
    pub fn copy(&self) -> Seen
        ensures { result ≡ self.now }
    {
        match self {
            Seen::Unknown => Seen::Unknown,
            Seen::Absent => Seen::Absent,
            Seen::Untagged => Seen::Untagged,
            Seen::Tagged(tag) => Seen::Tagged(tag.copy()),
        }
    }

    /// Whether both are the same.
    pub fn same(&self, other: &Seen) -> bool
        ensures { IsTrue result ↔ (self.now ≡ other.now) }
    {
        match (self, other) {
            (Seen::Tagged(tag), Seen::Tagged(found)) => tag.same(found),
            (Seen::Unknown, Seen::Unknown) => true,
            (Seen::Absent, Seen::Absent) => true,
            (Seen::Untagged, Seen::Untagged) => true,
            _ => false,
        }
    }
}
