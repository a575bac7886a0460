ghost use Rattle.std.specs.Prelude.{◌≡◌, ◌↔◌, ◌++◌, OnOk, OnErr, IfOk, IsTrue};
ghost use Rattle.percent_encoding.specs.Percent.{percent_encode};
ghost use Rattle.dav_text.specs.Path.{PathParts, IsSame, IsUnder, IsParent, IsLonger, IsLongerByOne, escaped, escaped_parts, escaped_segments, BeginsWith};
ghost use Rattle.dav_text.specs.declared.sets.TheConstants.{ESCAPED};

use crate::memory::Memory;
use crate::sets::ESCAPED;
use crate::text::Text;
use percent_encoding::percent_encode_byte;
use std::alloc::Global;
use std::marker::Model;

/// A path on a server: its decoded segments, and whether it ends with a slash.
#[derive(Debug, Drop)]
pub struct Path {
    pub(crate) segments: Vec<Text>,
    pub(crate) slash: bool,
}

impl Model for Path {
    ghost Value = { PathParts };

    ghost view = { λ p. record { segments = p.segments.items; slash = p.slash } };
}

impl Path {
    /// Whether both have the same segments. A slash at the end does not count.
    pub fn same(&self, other: &Path) -> bool
        ensures { IsTrue result ↔ IsSame self.now other.now }
    {
        same_segments(self.segments.as_slice(), other.segments.as_slice())
    }

    /// Whether the path stands strictly below the top.
    pub fn is_under(&self, top: &Path) -> bool
        ensures { IsTrue result ↔ IsUnder self.now top.now }
    {
        is_longer(self.segments.as_slice(), top.segments.as_slice())
    }

    /// Whether the other path stands right below this one.
    pub fn is_parent_of(&self, other: &Path) -> bool
        ensures { IsTrue result ↔ IsParent self.now other.now }
    {
        is_longer_by_one(other.segments.as_slice(), self.segments.as_slice())
    }

    /// Writes the path's text at the end of `out`, as a request has it.
    pub fn escaped_into(&self, out: &mut Vec<u8>) -> Result<(), Memory>
        ensures ok { OnOk result (out.new.items ≡ out.old.items ++ escaped self.now) }
        ensures err { OnErr result (out.new.items ≡ out.old.items) }
    {
        let before = out.len();
        match append_path(self.segments.as_slice(), self.slash, out) {
            Ok(()) => Ok(()),
            Err(memory) => {
                out.truncate(before);
                Err(memory)
            }
        }
    }

    /// The path's text, as a request has it.
    pub fn escaped(&self, alloc: Global) -> Result<Text, Memory>
        ensures { IfOk result (λ text. text ≡ escaped self.now) }
    {
        let mut bytes = Vec::new(alloc);
        self.escaped_into(&mut bytes)?;
        match String::from_utf8(bytes) {
            Ok(text) => Ok(Text::from_string(text)),
            Err(_) => unreachable!(),
        }
    }

    /// Another value of the same path.
    pub fn copy(&self, alloc: Global) -> Result<Path, Memory>
        ensures { IfOk result (λ p. p ≡ self.now) }
    {
        let segments = copy_segments(alloc, self.segments.as_slice())?;
        Ok(Path {
            segments,
            slash: self.slash,
        })
    }
}

// Whether both are the same segments.
fn same_segments(left: &[Text], right: &[Text]) -> bool
    ensures { IsTrue result ↔ (left.now ≡ right.now) }
{
    if left.len() != right.len() {
        return false;
    }
    for (i, segment) in left.iter().enumerate() {
        if !segment.same(&right[i]) {
            return false;
        }
    }
    true
}

// Whether the segments are those of the top, and at least one more.
fn is_longer(segments: &[Text], top: &[Text]) -> bool
    ensures { IsTrue result ↔ IsLonger segments.now top.now }
{
    top.len() < segments.len() && same_segments(&segments[..top.len()], top)
}

// Whether the segments are those above, and one more.
fn is_longer_by_one(segments: &[Text], above: &[Text]) -> bool
    ensures { IsTrue result ↔ IsLongerByOne segments.now above.now }
{
    match segments.split_last() {
        Some((_, front)) => same_segments(front, above),
        None => false,
    }
}

// The same segments again.
fn copy_segments(alloc: Global, segments: &[Text]) -> Result<Vec<Text>, Memory>
    ensures { IfOk result (λ copies. copies.items ≡ segments.now) }
{
    let mut copies = Vec::new(alloc);
    for segment in segments {
        let copy = segment.copy(alloc)?;
        copies.push(copy)?;
    }
    Ok(copies)
}

// Writes the text of a path. On an error a part of it may stand behind what was there.
fn append_path(segments: &[Text], slash: bool, out: &mut Vec<u8>) -> Result<(), Memory>
    ensures ok { OnOk result (out.new.items ≡ out.old.items ++ escaped_parts segments.now slash) }
    ensures err { OnErr result (BeginsWith out.old.items out.new.items) }
{
    if segments.is_empty() {
        out.push(b'/')?;
        return Ok(());
    }
    append_segments(segments, out)?;
    if slash {
        out.push(b'/')?;
    }
    Ok(())
}

// Writes each segment after a slash. On an error a part may stand behind what was there.
fn append_segments(segments: &[Text], out: &mut Vec<u8>) -> Result<(), Memory>
    ensures ok { OnOk result (out.new.items ≡ out.old.items ++ escaped_segments segments.now) }
    ensures err { OnErr result (BeginsWith out.old.items out.new.items) }
{
    for segment in segments {
        out.push(b'/')?;
        append_escaped(segment.as_bytes(), out)?;
    }
    Ok(())
}

// Writes the bytes of a segment, escaped. On an error a part may stand behind what was there.
fn append_escaped(segment: &[u8], out: &mut Vec<u8>) -> Result<(), Memory>
    ensures ok { OnOk result (out.new.items ≡ out.old.items ++ percent_encode ESCAPED segment.now) }
    ensures err { OnErr result (BeginsWith out.old.items out.new.items) }
{
    for byte in segment {
        if ESCAPED.should_percent_encode(*byte) {
            out.extend_from_slice(percent_encode_byte(*byte).as_bytes())?;
        } else {
            out.push(*byte)?;
        }
    }
    Ok(())
}
