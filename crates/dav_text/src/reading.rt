ghost use Rattle.std.specs.Prelude.{◌≡◌, ◌≢◌, ◌∷◌, ◌+◌, ◌<◌, ◌^◌, [], ℕ, min, length, map, Bool, true, false, Ok, Err, Some, None, OnOk, MatchResult, MatchOption, IfSome};
ghost use Rattle.std.specs.Str.{is_utf8, IsUtf8};
ghost use Rattle.percent_encoding.specs.Percent.{percent_decode, percent_encode};
ghost use Rattle.dav_text.specs.Path.{escaped, escaped_segments};
ghost use Rattle.dav_text.specs.declared.sets.TheConstants.{ESCAPED};
ghost use Rattle.percent_encoding.specs.Percent.{encode_byte};
ghost use Rattle.dav_text.specs.Reading.{top_path, parts_of, with_part, folded, bad_escape_from, is_bad_escape, not_text_from, fitting, path_of, typed_of, has_two_digits as has_two_digits_lem};

use crate::fault::PathFault;
use crate::memory::Memory;
use crate::path::Path;
use crate::sets::ESCAPED;
use crate::text::Text;
use percent_encoding::{DecodeError, percent_decode};
use std::alloc::Global;

// How many bytes the escaped text of a path may have.
const PATH_MAX: usize = 1024;

impl Path {
    /// Reads an escaped path of a URL. Each part between slashes is decoded; then empty parts and
    /// dots are dropped, and two dots take the segment before them away.
    pub fn read(alloc: Global, text: &str) -> Result<Path, PathFault>
        ensures { MatchResult result (λ p. path_of text.now ≡ Ok p)
            (λ f. f ≢ PathFault.Memory → path_of text.now ≡ Err f) }
    {
        let Some(parts) = text.strip_prefix('/') else {
            return Err(PathFault::NotRooted);
        };
        if let Some(at) = bad_escape(text.as_bytes()) {
            return Err(PathFault::BadEscape { at });
        }
        let mut path = Path::top(alloc);
        path.read_parts(alloc, parts)?;
        path.fitting()
    }

    /// Reads a word as it is typed, without decoding: from the top where it begins with a slash,
    /// else below the path `here`.
    pub fn typed(alloc: Global, here: &Path, word: &str) -> Result<Path, PathFault>
        ensures { MatchResult result (λ p. typed_of here.now word.now ≡ Ok p)
            (λ f. f ≢ PathFault.Memory → typed_of here.now word.now ≡ Err f) }
    {
        if let Some(parts) = word.strip_prefix('/') {
            let mut path = Path::top(alloc);
            path.add_parts(alloc, parts)?;
            path.fitting()
        } else {
            let mut path = here.copy(alloc)?;
            path.add_parts(alloc, word)?;
            path.fitting()
        }
    }

    /// The path without segments.
    pub fn top(alloc: Global) -> Path
        ensures { result ≡ top_path }
    {
        Path {
            segments: Vec::new(alloc),
            slash: true,
        }
    }

    /// Whether a slash stands at the end.
    pub fn has_slash(&self) -> bool
        ensures { result ≡ self.now.slash }
    {
        self.slash
    }

    // Decodes the parts of the text, and folds them in. The text stands behind the leading slash.
    fn read_parts(&mut self, alloc: Global, text: &str) -> Result<(), PathFault>
        requires { length text.now + 1 < 2 ^ 64 }
        ensures { MatchResult result
            (λ _. (not_text_from 1 (parts_of text.now) ≡ None)
            × (self.new ≡ folded self.old (map percent_decode (parts_of text.now))))
            (λ f. f ≢ PathFault.Memory
            → (at : ℕ) × (f ≡ PathFault.NotText at) × (not_text_from 1 (parts_of text.now) ≡ Some at)) }
    {
        let mut at = 1;
        let mut rest = text;
        'parts: loop {
            let (part, after) = first_part(rest);
            if let Err(fault) = self.read_part(alloc, at, part) {
                return Err(fault);
            }
            match after {
                Some(after) => {
                    at += part.len() + 1;
                    rest = after;
                }
                None => return Ok(()),
            }
        }
    }

    // Decodes a part that begins at this place, and folds it in.
    fn read_part(&mut self, alloc: Global, at: usize, part: &str) -> Result<(), PathFault>
        ensures { MatchResult result
            (λ _. (is_utf8 (percent_decode part.now) ≡ true)
            × (self.new ≡ with_part self.old (percent_decode part.now)))
            (λ f. f ≢ PathFault.Memory
            → (is_utf8 (percent_decode part.now) ≡ false) × (f ≡ PathFault.NotText at)) }
    {
        let text = match percent_decode(part.as_bytes()).decode_utf8(alloc) {
            Ok(text) => text.into_owned(alloc),
            Err(DecodeError::OutOfMemory) => return Err(PathFault::Memory),
            Err(DecodeError::Utf8(_)) => return Err(PathFault::NotText { at }),
        };
        match text {
            Ok(text) => Ok(self.add(Text::from_string(text))?),
            Err(_) => Err(PathFault::Memory),
        }
    }

    // Folds the parts of the text in as they stand.
    fn add_parts(&mut self, alloc: Global, text: &str) -> Result<(), Memory>
        ensures { OnOk result (self.new ≡ folded self.old (parts_of text.now)) }
    {
        let mut rest = text;
        'parts: loop {
            let (part, after) = first_part(rest);
            self.add(Text::copy_of(alloc, part)?)?;
            match after {
                Some(after) => rest = after,
                None => return Ok(()),
            }
        }
    }

    // Folds a decoded part in.
    fn add(&mut self, part: Text) -> Result<(), Memory>
        ensures { OnOk result (self.new ≡ with_part self.old part) }
    {
        if part.is_empty() || part.as_bytes() == b".".as_slice() {
            self.slash = true;
        } else if part.as_bytes() == b"..".as_slice() {
            self.segments.pop();
            self.slash = true;
        } else {
            self.segments.push(part)?;
            self.slash = false;
        }
        Ok(())
    }

    // The path, where its escaped text isn't too long.
    fn fitting(self) -> Result<Path, PathFault>
        ensures { result ≡ fitting self }
    {
        let len = self.escaped_len();
        if len <= PATH_MAX {
            Ok(self)
        } else {
            Err(PathFault::TooLong { len })
        }
    }

    // How many bytes the escaped text has, up to the greatest number.
    fn escaped_len(&self) -> usize
        ensures { result ≡ min (length (escaped self.now)) 18446744073709551615 }
    {
        let len = segments_len(self.segments.as_slice());
        if self.slash {
            len.saturating_add(1)
        } else if self.segments.is_empty() {
            1
        } else {
            len
        }
    }
}

// How many bytes the escaped segments have, each after a slash, up to the greatest number.
fn segments_len(segments: &[Text]) -> usize
    ensures { result ≡ min (length (escaped_segments segments.now)) 18446744073709551615 }
{
    let mut len: usize = 0;
    for segment in segments {
        len = len
            .saturating_add(1)
            .saturating_add(escaped_len(segment.as_bytes()));
    }
    len
}

// How many bytes the escaped segment has, up to the greatest number.
fn escaped_len(segment: &[u8]) -> usize
    ensures { result ≡ min (length (percent_encode ESCAPED segment.now)) 18446744073709551615 }
{
    let mut len: usize = 0;
    for byte in segment {
        len = len.saturating_add(escaped_byte_len(*byte));
    }
    len
}

// How many bytes the escaped byte has.
fn escaped_byte_len(byte: u8) -> usize
    ensures { result ≡ length (encode_byte ESCAPED byte) }
{
    if ESCAPED.should_percent_encode(byte) {
        3
    } else {
        1
    }
}

// The first part, and what stands behind its slash.
fn first_part(text: &str) -> (&str, Option<&str>)
    ensures parts { MatchOption result.1 (parts_of text.now ≡ result.0.now ∷ [])
        (λ after. parts_of text.now ≡ result.0.now ∷ parts_of after.now) }
    ensures len { MatchOption result.1 (length text.now ≡ length result.0.now)
        (λ after. length text.now ≡ length result.0.now + 1 + length after.now) }
    ensures utf8 { IfSome result.1 (λ after. IsUtf8 after.now) }
{
    match text.split_once('/') {
        Some((part, after)) => (part, Some(after)),
        None => (text, None),
    }
}

// The place of the first `%` without two hexadecimal digits behind it.
fn bad_escape(bytes: &[u8]) -> Option<usize>
    ensures { result ≡ bad_escape_from 0 bytes.now }
{
    for (at, byte) in bytes.iter().enumerate() {
        if is_bad_escape(*byte, &bytes[at + 1..]) {
            return Some(at);
        }
    }
    None
}

// Whether the byte is a `%` that two hexadecimal digits are not behind.
fn is_bad_escape(byte: u8, behind: &[u8]) -> bool
    ensures { result ≡ is_bad_escape byte behind.now }
{
    byte == b'%' && !has_two_digits(behind)
}

// Whether two hexadecimal digits stand in front.
fn has_two_digits(bytes: &[u8]) -> bool
    ensures { result ≡ has_two_digits_lem bytes.now }
{
    match bytes {
        [high, low, ..] => high.is_ascii_hexdigit() && low.is_ascii_hexdigit(),
        _ => false,
    }
}
