ghost use Rattle.std.specs.Prelude.{◌≡◌, ◌≢◌, ◌∷◌, ◌++◌, ◌+◌, ◌<◌, ◌≤◌, ◌^◌, [], length, drop, MatchResult, MatchOption, IfOk, IsTrue, ◌↔◌};
ghost use Rattle.dav_text.specs.Path.{PathParts, IsPath, escaped};
ghost use Rattle.dav_index.specs.Records.{IsBare, IsBody, IsNoted, path_text, body_text, seen_text, four_bytes, eight_bytes};
ghost use Rattle.dav_index.specs.Faults.{named_path, entry_path, a_body, a_seen, a_number, a_byte, IsCutOff};
ghost use Rattle.dav_index.specs.Flawed.{IsFlawed};
ghost use Rattle.dav_index.specs.Reading.{Reads, IsTaken, sized, Begins, IsNumbered};

use crate::fault::RecordFault;
use crate::flaw::Flaw;
use dav_store::BodyId;
use dav_text::{Memory, Path, PathFault, Seen, Tag};
use std::alloc::Global;
use std::marker::Model;

/// The first file that may hold a body.
const FIRST_FILE: u32 = 2;

/// The bytes of a record that are left, and the offset at which they begin.
#[derive(Drop)]
pub(crate) struct Reader<'a> {
    rest: &'a [u8],
    at: usize,
}

impl<'a> Model for Reader<'a> {
    ghost use Rattle.std.specs.Prelude.{◌<◌, ◌+◌, ◌^◌, length};
    ghost use Rattle.dav_index.specs.Left.{Left};

    ghost Value = { Left };

    ghost view = { λ r. record { rest = r.rest.now; at = r.at } };

    ghost invariant = { λ r. length r.rest.now + r.at < 2 ^ 64 };
}

impl<'a> Reader<'a> {
    /// A reader of the bytes behind the first one.
    pub(crate) fn new(rest: &'a [u8]) -> Reader<'a>
        requires { length rest.now + 1 < 2 ^ 64 }
        ensures { result ≡ record { rest = rest.now; at = 1 } }
    {
        Reader { rest, at: 1 }
    }

    /// Reads a path that keeps its slash.
    pub(crate) fn named_path(&mut self, alloc: Global) -> Result<Path, RecordFault>
        ensures { Reads named_path IsPath path_text self.old self.new result }
    {
        let at = self.at;
        let text = self.sized()?;
        match path_of(alloc, text)? {
            Some(path) => Ok(path),
            None => Err(RecordFault::Field { at }),
        }
    }

    /// Reads a path as an entry keeps it.
    pub(crate) fn entry_path(&mut self, alloc: Global) -> Result<Path, RecordFault>
        ensures { Reads entry_path IsBare path_text self.old self.new result }
    {
        let at = self.at;
        let text = self.sized()?;
        match bare_path_of(alloc, text)? {
            Some(path) => Ok(path),
            None => Err(RecordFault::Field { at }),
        }
    }

    /// Reads a body.
    pub(crate) fn body(&mut self) -> Result<BodyId, RecordFault>
        ensures { Reads a_body IsBody body_text self.old self.new result }
    {
        let Some(body) = body_of(self.rest) else {
            return Err(RecordFault::Short);
        };
        if body.file < FIRST_FILE {
            return Err(RecordFault::Field { at: self.at });
        }
        self.skip(44);
        Ok(body)
    }

    /// Reads what is known of a file.
    pub(crate) fn seen(&mut self) -> Result<Seen, RecordFault>
        ensures { Reads a_seen IsNoted seen_text self.old self.new result }
    {
        match seen_of(self.rest) {
            Ok(seen) => {
                self.skip(seen_len(&seen));
                Ok(seen)
            }
            Err(Flaw::CutOff) => Err(RecordFault::Short),
            Err(Flaw::Wrong) => Err(RecordFault::Field { at: self.at }),
        }
    }

    /// Reads a number in four bytes, the highest first.
    pub(crate) fn number(&mut self) -> Result<u32, RecordFault>
        ensures { Reads a_number (λ n. n < 2 ^ 32) four_bytes self.old self.new result }
    {
        let Some(number) = number_of(self.rest) else {
            return Err(RecordFault::Short);
        };
        self.skip(4);
        Ok(number)
    }

    /// Reads a byte that is at most this number.
    pub(crate) fn byte(&mut self, most: u8) -> Result<u8, RecordFault>
        ensures { Reads (a_byte most) (λ b. b ≤ most) (λ b. b ∷ []) self.old self.new result }
    {
        let Some((byte, _)) = self.rest.split_first() else {
            return Err(RecordFault::Short);
        };
        let byte = *byte;
        if byte > most {
            return Err(RecordFault::Field { at: self.at });
        }
        self.skip(1);
        Ok(byte)
    }

    /// Nothing is left, or why the record has surplus bytes.
    pub(crate) fn end(&self) -> Result<(), RecordFault>
        ensures { MatchResult result (λ _. self.now.rest ≡ [])
            (λ f. (self.now.rest ≢ []) × (f ≡ RecordFault.Field self.now.at)) }
    {
        if self.rest.is_empty() {
            Ok(())
        } else {
            Err(RecordFault::Field { at: self.at })
        }
    }

    // Takes the bytes that stand behind their length in two bytes.
    fn sized(&mut self) -> Result<&'a [u8], RecordFault>
        ensures { MatchResult result (λ text. (length text.now < 65536) × IsTaken (sized text.now) self.old self.new)
            (λ f. (f ≡ RecordFault.Short) × IsCutOff named_path self.old.rest) }
    {
        let Some(text) = sized_of(self.rest) else {
            return Err(RecordFault::Short);
        };
        self.skip(2 + text.len());
        Ok(text)
    }

    // Passes over so many bytes.
    fn skip(&mut self, len: usize)
        requires { len ≤ length self.old.rest }
        ensures { self.new ≡ record { rest = drop len self.old.rest; at = self.old.at + len } }
    {
        self.rest = &self.rest[len..];
        self.at += len;
    }
}

// The bytes behind their length in two bytes.
fn sized_of(bytes: &[u8]) -> Option<&[u8]>
    ensures { MatchOption result (IsCutOff named_path bytes.now)
        (λ text. (length text.now < 65536) × Begins (sized text.now) bytes.now) }
{
    let Some((head, rest)) = bytes.split_first_chunk::<2>() else {
        return None;
    };
    let len = usize::from(u16::from_be_bytes(*head));
    if rest.len() < len {
        return None;
    }
    Some(&rest[..len])
}

// The path of which this is the text.
fn path_of(alloc: Global, text: &[u8]) -> Result<Option<Path>, Memory>
    ensures { IfOk result (λ found. MatchOption found
        ((path : PathParts) → IsPath path → escaped path ≡ text.now → ⊥)
        (λ path. IsPath path × (escaped path ≡ text.now))) }
{
    let Ok(name) = std::str::from_utf8(text) else {
        return Ok(None);
    };
    let path = match Path::read(alloc, name) {
        Ok(path) => path,
        Err(fault) => {
            if is_memory(&fault) {
                return Err(Memory);
            }
            return Ok(None);
        }
    };
    let mut written = Vec::new(alloc);
    path.escaped_into(&mut written)?;
    if written.as_slice() == text {
        Ok(Some(path))
    } else {
        Ok(None)
    }
}

fn is_memory(fault: &PathFault) -> bool
    ensures { IsTrue result ↔ (fault.now ≡ PathFault.Memory) }
{
    matches!(fault, PathFault::Memory)
}

// The path of which this is the text, if an entry can have it.
fn bare_path_of(alloc: Global, text: &[u8]) -> Result<Option<Path>, Memory>
    ensures { IfOk result (λ found. MatchOption found
        ((path : PathParts) → IsBare path → escaped path ≡ text.now → ⊥)
        (λ path. IsBare path × (escaped path ≡ text.now))) }
{
    let Some(path) = path_of(alloc, text)? else {
        return Ok(None);
    };
    if path.has_slash() && text.len() > 1 {
        return Ok(None);
    }
    Ok(Some(path))
}

// The number that stands in front in four bytes.
fn number_of(bytes: &[u8]) -> Option<u32>
    ensures { MatchOption result (length bytes.now < 4)
        (λ n. (n < 2 ^ 32) × Begins (four_bytes n) bytes.now) }
{
    let Some((number, _)) = bytes.split_first_chunk::<4>() else {
        return None;
    };
    Some(u32::from_be_bytes(*number))
}

// The body whose text stands in front.
fn body_of(bytes: &[u8]) -> Option<BodyId>
    ensures { MatchOption result (length bytes.now < 44)
        (λ body. IsNumbered body × Begins (body_text body) bytes.now) }
{
    let Some((file, rest)) = bytes.split_first_chunk::<4>() else {
        return None;
    };
    let Some((len, rest)) = rest.split_first_chunk::<8>() else {
        return None;
    };
    let Some((sum, _)) = rest.split_first_chunk::<32>() else {
        return None;
    };
    Some(BodyId {
        file: u32::from_be_bytes(*file),
        len: u64::from_be_bytes(*len),
        sum: *sum,
    })
}

// What the text in front says to be known of a file.
fn seen_of(bytes: &[u8]) -> Result<Seen, Flaw>
    ensures { MatchResult result
        (λ seen. IsNoted seen × Begins (seen_text seen) bytes.now)
        (λ flaw. IsFlawed a_seen bytes.now flaw) }
{
    let Some((mark, rest)) = bytes.split_first() else {
        return Err(Flaw::CutOff);
    };
    match *mark {
        1 => Ok(Seen::Absent),
        2 => Ok(Seen::Untagged),
        3 => match rest.split_first() {
            Some((len, rest)) => tagged_of(*len, rest),
            None => Err(Flaw::CutOff),
        },
        _ => Err(Flaw::Wrong),
    }
}

// What the tag of this length in front says to be known of a file.
fn tagged_of(len: u8, bytes: &[u8]) -> Result<Seen, Flaw>
    ensures { MatchResult result
        (λ seen. IsNoted seen × Begins (seen_text seen) (3 ∷ len ∷ bytes.now))
        (λ flaw. IsFlawed a_seen (3 ∷ len ∷ bytes.now) flaw) }
{
    let len = usize::from(len);
    if bytes.len() < len {
        return Err(Flaw::CutOff);
    }
    match Tag::read(&bytes[..len]) {
        Some(tag) => Ok(Seen::Tagged(tag)),
        None => Err(Flaw::Wrong),
    }
}

// How many bytes the text of this has.
fn seen_len(seen: &Seen) -> usize
    requires { IsNoted seen.now }
    ensures { result ≡ length (seen_text seen.now) }
{
    match seen {
        Seen::Tagged(tag) => 2 + tag.as_slice().len(),
        _ => 1,
    }
}
