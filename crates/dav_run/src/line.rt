ghost use Rattle.std.specs.Prelude.{IfOk, MatchOption, IsTrue, ◌↔◌};
ghost use Rattle.std.specs.Prelude.{◌≡◌};
ghost use Rattle.dav_text.specs.Path.{PathParts, IsPath};
ghost use Rattle.dav_run.specs.Line.{IsPut, IsNoPut, IsFileWord, IsArgument, IsPlain, IsUnbroken, IsFirstBlank, IsSplit, is_bare};

use dav_text::{Blob, Memory, Path, PathFault};
use std::alloc::Global;
use std::str;

// How many bytes of a line are too many for a command.
const LINE_MAX: usize = 65_536;

/// A store that a line asks for.
#[derive(Drop)]
pub struct Put {
    pub path: Path,
    pub bytes: Blob,
}

/// The store that the line asks for at the current path, where it is `fput`, a path of a file and printable characters.
pub fn read_put(alloc: Global, current: &Path, line: &[u8]) -> Result<Option<Put>, Memory>
    requires { IsPath current.now }
    ensures { IfOk result (λ put. MatchOption put (IsNoPut current.now line.now) (λ p. IsPut current.now line.now p.path p.bytes × IsPath p.path)) }
{
    if line.len() >= LINE_MAX {
        return Ok(None);
    }
    let Some((target, bytes)) = put_words(line) else {
        return Ok(None);
    };
    let Some(path) = file_word(alloc, current, target)? else {
        return Ok(None);
    };
    let Ok(bytes) = Blob::copy_of(alloc, bytes) else {
        return Err(Memory);
    };
    Ok(Some(Put { path, bytes }))
}

/// The path of a file that the word is at the current path, if it is one.
fn file_word(alloc: Global, current: &Path, word: &str) -> Result<Option<Path>, Memory>
    requires { IsPath current.now }
    ensures { IfOk result (λ path. MatchOption path ((p : PathParts) → ¬ (IsFileWord current.now word.now p)) (λ p. IsFileWord current.now word.now p × IsPath p)) }
{
    if !is_bare(word.as_bytes()) {
        return Ok(None);
    }
    match Path::typed(alloc, current, word) {
        Ok(path) if !path.has_slash() => Ok(Some(path)),
        Ok(_) => Ok(None),
        Err(PathFault::NotRooted) => Ok(None),
        Err(PathFault::BadEscape { .. }) => Ok(None),
        Err(PathFault::NotText { .. }) => Ok(None),
        Err(PathFault::TooLong { .. }) => Ok(None),
        Err(PathFault::Memory) => Err(Memory),
    }
}

/// Whether neither a tab nor a double quote is among the bytes.
fn is_bare(bytes: &[u8]) -> bool
    ensures { result ≡ is_bare bytes.now }
{
    bytes.iter().all(|b| !(*b == b'\t' || *b == b'"'))
}

/// The two words after `fput`, where the second is one that can be stored.
fn put_words(line: &[u8]) -> Option<(&str, &[u8])>
    ensures { MatchOption result ((current : PathParts) → IsNoPut current line.now)
        (λ words. IsSplit line.now words.0.now words.1.now) }
{
    let Some(words) = line.strip_prefix(b"fput ") else {
        return None;
    };
    let Some(blank) = first_blank(words) else {
        return None;
    };
    let bytes = &words[blank + 1..];
    if !is_argument(bytes) {
        return None;
    }
    match str::from_utf8(&words[..blank]) {
        Ok(target) => Some((target, bytes)),
        Err(_) => None,
    }
}

/// The place of the first blank.
fn first_blank(bytes: &[u8]) -> Option<usize>
    ensures { MatchOption result (IsUnbroken bytes.now) (IsFirstBlank bytes.now) }
{
    for (at, byte) in bytes.iter().enumerate() {
        if *byte == b' ' {
            return Some(at);
        }
    }
    None
}

fn is_argument(bytes: &[u8]) -> bool
    ensures { IsTrue result ↔ IsArgument bytes.now }
{
    !bytes.is_empty() && bytes.len() <= 60_000 && bytes.iter().all(|b| is_plain(*b))
}

fn is_plain(byte: u8) -> bool
    ensures { IsTrue result ↔ IsPlain byte }
{
    matches!(byte, 33..=126) && byte != b'"'
}
