ghost use Rattle.std.specs.Prelude.{◌≡◌};
ghost use Rattle.dav_walk.specs.Reading.{trimmed as trimmed_lem, after_word as after_word_lem, ends_code as ends_code_lem, code_by as code_by_lem, code_in as code_in_lem, spaced_code as spaced_code_lem, versioned_code as versioned_code_lem, code_of as code_of_lem};

use dav_text::{Blanks, number_of};

/// The text without blanks at its ends.
pub(crate) fn trimmed(text: &[u8]) -> &[u8]
    ensures { result.now ≡ trimmed_lem text.now }
{
    Blanks::Document.trimmed(text)
}

/// What follows the bytes before the first blank.
fn after_word(text: &[u8]) -> &[u8]
    ensures { result.now ≡ after_word_lem text.now }
{
    let mut rest = text;
    while let Some((first, others)) = rest.split_first() {
        if Blanks::Document.has(*first) {
            return rest;
        }
        rest = others;
    }
    rest
}

fn ends_code(rest: &[u8]) -> bool
    ensures { result ≡ ends_code_lem rest.now }
{
    match rest.split_first() {
        None => true,
        Some((first, _)) => *first == b' ',
    }
}

/// The number of three digits, where `rest` follows them.
fn code_by(hundreds: u8, tens: u8, ones: u8, rest: &[u8]) -> Option<u16>
    ensures { result ≡ code_by_lem hundreds tens ones rest.now }
{
    if !ends_code(rest) {
        return None;
    }
    let number = number_of(&[hundreds, tens, ones], 3)?;
    Some(number as u16)
}

/// The number of three digits and then the end or a space.
fn code_in(text: &[u8]) -> Option<u16>
    ensures { result ≡ code_in_lem text.now }
{
    match text {
        [hundreds, tens, ones, rest @ ..] => code_by(*hundreds, *tens, *ones, rest),
        _ => None,
    }
}

/// The code after a space.
fn spaced_code(text: &[u8]) -> Option<u16>
    ensures { result ≡ spaced_code_lem text.now }
{
    let (first, rest) = text.split_first()?;
    if *first != b' ' {
        return None;
    }
    code_in(rest)
}

/// The code after a version and a space.
fn versioned_code(text: &[u8]) -> Option<u16>
    ensures { result ≡ versioned_code_lem text.now }
{
    let (first, rest) = text.split_first()?;
    if Blanks::Document.has(*first) {
        return None;
    }
    spaced_code(after_word(rest))
}

/// The code of a text that is a status line between blanks: RFC 9112 section 4.
pub(crate) fn code_of(text: &[u8]) -> Option<u16>
    ensures { result ≡ code_of_lem text.now }
{
    match trimmed(text).strip_prefix(b"HTTP/") {
        Some(rest) => versioned_code(rest),
        None => None,
    }
}
