ghost use Rattle.std.specs.Prelude.{◌≡◌};
ghost use Rattle.dav_locks.specs.Timeouts.{first_element as first_element_lem, seconds_of as seconds_of_lem, timeout_of as timeout_of_lem};

use dav_text::{Blanks, number_of};

/// How long a lock is granted, by the text of its timeout: Some(None) without end, and None where the text
/// is no such timeout. Of a list the first counts: RFC 4918 section 10.7.
pub fn timeout_of(text: &[u8]) -> Option<Option<u32>>
    ensures { result ≡ timeout_of_lem text.now }
{
    let first = Blanks::Document.trimmed(first_element(text));
    if first.eq_ignore_ascii_case(b"Infinite") {
        return Some(None);
    }
    match seconds_of(first) {
        Some(seconds) => Some(Some(seconds)),
        None => None,
    }
}

// The text up to its first comma.
fn first_element(text: &[u8]) -> &[u8]
    ensures { result.now ≡ first_element_lem text.now }
{
    for (place, byte) in text.iter().enumerate() {
        if *byte == b',' {
            return &text[..place];
        }
    }
    text
}

// The seconds of a `Second-` with 1 to 10 digits, up to the greatest number of 32 bits.
fn seconds_of(text: &[u8]) -> Option<u32>
    ensures { result ≡ seconds_of_lem text.now }
{
    if text.len() < 7 || !text[..7].eq_ignore_ascii_case(b"Second-") {
        return None;
    }
    let seconds = number_of(&text[7..], 10)?;
    if seconds > 4_294_967_295 {
        return None;
    }
    Some(seconds as u32)
}
