use crate::RowFault;
use std::alloc::Global;

/// What an escape stands for.
#[derive(Clone, Copy)]
enum Escape<'a> {
    /// A byte.
    Byte(u8),
    /// A text, so many times.
    Times(usize, &'a [u8]),
}

/// The value of a hexadecimal digit.
fn digit_of(byte: u8) -> Option<u8> {
    match byte {
        b'0'..=b'9' => Some(byte - b'0'),
        b'a'..=b'f' => Some(byte - b'a' + 10),
        b'A'..=b'F' => Some(byte - b'A' + 10),
        _ => None,
    }
}

/// The byte that two hexadecimal digits in front of a text stand for, and what follows them.
fn hex_byte(text: &[u8]) -> Option<(Escape<'_>, &[u8])> {
    let (first, rest) = text.split_first()?;
    let (second, rest) = rest.split_first()?;
    let high = digit_of(*first)?;
    let low = digit_of(*second)?;
    Some((Escape::Byte((high & 15) * 16 + (low & 15)), rest))
}

/// A repetition `COUNT{TEXT}` in front of a text, and what follows it.
fn repetition(text: &[u8]) -> Option<(Escape<'_>, &[u8])> {
    let opening = text.iter().position(|b| *b == b'{')?;
    let (count, rest) = text.split_at_checked(opening)?;
    let count = str::from_utf8(count).ok()?.parse::<usize>().ok()?;
    let rest = rest.strip_prefix(b"{")?;
    let closing = rest.iter().position(|b| *b == b'}')?;
    let (inner, rest) = rest.split_at_checked(closing)?;
    let rest = rest.strip_prefix(b"}")?;
    Some((Escape::Times(count, inner), rest))
}

/// The escape behind a backslash, and what follows it.
fn escape_before(text: &[u8]) -> Option<(Escape<'_>, &[u8])> {
    let (kind, rest) = text.split_first()?;
    match *kind {
        b'n' => Some((Escape::Byte(b'\n'), rest)),
        b'r' => Some((Escape::Byte(b'\r'), rest)),
        b't' => Some((Escape::Byte(b'\t'), rest)),
        b'\\' => Some((Escape::Byte(b'\\'), rest)),
        b'x' => hex_byte(rest),
        b'*' => repetition(rest),
        _ => None,
    }
}

/// The bytes of a text in which no repetition stands.
fn plain_bytes(alloc: Global, text: &[u8], line: u32) -> Result<Vec<u8>, RowFault> {
    let mut out = Vec::new(alloc);
    let mut rest = text;
    for _ in 0..text.len() {
        let Some((first, more)) = rest.split_first() else {
            break;
        };
        rest = more;
        if *first != b'\\' {
            out.push(*first)?;
            continue;
        }
        let Some((Escape::Byte(byte), behind)) = escape_before(more) else {
            return Err(RowFault::BadEscape { line });
        };
        out.push(byte)?;
        rest = behind;
    }
    Ok(out)
}

/// Appends what an escape stands for.
fn append(
    alloc: Global,
    escape: &Escape<'_>,
    line: u32,
    out: &mut Vec<u8>,
) -> Result<(), RowFault> {
    match escape {
        Escape::Byte(byte) => out.push(*byte)?,
        Escape::Times(count, text) => {
            let once = plain_bytes(alloc, text, line)?;
            for _ in 0..*count {
                out.extend_from_slice(once.as_slice())?;
            }
        }
    }
    Ok(())
}

/// The bytes that a text of this line stands for: `\n`, `\r`, `\t`, `\\` and `\xHH` are bytes, and `\*COUNT{TEXT}` is a text so
/// many times, in which the other escapes may stand.
pub fn bytes_of(alloc: Global, text: &[u8], line: u32) -> Result<Vec<u8>, RowFault> {
    let mut out = Vec::new(alloc);
    let mut rest = text;
    for _ in 0..text.len() {
        let Some((first, more)) = rest.split_first() else {
            break;
        };
        rest = more;
        if *first != b'\\' {
            out.push(*first)?;
            continue;
        }
        let Some((meant, behind)) = escape_before(more) else {
            return Err(RowFault::BadEscape { line });
        };
        append(alloc, &meant, line, &mut out)?;
        rest = behind;
    }
    Ok(out)
}
