use std::alloc::{AllocError, Global};

/// How many bytes of a text a difference shows.
const SHOWN: usize = 160;

/// Appends a byte as a row writes it.
fn show(byte: u8, out: &mut String) -> Result<(), AllocError> {
    match byte {
        b'\n' => out.push_str("\\n")?,
        b'\r' => out.push_str("\\r")?,
        b'\t' => out.push_str("\\t")?,
        b'\\' => out.push_str("\\\\")?,
        b' '..=b'~' => out.push(char::from(byte))?,
        _ => write!(out, "\\x{byte:02x}")?,
    }
    Ok(())
}

/// A text as a row writes it, up to a number of its bytes.
pub fn shown(alloc: Global, text: &[u8]) -> Result<String, AllocError> {
    let mut out = String::new(alloc);
    for byte in text.iter().take(SHOWN) {
        show(*byte, &mut out)?;
    }
    if text.len() > SHOWN {
        out.push_str("..")?;
    }
    Ok(out)
}

/// The first place at which two texts differ; the shorter one's length where it begins the other.
fn first_place(wanted: &[u8], found: &[u8]) -> usize {
    wanted
        .iter()
        .zip(found.iter())
        .take_while(|(w, f)| **w == **f)
        .count()
}

/// A text from a little before a place on.
fn from_before(text: &[u8], place: usize) -> &[u8] {
    match text.split_at_checked(place.saturating_sub(20)) {
        Some((_, rest)) => rest,
        None => &[],
    }
}

/// What differs of a part of a row, from a little before the first byte that does; none where nothing differs.
pub fn difference(
    alloc: Global,
    part: &str,
    wanted: &[u8],
    found: &[u8],
) -> Result<Option<String>, AllocError> {
    if wanted == found {
        return Ok(None);
    }
    let place = first_place(wanted, found);
    let wanted = shown(alloc, from_before(wanted, place))?;
    let found = shown(alloc, from_before(found, place))?;
    let text = format!(in alloc; "{part} at byte {place}: wanted \"{wanted}\", found \"{found}\"")?;
    Ok(Some(text))
}
