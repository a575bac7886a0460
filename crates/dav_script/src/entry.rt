use crate::RowFault;
use crate::escapes::bytes_of;
use std::alloc::Global;

/// One entry of a row: a word, what stands behind it on its line, and the lines of its block.
#[derive(Drop)]
pub struct Entry {
    /// The number of its line, from 1.
    pub line: u32,
    /// Its first word.
    pub word: String,
    /// What stands behind the word and one blank.
    pub rest: Vec<u8>,
    /// The bytes of its block, if it has one: each line with a line feed, but where the line ends with a backslash.
    pub block: Option<Vec<u8>>,
}

impl Entry {
    /// What stands behind the word, as text.
    pub fn text(&self) -> Result<&str, RowFault> {
        match str::from_utf8(self.rest.as_slice()) {
            Ok(text) => Ok(text),
            Err(_) => Err(self.bad_value()),
        }
    }

    /// What stands behind the word, as a number.
    pub fn number(&self) -> Result<u64, RowFault> {
        match self.text()?.parse::<u64>() {
            Ok(number) => Ok(number),
            Err(_) => Err(self.bad_value()),
        }
    }

    /// The bytes of the block; none where there is no block.
    pub fn block_bytes(&self) -> &[u8] {
        match &self.block {
            Some(block) => block.as_slice(),
            None => &[],
        }
    }

    /// Its bytes: those of the block where it has one, else what stands behind the word.
    pub fn bytes(&self) -> &[u8] {
        match &self.block {
            Some(block) => block.as_slice(),
            None => self.rest.as_slice(),
        }
    }

    /// The fault of a word that is unknown, or stands in the wrong place.
    pub fn bad_word(&self) -> RowFault {
        RowFault::BadWord { line: self.line }
    }

    /// The fault of a value that is none.
    pub fn bad_value(&self) -> RowFault {
        RowFault::BadValue { line: self.line }
    }
}

/// An entry without a block.
fn entry_of(alloc: Global, text: &[u8], line: u32) -> Result<Entry, RowFault> {
    let end = text.iter().position(|b| *b == b' ').unwrap_or(text.len());
    let (word, rest) = match text.split_at_checked(end) {
        Some(parts) => parts,
        None => (text, text),
    };
    let Ok(word) = str::from_utf8(word) else {
        return Err(RowFault::BadWord { line });
    };
    let rest = rest.strip_prefix(b" ").unwrap_or(rest);
    Ok(Entry {
        line,
        word: String::from_str(alloc, word)?,
        rest: bytes_of(alloc, rest, line)?,
        block: None,
    })
}

/// Adds a line, behind its bar, to the block of the last entry.
fn add_to_block(
    alloc: Global,
    entries: &mut Vec<Entry>,
    text: &[u8],
    line: u32,
) -> Result<(), RowFault> {
    let Some(mut last) = entries.pop() else {
        return Err(RowFault::NoEntry { line });
    };
    let text = text.strip_prefix(b" ").unwrap_or(text);
    let mut block = last.block.take().unwrap_or(Vec::new(alloc));
    let slashes = text.iter().rev().take_while(|b| **b == b'\\').count();
    if slashes % 2 == 1 {
        let text = text.strip_suffix(b"\\").unwrap_or(text);
        block.extend_from_slice(bytes_of(alloc, text, line)?.as_slice())?;
    } else {
        block.extend_from_slice(bytes_of(alloc, text, line)?.as_slice())?;
        block.push(b'\n')?;
    }
    last.block = Some(block);
    entries.push(last)?;
    Ok(())
}

/// The entries of a text, in their order. A line that begins with `#` is a comment, and an empty line nothing; a line that begins
/// with `|` and a blank is one of the block of the entry before it.
pub fn entries_of(alloc: Global, text: &[u8]) -> Result<Vec<Entry>, RowFault> {
    let mut entries = Vec::new(alloc);
    let mut line = 0u32;
    for text in text.split(|b| *b == b'\n') {
        line = line.saturating_add(1);
        if text.is_empty() || text.starts_with(b"#") {
            continue;
        }
        match text.strip_prefix(b"|") {
            Some(more) => add_to_block(alloc, &mut entries, more, line)?,
            None => entries.push(entry_of(alloc, text, line)?)?,
        }
    }
    Ok(entries)
}
