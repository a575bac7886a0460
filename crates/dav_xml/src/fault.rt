use dav_text::{Memory, Which};
use std::error::Error;
use std::fmt;

/// Why a text is not read as a document.
#[derive(Clone, Copy, Debug, PartialEq, Eq)]
pub enum XmlFault {
    /// No document goes on with the byte at this place. The first byte of the text is at 0.
    Bad { at: u64 },
    /// The text is over, and no whole document.
    Cut,
    /// The text passes a limit: 32 levels, 64 attributes of an element, or 65,536 bytes of a tag.
    Limit { which: Which },
    /// Want of memory.
    Memory,
}
