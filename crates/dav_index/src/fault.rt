use dav_text::Memory;
use std::error::Error;
use std::fmt;

/// Why a payload is no record.
#[derive(Clone, Copy, Debug, PartialEq, Eq)]
pub enum RecordFault {
    /// It ends inside a field.
    Short,
    /// No kind of record begins with this byte.
    Kind {
        /// The first byte.
        byte: u8,
    },
    /// A field has a value that it can't have, or more bytes follow the last field.
    Field {
        /// Where that field, or the first such byte, begins.
        at: usize,
    },
    /// Want of memory.
    Memory,
}

impl fmt::Display for RecordFault {
    fn fmt<W: fmt::Write>(&self, f: &mut fmt::Formatter<W>) -> fmt::Result {
        match self {
            RecordFault::Short => f.write_str("a record that ends inside a field"),
            RecordFault::Kind { byte } => write!(f, "no record begins with the byte {byte}"),
            RecordFault::Field { at } => write!(f, "a bad field at byte {at} of a record"),
            RecordFault::Memory => f.write_str("out of memory"),
        }
    }
}

impl Error for RecordFault {}

impl From<Memory> for RecordFault {
    ghost use Rattle.std.specs.Prelude.{◌≡◌};
    ghost use Rattle.dav_index.specs.declared.fault.RecordFault.TheVariants as fault;

    ghost from_gives = { λ _ e. e ≡ fault.Memory };

    fn from(_memory: Memory) -> RecordFault {
        RecordFault::Memory
    }
}
