/// A device call and whether it went, as it is noted. The bytes that a read gave, or that a write was given, stand beside it.
#[derive(Clone, Copy, Debug, PartialEq, Eq)]
pub enum Note {
    Size {
        file: u32,
        went: bool,
        size: u64,
    },
    Read {
        file: u32,
        at: u64,
        room: usize,
        went: bool,
    },
    Write {
        file: u32,
        at: u64,
        went: bool,
    },
    Cut {
        file: u32,
        len: u64,
        went: bool,
    },
    Sync {
        file: u32,
        went: bool,
    },
}
