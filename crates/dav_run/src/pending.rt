ghost use Rattle.std.specs.Prelude.{◌≡◌, ◌∷◌, [], ◌++◌, ◌↔◌, ℕ, List, IsTrue};
ghost use Rattle.dav_run.specs.Pending.{Holds};

use std::alloc::Global;

/// How many bytes of a line are kept. No command is longer.
const LINE_LIMIT: usize = 65_536;

/// Whether the bytes of a line are all kept.
#[derive(Clone, Copy, Debug, PartialEq, Eq)]
pub enum Fits {
    Whole,
    TooLong,
    NoMemory,
}

/// The bytes of a line that has begun.
#[derive(Drop)]
pub struct Pending {
    pub bytes: Vec<u8>,
    pub fits: Fits,
}

impl Pending {
    /// No byte yet.
    pub fn new(alloc: Global) -> Pending
        ensures { Holds result [] }
    {
        Pending {
            bytes: Vec::new(alloc),
            fits: Fits::Whole,
        }
    }

    /// Whether the line has no byte.
    pub fn is_empty(&self) -> bool
        ensures { (line : List ℕ) → Holds self.now line → (IsTrue result ↔ (line ≡ [])) }
    {
        self.fits == Fits::Whole && self.bytes.is_empty()
    }

    /// One more byte of the line.
    pub fn push(&mut self, byte: u8)
        ensures { (line : List ℕ) → Holds self.old line → Holds self.new (line ++ byte ∷ []) }
    {
        if self.fits != Fits::Whole {
            return;
        }
        if self.bytes.len() >= LINE_LIMIT {
            self.fits = Fits::TooLong;
            return;
        }
        let Ok(()) = self.bytes.push(byte) else {
            self.fits = Fits::NoMemory;
            return;
        };
    }

    /// The line is over, and the next begins.
    pub fn clear(&mut self)
        ensures { Holds self.new [] }
    {
        self.bytes.clear();
        self.fits = Fits::Whole;
    }
}
