ghost use Rattle.std.specs.Prelude.{◌≡◌, ◌≤◌, true, false, List, [], ◌∷◌, length, take, drop, is_ok, IfOk, MatchResult};
ghost use Rattle.dav_disk.specs.Events.{Event, measured, gave, wrote, shortened, flushed};

use crate::Failed;

/// What is asked of a real folder of numbered files: that each device call is recorded with its answer, whatever that is.
pub trait Calls {
    /// Each call so far with its answer, the newest first.
    ghost history: { Self → List Event };

    /// Asks for the length of a file.
    fn size(&mut self, file: u32) -> Result<u64, Failed>
        ensures { MatchResult result
            (λ n. history self.new ≡ measured file true n ∷ history self.old)
            (λ _. history self.new ≡ measured file false 0 ∷ history self.old) };

    /// Asks for bytes from a place on, and leaves those of the buffer behind them.
    fn read(&mut self, file: u32, at: u64, buf: &mut [u8]) -> Result<usize, Failed>
        ensures within { IfOk result (λ n. n ≤ length buf.old) }
        ensures rest { IfOk result (λ n. drop n buf.new ≡ drop n buf.old) }
        ensures noted { MatchResult result
            (λ n. history self.new ≡ gave file at (length buf.old) true (take n buf.new) ∷ history self.old)
            (λ _. history self.new ≡ gave file at (length buf.old) false [] ∷ history self.old) };

    /// Asks that all these bytes are written at a place.
    fn write_at(&mut self, file: u32, at: u64, bytes: &[u8]) -> Result<(), Failed>
        ensures { history self.new ≡ wrote file at (is_ok result) bytes.now ∷ history self.old };

    /// Asks that a file is cut to a length.
    fn cut(&mut self, file: u32, len: u64) -> Result<(), Failed>
        ensures { history self.new ≡ shortened file len (is_ok result) ∷ history self.old };

    /// Asks that a file is settled.
    fn sync(&mut self, file: u32) -> Result<(), Failed>
        ensures { history self.new ≡ flushed file (is_ok result) ∷ history self.old };
}
