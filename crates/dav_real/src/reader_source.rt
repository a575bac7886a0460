ghost use Rattle.std.specs.Prelude.{◌≡◌, ◌<◌, ◌≤◌, [], ◌∷◌, None, IfOk, length};
ghost use Rattle.std.specs.Io.KnownBytes.{ReadConsumes};
ghost use Rattle.dav_edge.specs.Device.{Grew, received};
ghost use Rattle.dav_real.specs.Real.{quiet};

use crate::steady::read_some;
use dav_edge::{Failed, Source};
use std::io::Read;

/// Standard input, or another reader. It tells nothing, and gives at most the greatest u64 of bytes.
#[derive(Drop)]
pub struct ReaderSource<R> {
    reader: R,
    left: u64,
    faults: u64,
}

impl<R: Read> ReaderSource<R> {
    pub fn new(reader: R) -> Self
        ensures { result ≡ record { reader = reader; left = 18446744073709551615; faults = 0 } }
    {
        ReaderSource {
            reader,
            left: u64::MAX,
            faults: 0,
        }
    }
}

impl<R: Read> Source for ReaderSource<R> {
    ghost log = { λ s. quiet s.faults };

    ghost rest = { λ s. s.left };

    fn take(&mut self, buf: &mut [u8]) -> Result<usize, Failed>
        ensures log { Grew (quiet self.old.faults) (quiet self.new.faults) (received (length buf.old) buf.new result ∷ []) }
        ensures count { IfOk result (λ n. n ≤ length buf.new) }
        ensures rest { IfOk result (λ n. 0 < n → self.new.left < self.old.left) }
        ensures bytes { 0 < self.old.left → ReadConsumes (R.remaining self.old.reader) (R.remaining self.new.reader) result buf.new }
    {
        if self.left == 0 {
            return Ok(0);
        }
        match read_some(&mut self.reader, buf) {
            Ok(count) => {
                self.left = self.left.saturating_sub(count as u64);
                Ok(count)
            }
            Err(failed) => {
                self.faults = self.faults.saturating_add(1);
                Err(failed)
            }
        }
    }
}
