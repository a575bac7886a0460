ghost use Rattle.std.specs.Prelude.{◌<◌, ◌≤◌, [], ◌∷◌, length, IfOk};
ghost use Rattle.dav_edge.specs.Device.{DeviceLog, Grew, sent};

use crate::Failed;

/// What takes the bytes that are printed.
pub trait Sink {
    /// The calls so far, where the object tells them, and its count of faults.
    ghost log: { Self → DeviceLog };

    /// Takes a prefix of the bytes, and says how many. Of a piece that isn't empty it takes at
    /// least one.
    fn put(&mut self, bytes: &[u8]) -> Result<usize, Failed>
        ensures log { Grew (log self.old) (log self.new) (sent bytes.now result ∷ []) }
        ensures count { IfOk result (λ n. n ≤ length bytes.now) }
        ensures some { IfOk result (λ n. 0 < length bytes.now → 0 < n) };
}
