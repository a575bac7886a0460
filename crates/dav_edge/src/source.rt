ghost use Rattle.std.specs.Prelude.{◌<◌, ◌≤◌, ℕ, [], ◌∷◌, length, IfOk};
ghost use Rattle.dav_edge.specs.Device.{DeviceLog, Grew, received};

use crate::Failed;

/// What gives the bytes of the input.
pub trait Source {
    /// The calls so far, where the object tells them, and its count of faults.
    ghost log: { Self → DeviceLog };

    /// How many bytes it can still give.
    ghost rest: { Self → ℕ };

    /// The next bytes, as many as the answer says; 0 is the end of the input.
    fn take(&mut self, buf: &mut [u8]) -> Result<usize, Failed>
        requires { 0 < length buf.old }
        ensures log { Grew (log self.old) (log self.new) (received (length buf.old) buf.new result ∷ []) }
        ensures count { IfOk result (λ n. n ≤ length buf.new) }
        ensures rest { IfOk result (λ n. 0 < n → rest self.new < rest self.old) };
}
