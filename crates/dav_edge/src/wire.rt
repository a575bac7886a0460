ghost use Rattle.std.specs.Prelude.{◌<◌, ◌≤◌, ℕ, [], ◌∷◌, length, IfOk};
ghost use Rattle.dav_edge.specs.Device.{DeviceLog, Grew, connected, sent, received, shut_down};

use crate::Failed;

/// A wire to a server, with one connection at a time.
pub trait Wire {
    /// The calls so far, where the object tells them, and its count of faults.
    ghost log: { Self → DeviceLog };

    /// How many bytes the connection that stands can still give.
    ghost rest: { Self → ℕ };

    /// Ends an earlier connection and begins one. After a failure none stands.
    fn connect(&mut self, host: &str, port: u16) -> Result<(), Failed>
        ensures log { Grew (log self.old) (log self.new) (connected host.now port result ∷ []) };

    /// Sends a prefix of the bytes, and says how many. Of a piece that isn't empty it sends at
    /// least one.
    fn send(&mut self, bytes: &[u8]) -> Result<usize, Failed>
        ensures log { Grew (log self.old) (log self.new) (sent bytes.now result ∷ []) }
        ensures count { IfOk result (λ n. n ≤ length bytes.now) }
        ensures some { IfOk result (λ n. 0 < length bytes.now → 0 < n) };

    /// The next bytes, as many as the answer says; 0 is the end of the connection.
    fn receive(&mut self, buf: &mut [u8]) -> Result<usize, Failed>
        requires { 0 < length buf.old }
        ensures log { Grew (log self.old) (log self.new) (received (length buf.old) buf.new result ∷ []) }
        ensures count { IfOk result (λ n. n ≤ length buf.new) }
        ensures rest { IfOk result (λ n. 0 < n → rest self.new < rest self.old) };

    /// Ends the connection.
    fn shut(&mut self)
        ensures log { Grew (log self.old) (log self.new) (shut_down ∷ []) };
}
