ghost use Rattle.std.specs.Prelude.{◌≡◌, ◌≢◌, ◌<◌, ◌≤◌, [], ◌∷◌, None, IfOk, IsErr, OnOk, OnErr, length};
ghost use Rattle.std.specs.Io.KnownBytes.{ReadConsumes, WriteAppends};
ghost use Rattle.dav_edge.specs.Device.{Grew, connected, sent, received, shut_down};
ghost use Rattle.dav_real.specs.Real.{quiet, Stands};

use crate::steady::{read_some, write_some};
use dav_edge::{Failed, Wire};
use std::net::{Net, TcpStream};

/// A TCP connection at a time. It tells nothing, and each gives at most the greatest u64 of bytes.
#[derive(Drop)]
pub struct TcpWire<'a, N: Net> {
    net: &'a N,
    stream: Option<N::Stream>,
    left: u64,
    faults: u64,
}

impl<'a, N: Net> TcpWire<'a, N> {
    pub fn new(net: &'a N) -> Self
        ensures none_stands { result.stream ≡ None }
        ensures faults { result.faults ≡ 0 }
    {
        TcpWire {
            net,
            stream: None,
            left: 0,
            faults: 0,
        }
    }
}

impl<N: Net> Wire for TcpWire<'_, N> {
    ghost log = { λ w. quiet w.faults };

    ghost rest = { λ w. w.left };

    fn connect(&mut self, host: &str, port: u16) -> Result<(), Failed>
        ensures log { Grew (quiet self.old.faults) (quiet self.new.faults) (connected host.now port result ∷ []) }
        ensures stands { OnOk result (self.new.stream ≢ None) }
        ensures none_stands { OnErr result (self.new.stream ≡ None) }
        ensures left { self.new.left ≡ 18446744073709551615 }
    {
        self.shut();
        self.left = u64::MAX;
        match TcpStream::connect(self.net, (host, port)) {
            Ok(stream) => {
                self.stream = Some(stream);
                Ok(())
            }
            Err(_) => {
                self.faults = self.faults.saturating_add(1);
                Err(Failed)
            }
        }
    }

    fn send(&mut self, bytes: &[u8]) -> Result<usize, Failed>
        ensures log { Grew (quiet self.old.faults) (quiet self.new.faults) (sent bytes.now result ∷ []) }
        ensures count { IfOk result (λ n. n ≤ length bytes.now) }
        ensures some { IfOk result (λ n. 0 < length bytes.now → 0 < n) }
        ensures none_stands { self.old.stream ≡ None → IsErr result }
        ensures bytes { Stands (λ s t. WriteAppends (N.Stream.contents s) (N.Stream.contents t) result bytes.now) self.old.stream self.new.stream }
        ensures left { self.new.left ≡ self.old.left }
    {
        let sent = match &mut self.stream {
            Some(stream) => write_some(stream, bytes),
            None => Err(Failed),
        };
        if sent.is_err() {
            self.faults = self.faults.saturating_add(1);
        }
        sent
    }

    fn receive(&mut self, buf: &mut [u8]) -> Result<usize, Failed>
        ensures log { Grew (quiet self.old.faults) (quiet self.new.faults) (received (length buf.old) buf.new result ∷ []) }
        ensures count { IfOk result (λ n. n ≤ length buf.new) }
        ensures rest { IfOk result (λ n. 0 < n → self.new.left < self.old.left) }
        ensures none_stands { self.old.stream ≡ None → IsErr result }
        ensures bytes { 0 < self.old.left → Stands (λ s t. ReadConsumes (N.Stream.remaining s) (N.Stream.remaining t) result buf.new) self.old.stream self.new.stream }
    {
        let received = match &mut self.stream {
            Some(_) if self.left == 0 => return Ok(0),
            Some(stream) => read_some(stream, buf),
            None => Err(Failed),
        };
        match received {
            Ok(count) => {
                self.left = self.left.saturating_sub(count as u64);
                Ok(count)
            }
            Err(failed) => {
                self.faults = self.faults.saturating_add(1);
                Err(failed)
            }
        }
    }

    fn shut(&mut self)
        ensures log { Grew (quiet self.old.faults) (quiet self.new.faults) (shut_down ∷ []) }
        ensures none_stands { self.new.stream ≡ None }
    {
        self.stream = None;
    }
}
