ghost use Rattle.std.specs.Prelude.{◌≡◌, ◌<◌, ◌≤◌, [], ◌∷◌, length, min, max, take, map, option_map, IsTrue, IsErr, IfOk, OnOk, OnErr};
ghost use Rattle.std.specs.Option.{ForSome};
ghost use Rattle.dav_edge.specs.Connections.{connections};
ghost use Rattle.dav_edge.specs.Device.{Grew, connected, sent, received, shut_down};
ghost use Rattle.dav_edge.specs.Schedule.{fails_now, next_call};
ghost use Rattle.dav_edge.specs.Stream.{bytes_left, IsPiece, MovesOn};

use crate::history::History;
use crate::mem_connection::{Made, MemConnection};
use crate::schedule::Schedule;
use crate::{Failed, Stream, Wire};
use std::alloc::{AllocError, Global};
use std::collections::VecDeque;

/// A wire in memory.
#[derive(Drop)]
pub struct MemWire {
    schedule: Schedule,
    history: History,
    most: usize,
    waiting: VecDeque<Stream>,
    standing: Option<Stream>,
}

impl MemWire {
    ghost use Rattle.dav_edge.specs.MemConnection.{connection_of};
    ghost use Rattle.dav_edge.specs.Memory.{wire_log, wire_schedule, most_sent, streams_left, standing_stream};

    /// A connect takes the next of these streams, and fails where none is left. A send takes that many
    /// bytes at most, and one at least. The calls of these numbers, counted from 0, fail.
    pub fn new(alloc: Global, streams: Vec<Stream>, most: usize, fails: Vec<u64>) -> MemWire
        ensures log { wire_log result ≡ record { told = Some []; faults = 0 } }
        ensures schedule { wire_schedule result ≡ record { fails = fails; calls = 0 } }
        ensures streams { streams_left result ≡ streams.items }
        ensures none_stands { standing_stream result ≡ None }
        ensures most { most_sent result ≡ max most 1 }
    {
        MemWire {
            schedule: Schedule::new(fails),
            history: History::new(alloc),
            most,
            waiting: VecDeque::from(streams),
            standing: None,
        }
    }

    /// How many calls failed.
    pub fn faults(&self) -> u64
        ensures { result ≡ (wire_log self.now).faults }
    {
        self.history.faults()
    }

    /// The connections that its calls made, in the order in which they began; none where it stopped
    /// telling.
    pub fn connections(&self) -> Result<Option<Vec<MemConnection>>, AllocError>
        ensures { IfOk result (λ told. option_map (λ made. map connection_of made.items) told ≡ connections (wire_log self.now)) }
    {
        let Some(notes) = self.history.notes() else {
            return Ok(None);
        };
        let alloc = self.history.alloc();
        let mut made = Made::new(alloc);
        for note in notes {
            let Ok(()) = made.follow(alloc, note) else {
                return Err(AllocError);
            };
        }
        let Ok(all) = made.all() else {
            return Err(AllocError);
        };
        Ok(Some(all))
    }
}

impl Wire for MemWire {
    ghost use Rattle.dav_edge.specs.Memory.{wire_log, wire_rest, wire_schedule, most_sent, streams_left, standing_stream, TakesNext, SameStreams, NoneStands};

    ghost log = { wire_log };

    ghost rest = { wire_rest };

    fn connect(&mut self, host: &str, port: u16) -> Result<(), Failed>
        ensures log { Grew (wire_log self.old) (wire_log self.new) (connected host.now port result ∷ []) }
        ensures listed { IsTrue (fails_now (wire_schedule self.old)) → IsErr result }
        ensures none_left { streams_left self.old ≡ [] → IsErr result }
        ensures counted { wire_schedule self.new ≡ next_call (wire_schedule self.old) }
        ensures next { OnOk result (TakesNext self.old self.new) }
        ensures none_stands { OnErr result (NoneStands self.old self.new) }
        ensures same_most { most_sent self.new ≡ most_sent self.old }
    {
        self.standing = None;
        let fails = self.schedule.begin();
        if fails || self.waiting.is_empty() {
            self.history.not_connected(host, port);
            return Err(Failed);
        }
        let Ok(()) = self.history.connected(host, port) else {
            return Err(Failed);
        };
        self.standing = self.waiting.pop_front();
        Ok(())
    }

    fn send(&mut self, bytes: &[u8]) -> Result<usize, Failed>
        ensures log { Grew (wire_log self.old) (wire_log self.new) (sent bytes.now result ∷ []) }
        ensures count { IfOk result (λ n. n ≤ length bytes.now) }
        ensures some { IfOk result (λ n. 0 < length bytes.now → 0 < n) }
        ensures listed { IsTrue (fails_now (wire_schedule self.old)) → IsErr result }
        ensures none_stands { standing_stream self.old ≡ None → IsErr result }
        ensures counted { wire_schedule self.new ≡ next_call (wire_schedule self.old) }
        ensures most { IfOk result (λ n. n ≡ min (length bytes.now) (most_sent self.old)) }
        ensures same { SameStreams self.old self.new }
        ensures same_most { most_sent self.new ≡ most_sent self.old }
    {
        let fails = self.schedule.begin();
        if fails || self.standing.is_none() {
            self.history.not_sent(bytes);
            return Err(Failed);
        }
        let count = bytes.len().min(self.most.max(1));
        let Ok(()) = self.history.sent(bytes, count) else {
            return Err(Failed);
        };
        Ok(count)
    }

    fn receive(&mut self, buf: &mut [u8]) -> Result<usize, Failed>
        ensures log { Grew (wire_log self.old) (wire_log self.new) (received (length buf.old) buf.new result ∷ []) }
        ensures count { IfOk result (λ n. n ≤ length buf.new) }
        ensures rest { IfOk result (λ n. 0 < n → wire_rest self.new < wire_rest self.old) }
        ensures listed { IsTrue (fails_now (wire_schedule self.old)) → IsErr result }
        ensures none_stands { standing_stream self.old ≡ None → IsErr result }
        ensures counted { wire_schedule self.new ≡ next_call (wire_schedule self.old) }
        ensures piece { ForSome (standing_stream self.old) (λ s. IfOk result (IsPiece s (length buf.old))) }
        ensures given { ForSome (standing_stream self.old) (λ s. IfOk result (λ n. take n buf.new ≡ take n (bytes_left s))) }
        ensures moves_on { ForSome (standing_stream self.old) (λ s. IfOk result (λ n. ForSome (standing_stream self.new) (λ t. MovesOn s t n))) }
        ensures same { OnErr result (SameStreams self.old self.new) }
        ensures same_left { streams_left self.new ≡ streams_left self.old }
        ensures same_most { most_sent self.new ≡ most_sent self.old }
    {
        let fails = self.schedule.begin();
        match &mut self.standing {
            Some(stream) if !fails => stream.give(&mut self.history, buf),
            _ => {
                self.history.not_received(buf.len());
                Err(Failed)
            }
        }
    }

    fn shut(&mut self)
        ensures log { Grew (wire_log self.old) (wire_log self.new) (shut_down ∷ []) }
        ensures none_stands { NoneStands self.old self.new }
        ensures counted { wire_schedule self.new ≡ next_call (wire_schedule self.old) }
        ensures same_most { most_sent self.new ≡ most_sent self.old }
    {
        self.standing = None;
        self.schedule.begin();
        self.history.shut();
    }
}
