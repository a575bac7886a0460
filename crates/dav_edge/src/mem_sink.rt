ghost use Rattle.std.specs.Prelude.{◌≡◌, ◌<◌, ◌≤◌, [], ◌∷◌, ◌++◌, length, min, max, take, IsTrue, IsErr, IfOk, IfSome, OnErr};
ghost use Rattle.std.specs.Option.{ForSome};
ghost use Rattle.dav_edge.specs.Device.{Grew, sent, taken};
ghost use Rattle.dav_edge.specs.History.{log_of};
ghost use Rattle.dav_edge.specs.Schedule.{fails_now, next_call};

use crate::history::History;
use crate::schedule::Schedule;
use crate::{Failed, Sink};
use std::alloc::Global;

/// A sink in memory.
#[derive(Drop)]
pub struct MemSink {
    schedule: Schedule,
    history: History,
    most: usize,
    written: Vec<u8>,
    ghost exact: { ForSome (log_of history).told (λ events. written.items ≡ taken events) },
}

impl MemSink {
    ghost use Rattle.dav_edge.specs.Memory.{sink_log, sink_schedule, most_put, bytes_written};

    /// A call takes that many bytes at most, and one at least. The calls of these numbers, counted from
    /// 0, fail.
    pub fn new(alloc: Global, most: usize, fails: Vec<u64>) -> MemSink
        ensures log { sink_log result ≡ record { told = Some []; faults = 0 } }
        ensures schedule { sink_schedule result ≡ record { fails = fails; calls = 0 } }
        ensures most { most_put result ≡ max most 1 }
        ensures nothing { bytes_written result ≡ [] }
    {
        MemSink {
            schedule: Schedule::new(fails),
            history: History::new(alloc),
            most,
            written: Vec::new(alloc),
        }
    }

    /// The bytes that were taken.
    pub fn written(&self) -> &[u8]
        ensures bytes { result.now ≡ bytes_written self.now }
        ensures told { IfSome (sink_log self.now).told (λ events. result.now ≡ taken events) }
    {
        self.written.as_slice()
    }

    /// How many calls failed.
    pub fn faults(&self) -> u64
        ensures { result ≡ (sink_log self.now).faults }
    {
        self.history.faults()
    }
}

impl Sink for MemSink {
    ghost use Rattle.dav_edge.specs.Memory.{sink_log, sink_schedule, most_put, bytes_written};

    ghost log = { sink_log };

    fn put(&mut self, bytes: &[u8]) -> Result<usize, Failed>
        ensures log { Grew (sink_log self.old) (sink_log self.new) (sent bytes.now result ∷ []) }
        ensures count { IfOk result (λ n. n ≤ length bytes.now) }
        ensures some { IfOk result (λ n. 0 < length bytes.now → 0 < n) }
        ensures listed { IsTrue (fails_now (sink_schedule self.old)) → IsErr result }
        ensures counted { sink_schedule self.new ≡ next_call (sink_schedule self.old) }
        ensures most { IfOk result (λ n. n ≡ min (length bytes.now) (most_put self.old)) }
        ensures taken { IfOk result (λ n. bytes_written self.new ≡ bytes_written self.old ++ take n bytes.now) }
        ensures kept { OnErr result (bytes_written self.new ≡ bytes_written self.old) }
        ensures same_most { most_put self.new ≡ most_put self.old }
    {
        if self.schedule.begin() {
            self.history.not_sent(bytes);
            return Err(Failed);
        }
        let before = self.written.len();
        let count = bytes.len().min(self.most.max(1));
        let Ok(()) = self.written.extend_from_slice(&bytes[..count]) else {
            self.history.stop();
            return Err(Failed);
        };
        let Ok(()) = self.history.sent(bytes, count) else {
            self.written.truncate(before);
            return Err(Failed);
        };
        Ok(count)
    }
}
