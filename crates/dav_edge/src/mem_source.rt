ghost use Rattle.std.specs.Prelude.{◌≡◌, ◌<◌, ◌≤◌, [], ◌∷◌, length, take, IsTrue, IsErr, IfOk, OnErr};
ghost use Rattle.dav_edge.specs.Device.{Grew, received};
ghost use Rattle.dav_edge.specs.Schedule.{fails_now, next_call};
ghost use Rattle.dav_edge.specs.Stream.{bytes_left, IsPiece, MovesOn};

use crate::history::History;
use crate::schedule::Schedule;
use crate::{Failed, Source, Stream};
use std::alloc::Global;

/// A source in memory.
#[derive(Drop)]
pub struct MemSource {
    schedule: Schedule,
    history: History,
    stream: Stream,
}

impl MemSource {
    ghost use Rattle.dav_edge.specs.Memory.{source_log, source_schedule, source_stream};

    /// It gives these bytes, in pieces that go across no cut, a place counted from their start. The calls
    /// of these numbers, counted from 0, fail.
    pub fn new(alloc: Global, bytes: Vec<u8>, cuts: Vec<usize>, fails: Vec<u64>) -> MemSource
        ensures log { source_log result ≡ record { told = Some []; faults = 0 } }
        ensures schedule { source_schedule result ≡ record { fails = fails; calls = 0 } }
        ensures bytes { bytes_left (source_stream result) ≡ bytes.items }
        ensures cuts { (source_stream result).cuts ≡ cuts }
    {
        MemSource {
            schedule: Schedule::new(fails),
            history: History::new(alloc),
            stream: Stream::new(bytes, cuts),
        }
    }

    /// How many calls failed.
    pub fn faults(&self) -> u64
        ensures { result ≡ (source_log self.now).faults }
    {
        self.history.faults()
    }
}

impl Source for MemSource {
    ghost use Rattle.dav_edge.specs.Memory.{source_log, source_rest, source_schedule, source_stream};

    ghost log = { source_log };

    ghost rest = { source_rest };

    fn take(&mut self, buf: &mut [u8]) -> Result<usize, Failed>
        ensures log { Grew (source_log self.old) (source_log self.new) (received (length buf.old) buf.new result ∷ []) }
        ensures count { IfOk result (λ n. n ≤ length buf.new) }
        ensures rest { IfOk result (λ n. 0 < n → source_rest self.new < source_rest self.old) }
        ensures listed { IsTrue (fails_now (source_schedule self.old)) → IsErr result }
        ensures counted { source_schedule self.new ≡ next_call (source_schedule self.old) }
        ensures piece { IfOk result (IsPiece (source_stream self.old) (length buf.old)) }
        ensures given { IfOk result (λ n. take n buf.new ≡ take n (bytes_left (source_stream self.old))) }
        ensures moves_on { IfOk result (MovesOn (source_stream self.old) (source_stream self.new)) }
        ensures same { OnErr result (source_stream self.new ≡ source_stream self.old) }
    {
        if self.schedule.begin() {
            self.history.not_received(buf.len());
            return Err(Failed);
        }
        self.stream.give(&mut self.history, buf)
    }
}
