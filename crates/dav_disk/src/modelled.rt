ghost use Rattle.std.specs.Prelude.{◌≡◌, ◌<◌, [], length};
ghost use Rattle.dav_disk.specs.Disk.{HasCause};
ghost use Rattle.dav_disk.specs.Events.{seen_of, past_of, IsHonest, IsSoundNow};

use crate::{Calls, Disk, Failed, Start};
use std::marker::PhantomData;

/// A disk over any recorded calls: its files are what the record makes of what they held at the start. It is honest while
/// the answers are those of such files. It counts its calls and its faults; at the greatest number of calls each fails,
/// and none is made.
#[derive(Drop)]
pub struct Modelled<C: Calls, S: Start> {
    calls: C,
    start: PhantomData<S>,
    count: u64,
    faults: u64,
    ghost recorded: { count ≡ length (C.Calls.history calls) },
    ghost counted: { length (C.Calls.history calls) < 18446744073709551616 },
    ghost sound: { IsHonest S.Start.files (C.Calls.history calls) → IsSoundNow S.Start.files (C.Calls.history calls) },
}

// The answer; where it is a failure, it is counted.
fn counted<T>(faults: &mut u64, answer: Result<T, Failed>) -> Result<T, Failed>
    ensures same { result ≡ answer }
    ensures cause { HasCause faults.old faults.new result }
{
    if answer.is_err() {
        *faults = faults.saturating_add(1);
    }
    answer
}

impl<C: Calls, S: Start> Modelled<C, S> {
    ghost use Rattle.dav_disk.specs.Modelled.{calls_of};

    /// The disk over calls of which none was made yet.
    pub fn new(calls: C, _start: S) -> Modelled<C, S>
        requires { C.Calls.history calls ≡ [] }
        ensures calls { calls_of result ≡ calls }
        ensures faults { result.faults ≡ 0 }
    {
        Modelled {
            calls,
            start: PhantomData,
            count: 0,
            faults: 0,
        }
    }
}

impl<C: Calls, S: Start> Disk for Modelled<C, S> {
    ghost honest = { λ d. IsHonest S.Start.files (C.Calls.history d.calls) };

    ghost seen = { λ d. seen_of S.Start.files (C.Calls.history d.calls) };

    ghost moment = { λ d. length (C.Calls.history d.calls) };

    ghost past = { λ d. past_of S.Start.files (C.Calls.history d.calls) };

    ghost faults = { λ d. d.faults };

    ghost reads = { λ d honest f. (d.sound honest).reads f };

    ghost fits = { λ d honest f. (d.sound honest).fits f };

    ghost counted = { λ d. d.counted };

    fn calls(&self) -> u64 {
        self.count
    }

    fn faults(&self) -> u64 {
        self.faults
    }

    fn size(&mut self, file: u32) -> Result<u64, Failed> {
        if self.count == u64::MAX {
            return counted(&mut self.faults, Err(Failed));
        }
        self.count += 1;
        let answer = self.calls.size(file);
        counted(&mut self.faults, answer)
    }

    fn read(&mut self, file: u32, at: u64, buf: &mut [u8]) -> Result<usize, Failed> {
        if self.count == u64::MAX {
            return counted(&mut self.faults, Err(Failed));
        }
        self.count += 1;
        let answer = self.calls.read(file, at, buf);
        counted(&mut self.faults, answer)
    }

    fn write_at(&mut self, file: u32, at: u64, bytes: &[u8]) -> Result<(), Failed> {
        if self.count == u64::MAX || bytes.len() as u64 > u64::MAX - at {
            return counted(&mut self.faults, Err(Failed));
        }
        self.count += 1;
        let answer = self.calls.write_at(file, at, bytes);
        counted(&mut self.faults, answer)
    }

    fn cut(&mut self, file: u32, len: u64) -> Result<(), Failed> {
        if self.count == u64::MAX {
            return counted(&mut self.faults, Err(Failed));
        }
        self.count += 1;
        let answer = self.calls.cut(file, len);
        counted(&mut self.faults, answer)
    }

    fn sync(&mut self, file: u32) -> Result<(), Failed> {
        if self.count == u64::MAX {
            return counted(&mut self.faults, Err(Failed));
        }
        self.count += 1;
        let answer = self.calls.sync(file);
        counted(&mut self.faults, answer)
    }
}
