ghost use Rattle.std.specs.Prelude.{◌≡◌, ◌⊎◌, ℕ, ◌+◌, ◌-◌, ◌<◌, ◌≤◌, min, List, [], ◌∷◌, ◌++◌, length, take, drop, OnOk, IfOk, IsErr, true, false, if◌then◌else◌};
ghost use Rattle.dav_disk.specs.Disk.{IsOutcome, HasCause, overwritten, OthersStay};
ghost use Rattle.dav_disk.specs.Record.{state_of, IsFair, IsRecord};
ghost use Rattle.dav_disk.specs.declared.call.Call.TheVariants.{Look};

use crate::image::{picked, standing_of};
use crate::{Call, Change, Disk, Failed};
use std::alloc::{AllocError, Global};

/// A disk in memory. It keeps a record of all its device calls.
#[derive(Drop)]
pub struct MemDisk {
    alloc: Global,
    first: u64,
    calls: Vec<Call>,
    fails: Vec<u64>,
    faults: u64,
    ghost exact: { IsRecord first calls.items },
}

// The old bytes with these over them; all the old ones, where they are to stay.
fn over(
    alloc: Global,
    old: &[u8],
    at: u64,
    bytes: &[u8],
    stays: bool,
) -> Result<Vec<u8>, AllocError>
    requires { at ≤ length old.now }
    ensures { IfOk result (λ v. v.items ≡ (if stays then old.now else overwritten old.now at bytes.now)) }
{
    if stays {
        return old.to_vec(alloc);
    }
    let at = at as usize;
    let mut next = old[..at].to_vec(alloc)?;
    next.extend_from_slice(bytes)?;
    if bytes.len() < old.len() - at {
        next.extend_from_slice(&old[at + bytes.len()..])?;
    }
    Ok(next)
}

// The first of the old bytes; all of them, where they are to stay.
fn front(alloc: Global, old: &[u8], len: u64, stays: bool) -> Result<Vec<u8>, AllocError>
    requires { len ≤ length old.now }
    ensures { IfOk result (λ v. v.items ≡ (if stays then old.now else take len old.now)) }
{
    if stays {
        return old.to_vec(alloc);
    }
    old[..len as usize].to_vec(alloc)
}

// Fills the buffer from a place on, as far as the bytes go.
fn copy_from(bytes: &[u8], at: u64, buf: &mut [u8]) -> usize
    ensures count { result ≡ min (length buf.old) (length bytes.now - at) }
    ensures copied { buf.new ≡ take result (drop at bytes.now) ++ drop result buf.old }
{
    if at >= bytes.len() as u64 {
        return 0;
    }
    let rest = &bytes[at as usize..];
    let count = buf.len().min(rest.len());
    buf[..count].copy_from_slice(&rest[..count]);
    count
}

// What stands in a file after these calls.
fn content_of(calls: &[Call], file: u32) -> &[u8]
    ensures { result.now ≡ (state_of file calls.now).seen }
{
    let mut seen: &[u8] = &[];
    for call in calls {
        seen = call.content_after(file, seen);
    }
    seen
}

impl MemDisk {
    ghost use Rattle.dav_disk.specs.View.{calls_of, disk_seen, disk_moment, disk_past, fails_next};

    /// No files. The device calls of these numbers, counted from 0, fail.
    pub fn new(alloc: Global, fails: Vec<u64>) -> MemDisk
        ensures calls { calls_of result ≡ [] }
        ensures moment { disk_moment result ≡ 0 }
    {
        MemDisk::starting_at(alloc, 0, fails)
    }

    /// No files, at a moment that is not 0: as if calls that only look had been made before.
    pub fn starting_at(alloc: Global, moment: u64, fails: Vec<u64>) -> MemDisk
        ensures calls { calls_of result ≡ [] }
        ensures moment { disk_moment result ≡ moment }
    {
        MemDisk {
            alloc,
            first: moment,
            calls: Vec::new(alloc),
            fails,
            faults: 0,
        }
    }

    // Whether the next call is to fail.
    fn is_to_fail(&self) -> bool
        ensures { result ≡ fails_next self.now }
    {
        let number = self.calls.len() as u64;
        self.fails.as_slice().contains(&number)
    }

    /// The device calls so far.
    pub fn record_of_calls(&self) -> &[Call]
        ensures { result.now ≡ calls_of self.now }
    {
        self.calls.as_slice()
    }

    /// What a stop at a moment may leave of a file, as near to the wish as may be: its length where that is allowed, and
    /// its bytes where they were touched. So each image can be had, by wishing for it.
    pub fn image(&self, moment: u64, file: u32, wish: &[u8]) -> Result<Vec<u8>, AllocError>
        ensures one { IfOk result (λ v. IsOutcome (disk_past self.now moment file) v.items) }
        ensures any { IsOutcome (disk_past self.now moment file) wish.now → IfOk result (λ v. v.items ≡ wish.now) }
    {
        let count = (moment.saturating_sub(self.first) as usize).min(self.calls.len());
        let calls = &self.calls[..count];
        let standing = standing_of(calls, file);
        let len = (wish.len() as u64)
            .max(standing.least)
            .min(standing.greatest);
        picked(self.alloc, calls, file, standing.synced, len as usize, wish)
    }

    // What stands in a file.
    fn content(&self, file: u32) -> &[u8]
        ensures { result.now ≡ (state_of file self.now.calls.items).seen }
    {
        content_of(&self.calls, file)
    }

    fn count_fault(&mut self)
        ensures calls { self.new.calls ≡ self.old.calls }
        ensures first { self.new.first ≡ self.old.first }
        ensures cause { HasCause {T = ℕ} {E = ℕ} self.old.faults self.new.faults (Err 0) }
    {
        self.faults = self.faults.saturating_add(1);
    }

    // Records a call. Without room for it, or where no more calls can be counted, it is as if it had not been made, and
    // has failed.
    fn record(&mut self, call: Call, fails: bool) -> Result<(), Failed>
        requires { IsFair (self.old.calls.items ++ call ∷ []) }
        ensures ok { OnOk result ((self.new.calls.items ≡ self.old.calls.items ++ call ∷ []) × (fails ≡ false)) }
        ensures either { (self.new.calls.items ≡ self.old.calls.items ++ call ∷ []) ⊎ (self.new.calls.items ≡ self.old.calls.items) }
        ensures failed { IsErr result → ((self.new.calls.items ≡ self.old.calls.items ++ call ∷ []) × (fails ≡ true)) ⊎ (self.new.calls.items ≡ self.old.calls.items) }
        ensures first { self.new.first ≡ self.old.first }
        ensures cause { HasCause self.old.faults self.new.faults result }
    {
        if self.first == u64::MAX - self.calls.len() as u64 {
            self.count_fault();
            return Err(Failed);
        }
        if self.calls.push(call).is_err() {
            self.count_fault();
            return Err(Failed);
        }
        if fails {
            self.count_fault();
            return Err(Failed);
        }
        Ok(())
    }

    // A call that touches nothing, and fails.
    fn refuse(&mut self) -> Result<(), Failed>
        ensures failed { IsErr result }
        ensures either { (self.new.calls.items ≡ self.old.calls.items ++ Look ∷ []) ⊎ (self.new.calls.items ≡ self.old.calls.items) }
        ensures first { self.new.first ≡ self.old.first }
        ensures cause { HasCause self.old.faults self.new.faults result }
    {
        match self.record(Call::Look, true) {
            Ok(()) => unreachable!(),
            Err(failed) => Err(failed),
        }
    }
}

impl Disk for MemDisk {
    ghost use Rattle.dav_disk.specs.View.{disk_seen, disk_moment, disk_past};

    ghost honest = { λ _. Unit {0} };

    ghost seen = { disk_seen };

    ghost moment = { disk_moment };

    ghost past = { disk_past };

    ghost faults = { λ d. d.faults };

    ghost reads = { λ d _ f. d.exact.reads f };

    ghost fits = { λ d _ f. d.exact.fits f };

    ghost counted = { λ d. d.exact.counted };

    fn calls(&self) -> u64 {
        self.first + self.calls.len() as u64
    }

    fn faults(&self) -> u64 {
        self.faults
    }

    fn size(&mut self, file: u32) -> Result<u64, Failed> {
        let fails = self.is_to_fail();
        let len = self.content(file).len() as u64;
        self.record(Call::Look, fails)?;
        Ok(len)
    }

    fn read(&mut self, file: u32, at: u64, buf: &mut [u8]) -> Result<usize, Failed> {
        let fails = self.is_to_fail();
        let count = copy_from(self.content(file), at, buf);
        self.record(Call::Look, fails)?;
        Ok(count)
    }

    fn write_at(&mut self, file: u32, at: u64, bytes: &[u8]) -> Result<(), Failed> {
        let fails = self.is_to_fail();
        let len = bytes.len() as u64;
        let Some(end) = at.checked_add(len) else {
            return self.refuse();
        };
        let old = self.content(file);
        let change = Change::of_write(at, len, old.len() as u64);
        let Ok(next) = over(self.alloc, old, at, bytes, fails) else {
            self.count_fault();
            return Err(Failed);
        };
        self.record(
            Call::Write {
                file,
                change,
                end,
                next,
            },
            fails,
        )
    }

    fn cut(&mut self, file: u32, len: u64) -> Result<(), Failed> {
        let fails = self.is_to_fail();
        let Ok(next) = front(self.alloc, self.content(file), len, fails) else {
            self.count_fault();
            return Err(Failed);
        };
        self.record(Call::Cut { file, len, next }, fails)
    }

    fn sync(&mut self, file: u32) -> Result<(), Failed> {
        let fails = self.is_to_fail();
        self.record(Call::Sync { file, done: !fails }, fails)
    }
}
