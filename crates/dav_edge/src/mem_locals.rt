ghost use Rattle.std.specs.Prelude.{◌≡◌, ◌↔◌, ◌⊎◌, ◌≤◌, [], ◌∷◌, length, Some, None, Err, MatchOption, IsTrue, IsErr, IfOk, IfErr, IfSome, OnOk};
ghost use Rattle.dav_edge.specs.LocalFile.{content_of};
ghost use Rattle.dav_edge.specs.Locals.{LocalsGrew, loaded, stored, IsLonger, FilesStay, OtherFilesStay};
ghost use Rattle.dav_edge.specs.Schedule.{fails_now, next_call};
ghost use Rattle.dav_edge.specs.declared.local_fault.LocalFault.TheVariants.{NoFile, TooLong, Failed as FailedFault, Memory as MemoryFault};

use crate::local_file::{content_of, put};
use crate::local_history::LocalHistory;
use crate::schedule::Schedule;
use crate::{LocalFault, LocalFile, Locals};
use dav_text::{Blob, Memory};
use std::alloc::Global;

/// Local files in memory. They always tell what they hold.
#[derive(Drop)]
pub struct MemLocals {
    alloc: Global,
    schedule: Schedule,
    history: LocalHistory,
    files: Vec<LocalFile>,
}

// A copy of the bytes that a name stands for, where the device is to fail or not.
fn copy_within(
    alloc: Global,
    files: &[LocalFile],
    name: &str,
    limit: u64,
    fails: bool,
) -> Result<Blob, LocalFault>
    ensures bytes { IfOk result (λ b. content_of files.now name.now ≡ Some b) }
    ensures within { IfOk result (λ b. length b ≤ limit) }
    ensures no_file { (result ≡ Err NoFile) ↔ (content_of files.now name.now ≡ None) }
    ensures too_long { (result ≡ Err TooLong) ↔ IsLonger limit (content_of files.now name.now) }
    ensures fails { IsTrue fails → IsErr result }
    ensures failed { result ≡ Err FailedFault → IsTrue fails }
{
    let Some(bytes) = content_of(files, name) else {
        return Err(LocalFault::NoFile);
    };
    if bytes.len() as u64 > limit {
        return Err(LocalFault::TooLong);
    }
    if fails {
        return Err(LocalFault::Failed);
    }
    match Blob::copy_of(alloc, bytes) {
        Ok(copy) => Ok(copy),
        Err(Memory) => Err(LocalFault::Memory),
    }
}

impl MemLocals {
    ghost use Rattle.dav_edge.specs.MemLocals.{locals_log, locals_schedule, files_of};

    /// It holds these files; where several have one name, the last counts. The calls of these numbers, counted from 0, fail, but
    /// what is to be refused for the file's sake is refused for that.
    pub fn new(alloc: Global, files: Vec<LocalFile>, fails: Vec<u64>) -> MemLocals
        ensures log { locals_log result ≡ record { told = Some []; faults = 0 } }
        ensures schedule { locals_schedule result ≡ record { fails = fails; calls = 0 } }
        ensures files { files_of result ≡ content_of files.items }
    {
        MemLocals {
            alloc,
            schedule: Schedule::new(fails),
            history: LocalHistory::new(alloc),
            files,
        }
    }

    /// The bytes of a file, if there is one of that name. This is no call of the device.
    pub fn bytes_of(&self, name: &str) -> Option<&[u8]>
        ensures { MatchOption result (files_of self.now name.now ≡ None) (λ bytes. files_of self.now name.now ≡ Some bytes.now) }
    {
        content_of(self.files.as_slice(), name)
    }

    /// How many calls failed.
    pub fn faults(&self) -> u64
        ensures { result ≡ (locals_log self.now).faults }
    {
        self.history.faults()
    }
}

impl Locals for MemLocals {
    ghost use Rattle.dav_edge.specs.MemLocals.{locals_log, locals_schedule, files_told};

    ghost log = { locals_log };

    ghost files = { files_told };

    fn load(&mut self, name: &str, limit: u64) -> Result<Blob, LocalFault>
        ensures log { LocalsGrew (locals_log self.old) (locals_log self.new) (loaded name.now limit result ∷ []) }
        ensures bytes { IfSome (files_told self.old) (λ files. IfOk result (λ b. files name.now ≡ Some b)) }
        ensures within { IfOk result (λ b. length b ≤ limit) }
        ensures no_file { IfSome (files_told self.old) (λ files. (result ≡ Err NoFile) ↔ (files name.now ≡ None)) }
        ensures too_long { IfSome (files_told self.old) (λ files. (result ≡ Err TooLong) ↔ IsLonger limit (files name.now)) }
        ensures files { FilesStay (files_told self.old) (files_told self.new) }
        ensures listed { IsTrue (fails_now (locals_schedule self.old)) → IsErr result }
        ensures unlisted { result ≡ Err FailedFault → IsTrue (fails_now (locals_schedule self.old)) ⊎ ((locals_log self.new).told ≡ None) }
        ensures counted { locals_schedule self.new ≡ next_call (locals_schedule self.old) }
    {
        let fails = self.schedule.begin();
        match copy_within(self.alloc, self.files.as_slice(), name, limit, fails) {
            Ok(bytes) => self.history.loaded(name, limit, bytes),
            Err(fault) => {
                self.history.not_loaded(name, limit, fault);
                Err(fault)
            }
        }
    }

    fn store(&mut self, name: &str, bytes: &[u8]) -> Result<(), LocalFault>
        ensures log { LocalsGrew (locals_log self.old) (locals_log self.new) (stored name.now bytes.now result ∷ []) }
        ensures stored { IfSome (files_told self.new) (λ files. OnOk result (files name.now ≡ Some bytes.now)) }
        ensures others { OtherFilesStay name.now (files_told self.old) (files_told self.new) }
        ensures faults { IfErr result (λ fault. (fault ≡ FailedFault) ⊎ (fault ≡ MemoryFault)) }
        ensures starved { result ≡ Err MemoryFault → FilesStay (files_told self.old) (files_told self.new) }
        ensures listed { IsTrue (fails_now (locals_schedule self.old)) → (result ≡ Err FailedFault) × FilesStay (files_told self.old) (files_told self.new) }
        ensures unlisted { result ≡ Err FailedFault → IsTrue (fails_now (locals_schedule self.old)) ⊎ ((locals_log self.new).told ≡ None) }
        ensures counted { locals_schedule self.new ≡ next_call (locals_schedule self.old) }
    {
        if self.schedule.begin() {
            self.history.not_stored(name, bytes, LocalFault::Failed);
            return Err(LocalFault::Failed);
        }
        let Ok(()) = put(self.alloc, &mut self.files, name, bytes) else {
            self.history.not_stored(name, bytes, LocalFault::Memory);
            return Err(LocalFault::Memory);
        };
        self.history.stored(name, bytes)
    }
}
