ghost use Rattle.std.specs.Prelude.{◌≡◌, ◌≤◌, [], ◌∷◌, Err, IsTrue, IfOk, IfErr};
ghost use Rattle.dav_machine.specs.Log.{Rose};
ghost use Rattle.dav_edge.specs.Locals.{LocalsGrew, loaded, stored};
ghost use Rattle.dav_edge.specs.LocalHistory.{local_log_of};
ghost use Rattle.dav_edge.specs.declared.local_fault.LocalFault.TheVariants.{Failed as FailedFault};

use crate::LocalFault;
use crate::local_note::LocalNote;
use dav_text::Blob;
use std::alloc::Global;

/// What came of the calls on local files in memory so far.
#[derive(Drop)]
pub struct LocalHistory {
    alloc: Global,
    notes: Vec<LocalNote>,
    tells: bool,
    faults: u64,
}

impl LocalHistory {
    pub fn new(alloc: Global) -> LocalHistory
        ensures { local_log_of result ≡ record { told = Some []; faults = 0 } }
    {
        LocalHistory {
            alloc,
            notes: Vec::new(alloc),
            tells: true,
            faults: 0,
        }
    }

    pub fn faults(&self) -> u64
        ensures { result ≡ (local_log_of self.now).faults }
    {
        self.faults
    }

    // Counts a fault, where there is one.
    fn count(&mut self, is_fault: bool)
        ensures same { self.new ≡ record self.old { faults = self.new.faults } }
        ensures no_fewer { self.old.faults ≤ self.new.faults }
        ensures rose { IsTrue is_fault → Rose self.old.faults self.new.faults }
    {
        if is_fault {
            self.faults = self.faults.saturating_add(1);
        }
    }

    // Tells nothing from now on, for want of room. The call is counted as a failing one.
    fn stop(&mut self)
        ensures told { (local_log_of self.new).told ≡ None }
        ensures no_fewer { self.old.faults ≤ self.new.faults }
        ensures rose { Rose self.old.faults self.new.faults }
    {
        self.tells = false;
        self.count(true);
    }

    /// Writes down the bytes that a load gives, and hands them on. Without room for that the load fails.
    pub fn loaded(&mut self, name: &str, limit: u64, bytes: Blob) -> Result<Blob, LocalFault>
        ensures log { LocalsGrew (local_log_of self.old) (local_log_of self.new) (loaded name.now limit result ∷ []) }
        ensures same { IfOk result (λ b. b ≡ bytes) }
        ensures failed { IfErr result (λ fault. (fault ≡ FailedFault) × ((local_log_of self.new).told ≡ None)) }
    {
        let Ok(name) = String::from_str(self.alloc, name) else {
            self.stop();
            return Err(LocalFault::Failed);
        };
        let Ok(copy) = Vec::from_slice(self.alloc, bytes.as_slice()) else {
            self.stop();
            return Err(LocalFault::Failed);
        };
        if self
            .notes
            .push(LocalNote::Loaded(name, limit, copy))
            .is_err()
        {
            self.stop();
            return Err(LocalFault::Failed);
        }
        Ok(bytes)
    }

    /// Writes down that a load was refused, if there is room for it.
    pub fn not_loaded(&mut self, name: &str, limit: u64, fault: LocalFault)
        ensures { LocalsGrew (local_log_of self.old) (local_log_of self.new) (loaded name.now limit (Err fault) ∷ []) }
    {
        self.count(fault.is_counted());
        let Ok(name) = String::from_str(self.alloc, name) else {
            self.tells = false;
            return;
        };
        if self
            .notes
            .push(LocalNote::NotLoaded(name, limit, fault))
            .is_err()
        {
            self.tells = false;
        }
    }

    /// Writes down that bytes were stored. Without room for that the call failed.
    pub fn stored(&mut self, name: &str, bytes: &[u8]) -> Result<(), LocalFault>
        ensures log { LocalsGrew (local_log_of self.old) (local_log_of self.new) (stored name.now bytes.now result ∷ []) }
        ensures failed { IfErr result (λ fault. (fault ≡ FailedFault) × ((local_log_of self.new).told ≡ None)) }
    {
        let Ok(name) = String::from_str(self.alloc, name) else {
            self.stop();
            return Err(LocalFault::Failed);
        };
        let Ok(copy) = Vec::from_slice(self.alloc, bytes) else {
            self.stop();
            return Err(LocalFault::Failed);
        };
        if self.notes.push(LocalNote::Stored(name, copy)).is_err() {
            self.stop();
            return Err(LocalFault::Failed);
        }
        Ok(())
    }

    /// Writes down that bytes were not stored, if there is room for it.
    pub fn not_stored(&mut self, name: &str, bytes: &[u8], fault: LocalFault)
        ensures { LocalsGrew (local_log_of self.old) (local_log_of self.new) (stored name.now bytes.now (Err fault) ∷ []) }
    {
        self.count(fault.is_counted());
        let Ok(name) = String::from_str(self.alloc, name) else {
            self.tells = false;
            return;
        };
        let Ok(copy) = Vec::from_slice(self.alloc, bytes) else {
            self.tells = false;
            return;
        };
        if self
            .notes
            .push(LocalNote::NotStored(name, copy, fault))
            .is_err()
        {
            self.tells = false;
        }
    }
}
