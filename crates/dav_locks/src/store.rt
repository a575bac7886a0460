ghost use Rattle.std.specs.Prelude.{◌≡◌, ◌≢◌, [], Err, OnOk, OnErr, IfErr};
ghost use Rattle.std.specs.List.{find};
ghost use Rattle.std.specs.Option.{option_copied};
ghost use Rattle.dav_locks.specs.Held.{has_root, held, is_held as is_held_lem, IsFull, IsStore, without};

use crate::fault::LockFault;
use crate::list::Locks;
use crate::lock::Lock;
use crate::places::{find_root, is_held};
use dav_text::Path;
use std::alloc::Global;
use std::marker::Model;

/// The locks that are held, in the order of holding. No token is held twice, and at most 256 are held.
/// Contracts see a list.
#[derive(Debug, Drop)]
pub struct LockStore {
    alloc: Global,
    held: Locks,
}

impl Model for LockStore {
    ghost use Rattle.std.specs.Prelude.{List};
    ghost use Rattle.dav_locks.specs.declared.lock.Lock.{Lock};
    ghost use Rattle.dav_locks.specs.Held.{IsStore};

    ghost Value = { List Lock };

    ghost view = { λ s. s.held };

    ghost invariant = { λ s. IsStore s.held };
}

impl LockStore {
    /// No lock is held.
    pub fn new(alloc: Global) -> LockStore
        ensures { result ≡ [] }
    {
        LockStore {
            alloc,
            held: Locks::new(alloc),
        }
    }

    /// Holds the lock: in the place of the one with its token where that is held, else behind the others.
    /// It is full where 256 locks of other tokens are held.
    pub fn add(&mut self, lock: &Lock) -> Result<(), LockFault>
        ensures ok { OnOk result (self.new ≡ held lock.now self.old) }
        ensures err { OnErr result (self.new ≡ self.old) }
        ensures full { IsFull lock.now.token self.old → result ≡ Err LockFault.Full }
        ensures cause { IfErr result (λ f. f ≢ LockFault.Memory → (f ≡ LockFault.Full) × IsFull lock.now.token self.old) }
    {
        self.held.hold(self.alloc, lock)
    }

    /// Holds the token no longer, and answers whether it was held.
    pub fn remove(&mut self, token: &str) -> bool
        ensures held { result ≡ is_held_lem token.now self.old }
        ensures removed { self.new ≡ without token.now self.old }
    {
        let was_held = is_held(self.held.as_slice(), token);
        self.held.remove(token);
        was_held
    }

    /// The first held lock with this root, a slash at its end aside.
    pub fn find(&self, root: &Path) -> Option<&Lock>
        ensures { option_copied result ≡ find (has_root root.now) self.now }
    {
        find_root(self.held.as_slice(), root)
    }

    /// The locks that are held, in the order of holding.
    pub fn locks(&self) -> &Locks
        ensures value { result.now ≡ self.now }
        ensures store { IsStore self.now }
    {
        &self.held
    }
}
