ghost use Rattle.std.specs.Prelude.{◌≡◌, ◌≢◌, ◌↔◌, ◌∷◌, ◌++◌, [], length, Err, OnOk, OnErr, IfOk, IfErr, IsTrue};
ghost use Rattle.dav_locks.specs.Held.{held, IsFull, IsStore, without};

use crate::fault::LockFault;
use crate::lock::Lock;
use crate::places::{hold, remove};
use dav_text::Memory;
use std::alloc::Global;
use std::marker::Model;

/// Locks, in an order. Contracts see a list.
#[derive(Debug, Drop)]
pub struct Locks {
    items: Vec<Lock>,
}

impl Model for Locks {
    ghost use Rattle.std.specs.Prelude.{List};
    ghost use Rattle.dav_locks.specs.declared.lock.Lock.{Lock};

    ghost Value = { List Lock };

    ghost view = { λ l. l.items.items };
}

impl Locks {
    /// No locks.
    pub fn new(alloc: Global) -> Locks
        ensures { result ≡ [] }
    {
        Locks {
            items: Vec::new(alloc),
        }
    }

    /// The locks of the vector.
    pub fn from_vec(items: Vec<Lock>) -> Locks
        ensures { result ≡ items.items }
    {
        Locks { items }
    }

    /// The vector of the locks.
    pub fn into_vec(self) -> Vec<Lock>
        ensures { result.items ≡ self }
    {
        self.items
    }

    /// The locks.
    pub fn as_slice(&self) -> &[Lock]
        ensures { result.now ≡ self.now }
    {
        self.items.as_slice()
    }

    /// How many locks there are.
    pub fn len(&self) -> usize
        ensures { result ≡ length self.now }
    {
        self.items.len()
    }

    /// Whether there is no lock.
    pub fn is_empty(&self) -> bool
        ensures { IsTrue result ↔ (self.now ≡ []) }
    {
        self.items.is_empty()
    }

    /// Puts a lock behind the others.
    pub fn push(&mut self, lock: Lock) -> Result<(), Memory>
        ensures ok { OnOk result (self.new ≡ self.old ++ lock ∷ []) }
        ensures err { OnErr result (self.new ≡ self.old) }
    {
        self.items.push(lock)?;
        Ok(())
    }

    /// Holds the lock: in the place of the one with its token, or behind the others.
    pub(crate) fn hold(&mut self, alloc: Global, lock: &Lock) -> Result<(), LockFault>
        requires { IsStore self.old }
        ensures ok { OnOk result (self.new ≡ held lock.now self.old) }
        ensures err { OnErr result (self.new ≡ self.old) }
        ensures full { IsFull lock.now.token self.old → result ≡ Err LockFault.Full }
        ensures cause { IfErr result (λ f. f ≢ LockFault.Memory → (f ≡ LockFault.Full) × IsFull lock.now.token self.old) }
    {
        hold(alloc, &mut self.items, lock)
    }

    /// Takes the locks with the token away.
    pub(crate) fn remove(&mut self, token: &str)
        ensures { self.new ≡ without token.now self.old }
    {
        remove(&mut self.items, token);
    }

    /// Another value of the same list.
    pub fn copy(&self, alloc: Global) -> Result<Locks, Memory>
        ensures { IfOk result (λ locks. locks ≡ self.now) }
    {
        let items = copies_of(alloc, self.items.as_slice())?;
        Ok(Locks { items })
    }
}

// The same locks again.
fn copies_of(alloc: Global, locks: &[Lock]) -> Result<Vec<Lock>, Memory>
    ensures { IfOk result (λ copies. copies.items ≡ locks.now) }
{
    let mut copies = Vec::new(alloc);
    for lock in locks {
        let copy = lock.copy(alloc)?;
        copies.push(copy)?;
    }
    Ok(copies)
}
