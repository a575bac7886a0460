ghost use Rattle.std.specs.Prelude.{◌≡◌, ◌≢◌, ◌++◌, ◌∷◌, [], Err, IfErr, MatchOption, OnOk, OnErr};
ghost use Rattle.std.specs.List.{find};
ghost use Rattle.std.specs.Option.{option_copied};
ghost use Rattle.dav_locks.specs.Held.{has_token, has_root, held, is_held as is_held_lem, IsFull, IsStore, without};
ghost use Rattle.dav_locks.specs.Places.{IsFirst, NonePasses};

use crate::fault::LockFault;
use crate::lock::Lock;
use dav_text::Path;
use std::alloc::Global;

// How many locks can be held.
const LOCKS_MAX: usize = 256;

/// The place of the first lock with the token.
pub(crate) fn place_of(locks: &[Lock], token: &str) -> Option<usize>
    ensures { MatchOption result (NonePasses (has_token token.now) locks.now) (IsFirst (has_token token.now) locks.now) }
{
    for (place, lock) in locks.iter().enumerate() {
        if lock.has_token(token) {
            return Some(place);
        }
    }
    None
}

/// Whether a lock has the token.
pub(crate) fn is_held(locks: &[Lock], token: &str) -> bool
    ensures { result ≡ is_held_lem token.now locks.now }
{
    locks.iter().any(|lock| lock.has_token(token))
}

/// The first lock with the root.
pub(crate) fn find_root<'a>(locks: &'a [Lock], root: &Path) -> Option<&'a Lock>
    ensures { option_copied result ≡ find (has_root root.now) locks.now }
{
    locks.iter().find(|lock| lock.has_root(root))
}

/// Puts the lock in the place of the one with its token, or behind the others.
pub(crate) fn hold(alloc: Global, locks: &mut Vec<Lock>, lock: &Lock) -> Result<(), LockFault>
    requires { IsStore locks.old.items }
    ensures ok { OnOk result (locks.new.items ≡ held lock.now locks.old.items) }
    ensures err { OnErr result (locks.new.items ≡ locks.old.items) }
    ensures full { IsFull lock.now.token locks.old.items → result ≡ Err LockFault.Full }
    ensures cause { IfErr result (λ f. f ≢ LockFault.Memory → (f ≡ LockFault.Full) × IsFull lock.now.token locks.old.items) }
{
    match place_of(locks.as_slice(), lock.token.as_str()) {
        Some(place) => {
            let lock = lock.copy(alloc)?;
            locks[place] = lock;
            Ok(())
        }
        None => {
            if locks.len() >= LOCKS_MAX {
                return Err(LockFault::Full);
            }
            let lock = lock.copy(alloc)?;
            append(locks, lock)
        }
    }
}

// Puts the lock behind the others.
fn append(locks: &mut Vec<Lock>, lock: Lock) -> Result<(), LockFault>
    ensures ok { OnOk result (locks.new.items ≡ locks.old.items ++ lock ∷ []) }
    ensures err { OnErr result (locks.new.items ≡ locks.old.items) }
    ensures cause { IfErr result (λ f. f ≡ LockFault.Memory) }
{
    match locks.push(lock) {
        Ok(()) => Ok(()),
        Err(_) => Err(LockFault::Memory),
    }
}

/// Takes the locks with the token away.
pub(crate) fn remove(locks: &mut Vec<Lock>, token: &str)
    ensures { locks.new.items ≡ without token.now locks.old.items }
{
    locks.retain(|lock| !lock.has_token(token));
}
