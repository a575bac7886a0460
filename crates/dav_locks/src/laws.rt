ghost use Rattle.std.specs.Prelude.{◌≡◌, ◌↔◌, ℕ, List, IsTrue};
ghost use Rattle.dav_text.specs.Path.{PathParts};
ghost use Rattle.dav_locks.specs.Grammar.{Condition, If};
ghost use Rattle.dav_locks.specs.Held.{held, IsStore, tokens, tokens_after};
ghost use Rattle.dav_locks.specs.Submitted.{is_submitted, IsSubmitted};
ghost use Rattle.dav_locks.specs.declared.lock.Lock.{Lock};
ghost use Rattle.dav_locks.specs.declared.reach.Depth.{Depth};
ghost use Rattle.dav_locks.specs.declared.reach.Use.{Use};

/// A law: a lock is submitted exactly where its root is the path, or it reaches the path from above, or the
/// request reaches its root from above, or it is the lock of the collection whose member is changed.
pub fn submitted_by_cases()
    ensures { (how : Use) (path : PathParts) (depth : Depth) (lock : Lock) → IsTrue (is_submitted how path depth lock) ↔ IsSubmitted how path depth lock }
{}

/// A law: a value of an If field has one reading at most.
pub fn one_reading()
    ensures { (one other : List Condition) (text : List ℕ) → If one text → If other text → one ≡ other }
{}

/// A law: a token that is held again keeps its place, and a new one comes last.
pub fn held_once()
    ensures { (lock : Lock) (locks : List Lock) → tokens (held lock locks) ≡ tokens_after lock.token (tokens locks) }
{}
