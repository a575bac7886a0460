ghost use Rattle.std.specs.Prelude.{◌≡◌, IfOk};
ghost use Rattle.dav_locks.specs.Submitted.{is_submitted as is_submitted_lem};
ghost use Rattle.dav_locks.specs.Paths.{is_below as is_below_lem, is_child as is_child_lem};
ghost use Rattle.dav_locks.specs.Held.{has_token as has_token_lem, has_root as has_root_lem};

use crate::reach::{Depth, Use};
use crate::token::Token;
use dav_text::{Memory, Path};
use std::alloc::Global;

/// A lock that is held: RFC 4918 section 6.
#[derive(Debug, Drop)]
pub struct Lock {
    /// The token that submits it.
    pub token: Token,
    /// What it was taken of.
    pub root: Path,
    /// How far below the root it reaches.
    pub depth: Depth,
    /// Whether it was taken by itself, for a file that was opened.
    pub auto: bool,
    /// How many seconds the server grants it; None where it grants it without end.
    pub seconds: Option<u32>,
    /// The moment from which on it is to be renewed.
    pub renew_at: u64,
}

impl Lock {
    /// Whether a request submits the lock that does this with the path, so far below it.
    pub fn is_submitted(&self, how: Use, path: &Path, depth: Depth) -> bool
        ensures { result ≡ is_submitted_lem how path.now depth self.now }
    {
        if self.has_root(path) {
            return true;
        }
        if self.depth.is_infinite() && is_below(&self.root, path) {
            return true;
        }
        if depth.is_infinite() && is_below(path, &self.root) {
            return true;
        }
        how.is_of_member() && is_child(&self.root, path)
    }

    /// Whether the lock has this token.
    pub fn has_token(&self, token: &str) -> bool
        ensures { result ≡ has_token_lem token.now self.now }
    {
        self.token.as_bytes() == token.as_bytes()
    }

    /// Whether this is the lock's root, a slash at its end aside.
    pub fn has_root(&self, root: &Path) -> bool
        ensures { result ≡ has_root_lem root.now self.now }
    {
        self.root.same(root)
    }

    /// Another value of the same lock.
    pub fn copy(&self, alloc: Global) -> Result<Lock, Memory>
        ensures { IfOk result (λ lock. lock ≡ self.now) }
    {
        let token = self.token.copy(alloc)?;
        let root = self.root.copy(alloc)?;
        Ok(Lock {
            token,
            root,
            depth: self.depth,
            auto: self.auto,
            seconds: self.seconds,
            renew_at: self.renew_at,
        })
    }
}

// Whether the path stands strictly below the top.
fn is_below(top: &Path, path: &Path) -> bool
    ensures { result ≡ is_below_lem top.now path.now }
{
    path.is_under(top)
}

// Whether the path stands right below the parent.
fn is_child(parent: &Path, path: &Path) -> bool
    ensures { result ≡ is_child_lem parent.now path.now }
{
    parent.is_parent_of(path)
}
