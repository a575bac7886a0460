ghost use Rattle.std.specs.Prelude.{◌≡◌};
ghost use Rattle.dav_locks.specs.Submitted.{submitted};
ghost use Rattle.dav_locks.specs.SubmitsView.{left};

use crate::lock::Lock;
use crate::reach::{Depth, Use};
use dav_text::Path;

/// The locks that a request submits, in the order of their list.
#[derive(Debug, Drop)]
pub struct Submits<'a> {
    rest: &'a [Lock],
    how: Use,
    path: &'a Path,
    depth: Depth,
}

impl<'a> Submits<'a> {
    /// Those of these locks that a request submits which does this with the path, so far below it.
    pub(crate) fn of(locks: &'a [Lock], how: Use, path: &'a Path, depth: Depth) -> Submits<'a>
        ensures { left result ≡ submitted locks.now how path.now depth }
    {
        Submits {
            rest: locks,
            how,
            path,
            depth,
        }
    }
}

impl<'a> Iterator for Submits<'a> {
    type Item = &'a Lock;

    ghost use Rattle.std.specs.Iterator.{YieldsFirstRef, item_count};
    ghost use Rattle.dav_locks.specs.SubmitsView.{left};

    ghost next_gives = { YieldsFirstRef left };

    ghost remaining = { item_count left };

    fn next(&mut self) -> Option<&'a Lock> {
        while let Some((first, others)) = self.rest.split_first() {
            self.rest = others;
            if first.is_submitted(self.how, self.path, self.depth) {
                return Some(first);
            }
        }
        None
    }
}
