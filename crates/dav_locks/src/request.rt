ghost use Rattle.std.specs.Prelude.{◌≡◌};
ghost use Rattle.dav_locks.specs.Submitted.{submitted};
ghost use Rattle.dav_locks.specs.SubmitsView.{left};

use crate::list::Locks;
use crate::reach::{Depth, Use};
use crate::submitted::Submits;
use dav_text::Path;

/// The locks of the list that a request submits which does this with the path, so far below it.
pub fn submits<'a>(locks: &'a Locks, how: Use, path: &'a Path, depth: Depth) -> Submits<'a>
    ensures { left result ≡ submitted locks.now how path.now depth }
{
    Submits::of(locks.as_slice(), how, path, depth)
}
