ghost use Rattle.dav_disk.specs.Record.{missing};

use dav_disk::Start;

/// What a folder held, for `main` to name, since no code knows it. What is proved of a function over any `S: Start` holds at
/// the real contents; at this type alone it would say nothing of a folder that was not empty.
#[derive(Drop)]
pub struct Unknown;

impl Start for Unknown {
    ghost files = { λ _. missing };
}
