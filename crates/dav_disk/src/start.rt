ghost use Rattle.std.specs.Prelude.{ℕ};
ghost use Rattle.dav_disk.specs.Record.{FileState};

/// What the files of a folder held before the first call, and what of them was in doubt. No code can read it: a function
/// over `S: Start` is proved for each of them.
pub trait Start: Drop {
    ghost files: { ℕ → FileState };
}
