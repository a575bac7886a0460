ghost use Rattle.std.specs.Prelude.{◌≡◌, ℕ, List};
ghost use Rattle.dav_disk.specs.Disk.{Doubt, Touches, LeavesOnly, settled};
ghost use Rattle.dav_store.specs.Rows.{Spells, IsAtRest, HasRow, IsClosed};

/// What is at rest in the index stands in each image, until the index file is changed.
pub fn index_stays()
    ensures { (rows : List (List ℕ)) (end from to : ℕ) (seen : List ℕ) (old new : ℕ → ℕ → Doubt) → IsAtRest rows end seen (old from 0)
        → Touches (λ f. f ≡ 0 → ⊥) from to old new → LeavesOnly new 0 from to (Spells rows) }
{}

/// A body that is settled stands in each image, until its file is changed.
pub fn body_stays()
    ensures { (file from to : ℕ) (bytes : List ℕ) (old new : ℕ → ℕ → Doubt) → old from file ≡ settled bytes
        → Touches (λ f. f ≡ file → ⊥) from to old new → LeavesOnly new file from to (λ c. c ≡ bytes) }
{}

/// A file spells one list of rows at most.
pub fn one_reading()
    ensures { (rows others : List (List ℕ)) (file : List ℕ) → Spells rows file → Spells others file → rows ≡ others }
{}
