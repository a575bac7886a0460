ghost use Rattle.std.specs.Prelude.{◌≡◌, ◌↔◌, ℕ, Bool, true, false, List, [], ◌∷◌, length, take, drop};
ghost use Rattle.dav_disk.specs.Record.{FileState};
ghost use Rattle.dav_disk.specs.Events.{Event, measured, gave, wrote, shortened, flushed, seen_of, IsSound, IsHonest};

/// Before the first call a folder is honest exactly where each file reads as one of the outcomes of a stop, and is no
/// longer than the greatest u64.
pub fn fresh_is_honest()
    ensures { (start : ℕ → FileState) → IsHonest start [] ↔ ((f : ℕ) → IsSound (start f)) }
{}

/// A size keeps honesty exactly where it failed, or gave the length of the file.
pub fn size_is_compared()
    ensures went { (start : ℕ → FileState) (history : List Event) (file size : ℕ)
        → IsHonest start (measured file true size ∷ history) ↔ ((size ≡ length (seen_of start history file)) × IsHonest start history) }
    ensures failed { (start : ℕ → FileState) (history : List Event) (file size : ℕ)
        → IsHonest start (measured file false size ∷ history) ↔ IsHonest start history }
{}

/// A read keeps honesty exactly where it failed, or gave the bytes of the file from its place on, as far as there was room.
pub fn read_is_compared()
    ensures went { (start : ℕ → FileState) (history : List Event) (file at room : ℕ) (bytes : List ℕ)
        → IsHonest start (gave file at room true bytes ∷ history) ↔ ((bytes ≡ take room (drop at (seen_of start history file))) × IsHonest start history) }
    ensures failed { (start : ℕ → FileState) (history : List Event) (file at room : ℕ) (bytes : List ℕ)
        → IsHonest start (gave file at room false bytes ∷ history) ↔ IsHonest start history }
{}

/// A write keeps honesty, whether it went or failed.
pub fn write_is_taken()
    ensures { (start : ℕ → FileState) (history : List Event) (file at : ℕ) (went : Bool) (bytes : List ℕ)
        → IsHonest start (wrote file at went bytes ∷ history) ↔ IsHonest start history }
{}

/// So does a cut.
pub fn cut_is_taken()
    ensures { (start : ℕ → FileState) (history : List Event) (file len : ℕ) (went : Bool)
        → IsHonest start (shortened file len went ∷ history) ↔ IsHonest start history }
{}

/// And a sync.
pub fn sync_is_taken()
    ensures { (start : ℕ → FileState) (history : List Event) (file : ℕ) (went : Bool)
        → IsHonest start (flushed file went ∷ history) ↔ IsHonest start history }
{}
