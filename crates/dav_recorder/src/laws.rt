ghost use Rattle.std.specs.Prelude.{◌≡◌, ◌⊎◌, ℕ, ◌≤◌, List, Option, None, Some};
ghost use Rattle.dav_disk.specs.Disk.{Doubt, MightLeave};
ghost use Rattle.dav_deeds.specs.DeskTable.{DeskTable};
ghost use Rattle.dav_deeds.specs.Fate.{IsKept};
ghost use Rattle.dav_deeds.specs.Effects.{record_of, released_of};
ghost use Rattle.dav_deeds.specs.Legal.{IsLegal, Legal, new_body, table_after};
ghost use Rattle.dav_deeds.specs.Sound.{IsSound};
ghost use Rattle.dav_index.specs.Records.{text_of};
ghost use Rattle.dav_index.specs.declared.record.Record.{Record};
ghost use Rattle.dav_deeds.specs.declared.deed.Step.{Step};
ghost use Rattle.dav_recorder.specs.Planned.{kept_table, HasNew, IsPlanned, IsQuiet};
ghost use Rattle.dav_recorder.specs.Recovers.{Recovers};
ghost use Rattle.dav_recorder.specs.Survives.{IsFront, HasUnder, Survives, SurviveAll, with_under};

/// A law: what survives at each moment since a desk began survives in each image that a stop may have left from some moment
/// on.
pub fn survives_from()
    ensures { (past : ℕ → ℕ → Doubt) (start now : ℕ) (url : List ℕ) (opening : DeskTable) (steps : List Step) (under : Option Step) (bodies : ℕ → List ℕ) → SurviveAll past start now url opening steps under bodies
        → (m : ℕ) (image : ℕ → List ℕ) → start ≤ m → MightLeave past now m image → Survives url opening steps under bodies m image }
{}

/// A law: where steps survive in an image, it recovers to the table after some of them, among which is each that ended up to
/// that moment, and of these the bytes closed last of each path are queued, or were sent, or are among the lost files.
pub fn last_bytes_survive()
    ensures { (url : List ℕ) (opening : DeskTable) (steps : List Step) (under : Option Step) (bodies : ℕ → List ℕ) (m : ℕ) (image : ℕ → List ℕ) → opening.job ≡ None → Legal opening (with_under steps under)
        → Survives url opening steps under bodies m image
        → (done : List Step) × (IsFront m steps done ⊎ HasUnder under steps done) × Recovers url (kept_table (table_after opening done)) bodies image × IsKept opening done (table_after opening done).index }
{}

/// A law: each step of a desk whose table is within its bounds may be put on the disk. One with a record with the text of that
/// record, the file and bytes of its new body, and the files that it frees; one without a record with these files alone.
pub fn steps_are_planned()
    ensures with_record { (t : DeskTable) (s : Step) (r : Record) (bodies : ℕ → List ℕ) (fresh : Option ℕ) (bytes : List ℕ) → IsSound t → IsLegal t s → record_of t s.now s.deed ≡ Some r → HasNew (new_body s.deed) bodies fresh bytes
        → IsPlanned t s bodies fresh bytes (text_of r) (released_of t s.now s.deed) }
    ensures quiet { (t : DeskTable) (s : Step) → IsSound t → IsLegal t s → record_of t s.now s.deed ≡ None → IsQuiet t s (released_of t s.now s.deed) }
{}
