ghost use Rattle.std.specs.Prelude.{◌≡◌, ◌≢◌, ◌⊎◌, ℕ, ◌≤◌, false, List, Option, Some, None};
ghost use Rattle.std.specs.List.{Contains};
ghost use Rattle.dav_store.specs.declared.body_id.BodyId.{BodyId};
ghost use Rattle.dav_index.specs.Records.{IsRecord};
ghost use Rattle.dav_index.specs.Tables.{restarted};
ghost use Rattle.dav_index.specs.Bounds.{bodies_of, IsWithin};
ghost use Rattle.dav_index.specs.declared.record.Record.{Record};
ghost use Rattle.dav_index.specs.declared.table.Table.{Table};
ghost use Rattle.dav_deeds.specs.declared.deed.Deed.{Deed};
ghost use Rattle.dav_deeds.specs.declared.deed.Step.{Step};
ghost use Rattle.dav_deeds.specs.DeskTable.{DeskTable, reopened, started};
ghost use Rattle.dav_deeds.specs.Effects.{after, record_of, recorded, released_of, is_flying, told_of};
ghost use Rattle.dav_deeds.specs.Spare.{HasSpare, IsSaved, kept_spare};
ghost use Rattle.dav_deeds.specs.declared.spare.Spare.{Spare};
ghost use Rattle.dav_deeds.specs.Legal.{IsDeed, Legal, new_body, table_after};
ghost use Rattle.dav_deeds.specs.Fate.{IsKept};
ghost use Rattle.dav_deeds.specs.Sound.{IsSound};

/// A law: after steps of a desk the bytes closed last of each path are queued, or were sent by one of the
/// steps whose job was taken with them, or are among the lost files.
pub fn last_bytes_are_kept()
    ensures { (opening : DeskTable) (steps : List Step) → opening.job ≡ None → Legal opening steps → IsKept opening steps (table_after opening steps).index }
{}

/// A law: a start finds after a deed what the record of the deed makes of that which a start before it
/// finds.
pub fn records_are_enough()
    ensures { (t : DeskTable) (now : ℕ) (deed : Deed) → reopened (after t now deed) ≡ started (recorded (reopened t).index (record_of t now deed)) }
{}

/// A law: each deed keeps a table sound, and so do all steps of a desk.
pub fn deeds_keep_bounds()
    ensures deed { (t : DeskTable) (now : ℕ) (deed : Deed) → IsSound t → IsDeed t deed → IsSound (after t now deed) }
    ensures steps { (t : DeskTable) (steps : List Step) → IsSound t → Legal t steps → IsSound (table_after t steps) }
{}

/// A law: what a deed puts on record is a record.
pub fn records_are_written()
    ensures { (t : DeskTable) (now : ℕ) (deed : Deed) (r : Record) → IsSound t → IsDeed t deed → record_of t now deed ≡ Some r → IsRecord r }
{}

/// A law: after a deed the table names no bodies but those that it named before and the new one of the
/// deed.
pub fn deeds_name_one_body()
    ensures { (t : DeskTable) (now : ℕ) (deed : Deed) (body : BodyId) → IsSound t → IsDeed t deed
        → Contains (bodies_of (after t now deed).index) body → Contains (bodies_of t.index) body ⊎ (new_body deed ≡ Some body) }
{}

/// A law: after a deed that releases a file no body of the table is in it, and it isn't that of the job in
/// flight. Each such file is one of bodies.
pub fn released_files_are_free()
    ensures body { (t : DeskTable) (now : ℕ) (deed : Deed) (file : ℕ) → IsSound t → IsDeed t deed → Contains (released_of t now deed) file
        → (body : BodyId) → Contains (bodies_of (after t now deed).index) body → body.file ≢ file }
    ensures job { (t : DeskTable) (now : ℕ) (deed : Deed) (file : ℕ) → IsSound t → IsDeed t deed → Contains (released_of t now deed) file
        → is_flying (after t now deed).job file ≡ false }
    ensures begins { (t : DeskTable) (now : ℕ) (deed : Deed) (file : ℕ) → IsSound t → Contains (released_of t now deed) file → 2 ≤ file }
{}

/// A law: a start keeps a table within its bounds, and the bodies that it names.
pub fn starts_keep_bodies()
    ensures within { (t : Table) → IsWithin t → IsWithin (restarted t) }
    ensures bodies { (t : Table) → bodies_of (restarted t) ≡ bodies_of t }
{}

/// A law: after each deed what was saved with its answer, or else what was there before, is enough for the end of
/// the job in flight.
pub fn ends_have_room()
    ensures { (t : DeskTable) (now : ℕ) (deed : Deed) (old saved : Option Spare) → HasSpare t old → IsSaved t.index (told_of t now deed) saved → HasSpare (after t now deed) (kept_spare saved old) }
{}
