ghost use Rattle.std.specs.Prelude.{ℕ};
ghost use Rattle.std.specs.List.{Contains};
ghost use Rattle.dav_store.specs.declared.body_id.BodyId.{BodyId};
ghost use Rattle.dav_index.specs.Bounds.{bodies_of};
ghost use Rattle.dav_deeds.specs.declared.deed.Deed.{Deed};
ghost use Rattle.dav_deeds.specs.DeskTable.{DeskTable};
ghost use Rattle.dav_deeds.specs.Effects.{after, released_of};
ghost use Rattle.dav_deeds.specs.Legal.{IsDeed, new_body};
ghost use Rattle.dav_deeds.specs.Sound.{IsSound};
ghost use Rattle.dav_recorder.specs.Stands.{IsWritten};
ghost use Rattle.dav_desk.specs.Entry.{file_in};

/// A law: a body that the table names before a deed and after it is in none of the files that the deed changes.
pub fn kept_bodies_are_not_touched()
    ensures { (t : DeskTable) (now : ℕ) (deed : Deed) (body : BodyId) → IsSound t → IsDeed t deed → Contains (bodies_of t.index) body → Contains (bodies_of (after t now deed).index) body
        → IsWritten (file_in (new_body deed)) (released_of t now deed) body.file → ⊥ }
{}
