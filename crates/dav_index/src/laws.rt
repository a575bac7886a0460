ghost use Rattle.std.specs.Prelude.{◌≡◌, ◌≢◌, ◌<◌, ℕ, Bool, false, List, Option, Some, None, length};
ghost use Rattle.dav_text.specs.Path.{PathParts};
ghost use Rattle.dav_index.specs.Bounds.{IsWithin};
ghost use Rattle.dav_index.specs.Faults.{IsRefused};
ghost use Rattle.dav_index.specs.Item.{Item};
ghost use Rattle.dav_index.specs.Items.{entry_at, with_entry, without_entry, same_path, IsMap};
ghost use Rattle.dav_index.specs.Records.{IsRecord, text_of};
ghost use Rattle.dav_index.specs.Tables.{fresh_table, replay, restarted};
ghost use Rattle.dav_index.specs.declared.entry.Entry.{Entry};
ghost use Rattle.dav_index.specs.declared.fault.RecordFault.{RecordFault};
ghost use Rattle.dav_index.specs.declared.record.Record.{Record};
ghost use Rattle.dav_index.specs.declared.table.Table.{Table};

/// A law: a text is that of one record at most.
pub fn one_text_one_record()
    ensures { (a b : Record) → IsRecord a → IsRecord b → text_of a ≡ text_of b → a ≡ b }
{}

/// A law: the text of a record is refused for no reason.
pub fn records_are_not_refused()
    ensures { (r : Record) (fault : RecordFault) → IsRecord r → IsRefused (text_of r) fault → ⊥ }
{}

/// A law: the text of a record fits in a row.
pub fn records_fit()
    ensures { (r : Record) → IsRecord r → length (text_of r) < 65536 }
{}

/// A law: a cache without records is within its bounds.
pub fn fresh_is_within()
    ensures { IsWithin fresh_table }
{}
