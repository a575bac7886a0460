ghost use Rattle.std.specs.Prelude.{◌≡◌, ◌⊎◌, ℕ, ◌+◌, ◌≤◌, List, [], ◌∷◌, ◌++◌, OnOk, IfOk, IfErr};
ghost use Rattle.dav_disk.specs.Disk.{Touches, AllStay};
ghost use Rattle.dav_store.specs.Cause.{IsCaused, IsNoDamage};
ghost use Rattle.dav_store.specs.Rows.{IsReading};
ghost use Rattle.dav_store.specs.Start.{head_of};
ghost use Rattle.dav_store.specs.View.{journal_end};
ghost use Rattle.dav_store.specs.declared.fault.StoreFault.TheVariants.{NotACache, Disk as DiskFault};
ghost use Rattle.dav_index.specs.Records.{IsRecord, text_of};
ghost use Rattle.dav_index.specs.Tables.{replay, fresh_table};
ghost use Rattle.dav_index.specs.Bounds.{IsWithin};
ghost use Rattle.dav_recorder.specs.Opening.{IsNoRecord, IsBadRow, IsRead, IsOpened};
ghost use Rattle.dav_recorder.specs.Recovers.{Replays};
ghost use Rattle.dav_recorder.specs.declared.reading.Next.TheVariants.{Row, End};

use dav_disk::Disk;
use dav_index::{Record, RecordFault, Table};
use dav_store::{Journal, StoreFault};
use std::alloc::Global;

/// An index that is shorter than 2^40 bytes has fewer rows than this, as each takes at least four bytes.
const TOO_MANY_ROWS: u64 = 274_877_906_944;

/// An index that was read whole, and the table that it leads to.
#[derive(Drop)]
pub(crate) struct Opened {
    pub(crate) journal: Journal,
    pub(crate) table: Table,
}

/// What stands next in an index.
#[derive(Clone, Copy, Debug, PartialEq, Eq)]
enum Next {
    Row,
    End,
}

/// Reads all records of an index whose head was read, and replays them. Answers `NotACache` with the offset of the first row
/// that is cut off, is no record, or leads to a table that is not within bounds.
pub(crate) fn read_table<D: Disk>(
    alloc: Global,
    disk: &mut D,
    journal: Journal,
) -> Result<Opened, StoreFault>
    ensures read { D.honest disk.new → IfOk result (λ o. (url : List ℕ) → IsReading (head_of url ∷ []) (journal_end journal) (D.seen disk.old 0) (D.past disk.old (D.moment disk.old) 0)
        → IsOpened url o.table (journal_end o.journal) (D.seen disk.new 0) (D.past disk.new (D.moment disk.new) 0)) }
    ensures refused { D.honest disk.new → IfErr result (λ e. (at : ℕ) → e ≡ NotACache at → (url : List ℕ)
        → IsReading (head_of url ∷ []) (journal_end journal) (D.seen disk.old 0) (D.past disk.old (D.moment disk.old) 0) → IsBadRow url at (D.seen disk.old 0)) }
    ensures touches { D.honest disk.new → Touches (λ _. ⊥) (D.moment disk.old) (D.moment disk.new) (D.past disk.old) (D.past disk.new) }
    ensures seen { D.honest disk.new → AllStay (D.seen disk.old) (D.seen disk.new) }
    ensures replayed { IfOk result (λ o. (records : List Record) × Replays fresh_table records o.table) }
    ensures within { IfOk result (λ o. IsWithin o.table) }
    ensures keeps { D.honest disk.new → D.honest disk.old }
    ensures cause { IsCaused (D.faults disk.old) (D.faults disk.new) result }
    ensures moments { D.moment disk.old ≤ D.moment disk.new }
    ensures undamaged { IfErr result IsNoDamage }
{
    let mut journal = journal;
    let mut table = Table::new(alloc);
    for row in 1..TOO_MANY_ROWS {
        match next_record(alloc, disk, &mut journal, &mut table, row) {
            Ok(Next::Row) => {}
            Ok(Next::End) => return Ok(Opened { journal, table }),
            Err(fault) => return Err(fault),
        }
    }
    Err(StoreFault::Memory)
}

/// Reads one row more, the table being that of the rows so far.
fn next_record<D: Disk>(
    alloc: Global,
    disk: &mut D,
    journal: &mut Journal,
    table: &mut Table,
    row: u64,
) -> Result<Next, StoreFault>
    requires row { row ≡ table.old.records + 1 }
    requires in_bounds { IsWithin table.old }

    ensures more { D.honest disk.new → IfOk result (λ n. n ≡ Row → (url : List ℕ) (records : List Record) → IsRead url records table.old (journal_end journal.old) (D.seen disk.old 0) (D.past disk.old (D.moment disk.old) 0)
        → (r : Record) × IsRead url (records ++ r ∷ []) table.new (journal_end journal.new) (D.seen disk.new 0) (D.past disk.new (D.moment disk.new) 0)) }
    ensures ended { D.honest disk.new → IfOk result (λ n. n ≡ End → (url : List ℕ) (records : List Record) → IsRead url records table.old (journal_end journal.old) (D.seen disk.old 0) (D.past disk.old (D.moment disk.old) 0)
        → IsOpened url table.new (journal_end journal.new) (D.seen disk.new 0) (D.past disk.new (D.moment disk.new) 0)) }
    ensures refused { D.honest disk.new → IfErr result (λ e. (at : ℕ) → e ≡ NotACache at → (url : List ℕ) (records : List Record)
        → IsRead url records table.old (journal_end journal.old) (D.seen disk.old 0) (D.past disk.old (D.moment disk.old) 0) → IsBadRow url at (D.seen disk.old 0)) }
    ensures counted { IfOk result (λ n. n ≡ Row → table.new.records ≡ row) }
    ensures record { IfOk result (λ n. n ≡ Row → (r : Record) × IsRecord r × (table.new ≡ replay table.old r)) }
    ensures same { IfOk result (λ n. n ≡ End → table.new ≡ table.old) }
    ensures within { OnOk result (IsWithin table.new) }
    ensures touches { D.honest disk.new → Touches (λ _. ⊥) (D.moment disk.old) (D.moment disk.new) (D.past disk.old) (D.past disk.new) }
    ensures seen { D.honest disk.new → AllStay (D.seen disk.old) (D.seen disk.new) }
    ensures keeps { D.honest disk.new → D.honest disk.old }
    ensures cause { IsCaused (D.faults disk.old) (D.faults disk.new) result }
    ensures moments { D.moment disk.old ≤ D.moment disk.new }
    ensures undamaged { IfErr result IsNoDamage }
{
    match journal.next_row(disk) {
        Ok(None) => Ok(Next::End),
        Ok(Some((at, payload))) => match replay_row(alloc, table, row, at, payload.as_slice()) {
            Ok(()) => Ok(Next::Row),
            Err(fault) => Err(fault),
        },
        Err(fault) => Err(fault),
    }
}

/// Replays a row, if it is a record after which the table is within bounds.
fn replay_row(
    alloc: Global,
    table: &mut Table,
    row: u64,
    at: u64,
    payload: &[u8],
) -> Result<(), StoreFault>
    requires row { row ≡ table.old.records + 1 }
    requires in_bounds { IsWithin table.old }

    ensures record { OnOk result ((r : Record) × IsRecord r × (payload.now ≡ text_of r) × (table.new ≡ replay table.old r) × IsWithin table.new) }
    ensures refused { IfErr result (λ e. (place : ℕ) → e ≡ NotACache place → (place ≡ at) × IsNoRecord table.old payload.now) }
    ensures memory { IfErr result (λ e. e ≡ DiskFault → ⊥) }
    ensures undamaged { IfErr result IsNoDamage }
{
    let record = match Record::read(alloc, payload) {
        Ok(record) => record,
        Err(RecordFault::Memory) => return Err(StoreFault::Memory),
        Err(_) => return Err(StoreFault::NotACache { at }),
    };
    let is_within = table.replay_within(row, &record)?;
    if !is_within {
        return Err(StoreFault::NotACache { at });
    }
    Ok(())
}
