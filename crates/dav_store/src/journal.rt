ghost use Rattle.std.specs.Prelude.{◌≡◌, ℕ, ◌+◌, ◌≤◌, min, List, [], ◌∷◌, ◌++◌, length, drop, is_ok, is_some, vec_capacity, IsNone, IfSome, IfOk, IfErr, OnOk, if◌then◌else◌};
ghost use Rattle.dav_disk.specs.Disk.{Touches, LeavesOnly, OthersStay, AllStay};
ghost use Rattle.dav_store.specs.Cause.{IsCaused, OnlyDisk, IsNoDamage};
ghost use Rattle.dav_store.specs.Counts.{IsCountedAs};
ghost use Rattle.dav_store.specs.Rows.{IsPayload, IsClosed, HasRow, IsBroken, IsReading, IsAtRest, IsReady, IsBeforeOrAfter};
ghost use Rattle.dav_store.specs.declared.fault.StoreFault.TheVariants.{NotACache};

use crate::StoreFault;
use crate::gate::open_row;
use crate::reading::row_at;
use crate::row::stage;
use dav_disk::Disk;
use dav_text::{Blob, Memory};
use std::alloc::Global;

/// The index: rows in file 0, the first of them a head.
#[derive(Drop)]
pub struct Journal {
    alloc: Global,
    room: Vec<u8>,
    end: u64,
    rows: u64,
    head: Blob,
    ghost roomy: { 65538 ≤ vec_capacity room },
}

impl Journal {
    ghost use Rattle.dav_store.specs.View.{journal_end, journal_rows, journal_head};

    /// One that has given no row, with that head, and with room for every row.
    pub(crate) fn blank(alloc: Global, head: &[u8]) -> Result<Journal, Memory>
        ensures end { IfOk result (λ j. journal_end j ≡ 0) }
        ensures rows { IfOk result (λ j. journal_rows j ≡ 0) }
        ensures head { IfOk result (λ j. journal_head j ≡ head.now) }
    {
        let room = Vec::with_capacity(alloc, 65538)?;
        let head = Blob::copy_of(alloc, head)?;
        Ok(Journal {
            alloc,
            room,
            end: 0,
            rows: 0,
            head,
        })
    }

    /// The payload of the head row.
    pub fn head(&self) -> &[u8]
        ensures { result.now ≡ journal_head self.now }
    {
        self.head.as_slice()
    }

    /// How many rows were given or added so far, the head included.
    pub fn rows(&self) -> u64
        ensures { result ≡ journal_rows self.now }
    {
        self.rows
    }

    pub(crate) fn set_head(&mut self, head: Blob)
        ensures end { journal_end self.new ≡ journal_end self.old }
        ensures rows { journal_rows self.new ≡ journal_rows self.old }
        ensures head { journal_head self.new ≡ head }
    {
        self.head = head;
    }

    /// The next row that stands, with the offset of its gate; None at the closed gate. Answers `NotACache` where the gate
    /// is missing, or the row is cut off by the file's end or has the length 0.
    pub fn next_row<D: Disk>(&mut self, disk: &mut D) -> Result<Option<(u64, Blob)>, StoreFault>
        ensures closed { D.honest disk.new → IfOk result (λ o. IsNone o → IsClosed (drop (journal_end self.old) (D.seen disk.old 0))) }
        ensures row { D.honest disk.new → IfOk result (λ o. IfSome o (λ p. (p.0 ≡ journal_end self.old) × HasRow p.1 (drop (journal_end self.old) (D.seen disk.old 0)))) }
        ensures broken { D.honest disk.new → IfErr result (λ e. (at : ℕ) → e ≡ NotACache at → (at ≡ journal_end self.old) × IsBroken (drop (journal_end self.old) (D.seen disk.old 0))) }
        ensures at_rest { D.honest disk.new → IfOk result (λ o. IsNone o → (rows : List (List ℕ)) → IsReading rows (journal_end self.old) (D.seen disk.old 0) (D.past disk.old (D.moment disk.old) 0)
            → IsAtRest rows (journal_end self.new) (D.seen disk.new 0) (D.past disk.new (D.moment disk.new) 0)) }
        ensures reading { D.honest disk.new → IfOk result (λ o. IfSome o (λ p. (rows : List (List ℕ)) → IsReading rows (journal_end self.old) (D.seen disk.old 0) (D.past disk.old (D.moment disk.old) 0)
            → IsReading (rows ++ p.1 ∷ []) (journal_end self.new) (D.seen disk.new 0) (D.past disk.new (D.moment disk.new) 0))) }
        ensures touches { D.honest disk.new → Touches (λ _. ⊥) (D.moment disk.old) (D.moment disk.new) (D.past disk.old) (D.past disk.new) }
        ensures seen { D.honest disk.new → AllStay (D.seen disk.old) (D.seen disk.new) }
        ensures keeps { D.honest disk.new → D.honest disk.old }
        ensures cause { IsCaused (D.faults disk.old) (D.faults disk.new) result }
        ensures moments { D.moment disk.old ≤ D.moment disk.new }
        ensures undamaged { IfErr result IsNoDamage }
        ensures rows { IfOk result (λ o. journal_rows self.new ≡ (if is_some o then min (journal_rows self.old + 1) 18446744073709551615 else journal_rows self.old)) }
        ensures head { journal_head self.new ≡ journal_head self.old }
    {
        let gate = self.end;
        match row_at(self.alloc, disk, gate)? {
            None => Ok(None),
            Some(row) => {
                self.pass(row.len());
                Ok(Some((gate, row)))
            }
        }
    }

    // One row more, of that length.
    fn pass(&mut self, len: usize)
        ensures end { journal_end self.new ≡ min (journal_end self.old + (len + 3)) 18446744073709551615 }
        ensures rows { journal_rows self.new ≡ min (journal_rows self.old + 1) 18446744073709551615 }
        ensures head { journal_head self.new ≡ journal_head self.old }
    {
        self.end = self.end.saturating_add(3).saturating_add(len as u64);
        self.rows = self.rows.saturating_add(1);
    }

    /// Adds a row. At each moment of the call a stop leaves the rows from before it, with the new one or without; after
    /// `Ok`, with it. Takes no memory, and answers `Disk` alone; a journal that did is not to be added to.
    pub fn append<D: Disk>(&mut self, disk: &mut D, payload: &[u8]) -> Result<(), StoreFault>
        requires fits { IsPayload payload.now }
        requires ready { D.honest disk.old → IsReady (journal_end self.old) (D.seen disk.old 0) (D.past disk.old (D.moment disk.old) 0) }

        ensures appended { D.honest disk.new → OnOk result ((rows : List (List ℕ)) → IsAtRest rows (journal_end self.old) (D.seen disk.old 0) (D.past disk.old (D.moment disk.old) 0)
            → IsAtRest (rows ++ payload.now ∷ []) (journal_end self.new) (D.seen disk.new 0) (D.past disk.new (D.moment disk.new) 0)) }
        ensures any_moment { D.honest disk.new → (rows : List (List ℕ)) → IsAtRest rows (journal_end self.old) (D.seen disk.old 0) (D.past disk.old (D.moment disk.old) 0)
            → LeavesOnly (D.past disk.new) 0 (D.moment disk.old) (D.moment disk.new) (IsBeforeOrAfter rows payload.now) }
        ensures ready { D.honest disk.new → OnOk result (IsReady (journal_end self.new) (D.seen disk.new 0) (D.past disk.new (D.moment disk.new) 0)) }
        ensures touches { D.honest disk.new → Touches (λ f. f ≡ 0) (D.moment disk.old) (D.moment disk.new) (D.past disk.old) (D.past disk.new) }
        ensures others { D.honest disk.new → OthersStay 0 (D.seen disk.old) (D.seen disk.new) }
        ensures counts { IsCountedAs 4 (D.moment disk.old) (D.moment disk.new) result }
        ensures only { OnlyDisk result }
        ensures keeps { D.honest disk.new → D.honest disk.old }
        ensures cause { IsCaused (D.faults disk.old) (D.faults disk.new) result }
        ensures rows { journal_rows self.new ≡ (if is_ok result then min (journal_rows self.old + 1) 18446744073709551615 else journal_rows self.old) }
        ensures head { journal_head self.new ≡ journal_head self.old }
    {
        stage(&mut self.room, payload);
        open_row(disk, self.end, self.room.as_slice())?;
        self.pass(payload.len());
        Ok(())
    }
}
