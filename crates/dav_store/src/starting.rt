ghost use Rattle.std.specs.Prelude.{◌≡◌, ◌⊎◌, ℕ, ◌<◌, ◌≤◌, List, [], ◌∷◌, length, take, IfOk, IfErr, OnOk, true, false};
ghost use Rattle.dav_disk.specs.Disk.{IsOutcome, Touches, LeavesOnly, OthersStay, AllStay, HasCause, settled};
ghost use Rattle.dav_store.specs.Cause.{IsCaused, IsNoDamage};
ghost use Rattle.dav_store.specs.Found.{IsFound};
ghost use Rattle.dav_store.specs.Rows.{IsPayload, IsClosed, HasRow, Spells, IsReading, IsAtRest};
ghost use Rattle.dav_store.specs.Start.{IsHead, IsNothing, IsRefused, LacksHead};
ghost use Rattle.dav_store.specs.View.{journal_end, journal_rows, journal_head};
ghost use Rattle.dav_store.specs.declared.fault.StoreFault.TheVariants.{NotACache};
ghost use Rattle.dav_store.specs.declared.starting.Found.TheVariants.{Nothing};

use crate::gate::close_gate;
use crate::head::is_head;
use crate::{Journal, StoreFault};
use dav_disk::{Disk, Failed};
use dav_text::Blob;
use std::alloc::Global;

/// An index file of this many bytes, or more, is none.
const TOO_LONG: u64 = 1_099_511_627_776;

/// What a start finds in the index file.
#[derive(Clone, Copy, Debug, PartialEq, Eq)]
pub(crate) enum Found {
    TooLong,
    /// Nothing stands; the first gate is there and closed, or is still to be written.
    Nothing { closed: bool },
    Something,
}

/// Settles the index file, and looks what is in it.
fn look<D: Disk>(disk: &mut D) -> Result<Found, Failed>
    ensures found { D.honest disk.new → IfOk result (IsFound (D.seen disk.old 0)) }
    ensures durable { D.honest disk.new → OnOk result (D.past disk.new (D.moment disk.new) 0 ≡ settled (D.seen disk.old 0)) }
    ensures any_moment { D.honest disk.new → LeavesOnly (D.past disk.new) 0 (D.moment disk.old) (D.moment disk.new) (IsOutcome (D.past disk.old (D.moment disk.old) 0)) }
    ensures touches { D.honest disk.new → Touches (λ f. f ≡ 0) (D.moment disk.old) (D.moment disk.new) (D.past disk.old) (D.past disk.new) }
    ensures seen { D.honest disk.new → AllStay (D.seen disk.old) (D.seen disk.new) }
    ensures keeps { D.honest disk.new → D.honest disk.old }
    ensures moments { D.moment disk.old ≤ D.moment disk.new }
    ensures cause { HasCause (D.faults disk.old) (D.faults disk.new) result }
{
    disk.sync(0)?;
    let size = disk.size(0)?;
    let mut gate = [0u8; 1];
    let count = disk.read(0, 0, &mut gate)?;
    Ok(found_in(size, &gate[..count]))
}

/// What is in a file of that size, which begins with these bytes.
fn found_in(size: u64, gate: &[u8]) -> Found
    ensures { (file : List ℕ) → length file ≡ size → gate.now ≡ take 1 file → IsFound file result }
{
    if size >= TOO_LONG {
        return Found::TooLong;
    }
    match gate {
        [0, ..] => Found::Nothing { closed: true },
        _ if size <= 1 => Found::Nothing { closed: false },
        _ => Found::Something,
    }
}

/// Makes the first gate a closed one, where it is not.
fn ready_gate<D: Disk>(disk: &mut D, closed: bool) -> Result<(), Failed>
    ensures at_rest { D.honest disk.new → IsFound (D.seen disk.old 0) (Nothing closed) → D.past disk.old (D.moment disk.old) 0 ≡ settled (D.seen disk.old 0)
        → OnOk result (IsAtRest [] 0 (D.seen disk.new 0) (D.past disk.new (D.moment disk.new) 0)) }
    ensures any_moment { D.honest disk.new → IsFound (D.seen disk.old 0) (Nothing closed) → D.past disk.old (D.moment disk.old) 0 ≡ settled (D.seen disk.old 0)
        → LeavesOnly (D.past disk.new) 0 (D.moment disk.old) (D.moment disk.new) IsNothing }
    ensures touches { D.honest disk.new → Touches (λ f. f ≡ 0) (D.moment disk.old) (D.moment disk.new) (D.past disk.old) (D.past disk.new) }
    ensures others { D.honest disk.new → OthersStay 0 (D.seen disk.old) (D.seen disk.new) }
    ensures keeps { D.honest disk.new → D.honest disk.old }
    ensures moments { D.moment disk.old ≤ D.moment disk.new }
    ensures cause { HasCause (D.faults disk.old) (D.faults disk.new) result }
{
    if closed {
        return Ok(());
    }
    close_gate(disk)
}

impl Journal {
    /// Opens the index of a disk. Where nothing stands in file 0 (it has at most one byte, or its first gate is closed), it is
    /// made with this head. It may be stopped anywhere: what stood stays. Answers `NotACache` where the file has 2^40
    /// bytes or more, and where something stands that does not begin with a whole head row.
    pub fn start<D: Disk>(alloc: Global, disk: &mut D, head: &[u8]) -> Result<Journal, StoreFault>
        requires head { IsHead head.now }
        requires fits { IsPayload head.now }

        ensures reading { D.honest disk.new → IfOk result (λ j. IsReading (journal_head j ∷ []) (journal_end j) (D.seen disk.new 0) (D.past disk.new (D.moment disk.new) 0)) }
        ensures made { D.honest disk.new → IsNothing (D.seen disk.old 0) → IfOk result (λ j. (journal_head j ≡ head.now)
            × IsAtRest (head.now ∷ []) (journal_end j) (D.seen disk.new 0) (D.past disk.new (D.moment disk.new) 0)) }
        ensures opened { D.honest disk.new → (IsNothing (D.seen disk.old 0) → ⊥) → IfOk result (λ j. IsHead (journal_head j) × HasRow (journal_head j) (D.seen disk.old 0)) }
        ensures short { D.honest disk.new → OnOk result (length (D.seen disk.old 0) < 1099511627776) }
        ensures refused { D.honest disk.new → IfErr result (λ e. (at : ℕ) → e ≡ NotACache at → IsRefused at (D.seen disk.old 0)) }
        ensures stays { D.honest disk.new → (IsNothing (D.seen disk.old 0) → ⊥)
            → LeavesOnly (D.past disk.new) 0 (D.moment disk.old) (D.moment disk.new) (IsOutcome (D.past disk.old (D.moment disk.old) 0)) }
        ensures any_moment { D.honest disk.new → LeavesOnly (D.past disk.new) 0 (D.moment disk.old) (D.moment disk.new)
            (λ c. IsOutcome (D.past disk.old (D.moment disk.old) 0) c ⊎ (IsNothing c ⊎ Spells (head.now ∷ []) c)) }
        ensures same { D.honest disk.new → (IsNothing (D.seen disk.old 0) → ⊥) → D.seen disk.new 0 ≡ D.seen disk.old 0 }
        ensures touches { D.honest disk.new → Touches (λ f. f ≡ 0) (D.moment disk.old) (D.moment disk.new) (D.past disk.old) (D.past disk.new) }
        ensures others { D.honest disk.new → OthersStay 0 (D.seen disk.old) (D.seen disk.new) }
        ensures rows { IfOk result (λ j. journal_rows j ≡ 1) }
        ensures keeps { D.honest disk.new → D.honest disk.old }
        ensures cause { IsCaused (D.faults disk.old) (D.faults disk.new) result }
        ensures moments { D.moment disk.old ≤ D.moment disk.new }
        ensures undamaged { IfErr result IsNoDamage }
    {
        let journal = Journal::blank(alloc, head)?;
        match look(disk)? {
            Found::TooLong => Err(StoreFault::NotACache { at: TOO_LONG }),
            Found::Nothing { closed } => journal.make(disk, closed, head),
            Found::Something => journal.open(disk),
        }
    }

    // Adds the head to an index in which nothing stands.
    fn make<D: Disk>(
        mut self,
        disk: &mut D,
        closed: bool,
        head: &[u8],
    ) -> Result<Journal, StoreFault>
        requires fits { IsPayload head.now }
        requires fresh { journal_end self ≡ 0 }
        requires none { journal_rows self ≡ 0 }
        requires found { D.honest disk.old → IsFound (D.seen disk.old 0) (Nothing closed) × (D.past disk.old (D.moment disk.old) 0 ≡ settled (D.seen disk.old 0)) }

        ensures made { D.honest disk.new → IfOk result (λ j. IsAtRest (head.now ∷ []) (journal_end j) (D.seen disk.new 0) (D.past disk.new (D.moment disk.new) 0)) }
        ensures any_moment { D.honest disk.new → LeavesOnly (D.past disk.new) 0 (D.moment disk.old) (D.moment disk.new) (λ c. IsNothing c ⊎ Spells (head.now ∷ []) c) }
        ensures touches { D.honest disk.new → Touches (λ f. f ≡ 0) (D.moment disk.old) (D.moment disk.new) (D.past disk.old) (D.past disk.new) }
        ensures others { D.honest disk.new → OthersStay 0 (D.seen disk.old) (D.seen disk.new) }
        ensures head { IfOk result (λ j. journal_head j ≡ journal_head self) }
        ensures rows { IfOk result (λ j. journal_rows j ≡ 1) }
        ensures only { IfErr result (λ e. (at : ℕ) → e ≡ NotACache at → ⊥) }
        ensures keeps { D.honest disk.new → D.honest disk.old }
        ensures cause { IsCaused (D.faults disk.old) (D.faults disk.new) result }
        ensures moments { D.moment disk.old ≤ D.moment disk.new }
        ensures undamaged { IfErr result IsNoDamage }
    {
        ready_gate(disk, closed)?;
        self.append(disk, head)?;
        Ok(self)
    }

    // Takes the head from an index in which something stands.
    fn open<D: Disk>(mut self, disk: &mut D) -> Result<Journal, StoreFault>
        requires fresh { journal_end self ≡ 0 }
        requires none { journal_rows self ≡ 0 }

        ensures reading { D.honest disk.new → D.past disk.old (D.moment disk.old) 0 ≡ settled (D.seen disk.old 0)
            → IfOk result (λ j. IsReading (journal_head j ∷ []) (journal_end j) (D.seen disk.new 0) (D.past disk.new (D.moment disk.new) 0)) }
        ensures opened { D.honest disk.new → IfOk result (λ j. IsHead (journal_head j) × HasRow (journal_head j) (D.seen disk.old 0)) }
        ensures refused { D.honest disk.new → (IsNothing (D.seen disk.old 0) → ⊥) → IfErr result (λ e. (at : ℕ) → e ≡ NotACache at → (at ≡ 0) × LacksHead (D.seen disk.old 0)) }
        ensures touches { D.honest disk.new → Touches (λ _. ⊥) (D.moment disk.old) (D.moment disk.new) (D.past disk.old) (D.past disk.new) }
        ensures seen { D.honest disk.new → AllStay (D.seen disk.old) (D.seen disk.new) }
        ensures rows { IfOk result (λ j. journal_rows j ≡ 1) }
        ensures keeps { D.honest disk.new → D.honest disk.old }
        ensures cause { IsCaused (D.faults disk.old) (D.faults disk.new) result }
        ensures moments { D.moment disk.old ≤ D.moment disk.new }
        ensures undamaged { IfErr result IsNoDamage }
    {
        match self.next_row(disk) {
            Ok(Some((_, row))) => self.with_head(row),
            Ok(None) => Err(StoreFault::NotACache { at: 0 }),
            Err(fault) => Err(fault),
        }
    }

    // The same, where the first row is a head.
    fn with_head(mut self, row: Blob) -> Result<Journal, StoreFault>
        ensures head { IfOk result (λ j. (journal_head j ≡ row) × IsHead row × (journal_end j ≡ journal_end self) × (journal_rows j ≡ journal_rows self)) }
        ensures refused { IfErr result (λ e. (e ≡ NotACache 0) × (IsHead row → ⊥)) }
    {
        if !is_head(row.as_slice()) {
            return Err(StoreFault::NotACache { at: 0 });
        }
        self.set_head(row);
        Ok(self)
    }
}
