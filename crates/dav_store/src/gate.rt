ghost use Rattle.std.specs.Prelude.{◌≡◌, ℕ, ◌+◌, ◌≤◌, List, [], ◌∷◌, ◌++◌, length, IsErr, OnOk};
ghost use Rattle.dav_disk.specs.Disk.{Touches, LeavesOnly, OthersStay, HasCause, settled};
ghost use Rattle.dav_store.specs.Counts.{IsCountedAs};
ghost use Rattle.dav_store.specs.Rows.{IsPayload, IsAtRest, IsReady, IsBeforeOrAfter, staged};
ghost use Rattle.dav_store.specs.Start.{IsNothing};

use dav_disk::{Disk, Failed};

/// Writes a row's text behind the closed gate of the index, and once that is on the disk opens the gate.
pub(crate) fn open_row<D: Disk>(disk: &mut D, gate: u64, text: &[u8]) -> Result<(), Failed>
    requires { D.honest disk.old → IsReady gate (D.seen disk.old 0) (D.past disk.old (D.moment disk.old) 0) }

    ensures added { D.honest disk.new → OnOk result ((rows : List (List ℕ)) (row : List ℕ) → IsPayload row → text.now ≡ staged row
        → IsAtRest rows gate (D.seen disk.old 0) (D.past disk.old (D.moment disk.old) 0)
        → IsAtRest (rows ++ row ∷ []) (gate + length row + 3) (D.seen disk.new 0) (D.past disk.new (D.moment disk.new) 0)) }
    ensures any_moment { D.honest disk.new → (rows : List (List ℕ)) (row : List ℕ) → IsPayload row → text.now ≡ staged row
        → IsAtRest rows gate (D.seen disk.old 0) (D.past disk.old (D.moment disk.old) 0)
        → LeavesOnly (D.past disk.new) 0 (D.moment disk.old) (D.moment disk.new) (IsBeforeOrAfter rows row) }
    ensures touches { D.honest disk.new → Touches (λ f. f ≡ 0) (D.moment disk.old) (D.moment disk.new) (D.past disk.old) (D.past disk.new) }
    ensures others { D.honest disk.new → OthersStay 0 (D.seen disk.old) (D.seen disk.new) }
    ensures counts { IsCountedAs 4 (D.moment disk.old) (D.moment disk.new) result }
    ensures keeps { D.honest disk.new → D.honest disk.old }
    ensures cause { HasCause (D.faults disk.old) (D.faults disk.new) result }
{
    let behind = gate.saturating_add(1);
    disk.write_at(0, behind, text)?;
    disk.sync(0)?;
    disk.write_at(0, gate, &[1])?;
    disk.sync(0)?;
    Ok(())
}

/// Makes a file of at most one byte a closed gate.
pub(crate) fn close_gate<D: Disk>(disk: &mut D) -> Result<(), Failed>
    ensures closed { D.honest disk.new → length (D.seen disk.old 0) ≤ 1 → D.past disk.old (D.moment disk.old) 0 ≡ settled (D.seen disk.old 0)
        → OnOk result (IsAtRest [] 0 (D.seen disk.new 0) (D.past disk.new (D.moment disk.new) 0)) }
    ensures any_moment { D.honest disk.new → length (D.seen disk.old 0) ≤ 1 → D.past disk.old (D.moment disk.old) 0 ≡ settled (D.seen disk.old 0)
        → LeavesOnly (D.past disk.new) 0 (D.moment disk.old) (D.moment disk.new) IsNothing }
    ensures counts { IsCountedAs 2 (D.moment disk.old) (D.moment disk.new) result }
    ensures touches { D.honest disk.new → Touches (λ f. f ≡ 0) (D.moment disk.old) (D.moment disk.new) (D.past disk.old) (D.past disk.new) }
    ensures others { D.honest disk.new → OthersStay 0 (D.seen disk.old) (D.seen disk.new) }
    ensures keeps { D.honest disk.new → D.honest disk.old }
    ensures cause { HasCause (D.faults disk.old) (D.faults disk.new) result }
{
    disk.write_at(0, 0, &[0])?;
    disk.sync(0)
}
