ghost use Rattle.std.specs.Prelude.{◌≡◌, ℕ, ◌+◌, ◌<◌, ◌≤◌, take, drop, length, IsNone, IfSome, IfOk, IfErr};
ghost use Rattle.dav_disk.specs.Disk.{Touches, AllStay};
ghost use Rattle.dav_store.specs.Rows.{IsClosed, HasRow, IsBroken};
ghost use Rattle.dav_store.specs.Cause.{IsCaused, IsNoDamage};
ghost use Rattle.dav_store.specs.declared.fault.StoreFault.TheVariants.{NotACache};

use crate::StoreFault;
use crate::row::Start;
use dav_disk::Disk;
use dav_text::Blob;
use std::alloc::Global;

/// The row of the index at a gate; None where the gate is closed.
pub(crate) fn row_at<D: Disk>(
    alloc: Global,
    disk: &mut D,
    gate: u64,
) -> Result<Option<Blob>, StoreFault>
    ensures closed { D.honest disk.new → IfOk result (λ o. IsNone o → IsClosed (drop gate (D.seen disk.old 0))) }
    ensures row { D.honest disk.new → IfOk result (λ o. IfSome o (λ row. HasRow row (drop gate (D.seen disk.old 0)))) }
    ensures broken { D.honest disk.new → IfErr result (λ e. (at : ℕ) → e ≡ NotACache at → (at ≡ gate) × IsBroken (drop gate (D.seen disk.old 0))) }
    ensures touches { D.honest disk.new → Touches (λ _. ⊥) (D.moment disk.old) (D.moment disk.new) (D.past disk.old) (D.past disk.new) }
    ensures seen { D.honest disk.new → AllStay (D.seen disk.old) (D.seen disk.new) }
    ensures keeps { D.honest disk.new → D.honest disk.old }
    ensures cause { IsCaused (D.faults disk.old) (D.faults disk.new) result }
    ensures moments { D.moment disk.old ≤ D.moment disk.new }
    ensures undamaged { IfErr result IsNoDamage }
{
    let mut bytes = [0u8; 3];
    let count = disk.read(0, gate, &mut bytes)?;
    match Start::of(&bytes[..count]) {
        Start::Closed => Ok(None),
        Start::Broken => Err(StoreFault::NotACache { at: gate }),
        Start::Long(len) => {
            let payload = payload_of(alloc, disk, gate, len)?;
            Ok(Some(payload))
        }
    }
}

/// The payload of the row at a gate, of that length.
fn payload_of<D: Disk>(
    alloc: Global,
    disk: &mut D,
    gate: u64,
    len: usize,
) -> Result<Blob, StoreFault>
    ensures bytes { D.honest disk.new → IfOk result (λ blob. (blob ≡ take len (drop (gate + 3) (D.seen disk.old 0))) × (length blob ≡ len)) }
    ensures broken { D.honest disk.new → IfErr result (λ e. (at : ℕ) → e ≡ NotACache at → (at ≡ gate) × (length (drop (gate + 3) (D.seen disk.old 0)) < len)) }
    ensures touches { D.honest disk.new → Touches (λ _. ⊥) (D.moment disk.old) (D.moment disk.new) (D.past disk.old) (D.past disk.new) }
    ensures seen { D.honest disk.new → AllStay (D.seen disk.old) (D.seen disk.new) }
    ensures keeps { D.honest disk.new → D.honest disk.old }
    ensures cause { IsCaused (D.faults disk.old) (D.faults disk.new) result }
    ensures moments { D.moment disk.old ≤ D.moment disk.new }
    ensures undamaged { IfErr result IsNoDamage }
{
    let mut payload = Vec::from_elem(alloc, 0u8, len)?;
    let behind = gate.saturating_add(3);
    let count = disk.read(0, behind, payload.as_mut_slice())?;
    if count < len {
        return Err(StoreFault::NotACache { at: gate });
    }
    Ok(Blob::from_vec(payload))
}
