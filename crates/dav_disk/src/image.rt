ghost use Rattle.std.specs.Prelude.{◌≡◌, ℕ, ◌<◌, ◌↔◌, length, slice_index, IsTrue, IfOk};
ghost use Rattle.dav_disk.specs.Disk.{IsOutside};
ghost use Rattle.dav_disk.specs.Image.{Shows, IsPicked};
ghost use Rattle.dav_disk.specs.Record.{state_of};

use crate::Call;
use crate::call::Standing;
use std::alloc::{AllocError, Global};

/// What these calls made of a file, but for what they touched.
pub(crate) fn standing_of(calls: &[Call], file: u32) -> Standing<'_>
    ensures { Shows result.seen.now result.synced.now result.least result.greatest (state_of file calls.now) }
{
    let mut standing = Standing {
        seen: &[],
        synced: &[],
        least: 0,
        greatest: 0,
    };
    for call in calls {
        standing = call.standing_after(file, standing);
    }
    standing
}

/// Whether no call since the file's last sync touched the byte at a place.
fn is_spared(calls: &[Call], file: u32, place: u64) -> bool
    ensures { IsTrue result ↔ IsOutside place (state_of file calls.now).doubt.changes }
{
    let mut spared = true;
    for call in calls {
        spared = call.spared_after(file, place, spared);
    }
    spared
}

/// So many bytes: the synced ones where nothing touched them, the wished ones elsewhere, and 0 past the end of either.
pub(crate) fn picked(
    alloc: Global,
    calls: &[Call],
    file: u32,
    synced: &[u8],
    len: usize,
    wish: &[u8],
) -> Result<Vec<u8>, AllocError>
    ensures long { IfOk result (λ v. length v.items ≡ len) }
    ensures each { IfOk result (λ v. (i : ℕ) → i < len → IsPicked (state_of file calls.now) synced.now wish.now v.items i) }
{
    let mut bytes = Vec::new(alloc);
    for i in 0..len {
        let byte = if is_spared(calls, file, i as u64) {
            byte_at(synced, i)
        } else {
            byte_at(wish, i)
        };
        bytes.push(byte)?;
    }
    Ok(bytes)
}

/// The byte at a place, and 0 past the end.
fn byte_at(bytes: &[u8], place: usize) -> u8
    ensures { result ≡ slice_index bytes.now place }
{
    bytes.get(place).copied().unwrap_or(0)
}
