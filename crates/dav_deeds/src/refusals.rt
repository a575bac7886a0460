ghost use Rattle.std.specs.Prelude.{◌≡◌, ◌<◌, ◌^◌, IfOk};
ghost use Rattle.std.specs.Option.{option_copied};
ghost use Rattle.dav_index.specs.Bounds.{IsWithin};
ghost use Rattle.dav_deeds.specs.Refusals.{lacks_place as lacks_place_lem, lacks_bytes as lacks_bytes_lem, lacks_known as lacks_known_lem, crowding as crowding_lem, store_refusal, queued_with as queued_with_lem, queued_fault};

use crate::fault::DeskFault;
use crate::queries::{oldest_clean, queued_bytes, queued_count};
use dav_index::{Held, Table};
use dav_text::{Memory, Path, Which};
use std::alloc::Global;

/// How many bytes a body may have.
const BODY_MAX: u64 = 8_388_608;
/// How many files may be queued or lost.
const KEPT_MAX: usize = 4096;
/// How many bytes may be queued.
const BYTES_MAX: u64 = 1_073_741_824;
/// How many paths may be known.
const KNOWN_MAX: usize = 16_384;
/// The number that no file has.
const FILES_MAX: u64 = 4_294_967_295;

// Whether the path can't be queued, since as many files as may be are queued or lost.
fn lacks_place(index: &Table, path: &Path) -> bool
    requires { IsWithin index.now }
    ensures { result ≡ lacks_place_lem index.now path.now }
{
    if index.entries.queued(path).is_some() {
        return false;
    }
    queued_count(index.entries.as_slice()) + index.lost.as_slice().len() >= KEPT_MAX
}

// Whether too many bytes would be queued.
fn lacks_bytes(index: &Table, path: &Path, len: u64) -> bool
    requires within { IsWithin index.now }
    requires short { len < 2 ^ 32 }
    ensures { result ≡ lacks_bytes_lem index.now path.now len }
{
    let own = match index.entries.queued(path) {
        Some(body) => body.len,
        None => 0,
    };
    queued_bytes(index.entries.as_slice()).saturating_sub(own) + len > BYTES_MAX
}

// The known path that has to be forgotten before this one can be known.
fn crowding<'a>(index: &'a Table, path: &Path) -> Option<&'a Held>
    ensures { option_copied result ≡ crowding_lem index.now path.now }
{
    if index.entries.get(path).is_some() || index.entries.as_slice().len() < KNOWN_MAX {
        return None;
    }
    oldest_clean(index.entries.as_slice())
}

/// Why so many bytes of the path can't be kept.
pub fn store_fault(
    alloc: Global,
    index: &Table,
    path: &Path,
    len: u64,
) -> Result<Option<DeskFault>, Memory>
    requires { IsWithin index.now }
    ensures { IfOk result (λ fault. fault ≡ store_refusal index.now path.now len) }
{
    if len > BODY_MAX {
        return Ok(Some(DeskFault::Limit { which: Which::Body }));
    }
    if lacks_place(index, path) {
        return Ok(Some(DeskFault::Limit {
            which: Which::Queue,
        }));
    }
    if lacks_bytes(index, path, len) {
        return Ok(Some(DeskFault::Limit {
            which: Which::Bytes,
        }));
    }
    if let Some(held) = crowding(index, path) {
        let oldest = held.path().copy(alloc)?;
        return Ok(Some(DeskFault::Crowded { oldest }));
    }
    if index.next_file >= FILES_MAX {
        return Ok(Some(DeskFault::Limit {
            which: Which::Files,
        }));
    }
    Ok(None)
}

// The first queued entry that goes with the path.
fn queued_with<'a>(index: &'a Table, path: &Path, below: bool) -> Option<&'a Held>
    ensures { option_copied result ≡ queued_with_lem path.now below index.now.entries }
{
    index.entries.as_slice().iter().find(|held| held.entry().queued.is_some()
        && held.goes_with(path, below))
}

/// Why the path can't be forgotten.
pub fn forget_fault(
    alloc: Global,
    index: &Table,
    path: &Path,
    below: bool,
) -> Result<Option<DeskFault>, Memory>
    ensures { IfOk result (λ fault. fault ≡ queued_fault (queued_with_lem path.now below index.now.entries)) }
{
    match queued_with(index, path, below) {
        Some(held) => {
            let path = held.path().copy(alloc)?;
            Ok(Some(DeskFault::Queued { path }))
        }
        None => Ok(None),
    }
}
