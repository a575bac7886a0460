ghost use Rattle.std.specs.Prelude.{◌≡◌, ◌<◌, ℕ, List, None, OnOk, true};
ghost use Rattle.dav_machine.specs.Machine.{Does};
ghost use Rattle.dav_edge.specs.Device.{DeviceLog};
ghost use Rattle.dav_index.specs.Queries.{next_due};
ghost use Rattle.dav_deeds.specs.DeskTable.{DeskTable};
ghost use Rattle.dav_deeds.specs.Sound.{IsSound};
ghost use Rattle.dav_desk.specs.Working.{IsReadied};
ghost use Rattle.dav_upload.specs.Desks.{disk_view};
ghost use Rattle.dav_upload.specs.Pair.{pair, PairGrew};
ghost use Rattle.dav_upload.specs.Drain.{Drains};
ghost use Rattle.dav_upload.specs.AtWork.{IsAtWork, IsAfter, AllOutlive};
ghost use Rattle.dav_upload.specs.Resting.{IsResting};
ghost use Rattle.dav_upload.specs.Left.{LeavesAgain};

use crate::did::{Did, UploadFault};
use crate::turns::make_turn;
use dav_desk::Desk;
use dav_disk::Disk;
use dav_edge::Wire;
use dav_uri::Base;
use std::alloc::Global;

/// Takes turns at this time, in seconds, until there is nothing to take: each file that is queued is sent once, unless the desk
/// fails or there is no memory. What is still queued then was tried before and has to wait, or came to be sent again. The desk has
/// been told to stop, and no job is in flight.
pub fn drain<V: Wire, D: Disk>(
    alloc: Global,
    base: &Base,
    wire: &mut V,
    desk: &mut Desk<D>,
    now: u64,
) -> Result<(), UploadFault>
    requires readied { IsReadied D.honest D.moment D.seen D.past desk.old }
    requires resting { IsResting desk.old.table }
    requires stopping { desk.old.table.stopping ≡ true }
    requires time { now < 18446744073709551615 }

    ensures does { Does pair (PairGrew (disk_view D.honest D.moment D.seen D.past D.faults) (V.log wire.old) (V.log wire.new) desk.old desk.new) (Drains base.now now desk.old.table) (result, desk.new.table) }
    ensures work { D.honest desk.new.recorder.disk → (url : List ℕ) (opening : DeskTable) (start : ℕ) (given : ℕ → List ℕ) (begun : DeviceLog)
        → IsAtWork (disk_view D.honest D.moment D.seen D.past D.faults) base.now url opening start given begun (V.log wire.old) desk.old
        → IsAfter result (disk_view D.honest D.moment D.seen D.past D.faults) base.now url opening start given begun (V.log wire.new) desk.new }
    ensures outlives { D.honest desk.new.recorder.disk → (url : List ℕ) (opening : DeskTable) (start : ℕ) (given : ℕ → List ℕ) (begun : DeviceLog)
        → IsAtWork (disk_view D.honest D.moment D.seen D.past D.faults) base.now url opening start given begun (V.log wire.old) desk.old
        → AllOutlive (disk_view D.honest D.moment D.seen D.past D.faults) base.now url opening start given begun (V.log wire.new) desk.new }
    ensures emptied { OnOk result ((next_due now true desk.new.table.index.entries ≡ None) × IsResting desk.new.table × (desk.new.table.stopping ≡ true)) }
    ensures again { OnOk result (LeavesAgain now desk.old desk.new) }
    ensures sound { IsSound desk.new.table }
    ensures readied { IsReadied D.honest D.moment D.seen D.past desk.new }
{
    loop {
        let did = match make_turn(alloc, base, wire, desk, now) {
            Ok(did) => did,
            Err(fault) => return Err(fault),
        };
        match did {
            Did::Settled(_) => {}
            Did::Nothing => return Ok(()),
        }
    }
}
