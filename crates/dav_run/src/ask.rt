ghost use Rattle.std.specs.Prelude.{◌≡◌, IfErr, OnOk, true};
ghost use Rattle.dav_deeds.specs.Legal.{IsAsk, IsOfShell};
ghost use Rattle.dav_deeds.specs.declared.ask.Ask.TheVariants as asks;
ghost use Rattle.dav_deeds.specs.declared.ask.Who.TheVariants as parties;
ghost use Rattle.dav_desk.specs.Working.{IsReadied};
ghost use Rattle.dav_upload.specs.Asking.{asking, Asks};
ghost use Rattle.dav_upload.specs.Desks.{disk_view};
ghost use Rattle.dav_upload.specs.Resting.{IsResting};
ghost use Rattle.dav_run.specs.Answering.{DoesDesk, HasPath};

use dav_deeds::{Answer, Ask, DeskFault, Who};
use dav_desk::Desk;
use dav_disk::Disk;

/// Asks the desk, in the name of the shell, at time 0. Answers as `Desk::step` does; the path that a crowded desk names is one.
pub fn ask_desk<D: Disk>(desk: &mut Desk<D>, ask: &Ask) -> Result<Answer, DeskFault>
    requires ask { IsAsk ask.now }
    requires of_shell { IsOfShell ask.now }
    requires readied { IsReadied D.honest D.moment D.seen D.past desk.old }
    requires resting { IsResting desk.old.table }
    ensures asks { DoesDesk (disk_view D.honest D.moment D.seen D.past D.faults) desk.old desk.new (Asks desk.old.table (asking parties.Shell 0 ask.now)) (result, desk.new.table) }
    ensures readied { IsReadied D.honest D.moment D.seen D.past desk.new }
    ensures resting { IsResting desk.new.table }
    ensures oldest { IfErr result HasPath }
    ensures stopping { ask.now ≡ asks.Stop → OnOk result (desk.new.table.stopping ≡ true) }
{
    desk.step(Who::Shell, ask, 0)
}
