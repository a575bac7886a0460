ghost use Rattle.std.specs.Prelude.{◌≡◌, [], IfOk, None, Some};
ghost use Rattle.dav_deeds.specs.DeskTable.{DeskTable};
ghost use Rattle.dav_deeds.specs.Effects.{quiet};
ghost use Rattle.dav_deeds.specs.Made.{IsMadeBy};

use crate::answer::Told;
use crate::ask::Who;
use crate::deed::{Deed, Mark, Step};
use crate::fault::DeskFault;
use dav_text::Memory;
use std::alloc::Global;

/// A step that was made, and what has to be done for it.
#[derive(Drop)]
pub struct Made {
    /// The step. Its moment is still 0.
    pub step: Step,
    /// What is answered.
    pub answer: Result<Told, DeskFault>,
    /// The files that nothing needs any more once the record stands.
    pub released: Vec<u32>,
}

/// The step of a deed that is refused.
pub(crate) fn refused(
    alloc: Global,
    who: Who,
    now: u64,
    deed: Deed,
    fault: DeskFault,
) -> Result<Made, Memory>
    ensures { IfOk result (λ made. (t : DeskTable) → IsMadeBy t who now deed (quiet t (Mark.Refused fault) None) made [] t) }
{
    let answer = fault.copy(alloc)?;
    Ok(Made {
        step: Step {
            who,
            now,
            deed,
            mark: Mark::Refused(fault),
            told: None,
            moment: 0,
        },
        answer: Err(answer),
        released: Vec::new(alloc),
    })
}
