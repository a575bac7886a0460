ghost use Rattle.std.specs.Prelude.{◌≡◌, IfOk, List};
ghost use Rattle.dav_xml.specs.Stands.{stack_of};
ghost use Rattle.dav_xml.specs.Moves.{Steps};

use crate::content::{behind_return, in_reference, in_section, in_text};
use crate::end_tag::{behind_end_name, in_end_name};
use crate::markup::{behind_less, behind_mark, behind_question, in_aside, in_outer};
use crate::position::Position;
use dav_markup::few::Few;
use dav_markup::scope::{Open, Tag};
use dav_text::{Blob, Memory};
use std::alloc::Global;

/// What a byte does that some document has there.
#[derive(Debug, Drop)]
pub(crate) enum Step {
    /// It leads on, and gives no event.
    Further(Position),
    /// It gives text.
    Text { next: Position, bytes: Few },
    /// It ends a start tag, whose element has this namespace.
    Opens { tag: Tag, ns: Blob },
    /// It ends an empty tag.
    Empty { tag: Tag, ns: Blob },
    /// It ends an end tag.
    Closes,
}

impl Position {
    /// What one more byte does below these open elements. None where no document has it there.
    pub(crate) fn after(
        self,
        alloc: Global,
        opens: &[Open],
        byte: u8,
    ) -> Result<Option<Step>, Memory>
        ensures { IfOk result (λ step. Steps self step (stack_of opens.now) byte) }
    {
        match self {
            Position::Outer(outer) => Ok(in_outer(outer, byte)),
            Position::Text(brackets) => Ok(in_text(opens, brackets, byte)),
            Position::Return => Ok(behind_return(byte)),
            Position::Less(place) => behind_less(alloc, opens, place, byte),
            Position::Mark(place) => Ok(behind_mark(place, byte)),
            Position::Question(place) => Ok(behind_question(place, byte)),
            Position::Aside { place, aside } => Ok(in_aside(place, aside, byte)),
            Position::Section(section) => Ok(in_section(section, byte)),
            Position::Reference(reference) => in_reference(alloc, reference, byte),
            Position::Start(start) => start.after(alloc, opens, byte),
            Position::End { name, came } => Ok(in_end_name(name, came, byte)),
            Position::EndBlanks => Ok(behind_end_name(byte)),
        }
    }
}
