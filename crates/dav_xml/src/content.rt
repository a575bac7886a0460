ghost use Rattle.std.specs.Prelude.{◌≡◌, [], IfOk, List, ℕ};
ghost use Rattle.dav_doc.specs.Machine as machine;
ghost use Rattle.dav_markup.specs.Run.{read_in};
ghost use Rattle.dav_xml.specs.Stands.{stack_of, Inside};
ghost use Rattle.dav_xml.specs.Moves.{Moves, Steps};

use crate::position::Position;
use crate::step::Step;
use dav_markup::few::{Few, behind_brackets, utf_8};
use dav_markup::kind::{ByteKind, kind_of};
use dav_markup::markup::Place;
use dav_markup::reference::{Reference, Taken};
use dav_markup::run;
use dav_markup::run::Read;
use dav_markup::scope::Open;
use dav_markup::section::{Brackets, Ran, Section};
use dav_text::Memory;
use std::alloc::Global;

/// What a byte of text does.
fn read_step(read: Read) -> Option<Step>
    ensures { (os : List machine.Open) (i : Inside os) (st : machine.State) (b : ℕ) → machine.step st b ≡ read_in read i.element i.around → Moves result os st b }
{
    match read {
        Read::Bad => None,
        Read::Markup => Some(Step::Further(Position::Less(Place::Inside))),
        Read::Reference => Some(Step::Further(Position::Reference(Reference::Start))),
        Read::Plain { brackets, byte } => Some(Step::Text {
            next: Position::Text(brackets),
            bytes: Few::One([byte]),
        }),
        Read::Return => Some(Step::Text {
            next: Position::Return,
            bytes: Few::One([b'\n']),
        }),
        Read::Nothing => Some(Step::Further(Position::Text(Brackets::Zero))),
    }
}

/// A byte behind the root.
fn behind_root(byte: u8) -> Option<Step>
    ensures { (n : machine.Brackets) → Moves result [] (machine.Text [] n) byte }
{
    match kind_of(byte) {
        ByteKind::Less => Some(Step::Further(Position::Less(Place::Behind))),
        ByteKind::Blank => Some(Step::Further(Position::Text(Brackets::Zero))),
        _ => None,
    }
}

/// A byte in text or behind the root.
pub(crate) fn in_text(opens: &[Open], brackets: Brackets, byte: u8) -> Option<Step>
    ensures { Steps (Position.Text brackets) result (stack_of opens.now) byte }
{
    if opens.is_empty() {
        return behind_root(byte);
    }
    read_step(run::in_text(brackets, byte))
}

/// A byte in text behind a carriage return.
pub(crate) fn behind_return(byte: u8) -> Option<Step>
    ensures { (os : List machine.Open) → Steps Position.Return result os byte }
{
    read_step(run::behind_return(byte))
}

/// A byte in a CDATA section.
pub(crate) fn in_section(section: Section, byte: u8) -> Option<Step>
    ensures { (os : List machine.Open) → Steps (Position.Section section) result os byte }
{
    match section.after(byte) {
        Ran::Bad => None,
        Ran::Further(next) => Some(Step::Further(Position::Section(next))),
        Ran::Held => Some(Step::Text {
            next: Position::Section(Section::Inside(Brackets::Two)),
            bytes: Few::One([b']']),
        }),
        Ran::Text { held, byte } => Some(Step::Text {
            next: Position::Section(Section::Inside(Brackets::Zero)),
            bytes: behind_brackets(held, byte),
        }),
        Ran::Return { held } => Some(Step::Text {
            next: Position::Section(Section::Return),
            bytes: behind_brackets(held, b'\n'),
        }),
        Ran::Ended => Some(Step::Further(Position::Text(Brackets::Zero))),
    }
}

/// A byte in a reference in text.
pub(crate) fn in_reference(
    alloc: Global,
    reference: Reference,
    byte: u8,
) -> Result<Option<Step>, Memory>
    ensures { IfOk result (λ step. (os : List machine.Open) → Steps (Position.Reference reference) step os byte) }
{
    match reference.take(alloc, byte)? {
        Taken::Wrong => Ok(None),
        Taken::Further(next) => Ok(Some(Step::Further(Position::Reference(next)))),
        Taken::Stands(value) => Ok(Some(Step::Text {
            next: Position::Text(Brackets::Zero),
            bytes: utf_8(value),
        })),
    }
}
