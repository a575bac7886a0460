ghost use Rattle.std.specs.Prelude.{◌≡◌, ◌∷◌, [], Some, IfOk, List, ℕ};
ghost use Rattle.dav_doc.specs.Names.{written};
ghost use Rattle.dav_doc.specs.Machine as machine;
ghost use Rattle.dav_markup.specs.Markup.{place_in};
ghost use Rattle.dav_xml.specs.Stands.{stack_of, Stands, Inside, Placed};
ghost use Rattle.dav_xml.specs.Moves.{Moves, Steps};

use crate::position::{Position, StartTag};
use crate::step::Step;
use dav_markup::aside::{After, Aside};
use dav_markup::markup;
use dav_markup::markup::{Asked, Begun, Marked, Place};
use dav_markup::name::Name;
use dav_markup::outer::{Outer, Way};
use dav_markup::scope::Open;
use dav_markup::section::{Brackets, Section};
use dav_text::{Blob, Memory};
use std::alloc::Global;

/// A byte before the root, outside of markup.
pub(crate) fn in_outer(outer: Outer, byte: u8) -> Option<Step>
    ensures { (os : List machine.Open) → Steps (Position.Outer outer) result os byte }
{
    match outer.after(byte) {
        Way::Bad => None,
        Way::Further(next) => Some(Step::Further(Position::Outer(next))),
        Way::FirstMarkup => Some(Step::Further(Position::Less(Place::First))),
        Way::Markup => Some(Step::Further(Position::Less(Place::Before))),
        Way::Instruction(aside) => Some(Step::Further(Position::Aside {
            place: Place::First,
            aside,
        })),
    }
}

/// The first byte of the name of a start tag.
fn begin_name(alloc: Global, byte: u8) -> Result<Option<Step>, Memory>
    ensures { IfOk result (λ step. step ≡ Some (Step.Further (Position.Start (StartTag.Name (Name.Plain (byte ∷ [])))))) }
{
    let name = Name::Plain(Blob::copy_of(alloc, &[byte])?);
    Ok(Some(Step::Further(Position::Start(StartTag::Name(name)))))
}

/// The slash of the end tag of the innermost of these elements.
fn begin_end(alloc: Global, opens: &[Open]) -> Result<Option<Step>, Memory>
    ensures { IfOk result (λ step. (i : Inside (stack_of opens.now)) (st : machine.State) (b : ℕ)
        → machine.step st b ≡ machine.To (machine.end_next i.element i.around [] (written i.element.name)) [] → Moves step (stack_of opens.now) st b) }
{
    let Some((open, _)) = opens.split_last() else {
        return Ok(None);
    };
    let name = open.name.written(alloc)?;
    Ok(Some(Step::Further(Position::End { name, came: 0 })))
}

/// The byte behind `<`.
pub(crate) fn behind_less(
    alloc: Global,
    opens: &[Open],
    place: Place,
    byte: u8,
) -> Result<Option<Step>, Memory>
    ensures { IfOk result (λ step. Steps (Position.Less place) step (stack_of opens.now) byte) }
{
    match markup::behind_less(place, byte) {
        Begun::Bad => Ok(None),
        Begun::Tag(first) => begin_name(alloc, first),
        Begun::EndTag => begin_end(alloc, opens),
        Begun::Mark => Ok(Some(Step::Further(Position::Mark(place)))),
        Begun::Question => Ok(Some(Step::Further(Position::Question(place)))),
    }
}

/// The byte behind `<!`.
pub(crate) fn behind_mark(place: Place, byte: u8) -> Option<Step>
    ensures { (os : List machine.Open) → Steps (Position.Mark place) result os byte }
{
    match markup::behind_mark(place, byte) {
        Marked::Bad => None,
        Marked::Comment => Some(Step::Further(Position::Aside {
            place,
            aside: Aside::OpenComment,
        })),
        Marked::Section => Some(Step::Further(Position::Section(Section::WantsC))),
    }
}

/// The byte behind `<?`.
pub(crate) fn behind_question(place: Place, byte: u8) -> Option<Step>
    ensures { (os : List machine.Open) → Steps (Position.Question place) result os byte }
{
    match markup::behind_question(place, byte) {
        Asked::Bad => None,
        Asked::Declaration => Some(Step::Further(Position::Outer(Outer::DeclareX))),
        Asked::Instruction(target) => Some(Step::Further(Position::Aside {
            place,
            aside: Aside::InTarget(target),
        })),
    }
}

/// Where a scanner stands outside of markup at that place.
fn outside(place: Place) -> Position
    ensures { (os : List machine.Open) (i : Placed place os) → Stands result os (machine.at (place_in place i.element i.around)) }
{
    match place {
        Place::First | Place::Before => Position::Outer(Outer::Outside),
        Place::Inside | Place::Behind => Position::Text(Brackets::Zero),
    }
}

/// A byte in a comment or an instruction.
pub(crate) fn in_aside(place: Place, aside: Aside, byte: u8) -> Option<Step>
    ensures { (os : List machine.Open) → Steps (Position.Aside place aside) result os byte }
{
    match aside.after(byte) {
        After::Bad => None,
        After::Further(aside) => Some(Step::Further(Position::Aside { place, aside })),
        After::Ended => Some(Step::Further(outside(place))),
    }
}
