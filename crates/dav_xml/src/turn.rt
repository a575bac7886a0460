ghost use Rattle.std.specs.Prelude.{◌≡◌, ◌<◌, ◌+◌, IfOk, if◌then◌else◌};
ghost use Rattle.dav_doc.specs.Names.{local_of};
ghost use Rattle.dav_markup.specs.Name.{name_in};
ghost use Rattle.dav_xml.specs.Turn.{Turns, IsShallow, is_tag_at};

use crate::event::Lent;
use crate::position::Position;
use crate::step::Step;
use dav_markup::name::Name;
use dav_markup::scope::{Open, Tag};
use dav_markup::section::Brackets;
use dav_text::{Blob, Memory};
use std::alloc::Global;

/// Where a scanner stands behind a step, the depth of its innermost open element there, and what the step gives.
#[derive(Debug, Drop)]
pub(crate) struct Turn {
    pub(crate) position: Position,
    pub(crate) depth: u32,
    pub(crate) lent: Lent,
}

/// What begins with a start tag.
fn start(alloc: Global, depth: u32, name: &Name, ns: Blob, empty: bool) -> Result<Lent, Memory>
    ensures { IfOk result (λ lent. lent ≡ Lent.Start depth ns (local_of (name_in name.now)) empty) }
{
    let name = Blob::copy_of(alloc, name.local())?;
    Ok(Lent::Start {
        depth,
        ns,
        name,
        empty,
    })
}

/// One element more is open.
fn open(
    alloc: Global,
    opens: &mut Vec<Open>,
    depth: u32,
    tag: Tag,
    ns: Blob,
) -> Result<Turn, Memory>
    requires { depth < 32 }
    ensures { IfOk result (λ turn. Turns (Step.Opens tag ns) opens.old.items depth turn opens.new.items) }
{
    let Tag {
        name,
        bindings,
        prefixes: _,
    } = tag;
    let lent = start(alloc, depth + 1, &name, ns, false)?;
    opens.push(Open { name, bindings })?;
    Ok(Turn {
        position: Position::Text(Brackets::Zero),
        depth: depth + 1,
        lent,
    })
}

/// The innermost element is no longer open.
fn close(opens: &mut Vec<Open>, depth: u32) -> Turn
    ensures { Turns Step.Closes opens.old.items depth result opens.new.items }
{
    let _ = opens.pop();
    Turn {
        position: Position::Text(Brackets::Zero),
        depth: depth.saturating_sub(1),
        lent: Lent::End(depth),
    }
}

/// Takes a step below these open elements.
pub(crate) fn take_step(
    alloc: Global,
    opens: &mut Vec<Open>,
    depth: u32,
    step: Step,
) -> Result<Turn, Memory>
    requires { IsShallow step depth }
    ensures { IfOk result (λ turn. Turns step opens.old.items depth turn opens.new.items) }
{
    match step {
        Step::Further(position) => Ok(Turn {
            position,
            depth,
            lent: Lent::Nothing,
        }),
        Step::Text { next, bytes } => Ok(Turn {
            position: next,
            depth,
            lent: Lent::Chars(bytes),
        }),
        Step::Opens { tag, ns } => open(alloc, opens, depth, tag, ns),
        Step::Empty { tag, ns } => Ok(Turn {
            position: Position::Text(Brackets::Zero),
            depth,
            lent: start(alloc, depth + 1, &tag.name, ns, true)?,
        }),
        Step::Closes => Ok(close(opens, depth)),
    }
}

/// The bytes of the tag so far, with one more that leads there.
pub(crate) fn size_at(position: &Position, size: u32) -> u32
    requires { size < 65536 }
    ensures { result ≡ (if is_tag_at position.now then size + 1 else 0) }
{
    match position {
        Position::Less(_) => size + 1,
        Position::Start(_) => size + 1,
        Position::End { name: _, came: _ } => size + 1,
        Position::EndBlanks => size + 1,
        _ => 0,
    }
}
