ghost use Rattle.std.specs.Prelude.{◌≡◌, List};
ghost use Rattle.dav_doc.specs.Machine as machine;
ghost use Rattle.dav_xml.specs.Moves.{Steps};

use crate::position::Position;
use crate::step::Step;
use dav_markup::choice::{Closing, in_end};
use dav_markup::end::goes_on;
use dav_text::Blob;

/// A byte behind the name of an end tag.
pub(crate) fn behind_end_name(byte: u8) -> Option<Step>
    ensures { (os : List machine.Open) → Steps Position.EndBlanks result os byte }
{
    match in_end(byte) {
        Closing::Bad => None,
        Closing::Blank => Some(Step::Further(Position::EndBlanks)),
        Closing::Close => Some(Step::Closes),
    }
}

/// A byte in the end tag of the element of this name, of which so many bytes have come.
pub(crate) fn in_end_name(name: Blob, came: usize, byte: u8) -> Option<Step>
    ensures { (os : List machine.Open) → Steps (Position.End name came) result os byte }
{
    if came >= name.len() {
        return behind_end_name(byte);
    }
    if !goes_on(name.as_slice(), came, byte) {
        return None;
    }
    Some(Step::Further(Position::End {
        name,
        came: came + 1,
    }))
}
