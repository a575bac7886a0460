ghost use Rattle.std.specs.Prelude.{◌≡◌, ℕ, List, take, IfOk};
ghost use Rattle.dav_markup.specs.Owing.{owed_in};
ghost use Rattle.dav_markup.specs.declared.scope.Open as scope;
ghost use Rattle.dav_xml.specs.Ahead.{IsAhead, is_naming as is_naming_lem, LengthensName, Lengthens, CanLengthen, room};
ghost use Rattle.dav_xml.specs.declared.position.Position.TheVariants as positions;

use crate::limit::TAG;
use crate::position::{Position, StartTag};
use dav_markup::character::Owed;
use dav_markup::scope::Open;
use dav_markup::section::Brackets;
use dav_markup::stretch::{Alike, Stretch, longest, shared};
use dav_text::{Blob, Memory};

/// What a scanner takes next of a piece.
#[derive(Clone, Copy, Debug, PartialEq, Eq)]
pub(crate) enum Ahead {
    /// Text of an element, which stands for itself.
    Text(Stretch),
    /// More of a name in a start tag or an end tag.
    Name(Stretch),
    /// One byte, whatever it does.
    Byte,
}

/// The front of the bytes for which a tag of this size has room.
fn within(size: u32, bytes: &[u8]) -> &[u8]
    ensures { result.now ≡ take (room size) bytes.now }
{
    let room = TAG.saturating_sub(size) as usize;
    if bytes.len() <= room {
        return bytes;
    }
    &bytes[..room]
}

/// The text of an element from here on.
fn text_ahead(brackets: Brackets, opens: &[Open], owed: Owed, bytes: &[u8]) -> Ahead
    ensures { (size : ℕ) → IsAhead (positions.Text brackets) opens.now size (owed_in owed) bytes.now result }
{
    if brackets != Brackets::Zero || opens.is_empty() {
        return Ahead::Byte;
    }
    let stretch = longest(Alike::Text, owed, bytes);
    if stretch.len == 0 {
        return Ahead::Byte;
    }
    Ahead::Text(stretch)
}

/// The rest of a name in a start tag from here on.
fn name_ahead(start: &StartTag, owed: Owed, size: u32, bytes: &[u8]) -> Ahead
    ensures { (opens : List scope.Open) → IsAhead (positions.Start start.now) opens size (owed_in owed) bytes.now result }
{
    if !start.is_naming() {
        return Ahead::Byte;
    }
    let stretch = longest(Alike::Name, owed, within(size, bytes));
    if stretch.len == 0 {
        return Ahead::Byte;
    }
    Ahead::Name(stretch)
}

/// The rest of the name of an end tag from here on, of which so many bytes have come.
fn end_ahead(name: &Blob, came: usize, owed: Owed, size: u32, bytes: &[u8]) -> Ahead
    ensures { (opens : List scope.Open) → IsAhead (positions.End name.now came) opens size (owed_in owed) bytes.now result }
{
    if came >= name.len() {
        return Ahead::Byte;
    }
    let left = &name.as_slice()[came..];
    let stretch = shared(left, owed, within(size, bytes));
    if stretch.len == 0 {
        return Ahead::Byte;
    }
    Ahead::Name(stretch)
}

impl StartTag {
    /// Whether any byte of a name is one more of a name in the tag.
    fn is_naming(&self) -> bool
        ensures { result ≡ is_naming_lem self.now }
    {
        match self {
            StartTag::Name(name) => name.is_begun(),
            StartTag::Attribute { tag: _, name } => name.is_begun(),
            _ => false,
        }
    }

    /// The tag with these bytes more of the name that it stands in.
    pub(crate) fn longer(self, bytes: &[u8]) -> Result<StartTag, Memory>
        ensures { IfOk result (λ start. LengthensName self bytes.now start) }
    {
        match self {
            StartTag::Name(name) => Ok(StartTag::Name(name.longer(bytes)?)),
            StartTag::Attribute { tag, name } => {
                let name = name.longer(bytes)?;
                Ok(StartTag::Attribute { tag, name })
            }
            other => Ok(other),
        }
    }
}

impl Position {
    /// The longest stretch of the bytes that is taken at once from here on, below these open elements
    /// and in a tag of this size so far.
    pub(crate) fn ahead(&self, opens: &[Open], owed: Owed, size: u32, bytes: &[u8]) -> Ahead
        ensures { IsAhead self.now opens.now size (owed_in owed) bytes.now result }
    {
        match self {
            Position::Text(brackets) => text_ahead(*brackets, opens, owed, bytes),
            Position::Start(start) => name_ahead(start, owed, size, bytes),
            Position::End { name, came } => end_ahead(name, *came, owed, size, bytes),
            _ => Ahead::Byte,
        }
    }

    /// The position with these bytes more of the name that it stands in.
    pub(crate) fn longer(self, bytes: &[u8]) -> Result<Position, Memory>
        requires { CanLengthen self bytes.now }
        ensures { IfOk result (λ position. Lengthens self bytes.now position) }
    {
        match self {
            Position::Start(start) => Ok(Position::Start(start.longer(bytes)?)),
            Position::End { name, came } => Ok(Position::End {
                name,
                came: came + bytes.len(),
            }),
            other => Ok(other),
        }
    }
}
