ghost use Rattle.std.specs.Prelude.{◌≡◌, ◌==◌, List};
ghost use Rattle.dav_doc.specs.Document.{target_first as target_first_lem};
ghost use Rattle.dav_doc.specs.Machine as machine;
ghost use Rattle.dav_markup.specs.Aside.{target_in};
ghost use Rattle.dav_markup.specs.Markup.{place_in, begun_in, marked_in, asked_in};

use crate::aside::Target;
use crate::kind::{ByteKind, kind_of};

/// Where in a document markup stands.
#[derive(Clone, Copy, Debug, PartialEq, Eq)]
pub enum Place {
    /// At the first byte.
    First,
    /// Later before the root.
    Before,
    /// In an element.
    Inside,
    /// Behind the root.
    Behind,
}

/// What the byte behind `<` begins.
#[derive(Clone, Copy, Debug, PartialEq, Eq)]
pub enum Begun {
    /// No document has it there.
    Bad,
    /// A start tag, whose name begins with the byte.
    Tag(u8),
    /// An end tag.
    EndTag,
    /// What begins with `<!`.
    Mark,
    /// What begins with `<?`.
    Question,
}

/// What the byte behind `<!` begins.
#[derive(Clone, Copy, Debug, PartialEq, Eq)]
pub enum Marked {
    Bad,
    Comment,
    Section,
}

/// What the byte behind `<?` begins.
#[derive(Clone, Copy, Debug, PartialEq, Eq)]
pub enum Asked {
    Bad,
    /// A declaration, or an instruction whose target begins with `x`.
    Declaration,
    Instruction(Target),
}

fn tag(place: Place, byte: u8) -> Begun
    ensures letter { (o : machine.Open) (os : List machine.Open) → machine.letter_step (place_in place o os) byte ≡ begun_in result place o os }
    ensures inside { result ≡ Begun.EndTag → place ≡ Place.Inside }
{
    match place {
        Place::Behind => Begun::Bad,
        _ => Begun::Tag(byte),
    }
}

fn end_tag(place: Place) -> Begun
    ensures slash { (o : machine.Open) (os : List machine.Open) → machine.slash_step (place_in place o os) ≡ begun_in result place o os }
    ensures inside { result ≡ Begun.EndTag → place ≡ Place.Inside }
{
    match place {
        Place::Inside => Begun::EndTag,
        _ => Begun::Bad,
    }
}

/// What the byte behind `<` begins.
pub fn behind_less(place: Place, byte: u8) -> Begun
    ensures begun { (o : machine.Open) (os : List machine.Open) → machine.step (machine.Markup (place_in place o os)) byte ≡ begun_in result place o os }
    ensures inside { result ≡ Begun.EndTag → place ≡ Place.Inside }
{
    if byte == b'?' {
        return Begun::Question;
    }
    match kind_of(byte) {
        ByteKind::Letter => tag(place, byte),
        ByteKind::Slash => end_tag(place),
        ByteKind::Exclamation => Begun::Mark,
        _ => Begun::Bad,
    }
}

fn section(place: Place, byte: u8) -> Marked
    ensures section { (o : machine.Open) (os : List machine.Open) → machine.section_begins (place_in place o os) byte ≡ marked_in result place o os }
    ensures inside { result ≡ Marked.Section → place ≡ Place.Inside }
{
    match place {
        Place::Inside => {
            if byte == b'[' {
                Marked::Section
            } else {
                Marked::Bad
            }
        }
        _ => Marked::Bad,
    }
}

/// What the byte behind `<!` begins. A DOCTYPE is none.
pub fn behind_mark(place: Place, byte: u8) -> Marked
    ensures marked { (o : machine.Open) (os : List machine.Open) → machine.step (machine.Mark (place_in place o os)) byte ≡ marked_in result place o os }
    ensures inside { result ≡ Marked.Section → place ≡ Place.Inside }
{
    if byte == b'-' {
        return Marked::Comment;
    }
    section(place, byte)
}

/// How a target begins with its first byte.
fn target_first(byte: u8) -> Target
    ensures { target_in result ≡ target_first_lem byte }
{
    if byte == b'x' || byte == b'X' {
        return Target::X;
    }
    Target::Unlike
}

fn first_letter(place: Place, byte: u8) -> Asked
    ensures letter { (o : machine.Open) (os : List machine.Open) → machine.question_first (place_in place o os) byte (byte == 120) ≡ asked_in result place o os }
    ensures first { result ≡ Asked.Declaration → place ≡ Place.First }
{
    match place {
        Place::First => {
            if byte == b'x' {
                Asked::Declaration
            } else {
                Asked::Instruction(target_first(byte))
            }
        }
        _ => Asked::Instruction(target_first(byte)),
    }
}

/// What the byte behind `<?` begins.
pub fn behind_question(place: Place, byte: u8) -> Asked
    ensures asked { (o : machine.Open) (os : List machine.Open) → machine.step (machine.Question (place_in place o os)) byte ≡ asked_in result place o os }
    ensures first { result ≡ Asked.Declaration → place ≡ Place.First }
{
    match kind_of(byte) {
        ByteKind::Letter => first_letter(place, byte),
        _ => Asked::Bad,
    }
}
