ghost use Rattle.std.specs.Prelude.{◌≡◌, ◌∷◌, ◌++◌, [], IfOk, option_map};
ghost use Rattle.dav_auth.specs.Kind.{kind_of as kind_of_lem};
ghost use Rattle.dav_auth.specs.Scan.{step as step_lem, finish as finish_lem, named as named_lem, begun as begun_lem, at_end};

use crate::kind::{ByteKind, kind_of};
use crate::piece::Piece;
use dav_text::{Blob, Memory};
use std::alloc::Global;

/// Where a reader stands in a list of challenges.
#[derive(Debug, Drop)]
pub enum Place {
    /// Before an element. Whether a parameter `may` come goes along until an element has begun.
    Start { may: bool },
    /// In the first word: a scheme, or the name of a parameter where one may come.
    First { may: bool, word: Blob },
    /// Behind the first word and spaces.
    Spaces { may: bool, word: Blob },
    /// Behind the first word, spaces, a tab, and any blanks.
    Mixed { may: bool, word: Blob },
    /// Behind the first word, a tab, and any blanks.
    Tabs { may: bool, word: Blob },
    /// In the word behind a scheme: a token68, or the name of a parameter.
    Second { word: Blob },
    /// Behind such a word and blanks.
    AfterSecond { word: Blob },
    /// Behind such a word and one `=`, which pads a token68 or comes before a value.
    Pad { word: Blob },
    /// The same, and blanks.
    AfterPad { word: Blob },
    /// In a token68.
    Token68,
    /// In the padding of a token68.
    Padding,
    /// Behind a token68 and blanks.
    AfterToken68,
    /// In the name of a parameter.
    Name { name: Blob },
    /// Behind a name and blanks.
    AfterName { name: Blob },
    /// Behind the `=` of a parameter.
    Equals { name: Blob },
    /// In a value that is a token.
    Token { name: Blob, value: Blob },
    /// Between the quotes of a value.
    String { name: Blob, value: Blob },
    /// Behind a backslash between quotes.
    Pair { name: Blob, value: Blob },
    /// Behind a value.
    AfterValue,
}

/// Where a byte leads, and the part of the list that is known by it.
#[derive(Debug, Drop)]
pub struct Moved {
    pub place: Place,
    pub piece: Option<Piece>,
}

/// No list has the byte there.
type Step = Result<Option<Moved>, Memory>;

/// Leads on.
fn to(place: Place) -> Step
    ensures { result ≡ Ok (Some (record { place = place; piece = None })) }
{
    Ok(Some(Moved { place, piece: None }))
}

/// Leads on, and a part is known.
fn with(piece: Piece, place: Place) -> Step
    ensures { result ≡ Ok (Some (record { place = place; piece = Some piece })) }
{
    let piece = Some(piece);
    Ok(Some(Moved { place, piece }))
}

/// The word and one more byte.
fn grown(word: Blob, byte: u8) -> Result<Blob, Memory>
    ensures { IfOk result (λ w. w ≡ word ++ byte ∷ []) }
{
    let mut bytes = word.into_vec();
    bytes.push(byte)?;
    Ok(Blob::from_vec(bytes))
}

fn in_start(alloc: Global, may: bool, kind: ByteKind, byte: u8) -> Step
    ensures { IfOk result (λ m. m ≡ step_lem (Place.Start may) kind byte) }
{
    match kind {
        ByteKind::Space | ByteKind::Tab | ByteKind::Comma => to(Place::Start { may }),
        ByteKind::Shared | ByteKind::TokenOnly => {
            let word = Blob::copy_of(alloc, &[byte])?;
            to(Place::First { may, word })
        }
        _ => Ok(None),
    }
}

/// An `=` behind a first word, which is a name where a parameter may come.
fn named(may: bool, word: Blob) -> Step
    ensures { result ≡ Ok (named_lem may word) }
{
    if may {
        to(Place::Equals { name: word })
    } else {
        Ok(None)
    }
}

fn in_first(may: bool, word: Blob, kind: ByteKind, byte: u8) -> Step
    ensures { IfOk result (λ m. m ≡ step_lem (Place.First may word) kind byte) }
{
    match kind {
        ByteKind::Shared | ByteKind::TokenOnly => {
            let word = grown(word, byte)?;
            to(Place::First { may, word })
        }
        ByteKind::Space => to(Place::Spaces { may, word }),
        ByteKind::Tab => to(Place::Tabs { may, word }),
        ByteKind::Comma => with(Piece::Scheme(word), Place::Start { may: false }),
        ByteKind::Equals => named(may, word),
        _ => Ok(None),
    }
}

fn in_spaces(alloc: Global, may: bool, word: Blob, kind: ByteKind, byte: u8) -> Step
    ensures { IfOk result (λ m. m ≡ step_lem (Place.Spaces may word) kind byte) }
{
    match kind {
        ByteKind::Space => to(Place::Spaces { may, word }),
        ByteKind::Tab => to(Place::Mixed { may, word }),
        ByteKind::Comma => with(Piece::Scheme(word), Place::Start { may: true }),
        ByteKind::Equals => named(may, word),
        ByteKind::Shared => {
            let second = Blob::copy_of(alloc, &[byte])?;
            with(Piece::Scheme(word), Place::Second { word: second })
        }
        ByteKind::TokenOnly => {
            let name = Blob::copy_of(alloc, &[byte])?;
            with(Piece::Scheme(word), Place::Name { name })
        }
        ByteKind::Slash => with(Piece::Scheme(word), Place::Token68),
        _ => Ok(None),
    }
}

fn in_mixed(alloc: Global, may: bool, word: Blob, kind: ByteKind, byte: u8) -> Step
    ensures { IfOk result (λ m. m ≡ step_lem (Place.Mixed may word) kind byte) }
{
    match kind {
        ByteKind::Space | ByteKind::Tab => to(Place::Mixed { may, word }),
        ByteKind::Comma => with(Piece::Scheme(word), Place::Start { may: true }),
        ByteKind::Equals => named(may, word),
        ByteKind::Shared | ByteKind::TokenOnly => {
            let name = Blob::copy_of(alloc, &[byte])?;
            with(Piece::Scheme(word), Place::Name { name })
        }
        _ => Ok(None),
    }
}

fn in_tabs(may: bool, word: Blob, kind: ByteKind, byte: u8) -> Step
    ensures { IfOk result (λ m. m ≡ step_lem (Place.Tabs may word) kind byte) }
{
    match kind {
        ByteKind::Space | ByteKind::Tab => to(Place::Tabs { may, word }),
        ByteKind::Comma => with(Piece::Scheme(word), Place::Start { may: false }),
        ByteKind::Equals => named(may, word),
        _ => Ok(None),
    }
}

fn in_second(word: Blob, kind: ByteKind, byte: u8) -> Step
    ensures { IfOk result (λ m. m ≡ step_lem (Place.Second word) kind byte) }
{
    match kind {
        ByteKind::Shared => {
            let word = grown(word, byte)?;
            to(Place::Second { word })
        }
        ByteKind::TokenOnly => {
            let name = grown(word, byte)?;
            to(Place::Name { name })
        }
        ByteKind::Slash => to(Place::Token68),
        ByteKind::Equals => to(Place::Pad { word }),
        ByteKind::Space | ByteKind::Tab => to(Place::AfterSecond { word }),
        ByteKind::Comma => to(Place::Start { may: false }),
        _ => Ok(None),
    }
}

fn after_second(word: Blob, kind: ByteKind, byte: u8) -> Step
    ensures { IfOk result (λ m. m ≡ step_lem (Place.AfterSecond word) kind byte) }
{
    match kind {
        ByteKind::Space | ByteKind::Tab => to(Place::AfterSecond { word }),
        ByteKind::Equals => to(Place::Equals { name: word }),
        ByteKind::Comma => to(Place::Start { may: false }),
        _ => Ok(None),
    }
}

/// Where a value can begin.
fn begun(alloc: Global, name: Blob, kind: ByteKind, byte: u8) -> Step
    ensures { IfOk result (λ m. m ≡ begun_lem name kind byte) }
{
    match kind {
        ByteKind::Quote => {
            let value = Blob::from_vec(Vec::new(alloc));
            to(Place::String { name, value })
        }
        ByteKind::Shared | ByteKind::TokenOnly => {
            let value = Blob::copy_of(alloc, &[byte])?;
            to(Place::Token { name, value })
        }
        _ => Ok(None),
    }
}

fn in_pad(alloc: Global, word: Blob, kind: ByteKind, byte: u8) -> Step
    ensures { IfOk result (λ m. m ≡ step_lem (Place.Pad word) kind byte) }
{
    match kind {
        ByteKind::Equals => to(Place::Padding),
        ByteKind::Space | ByteKind::Tab => to(Place::AfterPad { word }),
        ByteKind::Comma => to(Place::Start { may: false }),
        _ => begun(alloc, word, kind, byte),
    }
}

fn after_pad(alloc: Global, word: Blob, kind: ByteKind, byte: u8) -> Step
    ensures { IfOk result (λ m. m ≡ step_lem (Place.AfterPad word) kind byte) }
{
    match kind {
        ByteKind::Space | ByteKind::Tab => to(Place::AfterPad { word }),
        ByteKind::Comma => to(Place::Start { may: false }),
        _ => begun(alloc, word, kind, byte),
    }
}

fn in_token68(kind: ByteKind, byte: u8) -> Step
    ensures { IfOk result (λ m. m ≡ step_lem Place.Token68 kind byte) }
{
    match kind {
        ByteKind::Shared | ByteKind::Slash => to(Place::Token68),
        ByteKind::Equals => to(Place::Padding),
        ByteKind::Space | ByteKind::Tab => to(Place::AfterToken68),
        ByteKind::Comma => to(Place::Start { may: false }),
        _ => Ok(None),
    }
}

fn in_padding(kind: ByteKind, byte: u8) -> Step
    ensures { IfOk result (λ m. m ≡ step_lem Place.Padding kind byte) }
{
    match kind {
        ByteKind::Equals => to(Place::Padding),
        ByteKind::Space | ByteKind::Tab => to(Place::AfterToken68),
        ByteKind::Comma => to(Place::Start { may: false }),
        _ => Ok(None),
    }
}

fn after_token68(kind: ByteKind, byte: u8) -> Step
    ensures { IfOk result (λ m. m ≡ step_lem Place.AfterToken68 kind byte) }
{
    match kind {
        ByteKind::Space | ByteKind::Tab => to(Place::AfterToken68),
        ByteKind::Comma => to(Place::Start { may: false }),
        _ => Ok(None),
    }
}

fn in_name(name: Blob, kind: ByteKind, byte: u8) -> Step
    ensures { IfOk result (λ m. m ≡ step_lem (Place.Name name) kind byte) }
{
    match kind {
        ByteKind::Shared | ByteKind::TokenOnly => {
            let name = grown(name, byte)?;
            to(Place::Name { name })
        }
        ByteKind::Equals => to(Place::Equals { name }),
        ByteKind::Space | ByteKind::Tab => to(Place::AfterName { name }),
        _ => Ok(None),
    }
}

fn after_name(name: Blob, kind: ByteKind, byte: u8) -> Step
    ensures { IfOk result (λ m. m ≡ step_lem (Place.AfterName name) kind byte) }
{
    match kind {
        ByteKind::Space | ByteKind::Tab => to(Place::AfterName { name }),
        ByteKind::Equals => to(Place::Equals { name }),
        _ => Ok(None),
    }
}

fn in_equals(alloc: Global, name: Blob, kind: ByteKind, byte: u8) -> Step
    ensures { IfOk result (λ m. m ≡ step_lem (Place.Equals name) kind byte) }
{
    match kind {
        ByteKind::Space | ByteKind::Tab => to(Place::Equals { name }),
        _ => begun(alloc, name, kind, byte),
    }
}

fn in_token(name: Blob, value: Blob, kind: ByteKind, byte: u8) -> Step
    ensures { IfOk result (λ m. m ≡ step_lem (Place.Token name value) kind byte) }
{
    match kind {
        ByteKind::Shared | ByteKind::TokenOnly => {
            let value = grown(value, byte)?;
            to(Place::Token { name, value })
        }
        ByteKind::Space | ByteKind::Tab => with(
            Piece::Parameter { name, value },
            Place::AfterValue,
        ),
        ByteKind::Comma => with(Piece::Parameter { name, value }, Place::Start { may: true }),
        _ => Ok(None),
    }
}

fn in_string(name: Blob, value: Blob, kind: ByteKind, byte: u8) -> Step
    ensures { IfOk result (λ m. m ≡ step_lem (Place.String name value) kind byte) }
{
    match kind {
        ByteKind::Control => Ok(None),
        ByteKind::Quote => with(Piece::Parameter { name, value }, Place::AfterValue),
        ByteKind::Backslash => to(Place::Pair { name, value }),
        _ => {
            let value = grown(value, byte)?;
            to(Place::String { name, value })
        }
    }
}

fn in_pair(name: Blob, value: Blob, kind: ByteKind, byte: u8) -> Step
    ensures { IfOk result (λ m. m ≡ step_lem (Place.Pair name value) kind byte) }
{
    match kind {
        ByteKind::Control => Ok(None),
        _ => {
            let value = grown(value, byte)?;
            to(Place::String { name, value })
        }
    }
}

fn after_value(kind: ByteKind, byte: u8) -> Step
    ensures { IfOk result (λ m. m ≡ step_lem Place.AfterValue kind byte) }
{
    match kind {
        ByteKind::Space | ByteKind::Tab => to(Place::AfterValue),
        ByteKind::Comma => to(Place::Start { may: true }),
        _ => Ok(None),
    }
}

/// Where the byte leads. None where no list has it there.
pub(crate) fn step(alloc: Global, place: Place, byte: u8) -> Step
    ensures { IfOk result (λ m. m ≡ step_lem place (kind_of_lem byte) byte) }
{
    let kind = kind_of(byte);
    match place {
        Place::Start { may } => in_start(alloc, may, kind, byte),
        Place::First { may, word } => in_first(may, word, kind, byte),
        Place::Spaces { may, word } => in_spaces(alloc, may, word, kind, byte),
        Place::Mixed { may, word } => in_mixed(alloc, may, word, kind, byte),
        Place::Tabs { may, word } => in_tabs(may, word, kind, byte),
        Place::Second { word } => in_second(word, kind, byte),
        Place::AfterSecond { word } => after_second(word, kind, byte),
        Place::Pad { word } => in_pad(alloc, word, kind, byte),
        Place::AfterPad { word } => after_pad(alloc, word, kind, byte),
        Place::Token68 => in_token68(kind, byte),
        Place::Padding => in_padding(kind, byte),
        Place::AfterToken68 => after_token68(kind, byte),
        Place::Name { name } => in_name(name, kind, byte),
        Place::AfterName { name } => after_name(name, kind, byte),
        Place::Equals { name } => in_equals(alloc, name, kind, byte),
        Place::Token { name, value } => in_token(name, value, kind, byte),
        Place::String { name, value } => in_string(name, value, kind, byte),
        Place::Pair { name, value } => in_pair(name, value, kind, byte),
        Place::AfterValue => after_value(kind, byte),
    }
}

/// The part that is known where the text ends, if any. None where it ends inside a list.
pub(crate) fn finish(place: Place) -> Option<Option<Piece>>
    ensures { option_map at_end result ≡ finish_lem place }
{
    match place {
        Place::First { may: _, word }
        | Place::Spaces { may: _, word }
        | Place::Mixed { may: _, word }
        | Place::Tabs { may: _, word } => Some(Some(Piece::Scheme(word))),
        Place::Token { name, value } => Some(Some(Piece::Parameter { name, value })),
        Place::Name { name: _ }
        | Place::AfterName { name: _ }
        | Place::Equals { name: _ }
        | Place::String { name: _, value: _ }
        | Place::Pair { name: _, value: _ } => None,
        _ => Some(None),
    }
}
