ghost use Rattle.std.specs.Prelude.{◌≡◌, ◌∷◌, [], true, false, List, ℕ};
ghost use Rattle.dav_doc.specs.Bytes.{kind, sort as sort_lem};
ghost use Rattle.dav_doc.specs.Document as document;
ghost use Rattle.dav_doc.specs.Machine as machine;
ghost use Rattle.dav_doc.specs.Names as names;
ghost use Rattle.dav_markup.specs.Choice.{in_tag_by, equals_by, quote_by, sort_in, quote_of, close_by};

use crate::declaration::Quote;
use crate::kind::{ByteKind, kind_of};

/// What a byte does in a start tag, behind its name or an attribute: XML 1.0, productions 40 and 44.
#[derive(Clone, Copy, Debug, PartialEq, Eq)]
pub enum InTag {
    /// No document has it there.
    Bad,
    Blank,
    /// It ends the tag, where all of its prefixes are declared.
    Close,
    /// It begins the end of an empty tag, where all of its prefixes are declared.
    Slash,
    /// It begins the name of an attribute.
    Attribute,
}

/// What a byte does behind the name of an attribute: XML 1.0, production 25.
#[derive(Clone, Copy, Debug, PartialEq, Eq)]
pub enum Sign {
    Bad,
    Blank,
    Equals,
}

/// What a byte does behind the equals sign of an attribute.
#[derive(Clone, Copy, Debug, PartialEq, Eq)]
pub enum Opening {
    Bad,
    Blank,
    Value(Quote),
}

/// What a byte does in a value: XML 1.0, production 10.
#[derive(Clone, Copy, Debug, PartialEq, Eq)]
pub enum Sort {
    /// It stands for itself.
    Stays,
    /// It is the quote that ends the value.
    Ends,
    /// A reference begins.
    Refers,
    /// No document has it there.
    Wrong,
}

/// What a byte does behind the name of an end tag: XML 1.0, production 42.
#[derive(Clone, Copy, Debug, PartialEq, Eq)]
pub enum Closing {
    Bad,
    Blank,
    Close,
}

/// What a byte does in a start tag. Whether `some` blank stands right before goes along.
pub fn in_tag(some: bool, byte: u8) -> InTag
    ensures none { some ≡ false → (os : List machine.Open) (t : document.Tag)
        → machine.step (machine.InTag os t []) byte ≡ in_tag_by result os t [] byte }
    ensures blanks { some ≡ true → (os : List machine.Open) (t : document.Tag) (c : ℕ) (w : List ℕ)
        → machine.step (machine.InTag os t (c ∷ w)) byte ≡ in_tag_by result os t (c ∷ w) byte }
{
    match kind_of(byte) {
        ByteKind::Blank => InTag::Blank,
        ByteKind::Greater => InTag::Close,
        ByteKind::Slash => InTag::Slash,
        ByteKind::Letter => { if some { InTag::Attribute } else { InTag::Bad } }
        _ => InTag::Bad,
    }
}

/// What a byte does behind the name of an attribute and any blanks.
pub fn before_equals(byte: u8) -> Sign
    ensures { (os : List machine.Open) (t : document.Tag) (w : List ℕ) (n : names.Name) (x : List ℕ)
        → machine.step (machine.BeforeEquals os t w n x) byte ≡ equals_by result os t w n x byte }
{
    match kind_of(byte) {
        ByteKind::Blank => Sign::Blank,
        ByteKind::Equals => Sign::Equals,
        _ => Sign::Bad,
    }
}

/// What a byte does behind the equals sign of an attribute and any blanks.
pub fn after_equals(byte: u8) -> Opening
    ensures { (os : List machine.Open) (t : document.Tag) (w : List ℕ) (n : names.Name) (x y : List ℕ)
        → machine.step (machine.AfterEquals os t w n x y) byte ≡ quote_by result os t w n x y byte }
{
    match kind_of(byte) {
        ByteKind::Blank => Opening::Blank,
        ByteKind::DoubleQuote => Opening::Value(Quote::Double),
        ByteKind::SingleQuote => Opening::Value(Quote::Single),
        _ => Opening::Bad,
    }
}

/// What a byte does in a value between such quotes.
pub fn in_value(quote: Quote, byte: u8) -> Sort
    ensures { sort_in result ≡ sort_lem (quote_of quote) (kind byte) }
{
    match (quote, kind_of(byte)) {
        (_, ByteKind::Less) => Sort::Wrong,
        (_, ByteKind::Ampersand) => Sort::Refers,
        (Quote::Double, ByteKind::DoubleQuote) => Sort::Ends,
        (Quote::Single, ByteKind::SingleQuote) => Sort::Ends,
        _ => Sort::Stays,
    }
}

/// What a byte does behind the name of an end tag and any blanks.
pub fn in_end(byte: u8) -> Closing
    ensures { (o : machine.Open) (os : List machine.Open) (w : List ℕ) → machine.step (machine.EndBlanks o os w) byte ≡ close_by result o os w byte }
{
    match kind_of(byte) {
        ByteKind::Blank => Closing::Blank,
        ByteKind::Greater => Closing::Close,
        _ => Closing::Bad,
    }
}
