ghost use Rattle.std.specs.Prelude.{◌≡◌, ◌∷◌, true, false, List};
ghost use Rattle.dav_doc.specs.Machine as machine;
ghost use Rattle.dav_markup.specs.Section.{brackets_in};
ghost use Rattle.dav_markup.specs.Run.{read_in};

use crate::kind::{ByteKind, kind_of};
use crate::section::Brackets;

/// What a byte does in the text of an element.
#[derive(Clone, Copy, Debug, PartialEq, Eq)]
pub enum Read {
    /// No document has it there: it is the end of `]]>`.
    Bad,
    /// Markup begins.
    Markup,
    /// A reference begins.
    Reference,
    /// It stands for itself, and so many `]` now stand right before.
    Plain { brackets: Brackets, byte: u8 },
    /// A carriage return, which stands for a line feed: XML 1.0 section 2.11.
    Return,
    /// The line feed of CR LF, which is given already.
    Nothing,
}

/// How many `]` stand right before, after one more byte.
fn counted(brackets: Brackets, byte: u8) -> Brackets
    ensures { brackets_in result ≡ machine.brackets (brackets_in brackets) byte }
{
    if byte != b']' {
        return Brackets::Zero;
    }
    match brackets {
        Brackets::Zero => Brackets::One,
        _ => Brackets::Two,
    }
}

/// Whether the byte is the end of `]]>`.
fn is_end(brackets: Brackets, byte: u8) -> bool
    ensures ends { result ≡ true → (byte ≡ 62) × (brackets ≡ Brackets.Two) }
    ensures stays { result ≡ false → byte ≡ 62 → brackets ≡ Brackets.Two → ⊥ }
{
    match brackets {
        Brackets::Two => byte == b'>',
        _ => false,
    }
}

/// What a byte does in text behind so many `]`: XML 1.0 section 2.4.
pub fn in_text(brackets: Brackets, byte: u8) -> Read
    ensures { (o : machine.Open) (os : List machine.Open) → machine.step (machine.Text (o ∷ os) (brackets_in brackets)) byte ≡ read_in result o os }
{
    if byte == b'\r' {
        return Read::Return;
    }
    if is_end(brackets, byte) {
        return Read::Bad;
    }
    match kind_of(byte) {
        ByteKind::Less => Read::Markup,
        ByteKind::Ampersand => Read::Reference,
        _ => Read::Plain {
            brackets: counted(brackets, byte),
            byte,
        },
    }
}

/// What a byte does in text behind a carriage return.
pub fn behind_return(byte: u8) -> Read
    ensures { (o : machine.Open) (os : List machine.Open) → machine.step (machine.Return o os) byte ≡ read_in result o os }
{
    if byte == b'\n' {
        return Read::Nothing;
    }
    in_text(Brackets::Zero, byte)
}
