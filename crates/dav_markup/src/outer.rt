ghost use Rattle.std.specs.Prelude.{◌≡◌, ◌==◌, Some, if◌then◌else◌};
ghost use Rattle.dav_doc.specs.Machine as machine;
ghost use Rattle.dav_markup.specs.Aside.{target_in};
ghost use Rattle.dav_markup.specs.Declaration.{want_in};
ghost use Rattle.dav_markup.specs.Outer.{outer_in, way_in};

use crate::aside::{After, Aside, Target};
use crate::declaration::{Declaration, is_blank};
use crate::kind::{ByteKind, kind_of};

/// Where a scanner stands before the root, outside of markup: XML 1.0 section 2.8.
#[derive(Clone, Copy, Debug, PartialEq, Eq)]
pub enum Outer {
    /// At the first byte.
    Begin,
    /// Behind one byte and two of a byte order mark.
    MarkSecond,
    MarkThird,
    /// Behind a byte order mark.
    Opening,
    /// Behind `<?x`, `<?xm` and `<?xml` as the first bytes.
    DeclareX,
    DeclareXm,
    DeclareXml,
    /// In a declaration.
    Declaring(Declaration),
    /// Behind the first bytes.
    Outside,
}

/// What a byte does there.
#[derive(Clone, Copy, Debug, PartialEq, Eq)]
pub enum Way {
    /// No document has it there.
    Bad,
    Further(Outer),
    /// Markup begins, as the first of all or later.
    FirstMarkup,
    Markup,
    /// It goes on with an instruction.
    Instruction(Aside),
}

/// The byte that goes on, where no other does.
fn only(want: u8, next: Outer, byte: u8) -> Way
    ensures { result ≡ (if byte == want then Way.Further next else Way.Bad) }
{
    if byte == want {
        return Way::Further(next);
    }
    Way::Bad
}

fn in_opening(byte: u8) -> Way
    ensures { machine.step machine.Opening byte ≡ way_in result }
{
    match kind_of(byte) {
        ByteKind::Less => Way::FirstMarkup,
        ByteKind::Blank => Way::Further(Outer::Outside),
        _ => Way::Bad,
    }
}

fn in_outside(byte: u8) -> Way
    ensures { machine.step machine.Outside byte ≡ way_in result }
{
    match kind_of(byte) {
        ByteKind::Less => Way::Markup,
        ByteKind::Blank => Way::Further(Outer::Outside),
        _ => Way::Bad,
    }
}

/// A byte at the first place.
fn in_begin(byte: u8) -> Way
    ensures { machine.step machine.Begin byte ≡ way_in result }
{
    if byte == 239 {
        return Way::Further(Outer::MarkSecond);
    }
    in_opening(byte)
}

/// A byte of a target behind this front of it.
fn behind_front(front: Target, byte: u8) -> Way
    ensures { machine.step (machine.InTarget machine.First (target_in front)) byte ≡ way_in result }
{
    match Aside::InTarget(front).after(byte) {
        After::Bad => Way::Bad,
        After::Further(aside) => Way::Instruction(aside),
        After::Ended => Way::Further(Outer::Outside),
    }
}

fn in_declare_xml(byte: u8) -> Way
    ensures { machine.step machine.DeclareXml byte ≡ way_in result }
{
    if is_blank(byte) {
        return Way::Further(Outer::Declaring(Declaration::Start));
    }
    behind_front(Target::Xml, byte)
}

/// Where a declaration goes on, or what stands behind it.
fn continued(next: Declaration) -> Way
    ensures { machine.declare_step (Some (want_in next)) ≡ way_in result }
{
    match next {
        Declaration::Done => Way::Further(Outer::Outside),
        _ => Way::Further(Outer::Declaring(next)),
    }
}

fn in_declaration(declaration: Declaration, byte: u8) -> Way
    ensures { machine.step (machine.Declaring (want_in declaration)) byte ≡ way_in result }
{
    match declaration.after(byte) {
        Some(next) => continued(next),
        None => Way::Bad,
    }
}

impl Outer {
    /// What one more byte does.
    pub fn after(self, byte: u8) -> Way
        ensures { machine.step (outer_in self) byte ≡ way_in result }
    {
        match self {
            Outer::Begin => in_begin(byte),
            Outer::MarkSecond => only(187, Outer::MarkThird, byte),
            Outer::MarkThird => only(191, Outer::Opening, byte),
            Outer::Opening => in_opening(byte),
            Outer::DeclareX => {
                if byte == b'm' {
                    return Way::Further(Outer::DeclareXm);
                }
                behind_front(Target::X, byte)
            }
            Outer::DeclareXm => {
                if byte == b'l' {
                    return Way::Further(Outer::DeclareXml);
                }
                behind_front(Target::Xm, byte)
            }
            Outer::DeclareXml => in_declare_xml(byte),
            Outer::Declaring(declaration) => in_declaration(declaration, byte),
            Outer::Outside => in_outside(byte),
        }
    }
}
