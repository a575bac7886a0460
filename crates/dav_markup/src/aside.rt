ghost use Rattle.std.specs.Prelude.{◌≡◌, ◌==◌, if◌then◌else◌};
ghost use Rattle.dav_doc.specs.Document.{is_target as is_target_lem, target_next as target_next_lem};
ghost use Rattle.dav_doc.specs.Machine as machine;
ghost use Rattle.dav_markup.specs.Aside.{target_in, aside_in, after_in};

use crate::kind::{ByteKind, kind_of};

/// How a target begins: XML 1.0, production 17.
#[derive(Clone, Copy, Debug, PartialEq, Eq)]
pub enum Target {
    /// With no part of `xml`, in any case, as a whole so far.
    Unlike,
    X,
    Xm,
    Xml,
}

/// Where a scanner stands in a comment or an instruction: XML 1.0 sections 2.5 and 2.6.
#[derive(Clone, Copy, Debug, PartialEq, Eq)]
pub enum Aside {
    /// Behind `<!-`.
    OpenComment,
    InComment,
    /// Behind one `-` in a comment.
    CommentDash,
    /// Behind two.
    CommentClose,
    InTarget(Target),
    /// Behind a target and `?`.
    TargetEnd,
    InInstruction,
    /// Behind `?` in an instruction.
    InstructionEnd,
}

/// What a byte does there.
#[derive(Clone, Copy, Debug, PartialEq, Eq)]
pub enum After {
    /// No document has it there.
    Bad,
    Further(Aside),
    /// It ends the comment or the instruction.
    Ended,
}

/// Whether this is a whole target.
fn is_target(target: Target) -> bool
    ensures { result ≡ is_target_lem (target_in target) }
{
    match target {
        Target::Xml => false,
        _ => true,
    }
}

/// How the target begins with one more byte.
fn target_next(target: Target, byte: u8) -> Target
    ensures { target_in result ≡ target_next_lem (target_in target) byte }
{
    match target {
        Target::X => {
            if byte == b'm' || byte == b'M' {
                return Target::Xm;
            }
            Target::Unlike
        }
        Target::Xm => {
            if byte == b'l' || byte == b'L' {
                return Target::Xml;
            }
            Target::Unlike
        }
        _ => Target::Unlike,
    }
}

/// A byte in a target.
fn in_target(target: Target, byte: u8) -> After
    ensures { (p : machine.Place) → machine.step (machine.InTarget p (target_in target)) byte ≡ after_in result p }
{
    if byte == b'?' {
        return if is_target(target) {
            After::Further(Aside::TargetEnd)
        } else {
            After::Bad
        };
    }
    match kind_of(byte) {
        ByteKind::Letter | ByteKind::Digit => {
            After::Further(Aside::InTarget(target_next(target, byte)))
        }
        ByteKind::Blank => {
            if is_target(target) {
                After::Further(Aside::InInstruction)
            } else {
                After::Bad
            }
        }
        _ => After::Bad,
    }
}

/// A byte in a comment.
fn in_comment(byte: u8) -> After
    ensures { (p : machine.Place) → machine.step (machine.InComment p) byte ≡ after_in result p }
{
    if byte == b'-' {
        return After::Further(Aside::CommentDash);
    }
    After::Further(Aside::InComment)
}

/// A byte in an instruction.
fn in_instruction(byte: u8) -> After
    ensures { (p : machine.Place) → machine.step (machine.InInstruction p) byte ≡ after_in result p }
{
    if byte == b'?' {
        return After::Further(Aside::InstructionEnd);
    }
    After::Further(Aside::InInstruction)
}

/// The byte that goes on, where no other does.
fn only(want: u8, next: After, byte: u8) -> After
    ensures { result ≡ (if byte == want then next else After.Bad) }
{
    if byte == want {
        return next;
    }
    After::Bad
}

impl Aside {
    /// What one more byte does.
    pub fn after(self, byte: u8) -> After
        ensures { (p : machine.Place) → machine.step (aside_in self p) byte ≡ after_in result p }
    {
        match self {
            Aside::OpenComment => only(b'-', After::Further(Aside::InComment), byte),
            Aside::InComment => in_comment(byte),
            Aside::CommentDash => {
                if byte == b'-' {
                    return After::Further(Aside::CommentClose);
                }
                After::Further(Aside::InComment)
            }
            Aside::CommentClose => only(b'>', After::Ended, byte),
            Aside::InTarget(target) => in_target(target, byte),
            Aside::TargetEnd => only(b'>', After::Ended, byte),
            Aside::InInstruction => in_instruction(byte),
            Aside::InstructionEnd => {
                if byte == b'>' {
                    return After::Ended;
                }
                in_instruction(byte)
            }
        }
    }
}
