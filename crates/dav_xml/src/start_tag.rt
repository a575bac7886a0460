ghost use Rattle.std.specs.Prelude.{◌≡◌, ◌++◌, ◌∷◌, [], Some, IfOk, List};
ghost use Rattle.dav_doc.specs.Document as document;
ghost use Rattle.dav_doc.specs.Machine as machine;
ghost use Rattle.dav_doc.specs.Machine.{scope_of};
ghost use Rattle.dav_doc.specs.Names.{resolved};
ghost use Rattle.dav_markup.specs.Scope.{Fits};
ghost use Rattle.dav_xml.specs.Stands.{stack_of};
ghost use Rattle.dav_xml.specs.Moves.{Steps};
ghost use Rattle.dav_xml.specs.Parts.{Closed, Slashed, Ended};

use crate::position::{Position, StartTag, Value};
use crate::step::Step;
use dav_markup::choice;
use dav_markup::choice::{InTag, Opening, Sign, Sort};
use dav_markup::few::utf_8;
use dav_markup::kind::{ByteKind, kind_of};
use dav_markup::name::{Name, Next};
use dav_markup::reference::{Reference, Taken};
use dav_markup::scope::{Open, Tag, resolve};
use dav_markup::tag::undeclares;
use dav_text::{Blob, Memory};
use std::alloc::Global;

/// A byte leads on in the tag.
fn further(next: StartTag) -> Option<Step>
    ensures { result ≡ Some (Step.Further (Position.Start next)) }
{
    Some(Step::Further(Position::Start(next)))
}

/// The namespace of an element. None where a prefix of its tag isn't declared.
fn namespace(alloc: Global, opens: &[Open], tag: &Tag) -> Result<Option<Blob>, Memory>
    ensures { IfOk result (λ ns. (t : document.Tag) → Fits tag.now t → ns ≡ resolved (scope_of (stack_of opens.now)) t.name t.attributes) }
{
    match resolve(opens, tag) {
        Some(ns) => Ok(Some(Blob::copy_of(alloc, ns)?)),
        None => Ok(None),
    }
}

/// The end of a start tag.
fn close(alloc: Global, opens: &[Open], tag: Tag) -> Result<Option<Step>, Memory>
    ensures { IfOk result (λ step. Closed tag step (stack_of opens.now)) }
{
    match namespace(alloc, opens, &tag)? {
        Some(ns) => Ok(Some(Step::Opens { tag, ns })),
        None => Ok(None),
    }
}

/// The slash of an empty tag.
fn slash(alloc: Global, opens: &[Open], tag: Tag) -> Result<Option<Step>, Memory>
    ensures { IfOk result (λ step. Slashed tag step (stack_of opens.now)) }
{
    match namespace(alloc, opens, &tag)? {
        Some(ns) => Ok(further(StartTag::Slash { tag, ns })),
        None => Ok(None),
    }
}

/// The first byte of the name of an attribute.
fn begin_attribute(alloc: Global, tag: Tag, byte: u8) -> Result<Option<Step>, Memory>
    ensures { IfOk result (λ step. step ≡ Some (Step.Further (Position.Start (StartTag.Attribute tag (Name.Plain (byte ∷ [])))))) }
{
    let name = Name::Plain(Blob::copy_of(alloc, &[byte])?);
    Ok(further(StartTag::Attribute { tag, name }))
}

/// A byte behind the name of a tag or an attribute. Whether `some` blank stands right before goes along.
fn between(
    alloc: Global,
    opens: &[Open],
    tag: Tag,
    some: bool,
    byte: u8,
) -> Result<Option<Step>, Memory>
    ensures { IfOk result (λ step. Steps (Position.Start (StartTag.Between tag some)) step (stack_of opens.now) byte) }
{
    match choice::in_tag(some, byte) {
        InTag::Bad => Ok(None),
        InTag::Blank => Ok(further(StartTag::Between { tag, some: true })),
        InTag::Close => close(alloc, opens, tag),
        InTag::Slash => slash(alloc, opens, tag),
        InTag::Attribute => begin_attribute(alloc, tag, byte),
    }
}

/// A byte in the name of a tag.
fn in_name(alloc: Global, opens: &[Open], name: Name, byte: u8) -> Result<Option<Step>, Memory>
    ensures { IfOk result (λ step. Steps (Position.Start (StartTag.Name name)) step (stack_of opens.now) byte) }
{
    match name.next(alloc, kind_of(byte), byte)? {
        Next::Longer(name) => Ok(further(StartTag::Name(name))),
        Next::Ended(name) => {
            if !name.is_whole() {
                return Ok(None);
            }
            between(alloc, opens, Tag::new(alloc, name), false, byte)
        }
    }
}

/// A byte behind the slash of an empty tag.
fn behind_slash(tag: Tag, ns: Blob, byte: u8) -> Option<Step>
    ensures { (os : List machine.Open) → Steps (Position.Start (StartTag.Slash tag ns)) result os byte }
{
    match kind_of(byte) {
        ByteKind::Greater => Some(Step::Empty { tag, ns }),
        _ => None,
    }
}

/// A byte behind the name of an attribute.
fn before_equals(tag: Tag, name: Name, byte: u8) -> Option<Step>
    ensures { (os : List machine.Open) → Steps (Position.Start (StartTag.BeforeEquals tag name)) result os byte }
{
    match choice::before_equals(byte) {
        Sign::Bad => None,
        Sign::Blank => further(StartTag::BeforeEquals { tag, name }),
        Sign::Equals => further(StartTag::AfterEquals { tag, name }),
    }
}

/// A byte in the name of an attribute.
fn in_attribute(alloc: Global, tag: Tag, name: Name, byte: u8) -> Result<Option<Step>, Memory>
    ensures { IfOk result (λ step. (os : List machine.Open) → Steps (Position.Start (StartTag.Attribute tag name)) step os byte) }
{
    match name.next(alloc, kind_of(byte), byte)? {
        Next::Longer(name) => Ok(further(StartTag::Attribute { tag, name })),
        Next::Ended(name) => {
            if !name.is_whole() {
                return Ok(None);
            }
            Ok(before_equals(tag, name, byte))
        }
    }
}

/// A byte behind the equals sign of an attribute.
fn after_equals(alloc: Global, tag: Tag, name: Name, byte: u8) -> Option<Step>
    ensures { (os : List machine.Open) → Steps (Position.Start (StartTag.AfterEquals tag name)) result os byte }
{
    match choice::after_equals(byte) {
        Opening::Bad => None,
        Opening::Blank => further(StartTag::AfterEquals { tag, name }),
        Opening::Value(quote) => further(StartTag::Value(Value {
            tag,
            name,
            quote,
            bytes: Blob::from_vec(Vec::new(alloc)),
        })),
    }
}

/// The value with more bytes.
fn longer(value: Value, bytes: &[u8]) -> Result<Value, Memory>
    ensures { IfOk result (λ v. v ≡ record value { bytes = value.bytes ++ bytes.now }) }
{
    let Value {
        tag,
        name,
        quote,
        bytes: front,
    } = value;
    let mut all = front.into_vec();
    all.extend_from_slice(bytes)?;
    Ok(Value {
        tag,
        name,
        quote,
        bytes: Blob::from_vec(all),
    })
}

/// The quote that ends a value.
fn end_value(alloc: Global, value: Value) -> Result<Option<Step>, Memory>
    ensures { IfOk result (λ step. Ended value step) }
{
    let Value {
        tag,
        name,
        quote: _,
        bytes,
    } = value;
    if undeclares(&name, bytes.as_slice()) {
        return Ok(None);
    }
    let tag = tag.add(alloc, name, bytes)?;
    Ok(further(StartTag::Between { tag, some: false }))
}

/// A byte in the value of an attribute.
fn in_value(alloc: Global, value: Value, byte: u8) -> Result<Option<Step>, Memory>
    ensures { IfOk result (λ step. (os : List machine.Open) → Steps (Position.Start (StartTag.Value value)) step os byte) }
{
    match choice::in_value(value.quote, byte) {
        Sort::Stays => Ok(further(StartTag::Value(longer(value, &[byte])?))),
        Sort::Ends => end_value(alloc, value),
        Sort::Refers => Ok(further(StartTag::ValueReference {
            value,
            reference: Reference::Start,
        })),
        Sort::Wrong => Ok(None),
    }
}

/// A byte in a reference in a value.
fn in_reference(
    alloc: Global,
    value: Value,
    reference: Reference,
    byte: u8,
) -> Result<Option<Step>, Memory>
    ensures { IfOk result (λ step. (os : List machine.Open) → Steps (Position.Start (StartTag.ValueReference value reference)) step os byte) }
{
    match reference.take(alloc, byte)? {
        Taken::Wrong => Ok(None),
        Taken::Further(reference) => Ok(further(StartTag::ValueReference { value, reference })),
        Taken::Stands(character) => {
            let value = longer(value, utf_8(character).as_slice())?;
            Ok(further(StartTag::Value(value)))
        }
    }
}

impl StartTag {
    /// What one more byte does below these open elements. None where no document has it there.
    pub(crate) fn after(
        self,
        alloc: Global,
        opens: &[Open],
        byte: u8,
    ) -> Result<Option<Step>, Memory>
        ensures { IfOk result (λ step. Steps (Position.Start self) step (stack_of opens.now) byte) }
    {
        match self {
            StartTag::Name(name) => in_name(alloc, opens, name, byte),
            StartTag::Between { tag, some } => between(alloc, opens, tag, some, byte),
            StartTag::Slash { tag, ns } => Ok(behind_slash(tag, ns, byte)),
            StartTag::Attribute { tag, name } => in_attribute(alloc, tag, name, byte),
            StartTag::BeforeEquals { tag, name } => Ok(before_equals(tag, name, byte)),
            StartTag::AfterEquals { tag, name } => Ok(after_equals(alloc, tag, name, byte)),
            StartTag::Value(value) => in_value(alloc, value, byte),
            StartTag::ValueReference { value, reference } => {
                in_reference(alloc, value, reference, byte)
            }
        }
    }
}
