ghost use Rattle.std.specs.Prelude.{◌≡◌, ◌+◌, nat_le, length, Some};
ghost use Rattle.dav_xml.specs.Reading.{limit_by, tag_limit as tag_limit_lem};
ghost use Rattle.dav_xml.specs.Turn.{begun_by, attributes_by};

use crate::step::Step;
use dav_markup::scope::Tag;
use dav_text::Which;

/// The levels of a document at most.
const DEPTH: u32 = 32;

/// The attributes of an element at most.
const ATTRIBUTES: usize = 64;

/// The bytes of a tag at most.
pub(crate) const TAG: u32 = 65_536;

/// Whether a tag of this size has no room for one more byte.
fn tag_limit(size: u32) -> Option<Which>
    ensures { result ≡ tag_limit_lem size }
{
    if size >= TAG {
        return Some(Which::Tag);
    }
    None
}

/// Whether a tag has too many attributes.
fn has_many(tag: &Tag) -> bool
    ensures { result ≡ nat_le 65 (length tag.now.bindings.items + length tag.now.prefixes.items) }
{
    let declarations = tag.bindings.len();
    declarations > ATTRIBUTES || tag.prefixes.len() > ATTRIBUTES - declarations
}

/// The limit that an element passes with the last byte of its start tag.
fn start_limit(tag: &Tag, depth: u32, size: u32) -> Option<Which>
    ensures { result ≡ limit_by (Some (depth + 1)) (length tag.now.bindings.items + length tag.now.prefixes.items) size }
{
    if depth >= DEPTH {
        return Some(Which::Depth);
    }
    if has_many(tag) {
        return Some(Which::Attributes);
    }
    tag_limit(size)
}

/// The limit that a step passes below so many open elements, in a tag of this size so far: of two
/// the depth before the attributes, and these before the bytes of the tag.
pub(crate) fn limit_of(step: &Step, depth: u32, size: u32) -> Option<Which>
    ensures { result ≡ limit_by (begun_by step.now depth) (attributes_by step.now) size }
{
    match step {
        Step::Opens { tag, ns: _ } => start_limit(tag, depth, size),
        Step::Empty { tag, ns: _ } => start_limit(tag, depth, size),
        _ => tag_limit(size),
    }
}
