ghost use Rattle.std.specs.Prelude.{◌≡◌, ◌++◌, option_map, is_some};
ghost use Rattle.std.specs.List.{list_all};
ghost use Rattle.dav_doc.specs.Names.{lookup as lookup_lem, base as base_lem, resolved};
ghost use Rattle.dav_doc.specs.Document as document;
ghost use Rattle.dav_markup.specs.Scope.{bindings_in, scope_in, Fits};

use crate::name::Name;
use dav_text::Blob;

/// A namespace for a prefix: Namespaces in XML 1.0, section 3.
#[derive(Debug, Drop)]
pub struct Binding {
    pub prefix: Blob,
    pub ns: Blob,
}

/// An element whose end tag is still to come, with the declarations in its own tag.
#[derive(Debug, Drop)]
pub struct Open {
    pub name: Name,
    pub bindings: Vec<Binding>,
}

/// A start tag so far: its name, its declarations, and the prefixes of its other attributes.
#[derive(Debug, Drop)]
pub struct Tag {
    pub name: Name,
    pub bindings: Vec<Binding>,
    pub prefixes: Vec<Blob>,
}

/// The namespace of the first of these bindings that is for the prefix.
fn find_in<'a>(bindings: &'a [Binding], prefix: &[u8]) -> Option<&'a [u8]>
    ensures { option_map (λ r. r.now) result ≡ lookup_lem (bindings_in bindings.now) prefix.now }
{
    let mut rest = bindings;
    while let Some((first, others)) = rest.split_first() {
        if first.prefix.as_slice() == prefix {
            return Some(first.ns.as_slice());
        }
        rest = others;
    }
    None
}

/// What a prefix stands for above the root.
fn find_base(prefix: &[u8]) -> Option<&'static [u8]>
    ensures { option_map (λ r. r.now) result ≡ lookup_lem base_lem prefix.now }
{
    if b"".as_slice() == prefix {
        return Some(b"");
    }
    if b"xml".as_slice() == prefix {
        return Some(b"http://www.w3.org/XML/1998/namespace");
    }
    None
}

/// What a prefix stands for below these open elements.
fn find_below<'a>(opens: &'a [Open], prefix: &[u8]) -> Option<&'a [u8]>
    ensures { option_map (λ r. r.now) result ≡ lookup_lem (scope_in opens.now) prefix.now }
{
    let mut around = opens;
    while let Some((last, others)) = around.split_last() {
        match find_in(&last.bindings, prefix) {
            Some(ns) => return Some(ns),
            None => around = others,
        }
    }
    find_base(prefix)
}

/// What a prefix stands for in a tag with these declarations below these open elements.
fn find<'a>(opens: &'a [Open], own: &'a [Binding], prefix: &[u8]) -> Option<&'a [u8]>
    ensures { option_map (λ r. r.now) result ≡ lookup_lem (bindings_in own.now ++ scope_in opens.now) prefix.now }
{
    match find_in(own, prefix) {
        Some(ns) => Some(ns),
        None => find_below(opens, prefix),
    }
}

/// Whether all of the prefixes are declared there.
fn all_bound(opens: &[Open], own: &[Binding], prefixes: &[Blob]) -> bool
    ensures { result ≡ list_all (λ p. is_some (lookup_lem (bindings_in own.now ++ scope_in opens.now) p)) prefixes.now }
{
    prefixes
        .iter()
        .all(|p| find(opens, own, p.as_slice()).is_some())
}

/// The namespace of an element below these open elements, where all prefixes of its tag are
/// declared: Namespaces in XML 1.0, section 5.
pub fn resolve<'a>(opens: &'a [Open], tag: &'a Tag) -> Option<&'a [u8]>
    ensures { (t : document.Tag) → Fits tag.now t → option_map (λ r. r.now) result ≡ resolved (scope_in opens.now) t.name t.attributes }
{
    if !all_bound(opens, &tag.bindings, &tag.prefixes) {
        return None;
    }
    find(opens, &tag.bindings, tag.name.prefix())
}
