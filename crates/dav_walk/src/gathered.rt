ghost use Rattle.std.specs.Prelude.{◌≡◌, ◌+◌, ◌∷◌, ◌++◌, [], length, IfOk, IfErr, ◌≤◌};
ghost use Rattle.dav_walk.specs.Reading.{has_href as has_href_lem, has_codes as has_codes_lem};
ghost use Rattle.dav_walk.specs.Gathering.{with_text as with_text_lem};

use crate::found::Found;
use crate::handler::{Handler, Next};
use crate::node::{Node, Span};
use crate::reading::{has_codes, has_href};
use dav_text::Memory;
use std::alloc::Global;
use std::marker::Model;

/// How many elements a response may have.
pub(crate) const NODES_MAX: usize = 4096;

/// How many bytes of namespaces, names and texts a response may have.
pub(crate) const HELD_MAX: usize = 1_048_576;

/// The elements of a response so far, in document order. Contracts see them as a list.
#[derive(Debug, Drop)]
pub(crate) struct Gathered {
    nodes: Vec<Node>,
    text: Vec<u8>,
}

impl Model for Gathered {
    ghost use Rattle.std.specs.Prelude.{List};
    ghost use Rattle.dav_walk.specs.Tree.{Item};

    ghost Value = { List Item };

    ghost use Rattle.dav_walk.specs.GatheredView.{gathered_in, IsGathered};

    ghost view = { gathered_in };

    ghost invariant = { IsGathered };
}

/// The bytes at the end of the text, and the span that they have there.
fn append(text: &mut Vec<u8>, bytes: &[u8]) -> Result<Span, Memory>
    requires { length text.old.items + length bytes.now ≤ 1048576 }
    ensures at { IfOk result (λ span. span.at ≡ length text.old.items) }
    ensures len { IfOk result (λ span. span.len ≡ length bytes.now) }
    ensures text { IfOk result (λ _. text.new.items ≡ text.old.items ++ bytes.now) }
    ensures front { IfErr result (λ _. text.new.items ≡ text.old.items) }
{
    let at = text.len() as u32;
    text.extend_from_slice(bytes)?;
    Ok(Span {
        at,
        len: bytes.len() as u32,
    })
}

impl Gathered {
    pub(crate) fn new(alloc: Global) -> Gathered
        ensures { result ≡ [] }
    {
        Gathered {
            nodes: Vec::new(alloc),
            text: Vec::new(alloc),
        }
    }

    /// Forgets all elements.
    pub(crate) fn clear(&mut self)
        ensures { self.new ≡ [] }
    {
        self.nodes.clear();
        self.text.clear();
    }

    /// How many elements there are.
    pub(crate) fn len(&self) -> usize
        ensures len { result ≡ length self.now }
        ensures few { length self.now ≤ 4096 }
    {
        self.nodes.len()
    }

    /// Adds an element without text. The want of room within the limits of a response counts as want of
    /// memory.
    pub(crate) fn push(&mut self, depth: u32, ns: &[u8], name: &[u8]) -> Result<(), Memory>
        ensures { IfOk result (λ _. self.new ≡ self.old ++ (record { depth = depth; ns = ns.now; name = name.now; text = [] } ∷ [])) }
    {
        let room = HELD_MAX - self.text.len();
        if self.nodes.len() >= NODES_MAX || ns.len() > room || name.len() > room - ns.len() {
            return Err(Memory);
        }
        let ns = append(&mut self.text, ns)?;
        let name = append(&mut self.text, name)?;
        self.nodes.push(Node {
            depth,
            ns,
            name,
            text: Span { at: 0, len: 0 },
        })?;
        Ok(())
    }

    /// Gives the element at the place this text.
    pub(crate) fn set_text(&mut self, place: usize, bytes: &[u8]) -> Result<(), Memory>
        ensures { IfOk result (λ _. self.new ≡ with_text_lem place bytes.now self.old) }
    {
        if bytes.len() > HELD_MAX - self.text.len() {
            return Err(Memory);
        }
        let text = append(&mut self.text, bytes)?;
        if place < self.nodes.len() {
            let node = &mut self.nodes[place];
            node.text = text;
        }
        Ok(())
    }

    /// Whether the first element has a child `href`.
    pub(crate) fn has_href(&self) -> bool
        ensures { result ≡ has_href_lem self.now }
    {
        has_href(&self.nodes, &self.text)
    }

    /// Whether the children of the first element have codes where they need them.
    pub(crate) fn has_codes(&self) -> bool
        ensures { result ≡ has_codes_lem self.now }
    {
        has_codes(&self.nodes, &self.text)
    }

    /// Lends the elements.
    pub(crate) fn lend<H: Handler>(&self, index: u64, handler: &mut H) -> Next
        ensures { H.lends handler.old (record { items = self.now; index = index }) result handler.new }
    {
        handler.response(&Found {
            nodes: &self.nodes,
            text: &self.text,
            index,
        })
    }
}
