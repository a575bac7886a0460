ghost use Rattle.std.specs.Prelude.{◌≡◌, ℕ, ◌<◌, ◌≤◌, ◌-◌, ◌∷◌, ◌+◌, length, drop, MatchOption};
ghost use Rattle.dav_walk.specs.Reading.{props};
ghost use Rattle.dav_walk.specs.Props.{placed, left_from, context_of as context_of_lem, context_in as context_in_lem, context_after as context_after_lem};
ghost use Rattle.dav_walk.specs.PropsView.{left, placed_of};
ghost use Rattle.dav_walk.specs.View.{item_of, items_of};

use crate::node::{Node, is_named};
use crate::reading::{code_below, is_response};

/// A property that a response gives: the code of its `propstat`, and its element, which has this place
/// among the nodes of the response.
#[derive(Clone, Copy, Debug, PartialEq, Eq)]
pub struct Prop<'a> {
    pub status: u16,
    pub place: usize,
    pub node: &'a Node,
}

/// Where the next node stands.
#[derive(Clone, Copy, Debug)]
pub(crate) enum Context {
    /// In no `propstat` that has a code.
    Aside,
    /// In a `propstat` with this code, and in no `prop` of it.
    Propstat(u16),
    /// In a `prop` of a `propstat` with this code.
    Prop(u16),
}

/// The properties of a response, in document order.
#[derive(Debug, Drop)]
pub struct Props<'a> {
    nodes: &'a [Node],
    text: &'a [u8],
    depth: u32,
    at: usize,
    context: Context,
}

/// Behind the start of a `propstat` with this code.
fn context_of(code: Option<u16>) -> Context
    ensures { result ≡ context_of_lem code }
{
    match code {
        Some(code) => Context::Propstat(code),
        None => Context::Aside,
    }
}

/// Behind the start of a child of a `propstat`, which is `prop` or not.
fn context_in(is_prop: bool, context: Context) -> Context
    ensures { result ≡ context_in_lem is_prop context }
{
    match context {
        Context::Aside => Context::Aside,
        Context::Propstat(code) | Context::Prop(code) => {
            if is_prop {
                Context::Prop(code)
            } else {
                Context::Propstat(code)
            }
        }
    }
}

/// Behind the start of a node that is so many levels below the response's own. The other nodes follow it.
fn context_after(level: u32, node: &Node, rest: &[Node], text: &[u8], context: Context) -> Context
    ensures { result ≡ context_after_lem level (item_of text.now node.now) (items_of rest.now text.now) context }
{
    if level == 1 {
        if is_named(node, text, b"propstat") {
            return context_of(code_below(rest, text, node.depth));
        }
        return Context::Aside;
    }
    if level == 2 {
        return context_in(is_named(node, text, b"prop"), context);
    }
    context
}

impl<'a> Props<'a> {
    /// The properties of the response whose nodes these are; none where the first of them is no response.
    pub(crate) fn new(nodes: &'a [Node], text: &'a [u8]) -> Props<'a>
        ensures { left result ≡ placed nodes.now (props (items_of nodes.now text.now)) }
    {
        if !is_response(nodes, text) {
            return Props::from(nodes, text, 0, nodes.len());
        }
        match nodes.split_first() {
            Some((own, _)) => Props::from(nodes, text, own.depth, 1),
            None => Props::from(nodes, text, 0, 0),
        }
    }

    fn from(nodes: &'a [Node], text: &'a [u8], depth: u32, at: usize) -> Props<'a>
        ensures { left result ≡ placed nodes.now (left_from depth at (items_of (drop at nodes.now) text.now) Context.Aside) }
    {
        Props {
            nodes,
            text,
            depth,
            at,
            context: Context::Aside,
        }
    }

    /// Goes past the next node, and gives it if it is a property.
    fn pass(&mut self) -> Option<Prop<'a>>
        requires { self.old.at < length self.old.nodes.now }
        ensures nodes { self.new.nodes ≡ self.old.nodes }
        ensures text { self.new.text ≡ self.old.text }
        ensures depth { self.new.depth ≡ self.old.depth }
        ensures on { self.old.at < self.new.at }
        ensures gives { MatchOption result (left self.new ≡ left self.old) (λ p. left self.old ≡ placed_of p ∷ left self.new) }
    {
        let place = self.at;
        let node = &self.nodes[place];
        if node.depth <= self.depth {
            self.at = self.nodes.len();
            return None;
        }
        let level = node.depth - self.depth;
        let context = self.context;
        self.at = place + 1;
        self.context = context_after(level, node, &self.nodes[place + 1..], self.text, context);
        match context {
            Context::Prop(status) if level == 3 => Some(Prop {
                status,
                place,
                node,
            }),
            _ => None,
        }
    }
}

impl<'a> Iterator for Props<'a> {
    type Item = Prop<'a>;

    ghost use Rattle.std.specs.Iterator.{YieldsFirstBy, item_count};
    ghost use Rattle.dav_walk.specs.PropsView.{left, placed_of};

    ghost next_gives = { YieldsFirstBy placed_of left };

    ghost remaining = { item_count left };

    fn next(&mut self) -> Option<Prop<'a>> {
        while self.at < self.nodes.len() {
            if let Some(prop) = self.pass() {
                return Some(prop);
            }
        }
        None
    }
}
