ghost use Rattle.std.specs.Prelude.{◌≡◌, ℕ, ◌<◌, ◌≤◌, ◌-◌, ◌&&◌, ◌==◌, [], true, option_map, if◌then◌else◌};
ghost use Rattle.std.specs.List.{list_all};
ghost use Rattle.dav_walk.specs.Reading.{children, named, propstat_code, first_child as first_child_lem, href as href_lem, status as status_lem, is_response as is_response_lem, has_href as has_href_lem, has_codes as has_codes_lem, is_fine as is_fine_lem};
ghost use Rattle.dav_walk.specs.View.{item_of, items_of};

use crate::code::{code_of, trimmed};
use crate::node::{Node, is_named, part};

/// Whether the node is a child with this name in the namespace `DAV:` of an element at the depth.
fn is_child(node: &Node, text: &[u8], depth: u32, word: &[u8]) -> bool
    ensures { result ≡ ((node.now.depth - depth == 1) && named word.now (record { place = 0; item = item_of text.now node.now; following = [] })) }
{
    node.depth.saturating_sub(depth) == 1 && is_named(node, text, word)
}

/// The first child with this name in the namespace `DAV:` of an element at the depth, where these nodes
/// follow it.
fn first_child<'a>(nodes: &'a [Node], text: &[u8], depth: u32, word: &[u8]) -> Option<&'a Node>
    ensures { option_map (λ n. item_of text.now n.now) result ≡ first_child_lem word.now depth (items_of nodes.now text.now) }
{
    let mut rest = nodes;
    while let Some((node, others)) = rest.split_first() {
        if node.depth <= depth {
            return None;
        }
        if is_child(node, text, depth, word) {
            return Some(node);
        }
        rest = others;
    }
    None
}

/// The code of the first child `status` of an element at the depth, where these nodes follow it.
pub(crate) fn code_below(nodes: &[Node], text: &[u8], depth: u32) -> Option<u16>
    ensures { result ≡ propstat_code depth (items_of nodes.now text.now) }
{
    match first_child(nodes, text, depth, b"status") {
        Some(node) => code_of(part(text, node.text)),
        None => None,
    }
}

/// Whether the first node is `response` in the namespace `DAV:`.
pub(crate) fn is_response(nodes: &[Node], text: &[u8]) -> bool
    ensures { result ≡ is_response_lem (items_of nodes.now text.now) }
{
    match nodes.split_first() {
        Some((own, _)) => is_named(own, text, b"response"),
        None => false,
    }
}

/// The text of the first child `href` of the first node.
pub(crate) fn href<'a>(nodes: &[Node], text: &'a [u8]) -> &'a [u8]
    ensures { result.now ≡ href_lem (items_of nodes.now text.now) }
{
    let Some((own, rest)) = nodes.split_first() else {
        return b"";
    };
    match first_child(rest, text, own.depth, b"href") {
        Some(node) => trimmed(part(text, node.text)),
        None => b"",
    }
}

/// The code of the first child `status` of the first node, if that is a response.
pub(crate) fn status(nodes: &[Node], text: &[u8]) -> Option<u16>
    ensures { result ≡ status_lem (items_of nodes.now text.now) }
{
    if !is_response(nodes, text) {
        return None;
    }
    let (own, rest) = nodes.split_first()?;
    code_below(rest, text, own.depth)
}

/// Whether the first node has a child `href`.
pub(crate) fn has_href(nodes: &[Node], text: &[u8]) -> bool
    ensures { result ≡ has_href_lem (items_of nodes.now text.now) }
{
    let Some((own, rest)) = nodes.split_first() else {
        return false;
    };
    match first_child(rest, text, own.depth, b"href") {
        Some(_) => true,
        None => false,
    }
}

/// Whether a child, which these nodes follow, has a code where it needs one.
fn is_fine(node: &Node, rest: &[Node], text: &[u8]) -> bool
    ensures { (place : ℕ) → result ≡ is_fine_lem (record { place = place; item = item_of text.now node.now; following = items_of rest.now text.now }) }
{
    if is_named(node, text, b"status") {
        return code_of(part(text, node.text)).is_some();
    }
    if is_named(node, text, b"propstat") {
        return code_below(rest, text, node.depth).is_some();
    }
    true
}

/// Whether a node below an element at the depth is no child of it or has a code where it needs one.
fn is_fine_below(node: &Node, rest: &[Node], text: &[u8], depth: u32) -> bool
    ensures { (place : ℕ) → result ≡ (if node.now.depth - depth == 1 then is_fine_lem (record { place = place; item = item_of text.now node.now; following = items_of rest.now text.now }) else true) }
{
    if node.depth.saturating_sub(depth) == 1 {
        return is_fine(node, rest, text);
    }
    true
}

/// Whether the children of an element at the depth, where these nodes follow it, have codes where they
/// need them.
fn are_fine(nodes: &[Node], text: &[u8], depth: u32) -> bool
    ensures { (place : ℕ) → result ≡ list_all is_fine_lem (children depth place (items_of nodes.now text.now)) }
{
    let mut rest = nodes;
    while let Some((node, others)) = rest.split_first() {
        if node.depth <= depth {
            return true;
        }
        if !is_fine_below(node, others, text, depth) {
            return false;
        }
        rest = others;
    }
    true
}

/// Whether each child `status` of the first node and the first `status` of each child `propstat` has a code.
pub(crate) fn has_codes(nodes: &[Node], text: &[u8]) -> bool
    ensures { result ≡ has_codes_lem (items_of nodes.now text.now) }
{
    match nodes.split_first() {
        Some((own, rest)) => are_fine(rest, text, own.depth),
        None => true,
    }
}
