ghost use Rattle.std.specs.Prelude.{◌≡◌};
ghost use Rattle.dav_walk.specs.Tree.{is_dav};
ghost use Rattle.dav_walk.specs.View.{part as part_lem};

/// A run of bytes in a text that goes along.
#[derive(Clone, Copy, Debug, PartialEq, Eq)]
pub struct Span {
    pub at: u32,
    pub len: u32,
}

/// An element of a response: how deep it is, where the root of its document is at 1, its namespace and
/// name, and its text without that of its children.
#[derive(Clone, Copy, Debug, PartialEq, Eq)]
pub struct Node {
    pub depth: u32,
    pub ns: Span,
    pub name: Span,
    pub text: Span,
}

/// The bytes of the span, as far as the text has them.
pub(crate) fn part<'a>(text: &'a [u8], span: Span) -> &'a [u8]
    ensures { result.now ≡ part_lem text.now span }
{
    let Some(rest) = text.get(span.at as usize..) else {
        return b"";
    };
    match rest.get(..span.len as usize) {
        Some(bytes) => bytes,
        None => rest,
    }
}

/// Whether the node has this name in the namespace `DAV:`.
pub(crate) fn is_named(node: &Node, text: &[u8], word: &[u8]) -> bool
    ensures { result ≡ is_dav (part_lem text.now node.now.ns) (part_lem text.now node.now.name) word.now }
{
    part(text, node.ns) == b"DAV:".as_slice() && part(text, node.name) == word
}
