ghost use Rattle.std.specs.Prelude.{◌≡◌, ◌≤◌, length};
ghost use Rattle.dav_walk.specs.Reading.{href as href_lem, status as status_lem, props as props_lem};
ghost use Rattle.dav_walk.specs.Props.{placed};
ghost use Rattle.dav_walk.specs.PropsView.{left};
ghost use Rattle.dav_walk.specs.View.{part as part_lem, items_of};

use crate::node::{Node, Span, part};
use crate::props::Props;
use crate::reading::{href, status};

/// One response, lent: its elements in document order, its own first, the bytes that they speak of, and
/// how many responses came before it.
#[derive(Debug, Drop)]
pub struct Found<'a> {
    pub nodes: &'a [Node],
    pub text: &'a [u8],
    pub index: u64,
    ghost few: { length nodes.now ≤ 4096 },
    ghost short: { length text.now ≤ 1048576 },
}

impl<'a> Found<'a> {
    /// The bytes of a span of one of the nodes.
    pub fn bytes(&self, span: Span) -> &'a [u8]
        ensures { result.now ≡ part_lem self.now.text.now span }
    {
        part(self.text, span)
    }

    /// The text of the first child `href`, without blanks at its ends, or nothing where there is none:
    /// RFC 4918 section 14.7.
    pub fn href(&self) -> &'a [u8]
        ensures { result.now ≡ href_lem (items_of self.now.nodes.now self.now.text.now) }
    {
        href(self.nodes, self.text)
    }

    /// The code of the first child `status`, if there is one: RFC 4918 section 14.28.
    pub fn status(&self) -> Option<u16>
        ensures { result ≡ status_lem (items_of self.now.nodes.now self.now.text.now) }
    {
        status(self.nodes, self.text)
    }

    /// The properties, in document order, each with the code of its `propstat`: RFC 4918 section 14.22.
    pub fn props(&self) -> Props<'a>
        ensures { left result ≡ placed self.now.nodes.now (props_lem (items_of self.now.nodes.now self.now.text.now)) }
    {
        Props::new(self.nodes, self.text)
    }
}
