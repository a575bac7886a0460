//! What is told of a document, as lines: `start DEPTH {NAMESPACE}NAME`, `text TEXT` and `end DEPTH`.

use dav_xml::{Event, Node};
use std::alloc::{AllocError, Global};

/// What was told so far.
#[derive(Drop)]
pub struct Telling {
    alloc: Global,
    lines: Vec<u8>,
    /// Text that is no line yet, since more of it may follow.
    text: Vec<u8>,
    /// The depth of the innermost open element, where nodes are told.
    depth: u32,
}

impl Telling {
    /// Before the first event.
    pub fn new(alloc: Global) -> Telling {
        Telling {
            alloc,
            lines: Vec::new(alloc),
            text: Vec::new(alloc),
            depth: 0,
        }
    }

    /// The text so far becomes a line.
    fn end_text(&mut self) -> Result<(), AllocError> {
        if self.text.is_empty() {
            return Ok(());
        }
        self.lines.extend_from_slice(b"text ")?;
        self.lines.extend_from_slice(self.text.as_slice())?;
        self.lines.extend_from_slice(b"\n")?;
        self.text.clear();
        Ok(())
    }

    /// An element begins.
    fn start(&mut self, depth: u32, ns: &[u8], name: &[u8]) -> Result<(), AllocError> {
        self.end_text()?;
        let front = format!(in self.alloc; "start {depth} {{")?;
        self.lines.extend_from_slice(front.as_bytes())?;
        self.lines.extend_from_slice(ns)?;
        self.lines.extend_from_slice(b"}")?;
        self.lines.extend_from_slice(name)?;
        self.lines.extend_from_slice(b"\n")
    }

    /// The element of a depth ends.
    fn end(&mut self, depth: u32) -> Result<(), AllocError> {
        self.end_text()?;
        let line = format!(in self.alloc; "end {depth}\n")?;
        self.lines.extend_from_slice(line.as_bytes())
    }

    /// Tells an event.
    pub fn tell(&mut self, event: Event<'_>) -> Result<(), AllocError> {
        match event {
            Event::Start { depth, ns, name } => self.start(depth, ns, name),
            Event::Chars { bytes } => self.text.extend_from_slice(bytes),
            Event::End { depth } => self.end(depth),
        }
    }

    /// Tells the ends of the open elements of at least this depth, the innermost first.
    fn end_down_to(&mut self, least: u32) -> Result<(), AllocError> {
        let open = self.depth;
        for ended in 0..open {
            let depth = open.saturating_sub(ended);
            if depth >= least {
                self.end(depth)?;
            }
        }
        Ok(())
    }

    /// Tells a node, behind the ends of the elements that it is not in.
    fn tell_node(&mut self, node: &Node) -> Result<(), AllocError> {
        match node {
            Node::Element { depth, ns, name } => {
                self.end_down_to(*depth)?;
                self.depth = *depth;
                self.start(*depth, ns.as_slice(), name.as_slice())
            }
            Node::Text { depth, bytes } => {
                self.end_down_to(depth.saturating_add(1))?;
                self.depth = *depth;
                self.text.extend_from_slice(bytes.as_slice())
            }
        }
    }

    /// Tells the nodes of a whole document, as its events are told.
    pub fn tell_nodes(&mut self, nodes: &[Node]) -> Result<(), AllocError> {
        for node in nodes {
            self.tell_node(node)?;
        }
        self.end_down_to(1)
    }

    /// The lines.
    pub fn into_lines(self) -> Vec<u8> {
        self.lines
    }
}
