ghost use Rattle.std.specs.Prelude.{◌≡◌, ◌<◌, ◌^◌, ◌⊎◌, List, [], ◌∷◌, ◌++◌, length, IfOk, IfErr};
ghost use Rattle.dav_doc.specs.Document as document;
ghost use Rattle.dav_doc.specs.Document.{Forest, IsDocument};
ghost use Rattle.dav_doc.specs.Machine.{chars};
ghost use Rattle.dav_xml.specs.Events.{event_in};
ghost use Rattle.dav_xml.specs.Nodes.{parts, parts_in, HasGrown, Gathered, Breaks, FirstFault};
ghost use Rattle.dav_xml.specs.Read.{HasRead};

use crate::event::Event;
use crate::fault::XmlFault;
use crate::scan::Scan;
use dav_text::{Blob, Memory};
use std::alloc::Global;
use std::marker::Model;

/// A part of a document.
#[derive(Debug, Drop)]
pub enum Node {
    /// An element. The root is at depth 1; `ns` is the namespace, which is empty where it has none, and
    /// `name` is its name without a prefix.
    Element { depth: u32, ns: Blob, name: Blob },
    /// Text directly in the innermost element of this depth.
    Text { depth: u32, bytes: Blob },
}

/// A whole document as a tree: its nodes in document order, each element before what it holds.
#[derive(Debug, Drop)]
pub struct Document {
    nodes: Vec<Node>,
}

impl Model for Document {
    ghost use Rattle.std.specs.Prelude.{List};
    ghost use Rattle.dav_xml.specs.Nodes.{Part, parts_in};

    ghost Value = { List Part };

    ghost view = { λ document. parts_in document.nodes.items };
}

/// A tree under way.
#[derive(Debug, Drop)]
pub(crate) struct Tree {
    pub(crate) alloc: Global,
    pub(crate) nodes: Vec<Node>,
    /// The depth of the innermost open element.
    pub(crate) depth: u32,
    /// Text in it that is no node yet.
    pub(crate) text: Vec<u8>,
}

impl Tree {
    /// A tree without a node.
    fn new(alloc: Global) -> Tree
        ensures { HasGrown result [] }
    {
        Tree {
            alloc,
            nodes: Vec::new(alloc),
            depth: 0,
            text: Vec::new(alloc),
        }
    }

    /// The text so far becomes a node.
    fn end_text(&mut self) -> Result<(), Memory>
        ensures { (given : List document.Event) → HasGrown self.old given → IfOk result (λ _. HasGrown self.new given × (self.new.text.items ≡ [])) }
    {
        if self.text.is_empty() {
            return Ok(());
        }
        let bytes = Blob::copy_of(self.alloc, self.text.as_slice())?;
        self.nodes.push(Node::Text {
            depth: self.depth,
            bytes,
        })?;
        self.text.clear();
        Ok(())
    }

    /// An element begins.
    fn begin(&mut self, depth: u32, ns: &[u8], name: &[u8]) -> Result<(), Memory>
        ensures { (given : List document.Event) → HasGrown self.old given
            → IfOk result (λ _. HasGrown self.new (given ++ document.Start depth ns.now name.now ∷ [])) }
    {
        self.end_text()?;
        let ns = Blob::copy_of(self.alloc, ns)?;
        let name = Blob::copy_of(self.alloc, name)?;
        self.nodes.push(Node::Element { depth, ns, name })?;
        self.depth = depth;
        Ok(())
    }

    /// The element at this depth ends.
    fn end(&mut self, depth: u32) -> Result<(), Memory>
        ensures { (given : List document.Event) → HasGrown self.old given
            → IfOk result (λ _. HasGrown self.new (given ++ document.End depth ∷ [])) }
    {
        self.end_text()?;
        self.depth = depth.saturating_sub(1);
        Ok(())
    }

    /// More text comes.
    fn say(&mut self, bytes: &[u8]) -> Result<(), Memory>
        ensures { (given : List document.Event) → HasGrown self.old given → IfOk result (λ _. HasGrown self.new (given ++ chars bytes.now)) }
    {
        self.text.extend_from_slice(bytes)?;
        Ok(())
    }

    /// One event more.
    #[tactic(none)]
    fn add(&mut self, event: Event<'_>) -> Result<(), Memory>
        ensures { (given : List document.Event) → HasGrown self.old given → IfOk result (λ _. HasGrown self.new (given ++ event_in event.entry)) }
    {
        match event {
            Event::Start { depth, ns, name } => self.begin(depth, ns, name),
            Event::Chars { bytes } => self.say(bytes),
            Event::End { depth } => self.end(depth),
        }
    }
}

/// Gathers the events of a whole text.
#[tactic(none)]
fn gather(scan: &mut Scan, bytes: &[u8], tree: &mut Tree) -> Result<(), XmlFault>
    requires small { length bytes.now < 2 ^ 64 }
    requires reads { HasRead scan.old [] [] }
    requires grows { HasGrown tree.old [] }
    ensures whole { IfOk result (λ _. Gathered scan.new bytes.now tree.new) }
    ensures fault { IfErr result (λ fault. (fault ≡ XmlFault.Memory) ⊎ Breaks bytes.now fault) }
{
    let mut rest = bytes;
    // Each turn takes bytes, or gives the end of an empty element that was waiting.
    loop {
        let fed = match scan.feed(rest) {
            Ok(fed) => fed,
            Err(fault) => return Err(fault),
        };
        if !fed.ready {
            return Ok(());
        }
        let Ok(()) = tree.add(scan.event()) else {
            return Err(XmlFault::Memory);
        };
        rest = &rest[fed.used..];
    }
}

/// Reads a whole text into a tree, up to its last node.
#[tactic(none)]
fn fill(scan: &mut Scan, bytes: &[u8], tree: &mut Tree) -> Result<(), XmlFault>
    requires small { length bytes.now < 2 ^ 64 }
    requires reads { HasRead scan.old [] [] }
    requires grows { HasGrown tree.old [] }
    ensures whole { IfOk result (λ _. (read : Forest) × IsDocument read bytes.now × (parts_in tree.new.nodes.items ≡ parts 0 read)) }
    ensures fault { IfErr result (λ fault. (fault ≡ XmlFault.Memory) ⊎ FirstFault bytes.now fault) }
{
    match gather(scan, bytes, tree) {
        Ok(()) => {}
        Err(fault) => return Err(fault),
    }
    match scan.end() {
        Ok(()) => {}
        Err(fault) => return Err(fault),
    }
    match tree.end_text() {
        Ok(()) => Ok(()),
        Err(Memory) => Err(XmlFault::Memory),
    }
}

impl Tree {
    /// Reads a whole text into a tree without a node.
    fn read(&mut self, bytes: &[u8]) -> Result<(), XmlFault>
        requires grows { HasGrown self.old [] }
        ensures whole { IfOk result (λ _. (read : Forest) × IsDocument read bytes.now × (parts_in self.new.nodes.items ≡ parts 0 read)) }
        ensures fault { IfErr result (λ fault. (fault ≡ XmlFault.Memory) ⊎ FirstFault bytes.now fault) }
    {
        match Scan::new(self.alloc) {
            Ok(mut scan) => fill(&mut scan, bytes, self),
            Err(Memory) => Err(XmlFault::Memory),
        }
    }
}

impl Document {
    /// Reads a text that is a whole document.
    ///
    /// # Errors
    ///
    /// Bad and Limit at the first byte that a scanner refuses, Cut where all bytes are read and are no
    /// document, and Memory.
    pub fn read(alloc: Global, bytes: &[u8]) -> Result<Document, XmlFault>
        ensures whole { IfOk result (λ read. (tree : Forest) × IsDocument tree bytes.now × (read ≡ parts 0 tree)) }
        ensures fault { IfErr result (λ fault. (fault ≡ XmlFault.Memory) ⊎ FirstFault bytes.now fault) }
    {
        let mut tree = Tree::new(alloc);
        match tree.read(bytes) {
            Ok(()) => Ok(Document { nodes: tree.nodes }),
            Err(fault) => Err(fault),
        }
    }

    /// The nodes in document order, each element before what it holds.
    pub fn nodes(&self) -> &[Node]
        ensures { parts_in result.now ≡ self.now }
    {
        self.nodes.as_slice()
    }
}
