ghost use Rattle.std.specs.Prelude.{◌≡◌, ℕ, ◌+◌, ◌<◌, ◌≤◌, ◌⊎◌, ◌&&◌, ◌||◌, not, length, None, Some, Ok, true, false, [], ◌∷◌, IfOk, IfErr, MatchOption};
ghost use Rattle.dav_doc.specs.Machine.{chars as chars_lem};
ghost use Rattle.dav_xml.specs.Events.{event_in};
ghost use Rattle.dav_walk.specs.Lending.{LentAll, LentToStop};
ghost use Rattle.dav_doc.specs.Document.{Start, Char, End};
ghost use Rattle.dav_walk.specs.declared.fault.WalkFault.TheVariants as faults;
ghost use Rattle.dav_walk.specs.Tree.{is_dav};
ghost use Rattle.dav_walk.specs.Gathering.{begins as begins_lem, root_name as root_name_lem, owed_after as owed_after_lem, following as following_lem, between, is_kept, count_fault, response_fault, end_fault, with_end, ended_by, fault_of, next, is_open, walk, Goes, Fails};

use crate::fault::WalkFault;
use crate::gathered::{Gathered, HELD_MAX, NODES_MAX};
use crate::handler::{Handler, Next};
use crate::opened::Stack;
use crate::root::Root;
use dav_text::Which;
use dav_xml::Event;
use std::alloc::Global;

/// The response that comes, if one is open, and how many have ended. It takes the events of one document in
/// order, and keeps one response at most. After a fault it is not to be used again.
#[derive(Debug, Drop)]
pub(crate) struct Collector {
    pub(crate) root: Root,
    pub(crate) gathered: Gathered,
    pub(crate) opened: Stack,
    /// The bytes of the namespaces, names and texts of the response.
    pub(crate) held: u32,
    /// How many bytes the last character still needs.
    pub(crate) owed: u8,
    /// How many responses have ended.
    pub(crate) index: u64,
    ghost bounded: { held + owed ≤ 1048580 },
    ghost few: { owed ≤ 3 },
    ghost whole: { owed ≡ 0 → held ≤ 1048576 },
}

/// Whether the name in the namespace `DAV:` is this one.
fn is_dav_name(ns: &[u8], name: &[u8], word: &[u8]) -> bool
    ensures { result ≡ is_dav ns.now name.now word.now }
{
    ns == b"DAV:".as_slice() && name == word
}

/// The name of the root element.
fn root_name(root: Root) -> &'static [u8]
    ensures { result.now ≡ root_name_lem root }
{
    match root {
        Root::Multistatus => b"multistatus",
        Root::Prop => b"prop",
    }
}

/// Whether an element begins a response where none is open.
fn begins(root: Root, depth: u32, ns: &[u8], name: &[u8]) -> bool
    ensures { result ≡ begins_lem root depth ns.now name.now }
{
    match root {
        Root::Multistatus => depth == 2 && is_dav_name(ns, name, b"response"),
        Root::Prop => depth == 1,
    }
}

/// How many bytes follow one that begins a character: RFC 3629 section 3.
fn following(byte: u8) -> u8
    ensures { result ≡ following_lem byte }
{
    if byte >= 240 {
        3
    } else if byte >= 224 {
        2
    } else if byte >= 192 {
        1
    } else {
        0
    }
}

/// How many bytes the last character still needs behind one more byte.
fn owed_after(owed: u8, byte: u8) -> u8
    ensures value { result ≡ owed_after_lem owed byte }
    ensures few { owed ≤ 3 → result ≤ 3 }
    ensures less { 0 < owed → result + 1 ≡ owed }
{
    if owed == 0 {
        return following(byte);
    }
    owed - 1
}

/// The bytes that are held with a namespace and a name of these lengths, if they are no more than may be.
fn held_with(held: u32, ns: usize, name: usize) -> Option<u32>
    ensures { MatchOption result (1048576 < held + (ns + name)) (λ more. (more ≡ held + (ns + name)) × (more ≤ 1048576)) }
{
    let held = held as usize;
    if held > HELD_MAX || ns > HELD_MAX - held || name > HELD_MAX - held - ns {
        return None;
    }
    Some((held + ns + name) as u32)
}

/// Judges a response that has ended.
fn judge(root: Root, gathered: &Gathered, index: u64) -> Result<(), WalkFault>
    ensures fine { IfOk result (λ _. response_fault root index gathered.now ≡ None) }
    ensures fault { IfErr result (λ fault. response_fault root index gathered.now ≡ Some fault) }
{
    match root {
        Root::Prop => Ok(()),
        Root::Multistatus => {
            if !gathered.has_href() {
                return Err(WalkFault::NoHref { index });
            }
            if !gathered.has_codes() {
                return Err(WalkFault::BadStatus { index });
            }
            Ok(())
        }
    }
}

impl Collector {
    ghost use Rattle.dav_walk.specs.Collecting.{gathering_of};

    /// Before the first event.
    pub(crate) fn new(alloc: Global, root: Root) -> Collector
        ensures { gathering_of result ≡ between root 0 }
    {
        Collector {
            root,
            gathered: Gathered::new(alloc),
            opened: Stack::new(alloc),
            held: 0,
            owed: 0,
            index: 0,
        }
    }

    /// Whether an element is one of a response.
    fn is_kept(&self, depth: u32, ns: &[u8], name: &[u8]) -> bool
        ensures { result ≡ is_kept (gathering_of self.now) depth ns.now name.now }
    {
        !self.opened.is_empty() || begins(self.root, depth, ns, name)
    }

    /// The bytes that are held with an element, if a response may have it.
    fn admit(&self, ns: &[u8], name: &[u8]) -> Result<u32, WalkFault>
        ensures ok { IfOk result (λ held. (count_fault (length self.now.gathered + 1) (self.now.held + (length ns.now + length name.now)) ≡ None)
            × (held ≡ self.now.held + (length ns.now + length name.now)) × (held ≤ 1048576)) }
        ensures err { IfErr result (λ fault. count_fault (length self.now.gathered + 1) (self.now.held + (length ns.now + length name.now)) ≡ Some fault) }
    {
        if self.gathered.len() >= NODES_MAX {
            return Err(WalkFault::Limit {
                which: Which::Nodes,
            });
        }
        match held_with(self.held, ns.len(), name.len()) {
            Some(held) => Ok(held),
            None => Err(WalkFault::Limit { which: Which::Held }),
        }
    }

    /// Takes the start of an element at this depth, with its namespace and its name. The root is at depth 1.
    ///
    /// # Errors
    ///
    /// WrongRoot where the root is another element than the one that is expected; Limit of Nodes and of Held
    /// where a response passes them; and Memory.
    pub(crate) fn start(&mut self, depth: u32, ns: &[u8], name: &[u8]) -> Result<(), WalkFault>
        ensures ok { IfOk result (λ _. (fault_of (gathering_of self.old) (Start depth ns.now name.now) ≡ None)
            × (gathering_of self.new ≡ next (gathering_of self.old) (Start depth ns.now name.now))) }
        ensures err { IfErr result (λ fault. (fault ≡ faults.Memory) ⊎ (fault_of (gathering_of self.old) (Start depth ns.now name.now) ≡ Some fault)) }
    {
        if depth == 1 && !is_dav_name(ns, name, root_name(self.root)) {
            return Err(WalkFault::WrongRoot);
        }
        if !self.is_kept(depth, ns, name) {
            return Ok(());
        }
        let held = match self.admit(ns, name) {
            Ok(held) => held,
            Err(fault) => return Err(fault),
        };
        let place = self.gathered.len();
        self.gathered.push(depth, ns, name)?;
        self.opened.push(place)?;
        self.held = held;
        Ok(())
    }

    /// Takes a byte of text.
    fn byte(&mut self, byte: u8) -> Result<(), WalkFault>
        ensures ok { IfOk result (λ _. (fault_of (gathering_of self.old) (Char byte) ≡ None) × (gathering_of self.new ≡ next (gathering_of self.old) (Char byte))) }
        ensures err { IfErr result (λ fault. (fault ≡ faults.Memory) ⊎ (fault_of (gathering_of self.old) (Char byte) ≡ Some fault)) }
    {
        if self.opened.is_empty() {
            return Ok(());
        }
        let owed = owed_after(self.owed, byte);
        if owed == 0 && self.held as usize >= HELD_MAX {
            return Err(WalkFault::Limit { which: Which::Held });
        }
        self.opened.add(byte)?;
        self.held += 1;
        self.owed = owed;
        Ok(())
    }

    /// Takes the end of the innermost element. True where a response ends with it, which is then judged.
    fn close(&mut self) -> Result<bool, WalkFault>
        ensures open { result ≡ Ok false → (end_fault (gathering_of self.old) self.old.opened ≡ None)
            × (gathering_of self.new ≡ with_end (gathering_of self.old) self.old.opened) × (ended_by (gathering_of self.old) self.old.opened ≡ []) }
        ensures whole { result ≡ Ok true → (end_fault (gathering_of self.old) self.old.opened ≡ None)
            × (with_end (gathering_of self.old) self.old.opened ≡ between self.new.root (self.new.index + 1))
            × (ended_by (gathering_of self.old) self.old.opened ≡ record { items = self.new.gathered; index = self.new.index } ∷ [])
            × (self.new.opened ≡ []) }
        ensures err { IfErr result (λ fault. (fault ≡ faults.Memory) ⊎ (end_fault (gathering_of self.old) self.old.opened ≡ Some fault)) }
    {
        let Some(innermost) = self.opened.pop() else {
            return Ok(false);
        };
        self.gathered.set_text(innermost.place, &innermost.text)?;
        if !self.opened.is_empty() {
            return Ok(false);
        }
        match judge(self.root, &self.gathered, self.index) {
            Ok(()) => Ok(true),
            Err(fault) => Err(fault),
        }
    }

    /// Takes the end of the innermost open element. Where a response ends with it, lends that, and answers
    /// what the handler answered.
    ///
    /// # Errors
    ///
    /// NoHref and BadStatus where a response ends that is not lent for it; and Memory.
    pub(crate) fn end<H: Handler>(&mut self, handler: &mut H) -> Result<Next, WalkFault>
        ensures go { result ≡ Ok Next.Go → (end_fault (gathering_of self.old) self.old.opened ≡ None)
            × (gathering_of self.new ≡ with_end (gathering_of self.old) self.old.opened)
            × LentAll H.lends handler.old (ended_by (gathering_of self.old) self.old.opened) handler.new }
        ensures stop { result ≡ Ok Next.Stop → (end_fault (gathering_of self.old) self.old.opened ≡ None)
            × (gathering_of self.new ≡ with_end (gathering_of self.old) self.old.opened)
            × LentToStop H.lends handler.old (ended_by (gathering_of self.old) self.old.opened) handler.new }
        ensures err { IfErr result (λ fault. (handler.new ≡ handler.old) × ((fault ≡ faults.Memory) ⊎ (end_fault (gathering_of self.old) self.old.opened ≡ Some fault))) }
    {
        match self.close() {
            Ok(true) => {}
            Ok(false) => return Ok(Next::Go),
            Err(fault) => return Err(fault),
        }
        let Some(index) = self.index.checked_add(1) else {
            return Err(WalkFault::Memory);
        };
        let next = self.gathered.lend(self.index, handler);
        self.gathered.clear();
        self.held = 0;
        self.owed = 0;
        self.index = index;
        Ok(next)
    }

    /// Takes text of the innermost open element. More of it may follow.
    ///
    /// # Errors
    ///
    /// Limit of Held with the last byte of the character by which a response passes it; and Memory.
    pub(crate) fn chars(&mut self, bytes: &[u8]) -> Result<(), WalkFault>
        ensures ok { IfOk result (λ _. walk (gathering_of self.old) (chars_lem bytes.now) ≡ record { ended = []; outcome = Goes (gathering_of self.new) }) }
        ensures err { IfErr result (λ fault. (fault ≡ faults.Memory) ⊎ (walk (gathering_of self.old) (chars_lem bytes.now) ≡ record { ended = []; outcome = Fails fault })) }
    {
        let mut rest = bytes;
        while let Some((byte, others)) = rest.split_first() {
            match self.byte(*byte) {
                Ok(()) => {}
                Err(fault) => return Err(fault),
            }
            rest = others;
        }
        Ok(())
    }

    /// Takes the next event of the document. Where a response ends with it, lends that.
    pub(crate) fn take<H: Handler>(
        &mut self,
        event: Event<'_>,
        handler: &mut H,
    ) -> Result<Next, WalkFault>
        ensures go { result ≡ Ok Next.Go → ((walk (gathering_of self.old) (event_in event.entry)).outcome ≡ Goes (gathering_of self.new))
            × LentAll H.lends handler.old (walk (gathering_of self.old) (event_in event.entry)).ended handler.new }
        ensures stop { result ≡ Ok Next.Stop → ((walk (gathering_of self.old) (event_in event.entry)).outcome ≡ Goes (gathering_of self.new))
            × LentToStop H.lends handler.old (walk (gathering_of self.old) (event_in event.entry)).ended handler.new }
        ensures err { IfErr result (λ fault. (handler.new ≡ handler.old) × ((fault ≡ faults.Memory)
            ⊎ (walk (gathering_of self.old) (event_in event.entry) ≡ record { ended = []; outcome = Fails fault }))) }
    {
        match event {
            Event::Start { depth, ns, name } => match self.start(depth, ns, name) {
                Ok(()) => Ok(Next::Go),
                Err(fault) => Err(fault),
            },
            Event::Chars { bytes } => match self.chars(bytes) {
                Ok(()) => Ok(Next::Go),
                Err(fault) => Err(fault),
            },
            Event::End { depth: _ } => self.end(handler),
        }
    }
}
