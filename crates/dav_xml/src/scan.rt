ghost use Rattle.std.specs.Prelude.{◌≡◌, ◌+◌, ◌<◌, ◌^◌, ◌⊎◌, ◌≤◌, ◌∷◌, [], ◌++◌, List, ℕ, length, take, get_or, Some, Err, IfOk, IfErr};
ghost use Rattle.dav_xml.specs.Parts.{StepAt};
ghost use Rattle.dav_xml.specs.Stands.{stack_of};
ghost use Rattle.dav_doc.specs.Document as document;
ghost use Rattle.dav_doc.specs.Document.{Forest, IsDocument, events};
ghost use Rattle.dav_xml.specs.Ending.{is_over as is_over_lem, is_whole as is_whole_lem};
ghost use Rattle.dav_xml.specs.Events.{lent_in, later_in, event_in};
ghost use Rattle.dav_xml.specs.Ahead.{IsAhead};
ghost use Rattle.dav_markup.specs.Owing.{owed_in};
ghost use Rattle.dav_xml.specs.Read.{HasRead, Feeds, Advances, Stops, Fails, lent};

use crate::ahead::Ahead;
use crate::event::{Event, Lent};
use crate::fault::XmlFault;
use crate::limit::limit_of;
use crate::position::Position;
use crate::step::Step;
use crate::turn::{Turn, size_at, take_step};
use dav_markup::character::Owed;
use dav_markup::outer::Outer;
use dav_markup::scope::Open;
use dav_markup::stretch::Stretch;
use dav_text::{Blob, Memory};
use std::alloc::Global;
use std::mem;

/// What a scanner did with a piece: how many of its bytes it took, and whether an event is ready.
#[derive(Clone, Copy, Debug, PartialEq, Eq)]
pub struct Fed {
    pub used: usize,
    pub ready: bool,
}

/// A scanner of one document, which comes in pieces.
#[derive(Debug, Drop)]
pub struct Scan {
    alloc: Global,
    /// The bytes taken so far.
    at: u64,
    owed: Owed,
    position: Position,
    opens: Vec<Open>,
    /// The open elements.
    depth: u32,
    /// The bytes of the tag so far, 0 outside of tags.
    size: u32,
    lent: Lent,
    fault: Option<XmlFault>,
}

/// What a byte does below these open elements, where it passes no limit.
fn step_at(
    alloc: Global,
    position: Position,
    opens: &[Open],
    at: u64,
    depth: u32,
    size: u32,
    byte: u8,
) -> Result<Step, XmlFault>
    ensures { StepAt position (stack_of opens.now) at depth size byte result }
{
    match position.after(alloc, opens, byte) {
        Ok(Some(step)) => match limit_of(&step, depth, size) {
            Some(which) => Err(XmlFault::Limit { which }),
            None => Ok(step),
        },
        Ok(None) => Err(XmlFault::Bad { at }),
        Err(Memory) => Err(XmlFault::Memory),
    }
}

/// Whether nothing is owed to a character.
fn is_whole(owed: Owed) -> bool
    ensures { result ≡ is_whole_lem owed }
{
    match owed {
        Owed::Whole => true,
        _ => false,
    }
}

impl Scan {
    /// A scanner before the first byte.
    pub fn new(alloc: Global) -> Result<Scan, Memory>
        ensures { IfOk result (λ scan. HasRead scan [] []) }
    {
        Ok(Scan {
            alloc,
            at: 0,
            owed: Owed::Whole,
            position: Position::Outer(Outer::Begin),
            opens: Vec::new(alloc),
            depth: 0,
            size: 0,
            lent: Lent::Nothing,
            fault: None,
        })
    }

    /// How many bytes were taken so far.
    pub fn taken(&self) -> u64
        ensures { result ≡ self.now.at }
    {
        self.at
    }

    /// Takes one byte.
    #[tactic(none)]
    fn take(&mut self, byte: u8) -> Result<(), XmlFault>
        requires { self.old.at + 1 < 2 ^ 64 }
        ensures goes { (text : List ℕ) (given : List document.Event) → HasRead self.old text given → later_in self.old.lent ≡ []
            → IfOk result (λ _. HasRead self.new (text ++ byte ∷ []) (given ++ lent_in self.new.lent)) }
        ensures stops { (text : List ℕ) (given : List document.Event) → HasRead self.old text given → later_in self.old.lent ≡ []
            → IfErr result (λ fault. (fault ≡ XmlFault.Memory) ⊎ Fails text given byte fault) }
        ensures at { IfOk result (λ _. self.new.at ≡ self.old.at + 1) }
    {
        let Some(owed) = self.owed.after(byte) else {
            return Err(XmlFault::Bad { at: self.at });
        };
        let position = mem::replace(&mut self.position, Position::Return);
        let step = match step_at(
            self.alloc,
            position,
            &self.opens,
            self.at,
            self.depth,
            self.size,
            byte,
        ) {
            Ok(step) => step,
            Err(fault) => return Err(fault),
        };
        let Ok(turn) = take_step(self.alloc, &mut self.opens, self.depth, step) else {
            return Err(XmlFault::Memory);
        };
        let Turn {
            position,
            depth,
            lent,
        } = turn;
        self.size = size_at(&position, self.size);
        self.position = position;
        self.depth = depth;
        self.lent = lent;
        self.owed = owed;
        self.at += 1;
        Ok(())
    }

    /// Takes the first of the bytes.
    fn take_byte(&mut self, bytes: &[u8]) -> Result<usize, XmlFault>
        requires room { self.old.at + length bytes.now < 2 ^ 64 }
        requires some { 0 < length bytes.now }
        requires quiet { self.old.lent ≡ Lent.Nothing }
        ensures goes { (text : List ℕ) (given : List document.Event) → HasRead self.old text given
            → IfOk result (λ used. HasRead self.new (text ++ take used bytes.now) (given ++ lent_in self.new.lent)) }
        ensures stops { (text : List ℕ) (given : List document.Event) → HasRead self.old text given
            → IfErr result (λ fault. (fault ≡ XmlFault.Memory) ⊎ Fails text given (get_or bytes.now 0 0) fault) }
        ensures at { IfOk result (λ used. self.new.at ≡ self.old.at + used) }
        ensures used { IfOk result (λ used. (0 < used) × (used ≤ length bytes.now)) }
    {
        match self.take(bytes[0]) {
            Ok(()) => Ok(1),
            Err(fault) => Err(fault),
        }
    }

    /// Takes text of an element.
    fn take_text(&mut self, bytes: &[u8], stretch: Stretch) -> Result<usize, XmlFault>
        requires room { self.old.at + length bytes.now < 2 ^ 64 }
        requires ahead { IsAhead self.old.position self.old.opens.items self.old.size (owed_in self.old.owed) bytes.now (Ahead.Text stretch) }
        requires quiet { self.old.lent ≡ Lent.Nothing }
        ensures goes { (text : List ℕ) (given : List document.Event) → HasRead self.old text given
            → IfOk result (λ used. HasRead self.new (text ++ take used bytes.now) (given ++ lent_in self.new.lent)) }
        ensures stops { (text : List ℕ) (given : List document.Event) → HasRead self.old text given
            → IfErr result (λ fault. (fault ≡ XmlFault.Memory) ⊎ Fails text given (get_or bytes.now 0 0) fault) }
        ensures at { IfOk result (λ used. self.new.at ≡ self.old.at + used) }
        ensures used { IfOk result (λ used. (0 < used) × (used ≤ length bytes.now)) }
    {
        let Ok(copy) = Blob::copy_of(self.alloc, &bytes[..stretch.len]) else {
            return Err(XmlFault::Memory);
        };
        self.lent = Lent::Run(copy);
        self.owed = stretch.owed;
        self.at += stretch.len as u64;
        Ok(stretch.len)
    }

    /// Takes more of a name of a start tag or an end tag.
    fn take_name(&mut self, bytes: &[u8], stretch: Stretch) -> Result<usize, XmlFault>
        requires room { self.old.at + length bytes.now < 2 ^ 64 }
        requires ahead { IsAhead self.old.position self.old.opens.items self.old.size (owed_in self.old.owed) bytes.now (Ahead.Name stretch) }
        requires quiet { self.old.lent ≡ Lent.Nothing }
        ensures goes { (text : List ℕ) (given : List document.Event) → HasRead self.old text given
            → IfOk result (λ used. HasRead self.new (text ++ take used bytes.now) (given ++ lent_in self.new.lent)) }
        ensures stops { (text : List ℕ) (given : List document.Event) → HasRead self.old text given
            → IfErr result (λ fault. (fault ≡ XmlFault.Memory) ⊎ Fails text given (get_or bytes.now 0 0) fault) }
        ensures at { IfOk result (λ used. self.new.at ≡ self.old.at + used) }
        ensures used { IfOk result (λ used. (0 < used) × (used ≤ length bytes.now)) }
    {
        let position = mem::replace(&mut self.position, Position::Return);
        let Ok(position) = position.longer(&bytes[..stretch.len]) else {
            return Err(XmlFault::Memory);
        };
        self.position = position;
        self.owed = stretch.owed;
        self.size += stretch.len as u32;
        self.at += stretch.len as u64;
        Ok(stretch.len)
    }

    /// Takes the longest stretch of the bytes that leads on alike, or one byte. How many it took.
    fn advance(&mut self, bytes: &[u8]) -> Result<usize, XmlFault>
        requires room { self.old.at + length bytes.now < 2 ^ 64 }
        requires some { 0 < length bytes.now }
        requires quiet { self.old.lent ≡ Lent.Nothing }
        ensures goes { (text : List ℕ) (given : List document.Event) → HasRead self.old text given
            → IfOk result (λ used. HasRead self.new (text ++ take used bytes.now) (given ++ lent_in self.new.lent)) }
        ensures stops { (text : List ℕ) (given : List document.Event) → HasRead self.old text given
            → IfErr result (λ fault. (fault ≡ XmlFault.Memory) ⊎ Fails text given (get_or bytes.now 0 0) fault) }
        ensures at { IfOk result (λ used. self.new.at ≡ self.old.at + used) }
        ensures used { IfOk result (λ used. (0 < used) × (used ≤ length bytes.now)) }
    {
        match self
            .position
            .ahead(&self.opens, self.owed, self.size, bytes)
        {
            Ahead::Byte => self.take_byte(bytes),
            Ahead::Text(stretch) => self.take_text(bytes, stretch),
            Ahead::Name(stretch) => self.take_name(bytes, stretch),
        }
    }

    /// Takes bytes of the piece up to the first event, which is then ready. Where none is ready the
    /// whole piece was taken; where one is ready and no byte was taken, it is the end of the empty
    /// element whose start was ready before. So the calls for a piece come to an end. The document is
    /// the pieces joined, each without what was left of it.
    ///
    /// # Errors
    ///
    /// Bad at the first byte that no document has there, Limit at a byte that passes one, and
    /// Memory. Every later call answers the same fault.
    #[tactic(none)]
    pub fn feed(&mut self, piece: &[u8]) -> Result<Fed, XmlFault>
        requires { self.old.at + length piece.now < 2 ^ 64 }
        ensures goes { (text : List ℕ) (given : List document.Event) → HasRead self.old text given → IfOk result (λ fed. Feeds text given piece.now fed self.new) }
        ensures stops { (text : List ℕ) (given : List document.Event) → HasRead self.old text given
            → IfErr result (λ fault. (fault ≡ XmlFault.Memory) ⊎ Stops text given piece.now fault) }
        ensures advances { IfOk result (λ fed. Advances self.old fed self.new) }
        ensures fails { IfErr result (λ fault. self.new.fault ≡ Some fault) }
        ensures same { (fault : XmlFault) → self.old.fault ≡ Some fault → result ≡ Err fault }
    {
        if let Some(fault) = self.fault {
            return Err(fault);
        }
        if let Some(later) = self.lent.later() {
            self.lent = later;
            return Ok(Fed {
                used: 0,
                ready: true,
            });
        }
        self.lent = Lent::Nothing;
        let mut used = 0;
        while used < piece.len() {
            match self.advance(&piece[used..]) {
                Ok(count) => used += count,
                Err(fault) => {
                    self.fault = Some(fault);
                    return Err(fault);
                }
            }
            if self.lent.is_ready() {
                return Ok(Fed { used, ready: true });
            }
        }
        Ok(Fed { used, ready: false })
    }

    /// The event that is ready. Text without a byte where none is.
    pub fn event(&self) -> Event<'_>
        ensures { event_in result ≡ lent self.now }
    {
        self.lent.event()
    }

    /// Whether the scanner stands behind a whole root, in no markup and no character.
    fn is_over(&self) -> bool
        ensures { result ≡ is_over_lem self.now }
    {
        is_whole(self.owed) && self.opens.is_empty() && self.position.is_outside()
    }

    /// Whether the bytes so far are a document.
    ///
    /// # Errors
    ///
    /// Cut where they are none, or the fault that a feed answered.
    pub fn end(&self) -> Result<(), XmlFault>
        ensures whole { (text : List ℕ) (given : List document.Event) → HasRead self.now text given
            → IfOk result (λ _. (tree : Forest) × IsDocument tree text × (events 1 tree ≡ given ++ later_in self.now.lent)) }
        ensures cut { (text : List ℕ) (given : List document.Event) → HasRead self.now text given
            → IfErr result (λ fault. (fault ≡ XmlFault.Cut) × ((tree : Forest) → IsDocument tree text → ⊥)) }
        ensures same { (fault : XmlFault) → self.now.fault ≡ Some fault → result ≡ Err fault }
    {
        if let Some(fault) = self.fault {
            return Err(fault);
        }
        if self.is_over() {
            return Ok(());
        }
        Err(XmlFault::Cut)
    }
}
