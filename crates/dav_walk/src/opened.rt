ghost use Rattle.std.specs.Prelude.{◌≡◌, ◌∷◌, [], not, IfOk, MatchOption};
ghost use Rattle.dav_walk.specs.Gathering.{is_open, with_longer};
ghost use Rattle.dav_walk.specs.OpenedView.{opened_in};

use dav_text::Memory;
use std::alloc::Global;
use std::marker::Model;

/// An open element of a response: its place among the elements, and its text so far.
#[derive(Debug, Drop)]
pub(crate) struct Opened {
    pub(crate) place: usize,
    pub(crate) text: Vec<u8>,
}

/// The open elements of a response. Contracts see them as a list, the innermost first.
#[derive(Debug, Drop)]
pub(crate) struct Stack {
    alloc: Global,
    elements: Vec<Opened>,
}

impl Model for Stack {
    ghost use Rattle.std.specs.Prelude.{List};
    ghost use Rattle.dav_walk.specs.Gathering as gathering;

    ghost Value = { List gathering.Opened };

    ghost use Rattle.dav_walk.specs.OpenedView.{stack_in};

    ghost view = { stack_in };
}

impl Stack {
    pub(crate) fn new(alloc: Global) -> Stack
        ensures { result ≡ [] }
    {
        Stack {
            alloc,
            elements: Vec::new(alloc),
        }
    }

    pub(crate) fn is_empty(&self) -> bool
        ensures { result ≡ not (is_open self.now) }
    {
        self.elements.is_empty()
    }

    /// Opens an element without text within the innermost.
    pub(crate) fn push(&mut self, place: usize) -> Result<(), Memory>
        ensures { IfOk result (λ _. self.new ≡ record { place = place; text = [] } ∷ self.old) }
    {
        self.elements.push(Opened {
            place,
            text: Vec::new(self.alloc),
        })?;
        Ok(())
    }

    /// Adds a byte to the text of the innermost element.
    pub(crate) fn add(&mut self, byte: u8) -> Result<(), Memory>
        ensures { IfOk result (λ _. self.new ≡ with_longer self.old byte) }
    {
        let Some(innermost) = self.elements.pop() else {
            return Ok(());
        };
        let mut innermost = innermost;
        innermost.text.push(byte)?;
        self.elements.push(innermost)?;
        Ok(())
    }

    /// Takes the innermost element.
    pub(crate) fn pop(&mut self) -> Option<Opened>
        ensures { MatchOption result ((self.old ≡ []) × (self.new ≡ [])) (λ innermost. self.old ≡ opened_in innermost ∷ self.new) }
    {
        self.elements.pop()
    }
}
