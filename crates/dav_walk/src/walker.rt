ghost use Rattle.std.specs.Prelude.{◌≡◌, ℕ, ◌+◌, ◌<◌, ◌^◌, List, length, [], Ok, Err, IfOk, IfErr};
ghost use Rattle.dav_doc.specs.Document.{Forest, IsDocument};
ghost use Rattle.dav_walk.specs.WalkerView.{taken, HasWalked, HasStopped, Takes, StopsAt, Finishes};
ghost use Rattle.dav_walk.specs.declared.root.Root.{Root};
ghost use Rattle.dav_walk.specs.Lending.{Response};
ghost use Rattle.dav_walk.specs.Collecting.{gathering_of};
ghost use Rattle.dav_walk.specs.Walking.{IsReading, Stands, GoesOn, StopsIn, Ends, of_xml as of_xml_lem};

use crate::collector::Collector;
use crate::fault::WalkFault;
use crate::handler::{Handler, Next};
use crate::root::Root;
use dav_text::Memory;
use dav_xml::{Scan, XmlFault};
use std::alloc::Global;
use std::marker::Model;

/// What a walk does behind a piece.
#[derive(Clone, Copy, Debug, PartialEq, Eq, Drop)]
pub enum Walk {
    /// It waits for the next piece.
    Going,
    /// The handler has stopped it.
    Stopped,
}

/// Whether a walk goes on.
#[derive(Clone, Copy, Debug)]
pub(crate) enum State {
    Going,
    Stopped,
    Failed(WalkFault),
}

/// A walker over one document, which comes in pieces. It keeps one response at most.
#[derive(Debug, Drop)]
pub struct Walker {
    root: Root,
    scan: Scan,
    collector: Collector,
    state: State,
}

impl Model for Walker {
    ghost use Rattle.dav_walk.specs.WalkerView.{Walking};

    ghost Value = { Walking };

    ghost use Rattle.dav_walk.specs.WalkerInside.{walking_in, IsSound};

    ghost view = { walking_in };

    ghost invariant = { IsSound };
}

/// The scanner's fault as the walk's.
fn of_xml(fault: XmlFault) -> WalkFault
    ensures { result ≡ of_xml_lem fault }
{
    match fault {
        XmlFault::Bad { at } => WalkFault::Xml { at },
        XmlFault::Cut => WalkFault::Cut,
        XmlFault::Limit { which } => WalkFault::Limit { which },
        XmlFault::Memory => WalkFault::Memory,
    }
}

/// Takes a piece, and lends each response that ends in it.
fn pass<H: Handler>(
    scan: &mut Scan,
    collector: &mut Collector,
    piece: &[u8],
    handler: &mut H,
) -> Result<Walk, WalkFault>
    requires room { scan.old.at + length piece.now < 2 ^ 64 }
    requires reading { IsReading scan.old }
    ensures going { (root : Root) (text : List ℕ) (lent : List Response) → Stands root scan.old (gathering_of collector.old) text lent
        → result ≡ Ok Walk.Going → GoesOn H.lends root scan.new (gathering_of collector.new) text piece.now lent handler.old handler.new }
    ensures reading { result ≡ Ok Walk.Going → IsReading scan.new }
    ensures stopped { (root : Root) (text : List ℕ) (lent : List Response) → Stands root scan.old (gathering_of collector.old) text lent
        → result ≡ Ok Walk.Stopped → StopsIn H.lends root scan.new (gathering_of collector.new) text piece.now lent handler.old handler.new }
    ensures fault { (root : Root) (text : List ℕ) (lent : List Response) → Stands root scan.old (gathering_of collector.old) text lent
        → IfErr result (λ fault. Ends H.lends root text piece.now lent handler.old handler.new fault) }
{
    let mut rest = piece;
    // Each turn takes bytes, or lends the end of an empty element that was waiting.
    loop {
        let fed = match scan.feed(rest) {
            Ok(fed) => fed,
            Err(fault) => return Err(of_xml(fault)),
        };
        if !fed.ready {
            return Ok(Walk::Going);
        }
        match collector.take(scan.event(), handler) {
            Ok(Next::Go) => {}
            Ok(Next::Stop) => return Ok(Walk::Stopped),
            Err(fault) => return Err(fault),
        }
        rest = &rest[fed.used..];
    }
}

impl Walker {
    /// A walker before the first byte.
    #[tactic(none)]
    pub fn new(alloc: Global, root: Root) -> Result<Walker, Memory>
        ensures { IfOk result (λ walker. HasWalked walker [] [] × (walker.root ≡ root)) }
    {
        match Scan::new(alloc) {
            Ok(scan) => Ok(Walker {
                root,
                scan,
                collector: Collector::new(alloc, root),
                state: State::Going,
            }),
            Err(memory) => Err(memory),
        }
    }

    /// How many bytes it has taken.
    pub fn taken(&self) -> u64
        ensures { result ≡ taken self.now }
    {
        self.scan.taken()
    }

    /// Takes a piece, and lends each response that ends in it. Once the handler has answered Stop, nothing
    /// more is read or lent.
    ///
    /// # Errors
    ///
    /// The first fault of the document or its responses, at the piece with its byte: Xml and Limit of the
    /// document, WrongRoot, Limit of Nodes and Held, NoHref, BadStatus; and Memory. What ended before it
    /// was lent. Every later call answers the same.
    #[tactic(none)]
    pub fn feed<H: Handler>(&mut self, piece: &[u8], handler: &mut H) -> Result<Walk, WalkFault>
        requires { taken self.old + length piece.now < 2 ^ 64 }
        ensures going { (text : List ℕ) (lent : List Response) → HasWalked self.old text lent
            → result ≡ Ok Walk.Going → Takes H.lends self.new text piece.now lent handler.old handler.new }
        ensures stopped { (text : List ℕ) (lent : List Response) → HasWalked self.old text lent
            → result ≡ Ok Walk.Stopped → StopsAt H.lends self.new text piece.now lent handler.old handler.new }
        ensures fault { (text : List ℕ) (lent : List Response) → HasWalked self.old text lent
            → IfErr result (λ fault. Ends H.lends self.old.root text piece.now lent handler.old handler.new fault) }
        ensures fails { IfErr result (λ fault. self.new.state ≡ State.Failed fault) }
        ensures over { self.old.state ≡ State.Stopped → (result ≡ Ok Walk.Stopped) × (self.new ≡ self.old) × (handler.new ≡ handler.old) }
        ensures same { (fault : WalkFault) → self.old.state ≡ State.Failed fault → (result ≡ Err fault) × (handler.new ≡ handler.old) }
    {
        match self.state {
            State::Going => {}
            State::Stopped => return Ok(Walk::Stopped),
            State::Failed(fault) => return Err(fault),
        }
        match pass(&mut self.scan, &mut self.collector, piece, handler) {
            Ok(Walk::Going) => Ok(Walk::Going),
            Ok(Walk::Stopped) => {
                self.state = State::Stopped;
                Ok(Walk::Stopped)
            }
            Err(fault) => {
                self.state = State::Failed(fault);
                Err(fault)
            }
        }
    }

    /// The number of responses that were lent, where the walk is over.
    fn count(&self) -> Result<u64, WalkFault>
        ensures whole { (text : List ℕ) (lent : List Response) → HasWalked self.now text lent
            → IfOk result (λ count. Finishes self.now.root text lent count) }
        ensures cut { (text : List ℕ) (lent : List Response) → HasWalked self.now text lent
            → IfErr result (λ fault. (fault ≡ WalkFault.Cut) × ((tree : Forest) → IsDocument tree text → ⊥)) }
        ensures stopped { (text : List ℕ) (lent : List Response) → HasStopped self.now text lent → result ≡ Ok (length lent) }
        ensures same { (fault : WalkFault) → self.now.state ≡ State.Failed fault → result ≡ Err fault }
    {
        match self.state {
            State::Going => {}
            State::Stopped => return Ok(self.collector.index),
            State::Failed(fault) => return Err(fault),
        }
        match self.scan.end() {
            Ok(()) => Ok(self.collector.index),
            Err(fault) => Err(of_xml(fault)),
        }
    }

    /// The number of responses that were lent, where the bytes so far are a document or the handler has
    /// answered Stop. Each response was lent when it ended, so the handler is not asked again.
    ///
    /// # Errors
    ///
    /// Cut where the bytes are no document, or the fault that a feed answered.
    #[tactic(none)]
    pub fn finish<H: Handler>(self, handler: &mut H) -> Result<u64, WalkFault>
        ensures whole { (text : List ℕ) (lent : List Response) → HasWalked self text lent
            → IfOk result (λ count. Finishes self.root text lent count) }
        ensures cut { (text : List ℕ) (lent : List Response) → HasWalked self text lent
            → IfErr result (λ fault. (fault ≡ WalkFault.Cut) × ((tree : Forest) → IsDocument tree text → ⊥)) }
        ensures stopped { (text : List ℕ) (lent : List Response) → HasStopped self text lent → result ≡ Ok (length lent) }
        ensures same { (fault : WalkFault) → self.state ≡ State.Failed fault → result ≡ Err fault }
        ensures unasked { handler.new ≡ handler.old }
    {
        let _ = handler;
        self.count()
    }
}
