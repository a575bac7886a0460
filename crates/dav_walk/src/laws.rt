//! Laws of the walk against the tree of a document. Each function is a law: its contract is what it says, and its body is empty.

ghost use Rattle.std.specs.Prelude.{◌≡◌, ℕ, List, [], ◌+◌, ◌++◌, length, Some};
ghost use Rattle.dav_doc.specs.Document.{Forest, Element, Nil, IsDocument, events};
ghost use Rattle.dav_doc.specs.Machine.{State, Begin, run};
ghost use Rattle.dav_text.specs.declared.which.Which.{Which};
ghost use Rattle.dav_xml.specs.declared.fault.XmlFault.{XmlFault};
ghost use Rattle.dav_walk.specs.declared.fault.WalkFault.{WalkFault};
ghost use Rattle.dav_walk.specs.declared.fault.WalkFault.TheVariants.{NoHref, BadStatus, WrongRoot, Limit};
ghost use Rattle.dav_walk.specs.declared.root.Root.{Root};
ghost use Rattle.dav_walk.specs.Tree.{responses};
ghost use Rattle.dav_walk.specs.Gathering.{Gathering, Goes, Fails, between, walk};
ghost use Rattle.dav_walk.specs.Whole.{given, numbered};
ghost use Rattle.dav_walk.specs.Lending.{Response};
ghost use Rattle.dav_walk.specs.Walking.{GathersTo, Refuses};
ghost use Rattle.dav_walk.specs.WalkerView.{Walking, HasWalked, HasStopped};
ghost use Rattle.dav_walk.specs.Places.{placed, all_placed, ended_in};
ghost use Rattle.dav_walk.specs.SoFar.{AreFirst, LacksHref, LacksStatus, HasOtherRoot, HasLarge, AllFit};

/// The events of a tree give its responses, in document order.
pub fn all_given()
    ensures { (root : Root) (ns name : List ℕ) (inside : Forest)
        → given (between root 0) (events 1 (Element ns name inside Nil)) ≡ numbered 0 (responses root (Element ns name inside Nil)) }
{}

/// Where a walk over the events of a tree meets no fault, the responses that it ends are those of the tree, in document order, and it
/// counts them.
pub fn walked_are_responses()
    ensures ended { (root : Root) (ns name : List ℕ) (inside : Forest) (g : Gathering)
        → (walk (between root 0) (events 1 (Element ns name inside Nil))).outcome ≡ Goes g
        → (walk (between root 0) (events 1 (Element ns name inside Nil))).ended ≡ numbered 0 (responses root (Element ns name inside Nil)) }
    ensures counted { (root : Root) (ns name : List ℕ) (inside : Forest) (g : Gathering)
        → (walk (between root 0) (events 1 (Element ns name inside Nil))).outcome ≡ Goes g
        → g ≡ between root (0 + length (responses root (Element ns name inside Nil))) }
{}

/// What a walker has lent so far are the first responses of every document that goes on with the bytes so far: while it goes on, where
/// it was stopped, and at each fault.
pub fn lent_are_first()
    ensures going { (walker : Walking) (text t : List ℕ) (lent : List Response) (tree : Forest) → HasWalked walker text lent
        → IsDocument tree (text ++ t) → AreFirst walker.root tree lent }
    ensures stopped { (walker : Walking) (text t : List ℕ) (lent : List Response) (tree : Forest) → HasStopped walker text lent
        → IsDocument tree (text ++ t) → AreFirst walker.root tree lent }
    ensures refused { (root : Root) (text t : List ℕ) (byte : ℕ) (lent : List Response) (why : XmlFault) (tree : Forest) → Refuses root text byte lent why
        → IsDocument tree (text ++ t) → AreFirst root tree lent }
    ensures unfit { (root : Root) (text t : List ℕ) (lent : List Response) (fault : WalkFault) (tree : Forest) → GathersTo root text lent (Fails fault)
        → IsDocument tree (text ++ t) → AreFirst root tree lent }
{}

/// They are exactly the responses of which the last byte lies in the bytes so far; at a fault of the text, exactly those of which it
/// lies before the byte at fault. The places are of all responses of the document.
pub fn lent_end_in_the_text()
    ensures going { (walker : Walking) (text t : List ℕ) (lent : List Response) (tree : Forest) → HasWalked walker text lent
        → (d : IsDocument tree (text ++ t)) → lent ≡ ended_in 0 (length text) (placed walker.root d) }
    ensures refused { (root : Root) (text t : List ℕ) (byte : ℕ) (lent : List Response) (why : XmlFault) (tree : Forest) → Refuses root text byte lent why
        → (d : IsDocument tree (text ++ t)) → lent ≡ ended_in 0 (length text) (placed root d) }
    ensures all { (root : Root) (text : List ℕ) (tree : Forest) → (d : IsDocument tree text) → all_placed (placed root d) ≡ responses root tree }
{}

/// A walk of a multistatus that ends for want of an `href`, or for a bad `status`, does so at the response with that number, of every
/// document that goes on with the bytes so far: all before it were lent, and it has none, or one that is no status line.
pub fn unfit_responses()
    ensures href { (root : Root) (text t : List ℕ) (lent : List Response) (index : ℕ) (tree : Forest) → GathersTo root text lent (Fails (NoHref index))
        → IsDocument tree (text ++ t) → LacksHref root tree index lent }
    ensures status { (root : Root) (text t : List ℕ) (lent : List Response) (index : ℕ) (tree : Forest) → GathersTo root text lent (Fails (BadStatus index))
        → IsDocument tree (text ++ t) → LacksStatus root tree index lent }
{}

/// A walk that ends for its root does so on documents with another root than the one that is asked for, and has lent nothing. Of such a
/// document it has no other fault of a response, and while it goes on no tag of the document has ended in the bytes so far.
pub fn other_roots()
    ensures wrong { (root : Root) (text t : List ℕ) (lent : List Response) (tree : Forest) → GathersTo root text lent (Fails WrongRoot)
        → IsDocument tree (text ++ t) → HasOtherRoot root tree × (lent ≡ []) }
    ensures alone { (root : Root) (text t : List ℕ) (lent : List Response) (fault : WalkFault) (tree : Forest) → GathersTo root text lent (Fails fault)
        → IsDocument tree (text ++ t) → HasOtherRoot root tree → fault ≡ WrongRoot }
    ensures going { (walker : Walking) (text t : List ℕ) (lent : List Response) (tree : Forest) → HasWalked walker text lent
        → IsDocument tree (text ++ t) → HasOtherRoot walker.root tree → (st : State) × (run text Begin ≡ Some (record { state = st; events = [] })) }
{}

/// A walk that ends for the size of a response does so while that response comes, of every document that goes on with the bytes so far:
/// all before it were lent, and as a whole it has more than 4,096 elements, or more than 1,048,576 bytes of namespaces, names and texts.
pub fn large_responses()
    ensures { (root : Root) (text t : List ℕ) (lent : List Response) (which : Which) (tree : Forest) → GathersTo root text lent (Fails (Limit which))
        → IsDocument tree (text ++ t) → HasLarge root tree lent which }
{}

/// Each response that a walk lends while it goes on has at most 4,096 elements; in a multistatus it has an `href`, and each `status` that
/// counts is a status line.
pub fn lent_fit()
    ensures { (walker : Walking) (text : List ℕ) (lent : List Response) → HasWalked walker text lent → AllFit walker.root lent }
{}
