//! What it means that a scanner has read a text, and what a document is. Each function is a law: its contract is what it says, and its body is empty.

ghost use Rattle.std.specs.Prelude.{◌≡◌, ℕ, List, [], ◌∷◌, ◌++◌, Some};
ghost use Rattle.dav_doc.specs.Characters.{Owed, Whole, owed_by};
ghost use Rattle.dav_doc.specs.Document.{Event, Forest, IsDocument, events};
ghost use Rattle.dav_doc.specs.Machine.{Begin, State, run};
ghost use Rattle.dav_xml.specs.Events.{later_in};
ghost use Rattle.dav_xml.specs.Nodes.{parts, FirstFault};
ghost use Rattle.dav_xml.specs.Read.{HasRead, Fails};
ghost use Rattle.dav_xml.specs.Reading.{Reading, begin, reads};
ghost use Rattle.dav_xml.specs.declared.fault.XmlFault.{XmlFault};
ghost use Rattle.dav_text.specs.declared.which.Which.{Which};
ghost use Rattle.dav_xml.specs.declared.fault.XmlFault.TheVariants as faults;
ghost use Rattle.dav_xml.specs.declared.scan.Scan.{Scan};

/// The events that a scanner gave, and the end of an empty element that is still to be lent, are those of the machine of `dav_doc`.
pub fn read_runs()
    ensures run { (scan : Scan) (text : List ℕ) (given : List Event) → HasRead scan text given
        → (st : State) × (run text Begin ≡ Some (record { state = st; events = given ++ later_in scan.lent })) }
    ensures characters { (scan : Scan) (text : List ℕ) (given : List Event) → HasRead scan text given → (o : Owed) × (owed_by text Whole ≡ Some o) }
{}

/// What a scanner has read goes on to a document, and these are the first events of each document that begins so.
pub fn read_goes_on()
    ensures document { (scan : Scan) (text : List ℕ) (given : List Event) → HasRead scan text given → (t : List ℕ) × (tree : Forest) × IsDocument tree (text ++ t) }
    ensures first { (scan : Scan) (text t : List ℕ) (given : List Event) (tree : Forest) → HasRead scan text given → IsDocument tree (text ++ t)
        → (later : List Event) × (events 1 tree ≡ given ++ later) }
{}

/// A byte that is told as bad stands at that place, no document goes on with it, and one goes on before it.
pub fn bad_is_bad()
    ensures never { (text : List ℕ) (given : List Event) (b at : ℕ) → Fails text given b (faults.Bad at)
        → (t : List ℕ) (tree : Forest) → IsDocument tree ((text ++ (b ∷ [])) ++ t) → ⊥ }
    ensures alive { (text : List ℕ) (given : List Event) (b at : ℕ) → Fails text given b (faults.Bad at) → (t : List ℕ) × (tree : Forest) × IsDocument tree (text ++ t) }
{}

/// The nodes of a tree tell it from every other tree.
pub fn nodes_tell_trees()
    ensures { (a b : Forest) → parts 0 a ≡ parts 0 b → a ≡ b }
{}

/// A text that spells a tree has no first fault but a limit, and none where no limit refuses one of its bytes.
pub fn documents_have_no_fault()
    ensures spelled { (text : List ℕ) (tree : Forest) (fault : XmlFault) → IsDocument tree text → FirstFault text fault
        → (which : Which) × (fault ≡ faults.Limit which) }
    ensures within { (text : List ℕ) (tree : Forest) (fault : XmlFault) (reading : Reading) → IsDocument tree text → reads text begin ≡ Some reading
        → FirstFault text fault → ⊥ }
{}
