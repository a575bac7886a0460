//! Laws of the machine against the grammar. Each function is a law: its contract is what it says, and its body is empty.

ghost use Rattle.std.specs.Prelude.{◌≡◌, ℕ, List, [], ◌∷◌, ◌++◌, ◌⊎◌, Option, Some, None, codes};
ghost use Rattle.dav_doc.specs.Characters.{Owed, Whole, Characters, owed_by};
ghost use Rattle.dav_doc.specs.Document.{Forest, IsDocument, Spells, events, Event, Start, Char, End};
ghost use Rattle.dav_doc.specs.Machine.{State, Begin, Text, Zero, run, Ran, FirstBad};

/// A text that the machine takes whole spells a tree, and the events that it gave are the tree's, in document order.
pub fn sound()
    ensures { (s : List ℕ) (e : List Event) → run s Begin ≡ Some (record { state = Text [] Zero; events = e })
        → (tree : Forest) × Spells tree s × (e ≡ events 1 tree) }
{}

/// A text that spells a tree is taken whole, and gives the tree's events. So all trees that a text spells have the same events.
pub fn complete()
    ensures { (tree : Forest) (s : List ℕ) → Spells tree s → run s Begin ≡ Some (record { state = Text [] Zero; events = events 1 tree }) }
{}

/// A text spells at most one tree.
pub fn one_tree()
    ensures { (s : List ℕ) (a b : Forest) → Spells a s → Spells b s → a ≡ b }
{}

/// Where a byte of the text is bad to the machine, no continuation of the text up to and with that byte spells a document.
pub fn bad()
    ensures { (s : List ℕ) → run s Begin ≡ None → (t : List ℕ) (tree : Forest) → Spells tree (s ++ t) → ⊥ }
{}

/// Where no byte so far is bad, some continuation spells a document. With `bad`, the first bad byte is the last byte of the shortest
/// prefix that no continuation spells.
pub fn alive()
    ensures { (s : List ℕ) (r : Ran) → run s Begin ≡ Some r → (t : List ℕ) × (tree : Forest) × Spells tree (s ++ t) }
{}

/// The events so far are the first events of each document that begins with this text.
pub fn so_far()
    ensures { (s t : List ℕ) (r : Ran) (tree : Forest) → run s Begin ≡ Some r → Spells tree (s ++ t)
        → (later : List Event) × (events 1 tree ≡ r.events ++ later) }
{}

/// The machine of UTF-8 owes nothing after just the texts of characters that XML allows.
pub fn characters()
    ensures taken { (s : List ℕ) → owed_by s Whole ≡ Some Whole → Characters s }
    ensures given { (s : List ℕ) → Characters s → owed_by s Whole ≡ Some Whole }
{}

/// Where a byte is bad to the machine of UTF-8, no continuation is of characters; where none is, some continuation is.
pub fn characters_go_on()
    ensures bad { (s : List ℕ) → owed_by s Whole ≡ None → (t : List ℕ) → Characters (s ++ t) → ⊥ }
    ensures alive { (s : List ℕ) (o : Owed) → owed_by s Whole ≡ Some o → (t : List ℕ) × Characters (s ++ t) }
{}

/// The two machines side by side: they take whole just the documents, with their events. Where a byte is bad to either, no
/// continuation is a document; where none is bad to either, some continuation is. So the first byte that is bad to one of them is
/// the last byte of the shortest prefix that no continuation makes a document.
pub fn documents()
    ensures sound { (s : List ℕ) (e : List Event) → owed_by s Whole ≡ Some Whole → run s Begin ≡ Some (record { state = Text [] Zero; events = e })
        → (tree : Forest) × IsDocument tree s × (e ≡ events 1 tree) }
    ensures complete { (tree : Forest) (s : List ℕ) → IsDocument tree s
        → (owed_by s Whole ≡ Some Whole) × (run s Begin ≡ Some (record { state = Text [] Zero; events = events 1 tree })) }
    ensures bad { (s : List ℕ) → (owed_by s Whole ≡ None) ⊎ (run s Begin ≡ None) → (t : List ℕ) (tree : Forest) → IsDocument tree (s ++ t) → ⊥ }
    ensures alive { (s : List ℕ) (r : Ran) (o : Owed) → run s Begin ≡ Some r → owed_by s Whole ≡ Some o
        → (t : List ℕ) × (tree : Forest) × IsDocument tree (s ++ t) }
{}

/// Small documents and their events.
pub fn examples()
    ensures small { run (codes "<?xml version='1.0'?><p:a xmlns:p=\"D\">x<b/>&lt;</p:a >") Begin
        ≡ Some (record {
          state = Text [] Zero;
          events =
              Start 1 (codes "D") (codes "a") ∷ Char 120 ∷ Start 2 [] (codes "b") ∷ End 2 ∷ Char 60 ∷ End 1 ∷ [];
        }) }
    ensures marked { run (239 ∷ 187 ∷ 191 ∷ codes "<!-- - --><a><?b c?><![CDATA[]]]]><!--->--></a> ") Begin
        ≡ Some (record { state = Text [] Zero; events = Start 1 [] (codes "a") ∷ Char 93 ∷ Char 93 ∷ End 1 ∷ [] }) }
    ensures numbered { run (codes "<a>&#x41;&#233;</a>") Begin
        ≡ Some (record { state = Text [] Zero; events = Start 1 [] (codes "a") ∷ Char 65 ∷ Char 195 ∷ Char 169 ∷ End 1 ∷ [] }) }
    ensures lines { run (60 ∷ 97 ∷ 62 ∷ 13 ∷ 10 ∷ 13 ∷ codes "</a>") Begin
        ≡ Some (record { state = Text [] Zero; events = Start 1 [] (codes "a") ∷ Char 10 ∷ Char 10 ∷ End 1 ∷ [] }) }
    ensures section_lines { run (codes "<a><![CDATA[" ++ (13 ∷ 10 ∷ 13 ∷ 93 ∷ 13 ∷ codes "]]></a>")) Begin
        ≡ Some (record {
          state = Text [] Zero;
          events =
              Start 1 [] (codes "a") ∷ Char 10 ∷ Char 10 ∷ Char 93 ∷ Char 10 ∷ End 1 ∷ [];
        }) }
    ensures inner { run (codes "<p:a xmlns:p='A'><p:b xmlns:p='B'/></p:a>") Begin
        ≡ Some (record {
          state = Text [] Zero;
          events =
              Start 1 (codes "A") (codes "a") ∷ Start 2 (codes "B") (codes "b") ∷ End 2 ∷ End 1 ∷ [];
        }) }
{}

/// Texts whose last byte is the first bad one: by `alive` and `bad`, no shorter front of them is lost, and they are.
pub fn bad_places()
    ensures end_tag { FirstBad (codes "<ab></a") 62 }
    ensures end_name { FirstBad (codes "<ab></a") 99 }
    ensures nothing_open { FirstBad (codes "<") 47 }
    ensures prefix { FirstBad (codes "<p:a") 62 }
    ensures empty_prefix { FirstBad (codes "<p:a") 47 }
    ensures taken_away { FirstBad (codes "<a xmlns:p='") 39 }
    ensures bracket { FirstBad (codes "<a>]]") 62 }
    ensures dashes { FirstBad (codes "<a><!-- --") 45 }
    ensures target { FirstBad (codes "<a><?xMl") 32 }
    ensures declaration { FirstBad (codes "<?xml version='1.") 50 }
    ensures late_declaration { FirstBad (codes " <?xml") 32 }
    ensures number { FirstBad (codes "<a>&#111411") 50 }
    ensures not_allowed { FirstBad (codes "<a>&#xD800") 59 }
    ensures name { FirstBad (codes "<a>&") 98 }
    ensures after_root { FirstBad (codes "<a/> ") 120 }
    ensures doctype { FirstBad (codes "<!") 68 }
{}
