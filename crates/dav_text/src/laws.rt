ghost use Rattle.std.specs.Prelude.{◌≡◌, ℕ, List, Ok};
ghost use Rattle.std.specs.List.{All};
ghost use Rattle.std.specs.Str.{IsUtf8};
ghost use Rattle.dav_text.specs.Path.{PathParts, IsPath, IsSame, IsUnder, IsParent, escaped};
ghost use Rattle.dav_text.specs.Reading.{path_of, typed_of};

/// A law: the text of a path in a request is read as this path.
pub fn reads_back()
    ensures { (path : PathParts) → IsPath path → path_of (escaped path) ≡ Ok path }
{}

/// A law: what is read holds to what a path is.
pub fn read_is_path()
    ensures { (text : List ℕ) (path : PathParts) → path_of text ≡ Ok path → IsPath path }
{}

/// A law: what a word of text that is typed below a path stands for holds to what a path is.
pub fn typed_is_path()
    ensures { (here : PathParts) (word : List ℕ) (path : PathParts) → IsPath here → IsUtf8 word → typed_of here word ≡ Ok path → IsPath path }
{}

/// A law: to have the same segments is an equivalence.
pub fn same_is_equivalence()
    ensures reflexive { (a : PathParts) → IsSame a a }
    ensures symmetric { (a b : PathParts) → IsSame a b → IsSame b a }
    ensures transitive { (a b c : PathParts) → IsSame a b → IsSame b c → IsSame a c }
{}

/// A law: what stands below something below a path stands below the path, and no path stands below one
/// that is the same.
pub fn under_is_strict()
    ensures transitive { (a b c : PathParts) → IsUnder a b → IsUnder b c → IsUnder a c }
    ensures strict { (a b : PathParts) → IsUnder a b → ¬ (IsSame a b) }
    ensures parent { (a b : PathParts) → IsParent a b → IsUnder b a }
{}
