ghost use Rattle.std.specs.Prelude.{◌≡◌, ◌++◌, ◌∷◌, [], not, IfOk, IfErr};
ghost use Rattle.dav_doc.specs.Document as document;
ghost use Rattle.dav_doc.specs.Machine.{with_attribute};
ghost use Rattle.dav_doc.specs.Names.{Attribute, undeclares as undeclares_lem, value_of};
ghost use Rattle.dav_markup.specs.Name.{name_in};
ghost use Rattle.dav_markup.specs.Scope.{Fits};
ghost use Rattle.dav_markup.specs.Tag.{Plays};

use crate::name::Name;
use crate::scope::{Binding, Tag};
use dav_text::{Blob, Memory};
use std::alloc::Global;

/// What an attribute does by its name: Namespaces in XML 1.0, section 3.
#[derive(Debug, Drop)]
pub enum Role {
    /// It declares this prefix, or the default where it is empty.
    Declares(Blob),
    /// It has this prefix, which is empty where it has none.
    Uses(Blob),
}

/// What an attribute of this name does.
fn role_of(alloc: Global, name: Name) -> Role
    ensures { Plays (name_in name) result }
{
    match name {
        Name::Plain(local) => {
            let none = Blob::from_vec(Vec::new(alloc));
            if local.as_slice() == b"xmlns".as_slice() {
                Role::Declares(none)
            } else {
                Role::Uses(none)
            }
        }
        Name::Qualified { prefix, local } => {
            if prefix.as_slice() == b"xmlns".as_slice() {
                Role::Declares(local)
            } else {
                Role::Uses(prefix)
            }
        }
    }
}

/// Whether an attribute takes a prefix away, which none may: Namespaces in XML 1.0, section 2.2.
pub fn undeclares(name: &Name, value: &[u8]) -> bool
    ensures { result ≡ undeclares_lem (name_in name.now) value.now }
{
    match name {
        Name::Plain(_) => false,
        Name::Qualified { prefix, local: _ } => {
            prefix.as_slice() == b"xmlns".as_slice() && value == b"".as_slice()
        }
    }
}

impl Tag {
    /// A tag without attributes.
    pub fn new(alloc: Global, name: Name) -> Tag
        ensures { Fits result (record { name = name_in name; attributes = [] }) }
    {
        Tag {
            name,
            bindings: Vec::new(alloc),
            prefixes: Vec::new(alloc),
        }
    }

    /// The tag with one more attribute, behind those that it has.
    pub fn add(mut self, alloc: Global, name: Name, value: Blob) -> Result<Tag, Memory>
        ensures { IfOk result (λ tag. (t : document.Tag) (a : Attribute) → Fits self t → name_in name ≡ a.name → value ≡ value_of a
            → Fits tag (with_attribute t a)) }
    {
        match role_of(alloc, name) {
            Role::Declares(prefix) => {
                self.bindings.push(Binding { prefix, ns: value })?;
                Ok(self)
            }
            Role::Uses(prefix) => {
                self.prefixes.push(prefix)?;
                Ok(self)
            }
        }
    }
}
