ghost use Rattle.std.specs.Prelude.{◌≡◌};
ghost use Rattle.dav_xml.specs.Ending.{is_outside as is_outside_lem};

use dav_markup::aside::Aside;
use dav_markup::declaration::Quote;
use dav_markup::markup::Place;
use dav_markup::name::Name;
use dav_markup::outer::Outer;
use dav_markup::reference::Reference;
use dav_markup::scope::Tag;
use dav_markup::section::{Brackets, Section};
use dav_text::Blob;

/// Where a scanner stands in a document.
#[derive(Debug, Drop)]
pub(crate) enum Position {
    /// Before the root, outside of markup.
    Outer(Outer),
    /// In text behind so many `]`, or behind the root.
    Text(Brackets),
    /// Behind a carriage return in text.
    Return,
    /// Behind `<`.
    Less(Place),
    /// Behind `<!`.
    Mark(Place),
    /// Behind `<?`.
    Question(Place),
    /// In a comment or an instruction.
    Aside { place: Place, aside: Aside },
    /// In a CDATA section.
    Section(Section),
    /// In a reference in text.
    Reference(Reference),
    /// In a start tag.
    Start(StartTag),
    /// In the end tag of the element of this name, of which so many bytes have come.
    End { name: Blob, came: usize },
    /// Behind the name of an end tag.
    EndBlanks,
}

/// Where a scanner stands in a start tag.
#[derive(Debug, Drop)]
pub(crate) enum StartTag {
    /// In its name.
    Name(Name),
    /// Behind its name or an attribute. Whether `some` blank stands right before goes along.
    Between { tag: Tag, some: bool },
    /// Behind the slash of an empty tag, whose element has this namespace.
    Slash { tag: Tag, ns: Blob },
    /// In the name of an attribute.
    Attribute { tag: Tag, name: Name },
    /// Behind that name.
    BeforeEquals { tag: Tag, name: Name },
    /// Behind the equals sign.
    AfterEquals { tag: Tag, name: Name },
    /// In the value of an attribute.
    Value(Value),
    /// In a reference there.
    ValueReference { value: Value, reference: Reference },
}

/// The value of an attribute so far, with its name and the tag before it.
#[derive(Debug, Drop)]
pub(crate) struct Value {
    pub(crate) tag: Tag,
    pub(crate) name: Name,
    pub(crate) quote: Quote,
    pub(crate) bytes: Blob,
}

impl Position {
    /// Whether the scanner stands outside of markup, behind no `]`.
    pub(crate) fn is_outside(&self) -> bool
        ensures { result ≡ is_outside_lem self.now }
    {
        match self {
            Position::Text(brackets) => *brackets == Brackets::Zero,
            _ => false,
        }
    }
}
