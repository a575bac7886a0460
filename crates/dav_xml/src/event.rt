ghost use Rattle.std.specs.Prelude.{◌≡◌, true, [], length, MatchOption};
ghost use Rattle.dav_xml.specs.Events.{lent_in, later_in, event_in, is_ready as is_ready_lem};

use dav_markup::few::Few;
use dav_text::Blob;

/// What comes next in a document.
#[derive(Clone, Copy, Debug, PartialEq, Eq)]
pub enum Event<'a> {
    /// An element begins. The root is at depth 1; `ns` is the namespace, which is empty where it has none, and `name` is its name
    /// without a prefix.
    Start {
        depth: u32,
        ns: &'a [u8],
        name: &'a [u8],
    },
    /// Text of the innermost open element. More of one text may follow.
    Chars {
        bytes: &'a [u8],
    },
    /// The element at this depth ends.
    End {
        depth: u32,
    },
}

/// What a scanner lends.
#[derive(Debug, Drop)]
pub(crate) enum Lent {
    Nothing,
    Chars(Few),
    /// Text that stands for itself.
    Run(Blob),
    /// Whether the element is empty, so that its end is still to be lent, goes along.
    Start {
        depth: u32,
        ns: Blob,
        name: Blob,
        empty: bool,
    },
    End(u32),
}

impl Lent {
    /// What is lent. No bytes where it is nothing.
    pub(crate) fn event(&self) -> Event<'_>
        ensures { event_in result ≡ lent_in self.now }
    {
        match self {
            Lent::Nothing => Event::Chars { bytes: b"" },
            Lent::Chars(few) => Event::Chars {
                bytes: few.as_slice(),
            },
            Lent::Run(bytes) => Event::Chars {
                bytes: bytes.as_slice(),
            },
            Lent::Start {
                depth,
                ns,
                name,
                empty: _,
            } => Event::Start {
                depth: *depth,
                ns: ns.as_slice(),
                name: name.as_slice(),
            },
            Lent::End(depth) => Event::End { depth: *depth },
        }
    }

    /// What is to be lent next: the end of an empty element. None where nothing is.
    pub(crate) fn later(&self) -> Option<Lent>
        ensures { MatchOption result (later_in self.now ≡ []) (λ later. (lent_in later ≡ later_in self.now) × (later_in later ≡ []) × (is_ready_lem later ≡ true) × (length (later_in self.now) ≡ 1)) }
    {
        match self {
            Lent::Start {
                depth,
                ns: _,
                name: _,
                empty,
            } => {
                if *empty {
                    Some(Lent::End(*depth))
                } else {
                    None
                }
            }
            _ => None,
        }
    }

    /// Whether something is lent.
    pub(crate) fn is_ready(&self) -> bool
        ensures { result ≡ is_ready_lem self.now }
    {
        match self {
            Lent::Nothing => false,
            _ => true,
        }
    }
}
