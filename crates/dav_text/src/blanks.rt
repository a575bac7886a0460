ghost use Rattle.std.specs.Prelude.{◌≡◌};
ghost use Rattle.dav_text.specs.Blanks.{is_blank, without_front as without_front_lem, without_back as without_back_lem, trimmed as trimmed_lem};

/// Which bytes are blanks.
#[derive(Clone, Copy, Debug, PartialEq, Eq)]
pub enum Blanks {
    /// Those of a field: space and tab (RFC 9110 section 5.6.3).
    Field,
    /// Those of a document: space, tab, line feed and carriage return (XML 1.0 section 2.3).
    Document,
}

impl Blanks {
    /// Whether the byte is one of these blanks.
    pub fn has(self, byte: u8) -> bool
        ensures { result ≡ is_blank self byte }
    {
        match self {
            Blanks::Field => byte == b' ' || byte == b'\t',
            Blanks::Document => byte == b' ' || byte == b'\t' || byte == b'\n' || byte == b'\r',
        }
    }

    /// The text without these blanks at its ends.
    pub fn trimmed(self, text: &[u8]) -> &[u8]
        ensures { result.now ≡ trimmed_lem self text.now }
    {
        without_back(self, without_front(self, text))
    }
}

// The text without these blanks at its front.
fn without_front(blanks: Blanks, text: &[u8]) -> &[u8]
    ensures { result.now ≡ without_front_lem blanks text.now }
{
    let mut rest = text;
    while let Some((first, others)) = rest.split_first() {
        if !blanks.has(*first) {
            return rest;
        }
        rest = others;
    }
    rest
}

// The text without these blanks at its back.
fn without_back(blanks: Blanks, text: &[u8]) -> &[u8]
    ensures { result.now ≡ without_back_lem blanks text.now }
{
    let mut rest = text;
    while let Some((last, others)) = rest.split_last() {
        if !blanks.has(*last) {
            return rest;
        }
        rest = others;
    }
    rest
}
