ghost use Rattle.std.specs.Prelude.{◌≡◌, Some, None, MatchOption, IfSome, IsTrue};
ghost use Rattle.dav_frame.specs.Fields.{is_clean};

use dav_frame::FieldName;
use dav_text::Tag;

/// What the server is to find before it carries a request out: RFC 9110 section 13.1.
#[derive(Debug, Drop)]
pub enum Precondition {
    /// The file with this tag.
    IfMatch(Tag),
    /// The file, whatever it holds.
    IfMatchAny,
    /// No file.
    IfNoneMatchAny,
    /// The request has no precondition.
    Nothing,
}

impl Precondition {
    ghost use Rattle.dav_verbs.specs.Precondition.{field_of};

    /// The field that asks for it, with a value that can stand in a field: RFC 9110 sections 13.1.1 and
    /// 13.1.2.
    pub fn field(&self) -> Option<(FieldName, &[u8])>
        ensures field { MatchOption result (field_of self.now ≡ None) (λ f. field_of self.now ≡ Some (f.0, f.1.now)) }
        ensures clean { IfSome result (λ f. IsTrue (is_clean f.1.now)) }
    {
        match self {
            Precondition::IfMatch(tag) => Some((FieldName::IfMatch, tag.as_slice())),
            Precondition::IfMatchAny => Some((FieldName::IfMatch, b"*".as_slice())),
            Precondition::IfNoneMatchAny => Some((FieldName::IfNoneMatch, b"*".as_slice())),
            Precondition::Nothing => None,
        }
    }
}
