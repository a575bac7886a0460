ghost use Rattle.std.specs.Prelude.{◌≡◌};
ghost use Rattle.httparse.specs.Grammar.{trim_ows};
ghost use Rattle.dav_head.specs.Elements.{is_token as is_token_lem};

use dav_text::Blanks;

/// The text without the blanks at both ends.
pub(crate) fn trimmed(text: &[u8]) -> &[u8]
    ensures { result.now ≡ trim_ows text.now }
{
    Blanks::Field.trimmed(text)
}

/// Whether an element is the token, whatever the case of its letters.
pub(crate) fn is_token(token: &[u8], element: &[u8]) -> bool
    ensures { result ≡ is_token_lem token.now element.now }
{
    trimmed(element).eq_ignore_ascii_case(token)
}
