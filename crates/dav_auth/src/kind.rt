ghost use Rattle.std.specs.Prelude.{◌≡◌, ◌==◌};
ghost use Rattle.std.specs.List.{list_any};
ghost use Rattle.dav_auth.specs.Grammar.{is_token_byte as is_token_byte_lem, in_string as in_string_lem};
ghost use Rattle.dav_auth.specs.Elements.{is_token68_byte as is_token68_byte_lem};
ghost use Rattle.dav_auth.specs.Kind.{kind_of as kind_of_lem};

/// What a byte can be in a list of challenges.
#[derive(Clone, Copy, Debug, PartialEq, Eq)]
pub enum ByteKind {
    Space,
    Tab,
    Comma,
    Equals,
    Quote,
    Backslash,
    Slash,
    /// A byte of tokens and of a token68.
    Shared,
    /// A byte of tokens that no token68 has.
    TokenOnly,
    /// Any other byte that a quoted string can stand for.
    Quotable,
    Control,
}

/// Whether the byte is one of these.
fn is_among(bytes: &[u8], byte: u8) -> bool
    ensures { result ≡ list_any (λ b. byte == b) bytes.now }
{
    bytes.iter().any(|b| byte == *b)
}

/// Whether a token has the byte: RFC 9110 section 5.6.2.
fn is_token_byte(byte: u8) -> bool
    ensures { result ≡ is_token_byte_lem byte }
{
    byte.is_ascii_alphanumeric() || is_among(b"!#$%&'*+-.^_`|~", byte)
}

/// Whether a token68 has the byte before its padding: RFC 9110 section 11.2.
fn is_token68_byte(byte: u8) -> bool
    ensures { result ≡ is_token68_byte_lem byte }
{
    byte.is_ascii_alphanumeric() || is_among(b"-._~+/", byte)
}

/// Whether a quoted string can stand for the byte: RFC 9110 section 5.6.4.
fn in_string(byte: u8) -> bool
    ensures { result ≡ in_string_lem byte }
{
    byte == b'\t' || byte >= b' ' && byte != 127
}

/// What the byte can be.
pub(crate) fn kind_of(byte: u8) -> ByteKind
    ensures { result ≡ kind_of_lem byte }
{
    match byte {
        b' ' => ByteKind::Space,
        b'\t' => ByteKind::Tab,
        b',' => ByteKind::Comma,
        b'=' => ByteKind::Equals,
        b'"' => ByteKind::Quote,
        b'\\' => ByteKind::Backslash,
        b'/' => ByteKind::Slash,
        _ => {
            if is_token_byte(byte) {
                if is_token68_byte(byte) {
                    ByteKind::Shared
                } else {
                    ByteKind::TokenOnly
                }
            } else if in_string(byte) {
                ByteKind::Quotable
            } else {
                ByteKind::Control
            }
        }
    }
}
