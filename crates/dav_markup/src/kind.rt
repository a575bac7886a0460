ghost use Rattle.std.specs.Prelude.{◌≡◌};
ghost use Rattle.dav_doc.specs.Bytes.{kind, is_letter as is_letter_lem, is_digit as is_digit_lem};
ghost use Rattle.dav_markup.specs.Kind.{kind_in};

/// What a byte can be in a document.
#[derive(Clone, Copy, Debug, PartialEq, Eq)]
pub enum ByteKind {
    Less,
    Ampersand,
    /// Space, tab, CR or LF: XML 1.0, production 3.
    Blank,
    Greater,
    DoubleQuote,
    SingleQuote,
    Equals,
    Slash,
    Colon,
    Exclamation,
    /// A byte that begins a name: a letter, `_`, or a byte of a character past ASCII.
    Letter,
    /// A byte that a name only goes on with: a digit, `-` or `.`.
    Digit,
    Other,
}

/// What the byte can be.
pub fn kind_of(byte: u8) -> ByteKind
    ensures { kind_in result ≡ kind byte }
{
    match byte {
        b'<' => ByteKind::Less,
        b'&' => ByteKind::Ampersand,
        b' ' | b'\t' | b'\n' | b'\r' => ByteKind::Blank,
        b'>' => ByteKind::Greater,
        b'"' => ByteKind::DoubleQuote,
        b'\'' => ByteKind::SingleQuote,
        b'=' => ByteKind::Equals,
        b'/' => ByteKind::Slash,
        b':' => ByteKind::Colon,
        b'!' => ByteKind::Exclamation,
        _ => {
            if is_letter(byte) {
                ByteKind::Letter
            } else if is_digit(byte) {
                ByteKind::Digit
            } else {
                ByteKind::Other
            }
        }
    }
}

/// Whether a name can begin with the byte.
fn is_letter(byte: u8) -> bool
    ensures { result ≡ is_letter_lem byte }
{
    byte >= b'a' && byte <= b'z' || byte >= b'A' && byte <= b'Z' || byte == b'_' || byte >= 128
}

/// Whether a name only goes on with the byte.
fn is_digit(byte: u8) -> bool
    ensures { result ≡ is_digit_lem byte }
{
    byte >= b'0' && byte <= b'9' || byte == b'-' || byte == b'.'
}
