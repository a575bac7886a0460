ghost use Rattle.std.specs.Prelude.{◌≡◌, ◌≤◌, option_map, true, IfOk, MatchOption};
ghost use Rattle.dav_doc.specs.References.{utf_8, decimal_digit as decimal_digit_lem, hex_digit as hex_digit_lem, is_allowed as is_allowed_lem, named_reference, may_name};
ghost use Rattle.dav_markup.specs.Reference.{Takes, grown as grown_lem};

use dav_text::{Blob, Memory};
use std::alloc::Global;

/// How much of a reference has come behind its ampersand: XML 1.0 section 4.1.
#[derive(Debug, Drop)]
pub enum Reference {
    /// Nothing.
    Start,
    /// The front of a name.
    Named(Blob),
    /// `#`
    Hash,
    /// `#` and digits, which give this number so far. Whether `some` digit came goes along.
    Decimal { value: u32, some: bool },
    /// `#x` and digits, which give this number so far.
    Hexadecimal { value: u32, some: bool },
}

/// What a byte does in a reference.
#[derive(Debug, Drop)]
pub enum Taken {
    /// No reference has it there.
    Wrong,
    /// The reference goes on.
    Further(Reference),
    /// The reference is whole, and stands for this character.
    Stands(u32),
}

/// The character that a name with its semicolon stands for: XML 1.0 section 4.6.
fn named_character(name: &[u8]) -> Option<u32>
    ensures named { option_map utf_8 result ≡ named_reference name.now }
    ensures bounded { MatchOption result (Unit {0}) (λ v. v ≤ 1114111) }
{
    if name == b"lt;".as_slice() {
        return Some(60);
    }
    if name == b"gt;".as_slice() {
        return Some(62);
    }
    if name == b"amp;".as_slice() {
        return Some(38);
    }
    if name == b"apos;".as_slice() {
        return Some(39);
    }
    if name == b"quot;".as_slice() {
        return Some(34);
    }
    None
}

/// Whether a named reference begins so.
fn may_begin(name: &[u8]) -> bool
    ensures { result ≡ may_name name.now }
{
    name == b"l".as_slice()
        || name == b"lt".as_slice()
        || name == b"g".as_slice()
        || name == b"gt".as_slice()
        || name == b"a".as_slice()
        || name == b"am".as_slice()
        || name == b"amp".as_slice()
        || name == b"ap".as_slice()
        || name == b"apo".as_slice()
        || name == b"apos".as_slice()
        || name == b"q".as_slice()
        || name == b"qu".as_slice()
        || name == b"quo".as_slice()
        || name == b"quot".as_slice()
}

fn decimal_digit(byte: u8) -> Option<u8>
    ensures { result ≡ decimal_digit_lem byte }
{
    if byte >= b'0' && byte <= b'9' {
        return Some(byte - 48);
    }
    None
}

fn hex_digit(byte: u8) -> Option<u8>
    ensures { result ≡ hex_digit_lem byte }
{
    if byte >= b'0' && byte <= b'9' {
        return Some(byte - 48);
    }
    if byte >= b'a' && byte <= b'f' {
        return Some(byte - 87);
    }
    if byte >= b'A' && byte <= b'F' {
        return Some(byte - 55);
    }
    None
}

/// The number with one more digit. None where it passes the greatest character.
fn grown(base: u8, value: u32, digit: u8) -> Option<u32>
    ensures { result ≡ grown_lem base value digit }
{
    let sum = base as u64 * value as u64 + digit as u64;
    if sum <= 1114111 {
        return Some(sum as u32);
    }
    None
}

/// Whether XML allows the character: XML 1.0 section 2.2.
fn is_allowed(value: u32) -> bool
    ensures allowed { result ≡ is_allowed_lem value }
    ensures bounded { result ≡ true → value ≤ 1114111 }
{
    value >= 32 && value <= 55295
        || value >= 57344 && value <= 65533
        || value >= 65536 && value <= 1114111
        || value == 9
        || value == 10
        || value == 13
}

/// A byte behind `&` and the front of a name.
fn in_name(front: Blob, byte: u8) -> Result<Taken, Memory>
    ensures { IfOk result (λ taken. Takes (Reference.Named front) byte taken) }
{
    let mut bytes = front.into_vec();
    bytes.push(byte)?;
    match named_character(&bytes) {
        Some(value) => Ok(Taken::Stands(value)),
        None => {
            if may_begin(&bytes) {
                Ok(Taken::Further(Reference::Named(Blob::from_vec(bytes))))
            } else {
                Ok(Taken::Wrong)
            }
        }
    }
}

/// A byte behind `&`.
fn in_start(alloc: Global, byte: u8) -> Result<Taken, Memory>
    ensures { IfOk result (λ taken. Takes Reference.Start byte taken) }
{
    if byte == b'#' {
        return Ok(Taken::Further(Reference::Hash));
    }
    in_name(Blob::from_vec(Vec::new(alloc)), byte)
}

/// A byte behind `&#` and any decimal digits.
fn in_decimal(value: u32, some: bool, byte: u8) -> Taken
    ensures { Takes (Reference.Decimal value some) byte result }
{
    if byte == b';' {
        return if some && is_allowed(value) {
            Taken::Stands(value)
        } else {
            Taken::Wrong
        };
    }
    let Some(digit) = decimal_digit(byte) else {
        return Taken::Wrong;
    };
    match grown(10, value, digit) {
        Some(value) => Taken::Further(Reference::Decimal { value, some: true }),
        None => Taken::Wrong,
    }
}

/// A byte behind `&#x` and any hexadecimal digits.
fn in_hexadecimal(value: u32, some: bool, byte: u8) -> Taken
    ensures { Takes (Reference.Hexadecimal value some) byte result }
{
    if byte == b';' {
        return if some && is_allowed(value) {
            Taken::Stands(value)
        } else {
            Taken::Wrong
        };
    }
    let Some(digit) = hex_digit(byte) else {
        return Taken::Wrong;
    };
    match grown(16, value, digit) {
        Some(value) => Taken::Further(Reference::Hexadecimal { value, some: true }),
        None => Taken::Wrong,
    }
}

/// A byte behind `&#`.
fn in_hash(byte: u8) -> Taken
    ensures { Takes Reference.Hash byte result }
{
    if byte == b'x' {
        return Taken::Further(Reference::Hexadecimal {
            value: 0,
            some: false,
        });
    }
    in_decimal(0, false, byte)
}

impl Reference {
    /// What one more byte does.
    pub fn take(self, alloc: Global, byte: u8) -> Result<Taken, Memory>
        ensures { IfOk result (λ taken. Takes self byte taken) }
    {
        match self {
            Reference::Start => in_start(alloc, byte),
            Reference::Named(front) => in_name(front, byte),
            Reference::Hash => Ok(in_hash(byte)),
            Reference::Decimal { value, some } => Ok(in_decimal(value, some, byte)),
            Reference::Hexadecimal { value, some } => Ok(in_hexadecimal(value, some, byte)),
        }
    }
}
