ghost use Rattle.std.specs.Prelude.{◌≡◌, option_map};
ghost use Rattle.dav_doc.specs.Bytes.{blank as blank_lem};
ghost use Rattle.dav_doc.specs.Words.{want as want_lem, word};
ghost use Rattle.dav_markup.specs.Declaration.{want_in, then_in, in_any_case as in_any_case_lem, quote_in, value_in, parts_in};

use crate::kind::{ByteKind, kind_of};

/// The quotes around a value.
#[derive(Clone, Copy, Debug, PartialEq, Eq)]
pub enum Quote {
    Double,
    Single,
}

/// The parts of a declaration.
#[derive(Clone, Copy, Debug, PartialEq, Eq)]
pub enum Part {
    Version,
    Encoding,
    Standalone,
}

/// What follows the letters of a word.
#[derive(Clone, Copy, Debug, PartialEq, Eq)]
pub enum Then {
    /// The equals sign of a part.
    Equals(Part),
    /// The last digit of a version.
    Digit(Quote),
    /// The quote behind the value of a part.
    Close(Part, Quote),
}

/// Where a scanner stands in an XML declaration, behind `<?xml` and a blank: XML 1.0 section 2.8.
#[derive(Clone, Copy, Debug, PartialEq, Eq)]
pub enum Declaration {
    /// Before `version`, or a blank.
    Start,
    /// In a word, of which this is left.
    Letters {
        left: &'static [u8],
        then: Then,
    },
    /// In a word in any case, of which this is left, in small letters and in capitals.
    AnyCase {
        left: &'static [(u8, u8)],
        then: Then,
    },
    /// Before the equals sign of a part, or a blank.
    Equals(Part),
    /// Before the value of a part, or a blank.
    Value(Part),
    /// Before the last digit of a version.
    Digit(Quote),
    /// Before the name of an encoding.
    Encoding(Quote),
    /// Behind the first letter of the name of an encoding.
    SecondLetter(Quote),
    /// Before `yes` or `no`.
    YesOrNo(Quote),
    /// Before the quote behind the value of a part.
    Close(Part, Quote),
    /// Behind that quote.
    After(Part),
    /// Behind that quote and a blank.
    Blanks(Part),
    /// Behind the last `?`.
    Closing,
    /// Behind the declaration.
    Done,
}

/// The end of `utf-8` in any case.
const F_8: &[(u8, u8)] = &[(b'f', b'F'), (b'-', b'-'), (b'8', b'8')];

/// The end of `us-ascii` in any case.
const ASCII: &[(u8, u8)] = &[
    (b'-', b'-'),
    (b'a', b'A'),
    (b's', b'S'),
    (b'c', b'C'),
    (b'i', b'I'),
    (b'i', b'I'),
];

/// Whether the byte is a blank: XML 1.0, production 3.
pub fn is_blank(byte: u8) -> bool
    ensures { result ≡ blank_lem byte }
{
    match kind_of(byte) {
        ByteKind::Blank => true,
        _ => false,
    }
}

fn quote_byte(quote: Quote) -> u8
    ensures { result ≡ quote_in quote }
{
    match quote {
        Quote::Double => b'"',
        Quote::Single => b'\'',
    }
}

fn in_start(byte: u8) -> Option<Declaration>
    ensures { option_map want_in result ≡ want_lem (want_in Declaration.Start) byte }
{
    if is_blank(byte) {
        return Some(Declaration::Start);
    }
    match byte {
        b'v' => Some(Declaration::Letters {
            left: b"ersion",
            then: Then::Equals(Part::Version),
        }),
        _ => None,
    }
}

/// A byte of a word, of which something is left.
fn in_letters(left: &'static [u8], then: Then, byte: u8) -> Option<Declaration>
    ensures { option_map want_in result ≡ want_lem (word left.now (then_in then)) byte }
{
    let Some((first, rest)) = left.split_first() else {
        return behind_word(then, byte);
    };
    if byte == *first {
        return Some(Declaration::Letters { left: rest, then });
    }
    None
}

/// The same of a word in any case.
fn in_any_case(left: &'static [(u8, u8)], then: Then, byte: u8) -> Option<Declaration>
    ensures { option_map want_in result ≡ want_lem (in_any_case_lem left.now (then_in then)) byte }
{
    let Some((first, rest)) = left.split_first() else {
        return behind_word(then, byte);
    };
    if byte == first.0 || byte == first.1 {
        return Some(Declaration::AnyCase { left: rest, then });
    }
    None
}

/// The first byte behind a word.
fn behind_word(then: Then, byte: u8) -> Option<Declaration>
    ensures { option_map want_in result ≡ want_lem (then_in then) byte }
{
    match then {
        Then::Equals(part) => in_equals(part, byte),
        Then::Digit(quote) => in_digit(quote, byte),
        Then::Close(part, quote) => in_close(part, quote, byte),
    }
}

fn in_equals(part: Part, byte: u8) -> Option<Declaration>
    ensures { option_map want_in result ≡ want_lem (want_in (Declaration.Equals part)) byte }
{
    if is_blank(byte) {
        return Some(Declaration::Equals(part));
    }
    match byte {
        b'=' => Some(Declaration::Value(part)),
        _ => None,
    }
}

/// What stands behind the first quote of a part's value.
fn opened(part: Part, quote: Quote) -> Declaration
    ensures { want_in result ≡ value_in part (quote_in quote) }
{
    match part {
        Part::Version => Declaration::Letters {
            left: b"1.",
            then: Then::Digit(quote),
        },
        Part::Encoding => Declaration::Encoding(quote),
        Part::Standalone => Declaration::YesOrNo(quote),
    }
}

fn in_value(part: Part, byte: u8) -> Option<Declaration>
    ensures { option_map want_in result ≡ want_lem (want_in (Declaration.Value part)) byte }
{
    if is_blank(byte) {
        return Some(Declaration::Value(part));
    }
    match byte {
        b'"' => Some(opened(part, Quote::Double)),
        b'\'' => Some(opened(part, Quote::Single)),
        _ => None,
    }
}

fn in_digit(quote: Quote, byte: u8) -> Option<Declaration>
    ensures { option_map want_in result ≡ want_lem (want_in (Declaration.Digit quote)) byte }
{
    match byte {
        b'0' | b'1' => Some(Declaration::Close(Part::Version, quote)),
        _ => None,
    }
}

fn in_encoding(quote: Quote, byte: u8) -> Option<Declaration>
    ensures { option_map want_in result ≡ want_lem (want_in (Declaration.Encoding quote)) byte }
{
    match byte {
        b'u' | b'U' => Some(Declaration::SecondLetter(quote)),
        _ => None,
    }
}

fn in_second_letter(quote: Quote, byte: u8) -> Option<Declaration>
    ensures { option_map want_in result ≡ want_lem (want_in (Declaration.SecondLetter quote)) byte }
{
    let then = Then::Close(Part::Encoding, quote);
    match byte {
        b't' | b'T' => Some(Declaration::AnyCase { left: F_8, then }),
        b's' | b'S' => Some(Declaration::AnyCase { left: ASCII, then }),
        _ => None,
    }
}

fn in_yes_or_no(quote: Quote, byte: u8) -> Option<Declaration>
    ensures { option_map want_in result ≡ want_lem (want_in (Declaration.YesOrNo quote)) byte }
{
    let then = Then::Close(Part::Standalone, quote);
    match byte {
        b'y' => Some(Declaration::Letters { left: b"es", then }),
        b'n' => Some(Declaration::Letters { left: b"o", then }),
        _ => None,
    }
}

fn in_close(part: Part, quote: Quote, byte: u8) -> Option<Declaration>
    ensures { option_map want_in result ≡ want_lem (want_in (Declaration.Close part quote)) byte }
{
    if byte == quote_byte(quote) {
        return Some(Declaration::After(part));
    }
    None
}

/// A byte behind a value.
fn in_after(part: Part, byte: u8) -> Option<Declaration>
    ensures { option_map want_in result ≡ want_lem (want_in (Declaration.After part)) byte }
{
    if byte == b'?' {
        return Some(Declaration::Closing);
    }
    if is_blank(byte) {
        return Some(Declaration::Blanks(part));
    }
    None
}

/// The part of this first letter that can stand behind another one.
fn begun(part: Part, byte: u8) -> Option<Declaration>
    ensures { option_map want_in result ≡ want_lem (parts_in part) byte }
{
    match (part, byte) {
        (_, b'?') => Some(Declaration::Closing),
        (Part::Version, b'e') => Some(Declaration::Letters {
            left: b"ncoding",
            then: Then::Equals(Part::Encoding),
        }),
        (Part::Version, b's') | (Part::Encoding, b's') => Some(Declaration::Letters {
            left: b"tandalone",
            then: Then::Equals(Part::Standalone),
        }),
        _ => None,
    }
}

/// A byte behind a value and a blank.
fn in_blanks(part: Part, byte: u8) -> Option<Declaration>
    ensures { option_map want_in result ≡ want_lem (want_in (Declaration.Blanks part)) byte }
{
    if is_blank(byte) {
        return Some(Declaration::Blanks(part));
    }
    begun(part, byte)
}

fn in_closing(byte: u8) -> Option<Declaration>
    ensures { option_map want_in result ≡ want_lem (want_in Declaration.Closing) byte }
{
    match byte {
        b'>' => Some(Declaration::Done),
        _ => None,
    }
}

impl Declaration {
    /// Where one more byte leads. None where no declaration has it there.
    pub fn after(self, byte: u8) -> Option<Declaration>
        ensures { option_map want_in result ≡ want_lem (want_in self) byte }
    {
        match self {
            Declaration::Start => in_start(byte),
            Declaration::Letters { left, then } => in_letters(left, then, byte),
            Declaration::AnyCase { left, then } => in_any_case(left, then, byte),
            Declaration::Equals(part) => in_equals(part, byte),
            Declaration::Value(part) => in_value(part, byte),
            Declaration::Digit(quote) => in_digit(quote, byte),
            Declaration::Encoding(quote) => in_encoding(quote, byte),
            Declaration::SecondLetter(quote) => in_second_letter(quote, byte),
            Declaration::YesOrNo(quote) => in_yes_or_no(quote, byte),
            Declaration::Close(part, quote) => in_close(part, quote, byte),
            Declaration::After(part) => in_after(part, byte),
            Declaration::Blanks(part) => in_blanks(part, byte),
            Declaration::Closing => in_closing(byte),
            Declaration::Done => None,
        }
    }
}
