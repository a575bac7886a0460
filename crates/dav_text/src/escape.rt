ghost use Rattle.std.specs.Prelude.{◌≡◌, ◌++◌, ◌<◌, flat_map, OnOk, OnErr};
ghost use Rattle.dav_text.specs.Path.{BeginsWith};
ghost use Rattle.dav_text.specs.Escape.{xml_byte as xml_byte_lem, xml_escaped, quoted, quoted_byte as quoted_byte_lem, hex_digit as hex_digit_lem, eight_hex_digits};

use crate::memory::Memory;

/// Writes the text at the end of `out` so that it can stand in XML, between tags or between double
/// quotes: XML 1.0 section 2.4.
pub fn xml_escape(text: &[u8], out: &mut Vec<u8>) -> Result<(), Memory>
    ensures ok { OnOk result (out.new.items ≡ out.old.items ++ xml_escaped text.now) }
    ensures err { OnErr result (out.new.items ≡ out.old.items) }
{
    let before = out.len();
    match append_xml(text, out) {
        Ok(()) => Ok(()),
        Err(memory) => {
            out.truncate(before);
            Err(memory)
        }
    }
}

/// Writes the text between double quotes at the end of `out`. A backslash stands before a backslash and
/// a double quote, and a control character is written as `\x` and two lower hexadecimal digits.
pub fn quote(text: &[u8], out: &mut Vec<u8>) -> Result<(), Memory>
    ensures ok { OnOk result (out.new.items ≡ out.old.items ++ quoted text.now) }
    ensures err { OnErr result (out.new.items ≡ out.old.items) }
{
    let before = out.len();
    match append_quoted(text, out) {
        Ok(()) => Ok(()),
        Err(memory) => {
            out.truncate(before);
            Err(memory)
        }
    }
}

/// The number as eight lower hexadecimal digits.
pub fn hex_u32(n: u32) -> [u8; 8]
    ensures { result ≡ eight_hex_digits n }
{
    [
        hex_digit(n / 0x1000_0000 % 16),
        hex_digit(n / 0x100_0000 % 16),
        hex_digit(n / 0x10_0000 % 16),
        hex_digit(n / 0x1_0000 % 16),
        hex_digit(n / 0x1000 % 16),
        hex_digit(n / 0x100 % 16),
        hex_digit(n / 0x10 % 16),
        hex_digit(n % 16),
    ]
}

// The digit with a lower letter.
fn hex_digit(n: u32) -> u8
    requires { n < 16 }
    ensures { result ≡ hex_digit_lem n }
{
    if n < 10 {
        b'0' + n as u8
    } else {
        b'a' + (n as u8 - 10)
    }
}

// On an error a part may stand behind what was there.
fn append_xml(text: &[u8], out: &mut Vec<u8>) -> Result<(), Memory>
    ensures ok { OnOk result (out.new.items ≡ out.old.items ++ flat_map xml_byte_lem text.now) }
    ensures err { OnErr result (BeginsWith out.old.items out.new.items) }
{
    for byte in text {
        append_xml_byte(*byte, out)?;
    }
    Ok(())
}

fn append_xml_byte(byte: u8, out: &mut Vec<u8>) -> Result<(), Memory>
    ensures ok { OnOk result (out.new.items ≡ out.old.items ++ xml_byte_lem byte) }
    ensures err { OnErr result (out.new.items ≡ out.old.items) }
{
    match byte {
        b'&' => out.extend_from_slice(b"&amp;")?,
        b'<' => out.extend_from_slice(b"&lt;")?,
        b'>' => out.extend_from_slice(b"&gt;")?,
        b'"' => out.extend_from_slice(b"&quot;")?,
        _ => out.push(byte)?,
    }
    Ok(())
}

// On an error a part may stand behind what was there.
fn append_quoted(text: &[u8], out: &mut Vec<u8>) -> Result<(), Memory>
    ensures ok { OnOk result (out.new.items ≡ out.old.items ++ quoted text.now) }
    ensures err { OnErr result (BeginsWith out.old.items out.new.items) }
{
    out.push(b'"')?;
    append_quoted_bytes(text, out)?;
    out.push(b'"')?;
    Ok(())
}

// On an error a part may stand behind what was there.
fn append_quoted_bytes(text: &[u8], out: &mut Vec<u8>) -> Result<(), Memory>
    ensures ok { OnOk result (out.new.items ≡ out.old.items ++ flat_map quoted_byte_lem text.now) }
    ensures err { OnErr result (BeginsWith out.old.items out.new.items) }
{
    for byte in text {
        append_quoted_byte(*byte, out)?;
    }
    Ok(())
}

fn append_quoted_byte(byte: u8, out: &mut Vec<u8>) -> Result<(), Memory>
    ensures ok { OnOk result (out.new.items ≡ out.old.items ++ quoted_byte_lem byte) }
    ensures err { OnErr result (out.new.items ≡ out.old.items) }
{
    if byte == b'\\' || byte == b'"' {
        out.extend_from_slice(&[b'\\', byte])?;
    } else if byte < 32 || byte == 127 {
        let high = hex_digit(u32::from(byte / 16));
        let low = hex_digit(u32::from(byte % 16));
        out.extend_from_slice(&[b'\\', b'x', high, low])?;
    } else {
        out.push(byte)?;
    }
    Ok(())
}
