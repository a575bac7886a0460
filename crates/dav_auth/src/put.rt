ghost use Rattle.std.specs.Prelude.{◌≡◌, ◌∷◌, ◌++◌, flat_map, OnOk};
ghost use Rattle.dav_auth.specs.Field.{parameter};
ghost use Rattle.dav_auth.specs.Quoted.{escape, escape_byte as escape_byte_lem};

use dav_text::Memory;

/// Appends each part in turn. On an error some of them may stand after the old bytes.
pub(crate) fn put_all(parts: &[&[u8]], out: &mut Vec<u8>) -> Result<(), Memory>
    ensures { OnOk result (out.new.items ≡ out.old.items ++ flat_map (λ p. p.now) parts.now) }
{
    for part in parts {
        out.extend_from_slice(part)?;
    }
    Ok(())
}

/// Appends each part after a colon. On an error some of them may stand after the old bytes.
pub(crate) fn put_after_colons(parts: &[&[u8]], out: &mut Vec<u8>) -> Result<(), Memory>
    ensures { OnOk result (out.new.items ≡ out.old.items ++ flat_map (λ p. 58 ∷ p.now) parts.now) }
{
    for part in parts {
        put_all(&[b":", part], out)?;
    }
    Ok(())
}

/// Appends a byte of a quoted string.
fn put_byte(byte: u8, out: &mut Vec<u8>) -> Result<(), Memory>
    ensures { OnOk result (out.new.items ≡ out.old.items ++ escape_byte_lem byte) }
{
    if byte == b'"' || byte == b'\\' {
        put_all(&[&[b'\\', byte]], out)
    } else {
        put_all(&[&[byte]], out)
    }
}

/// Appends the bytes of a quoted string. On an error some of them may stand after the old bytes.
fn put_escaped(bytes: &[u8], out: &mut Vec<u8>) -> Result<(), Memory>
    ensures { OnOk result (out.new.items ≡ out.old.items ++ escape bytes.now) }
{
    for byte in bytes {
        put_byte(*byte, out)?;
    }
    Ok(())
}

/// Appends a name with its separators and then a quoted string. On an error some of it may stand after the old
/// bytes.
pub(crate) fn put_quoted(name: &str, bytes: &[u8], out: &mut Vec<u8>) -> Result<(), Memory>
    ensures { OnOk result (out.new.items ≡ out.old.items ++ parameter name.now bytes.now) }
{
    put_all(&[name.as_bytes(), b"\""], out)?;
    put_escaped(bytes, out)?;
    put_all(&[b"\""], out)
}
