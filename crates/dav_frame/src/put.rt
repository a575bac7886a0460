ghost use Rattle.std.specs.Prelude.{◌≡◌, ◌++◌, flat_map, OnOk, OnErr};
ghost use Rattle.dav_frame.specs.Request.{BeginsWith};

use dav_text::Memory;

/// Appends each part in turn. On an error some of them may stand after the old bytes.
pub(crate) fn put_all(parts: &[&[u8]], out: &mut Vec<u8>) -> Result<(), Memory>
    ensures ok { OnOk result (out.new.items ≡ out.old.items ++ flat_map (λ p. p.now) parts.now) }
    ensures err { OnErr result (BeginsWith out.old.items out.new.items) }
{
    for part in parts {
        out.extend_from_slice(part)?;
    }
    Ok(())
}
