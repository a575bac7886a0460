ghost use Rattle.std.specs.Prelude.{◌≡◌, ◌<◌, ◌↔◌, length, IsTrue, IfOk};
ghost use Rattle.dav_store.specs.Rows.{IsPayload};
ghost use Rattle.dav_store.specs.Start.{IsHead, head_of};

use dav_text::{Blob, Memory};
use std::alloc::Global;

/// Whether it is the payload of a head row: `DAVC`, the version 1, the length of a text in two bytes, and the text.
pub(crate) fn is_head(payload: &[u8]) -> bool
    ensures { IsTrue result ↔ IsHead payload.now }
{
    match payload {
        [b'D', b'A', b'V', b'C', 1, high, low, text @ ..] => {
            text.len() == *high as usize * 256 + *low as usize
        }
        _ => false,
    }
}

/// The payload of a head row for the text of a base URL.
pub fn head_payload(alloc: Global, url: &[u8]) -> Result<Blob, Memory>
    requires { length url.now < 65529 }
    ensures text { IfOk result (λ b. b ≡ head_of url.now) }
    ensures fits { IfOk result IsPayload }
{
    let len = url.len();
    let mut bytes = Vec::from_slice(alloc, b"DAVC\x01")?;
    bytes.push((len / 256) as u8)?;
    bytes.push((len % 256) as u8)?;
    bytes.extend_from_slice(url)?;
    Ok(Blob::from_vec(bytes))
}
