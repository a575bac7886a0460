ghost use Rattle.std.specs.Prelude.{◌≡◌, ◌<◌, ◌≤◌, ◌^◌, ◌++◌, length, OnOk, OnErr, IfSome, decimal};
ghost use Rattle.dav_text.specs.Digits.{number_of as number_of_lem};

use crate::memory::Memory;
use itoa::Buffer;

/// Writes the number in decimal digits at the end of `out`, with no leading zero.
pub fn decimal(n: u64, out: &mut Vec<u8>) -> Result<(), Memory>
    ensures ok { OnOk result (out.new.items ≡ out.old.items ++ decimal n) }
    ensures err { OnErr result (out.new.items ≡ out.old.items) }
{
    let mut buffer = Buffer::new();
    out.extend_from_slice(buffer.format(n).as_bytes())?;
    Ok(())
}

/// The number that the decimal digits write, of which there are one to `most`. None where the text is none
/// of these.
pub fn number_of(text: &[u8], most: usize) -> Option<u64>
    requires { most ≤ 19 }
    ensures value { result ≡ number_of_lem most text.now }
    ensures bound { IfSome result (λ n. n < 10 ^ length text.now) }
{
    if text.is_empty() || text.len() > most {
        return None;
    }
    let mut number: u64 = 0;
    for byte in text {
        if !byte.is_ascii_digit() {
            return None;
        }
        number = number * 10 + (*byte - b'0') as u64;
    }
    Some(number)
}
