ghost use Rattle.std.specs.Prelude.{◌≡◌, ◌∷◌, ◌++◌, IfOk, IsTrue, flat_map};
ghost use Rattle.hex.specs.Hex.{encode_lower};
ghost use Rattle.dav_auth.specs.Clean.{is_clean as is_clean_lem};
ghost use Rattle.dav_auth.specs.Digest.{hash, eight_digits as eight_digits_lem};

use crate::algorithm::Algorithm;
use crate::put::put_after_colons;
use dav_text::{Memory, Text};
use hex::encode;
use md5::{Digest as Md5Digest, Md5};
use sha2::{Digest, Sha256};
use std::alloc::Global;

/// The digits of the bytes, with lower letters.
fn digits(alloc: Global, bytes: &[u8]) -> Result<Text, Memory>
    ensures value { IfOk result (λ t. t ≡ encode_lower bytes.now) }
    ensures clean { IfOk result (λ t. IsTrue (is_clean_lem t)) }
{
    let text = encode(alloc, bytes)?;
    Ok(Text::from_string(text))
}

/// The hash of a message, as lower hexadecimal digits.
fn hash_of(alloc: Global, algorithm: Algorithm, message: &[u8]) -> Result<Text, Memory>
    ensures value { IfOk result (λ t. t ≡ hash algorithm message.now) }
    ensures clean { IfOk result (λ t. IsTrue (is_clean_lem t)) }
{
    match algorithm {
        Algorithm::Md5 | Algorithm::Md5Sess => {
            let mut hasher = Md5::new();
            hasher.update(message);
            let digest = hasher.finalize();
            digits(alloc, digest.as_slice())
        }
        Algorithm::Sha256 | Algorithm::Sha256Sess => {
            let mut hasher = Sha256::new();
            hasher.update(message);
            let digest = hasher.finalize();
            digits(alloc, digest.as_slice())
        }
    }
}

/// The hash of these texts, with a colon before each but the first, as lower hexadecimal digits.
pub(crate) fn hash_joined(
    alloc: Global,
    algorithm: Algorithm,
    first: &[u8],
    rest: &[&[u8]],
) -> Result<Text, Memory>
    ensures value { IfOk result (λ t. t ≡ hash algorithm (first.now ++ flat_map (λ p. 58 ∷ p.now) rest.now)) }
    ensures clean { IfOk result (λ t. IsTrue (is_clean_lem t)) }
{
    let mut message = Vec::from_slice(alloc, first)?;
    put_after_colons(rest, &mut message)?;
    hash_of(alloc, algorithm, message.as_slice())
}

/// The number of uses of a nonce, as eight lower hexadecimal digits.
pub(crate) fn eight_digits(alloc: Global, nc: u32) -> Result<Text, Memory>
    ensures value { IfOk result (λ t. t ≡ eight_digits_lem nc) }
    ensures clean { IfOk result (λ t. IsTrue (is_clean_lem t)) }
{
    digits(alloc, nc.to_be_bytes().as_slice())
}
