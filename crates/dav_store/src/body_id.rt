ghost use Rattle.std.specs.Prelude.{◌≡◌};
ghost use Rattle.sha2.specs.Sha256.{sha256};

use sha2::{Digest, Sha256};

/// A body: the first `len` bytes of a file, with their SHA-256.
#[derive(Clone, Copy, Debug, PartialEq, Eq)]
pub struct BodyId {
    pub file: u32,
    pub len: u64,
    pub sum: [u8; 32],
}

impl BodyId {
    ghost use Rattle.dav_store.specs.Body.{id_of};

    /// These bytes as a body in that file.
    pub fn of(file: u32, bytes: &[u8]) -> BodyId
        ensures { result ≡ id_of file bytes.now }
    {
        BodyId {
            file,
            len: bytes.len() as u64,
            sum: sum_of(bytes),
        }
    }
}

/// The SHA-256 of the bytes (FIPS 180-4).
pub(crate) fn sum_of(bytes: &[u8]) -> [u8; 32]
    ensures { result ≡ sha256 bytes.now }
{
    let mut hasher = Sha256::new();
    hasher.update(bytes);
    hasher.finalize()
}
