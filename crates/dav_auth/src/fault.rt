ghost use Rattle.std.specs.Prelude.{◌≡◌};
ghost use Rattle.dav_auth.specs.declared.fault.AuthFault.TheVariants as faults;

use dav_text::Memory;

/// Why no challenge of a list can be answered.
#[derive(Clone, Copy, Debug, PartialEq, Eq)]
pub enum AuthFault {
    /// No challenge has the scheme Digest.
    NoDigest,
    /// No Digest challenge has all that an answer needs, or each asks for what is not supported.
    Unsupported,
    /// The bytes are no list of challenges.
    BadChallenge {
        /// The first byte that no list has there, or the length where the bytes end inside one.
        at: usize,
    },
    /// Want of memory.
    Memory,
}

impl From<Memory> for AuthFault {
    ghost from_gives = { λ _ e. e ≡ faults.Memory };

    fn from(_memory: Memory) -> AuthFault {
        AuthFault::Memory
    }
}
