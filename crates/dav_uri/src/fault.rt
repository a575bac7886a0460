use dav_text::{Memory, Text};

/// Why a text is no base, or a reference has no target.
#[derive(Debug, Drop)]
pub enum UriFault {
    /// It is no URL, or has a part or a path that is not allowed, or is too long.
    NotAUrl,
    /// Its scheme is not `http`.
    NotHttp,
    /// It is on another server than the base.
    OtherServer { host: Text, port: u16 },
    /// Want of memory. That a URL comes to four gigabytes counts as that too.
    Memory,
}

impl From<Memory> for UriFault {
    ghost use Rattle.std.specs.Prelude.{◌≡◌};
    ghost use Rattle.dav_uri.specs.declared.fault.UriFault.TheVariants as fault;

    ghost from_gives = { λ _ e. e ≡ fault.Memory };

    fn from(_memory: Memory) -> UriFault {
        UriFault::Memory
    }
}
