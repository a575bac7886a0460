ghost use Rattle.std.specs.Prelude.{◌≡◌};

/// Why a call on local files gave up.
#[derive(Clone, Copy, Debug, PartialEq, Eq)]
pub enum LocalFault {
    /// There is no file of that name.
    NoFile,
    /// The file is longer than the limit.
    TooLong,
    /// The device failed, and counted it.
    Failed,
    /// There was no memory.
    Memory,
}

impl LocalFault {
    ghost use Rattle.dav_edge.specs.Locals.{is_counted};

    /// Whether the device failed, which it counts.
    pub fn is_counted(self) -> bool
        ensures { result ≡ is_counted self }
    {
        match self {
            LocalFault::Failed => true,
            LocalFault::NoFile | LocalFault::TooLong | LocalFault::Memory => false,
        }
    }
}
