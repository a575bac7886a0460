ghost use Rattle.std.specs.Prelude.{◌≡◌, None};

use crate::entries::Held;
use crate::lost::LostItem;
use dav_text::{Path, Text};

/// The memory that the replay of a record needs, taken before.
#[derive(Drop)]
pub struct Prepared {
    pub(crate) fresh: Option<Fresh>,
    pub(crate) loss: Option<Loss>,
}

impl Prepared {
    /// No memory: enough where the record makes neither an entry nor lost bytes.
    pub fn nothing() -> Prepared
        ensures { result ≡ record { fresh = None; loss = None } }
    {
        Prepared {
            fresh: None,
            loss: None,
        }
    }
}

/// What a new entry needs.
#[derive(Drop)]
pub(crate) struct Fresh {
    pub key: Text,
    pub path: Path,
    /// Room for all entries, where the table has none left.
    pub space: Vec<Held>,
}

/// What lost bytes need.
#[derive(Drop)]
pub(crate) struct Loss {
    pub path: Path,
    /// Room for all lost bytes, where the table has none left.
    pub space: Vec<LostItem>,
}
