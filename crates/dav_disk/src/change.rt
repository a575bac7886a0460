ghost use Rattle.std.specs.Prelude.{◌≡◌, ◌+◌, ◌≤◌, ◌↔◌, ◌∷◌, [], IsTrue};

/// The bytes of a file that a call may have touched.
#[derive(Clone, Copy, Debug, PartialEq, Eq)]
pub enum Change {
    /// Those from one place up to, but not including, another.
    Span { from: u64, end: u64 },
    /// All from a place on.
    Tail { from: u64 },
}

impl Change {
    ghost use Rattle.dav_disk.specs.Disk.{touched_by_write, IsOutside};

    /// What a write at a place, of bytes that end at another, touches in a file of that size.
    pub(crate) fn of_write(at: u64, len: u64, size: u64) -> Change
        requires { at + len ≤ 18446744073709551615 }
        ensures { result ≡ touched_by_write at len size }
    {
        let end = at + len;
        if end <= size {
            Change::Span { from: at, end }
        } else {
            Change::Tail { from: at }
        }
    }

    /// Whether it touched the byte at a place.
    pub(crate) fn spares(self, place: u64) -> bool
        ensures { IsTrue result ↔ IsOutside place (self ∷ []) }
    {
        match self {
            Change::Span { from, end } => place < from || end <= place,
            Change::Tail { from } => place < from,
        }
    }
}
