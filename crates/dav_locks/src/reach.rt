ghost use Rattle.std.specs.Prelude.{◌≡◌};
ghost use Rattle.dav_locks.specs.Submitted.{is_infinite as is_infinite_lem, is_of_member as is_of_member_lem};

/// How far below its root a lock, or a request, reaches: RFC 4918 section 10.2.
#[derive(Clone, Copy, Debug, PartialEq, Eq)]
pub enum Depth {
    /// The root alone.
    Zero,
    /// The root and all that stands below it.
    Infinity,
}

/// What a request does with the path that it names.
#[derive(Clone, Copy, Debug, PartialEq, Eq)]
pub enum Use {
    /// It changes what stands there.
    Itself,
    /// It also makes, replaces or removes a member of the collection above.
    Member,
}

impl Depth {
    /// Whether it is down to all that stands below.
    pub fn is_infinite(self) -> bool
        ensures { result ≡ is_infinite_lem self }
    {
        match self {
            Depth::Zero => false,
            Depth::Infinity => true,
        }
    }
}

impl Use {
    /// Whether the collection above changes in its members.
    pub fn is_of_member(self) -> bool
        ensures { result ≡ is_of_member_lem self }
    {
        match self {
            Use::Itself => false,
            Use::Member => true,
        }
    }
}
