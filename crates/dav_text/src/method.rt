ghost use Rattle.std.specs.Prelude.{◌≡◌};

/// The method of a request: RFC 9110 section 9, and RFC 4918 section 9.
#[derive(Clone, Copy, Debug, PartialEq, Eq)]
pub enum Method {
    Options,
    Get,
    Head,
    Put,
    Delete,
    Mkcol,
    Copy,
    Move,
    Lock,
    Unlock,
    Propfind,
    Proppatch,
}

impl Method {
    ghost use Rattle.dav_text.specs.Method.{method_name};

    /// The name that a request line begins with.
    pub fn name(self) -> &'static str
        ensures { result.now ≡ method_name self }
    {
        match self {
            Method::Options => "OPTIONS",
            Method::Get => "GET",
            Method::Head => "HEAD",
            Method::Put => "PUT",
            Method::Delete => "DELETE",
            Method::Mkcol => "MKCOL",
            Method::Copy => "COPY",
            Method::Move => "MOVE",
            Method::Lock => "LOCK",
            Method::Unlock => "UNLOCK",
            Method::Propfind => "PROPFIND",
            Method::Proppatch => "PROPPATCH",
        }
    }
}
