ghost use Rattle.std.specs.Prelude.{◌≡◌};
ghost use Rattle.dav_verbs.specs.Outcome.{outcome_of as outcome_of_lem};

/// What came of a request that stores a file.
#[derive(Clone, Copy, Debug, PartialEq, Eq)]
pub enum Outcome {
    /// The server has the file.
    Sent,
    /// It has not, and the same request may succeed later.
    Again,
    /// It has not, and will not take it.
    Refused,
}

/// What the status of a whole reply says of the file that was sent: RFC 9110 section 15.
pub fn outcome_of(status: u16) -> Outcome
    ensures { result ≡ outcome_of_lem status }
{
    match status {
        200..=299 => Outcome::Sent,
        408 | 429 | 500 | 502 | 503 | 504 => Outcome::Again,
        _ => Outcome::Refused,
    }
}
