ghost use Rattle.std.specs.Prelude.{◌≡◌};
ghost use Rattle.dav_auth.specs.Algorithm.{algorithm_name, is_session as is_session_lem};

/// How a challenge wants its hashes: RFC 7616 section 3.3.
#[derive(Clone, Copy, Debug, PartialEq, Eq)]
pub enum Algorithm {
    Md5,
    Md5Sess,
    Sha256,
    Sha256Sess,
}

impl Algorithm {
    /// The name as a challenge and its answer write it.
    pub fn name(self) -> &'static str
        ensures { result.now ≡ algorithm_name self }
    {
        match self {
            Algorithm::Md5 => "MD5",
            Algorithm::Md5Sess => "MD5-sess",
            Algorithm::Sha256 => "SHA-256",
            Algorithm::Sha256Sess => "SHA-256-sess",
        }
    }

    /// Whether the first hash is made anew with the nonces of a session.
    pub fn is_session(self) -> bool
        ensures { result ≡ is_session_lem self }
    {
        match self {
            Algorithm::Md5Sess | Algorithm::Sha256Sess => true,
            Algorithm::Md5 | Algorithm::Sha256 => false,
        }
    }
}

/// What an answer protects beside the password: RFC 7616 section 3.4.
#[derive(Clone, Copy, Debug, PartialEq, Eq)]
pub enum Qop {
    /// The challenge names none, as in RFC 2069.
    Missing,
    /// The login alone.
    Auth,
}
