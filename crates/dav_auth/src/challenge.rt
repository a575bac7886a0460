ghost use Rattle.std.specs.Prelude.{◌≡◌, ◌&&◌, IsTrue, false, MatchOption};
ghost use Rattle.dav_auth.specs.Algorithm.{algorithm_of, is_keyed as is_keyed_lem};
ghost use Rattle.dav_auth.specs.Clean.{is_clean as is_clean_lem, is_clean_if_some as is_clean_if_some_lem};

use crate::algorithm::{Algorithm, Qop};
use crate::clean::is_clean;
use dav_text::Blob;

/// A Digest challenge that can be answered: RFC 7616 section 3.3. Its texts are without the
/// backslashes of their quoted strings, and hold no CR, LF or NUL. A session has a qop.
#[derive(Drop)]
pub struct Challenge {
    pub realm: Blob,
    pub nonce: Blob,
    pub opaque: Option<Blob>,
    /// None where the challenge names no algorithm, which then is MD5.
    pub algorithm: Option<Algorithm>,
    pub qop: Qop,
    pub ghost clean: { IsTrue (is_clean_lem realm && is_clean_lem nonce && is_clean_if_some_lem opaque) },
    pub ghost keyed: { IsTrue (is_keyed_lem (algorithm_of algorithm) qop) },
}

/// Whether a field can carry the bytes, if there are any.
fn is_clean_if_some(bytes: &Option<Blob>) -> bool
    ensures { result ≡ is_clean_if_some_lem bytes.now }
{
    match bytes {
        Some(bytes) => is_clean(bytes.as_slice()),
        None => true,
    }
}

/// Whether an answer with this qop has all that the algorithm needs.
fn is_keyed(algorithm: Option<Algorithm>, qop: Qop) -> bool
    ensures { result ≡ is_keyed_lem (algorithm_of algorithm) qop }
{
    match (algorithm, qop) {
        (Some(Algorithm::Md5Sess | Algorithm::Sha256Sess), Qop::Missing) => false,
        _ => true,
    }
}

impl Challenge {
    /// The challenge of these parts. None exactly where one of its texts holds CR, LF or NUL, or a
    /// session has no qop.
    pub fn new(
        realm: Blob,
        nonce: Blob,
        opaque: Option<Blob>,
        algorithm: Option<Algorithm>,
        qop: Qop,
    ) -> Option<Challenge>
        ensures { MatchOption result
            ((is_clean_lem realm && is_clean_lem nonce && is_clean_if_some_lem opaque && is_keyed_lem (algorithm_of algorithm) qop) ≡ false)
            (λ c. (c.realm ≡ realm) × (c.nonce ≡ nonce) × (c.opaque ≡ opaque) × (c.algorithm ≡ algorithm) × (c.qop ≡ qop)) }
    {
        let clean = is_clean(realm.as_slice())
            && is_clean(nonce.as_slice())
            && is_clean_if_some(&opaque);
        if clean && is_keyed(algorithm, qop) {
            Some(Challenge {
                realm,
                nonce,
                opaque,
                algorithm,
                qop,
            })
        } else {
            None
        }
    }
}
