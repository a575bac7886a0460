ghost use Rattle.std.specs.Prelude.{◌≡◌, codes, option_map, IfOk, MatchResult, true, false};
ghost use Rattle.dav_auth.specs.Chosen.{parameters_in, offers_in, value_of as value_of_lem, algorithm_named as algorithm_named_lem, algorithm_said as algorithm_said_lem, is_auth as is_auth_lem, lists_auth as lists_auth_lem, qop_said as qop_said_lem, challenge_of as challenge_of_lem, first_answerable, parts_of, IsUnanswered};

use crate::algorithm::{Algorithm, Qop};
use crate::challenge::Challenge;
use crate::fault::AuthFault;
use crate::piece::Piece;
use dav_text::{Blanks, Blob, Memory};
use std::alloc::Global;

/// The value of the first parameter of this name before the next scheme.
pub(crate) fn value_of<'a>(pieces: &'a [Piece], name: &[u8]) -> Option<&'a Blob>
    ensures { option_map (λ value. value.now) result ≡ value_of_lem name.now (parameters_in pieces.now) }
{
    let mut rest = pieces;
    while let Some((first, more)) = rest.split_first() {
        match first {
            Piece::Scheme(_) => return None,
            Piece::Parameter { name: other, value } => {
                if other.as_slice().eq_ignore_ascii_case(name) {
                    return Some(value);
                }
            }
        }
        rest = more;
    }
    None
}

/// The algorithm that a value names: RFC 7616 section 3.3.
fn algorithm_named(value: &Blob) -> Option<Algorithm>
    ensures { result ≡ algorithm_named_lem value.now }
{
    let value = value.as_slice();
    if value.eq_ignore_ascii_case(b"MD5") {
        Some(Algorithm::Md5)
    } else if value.eq_ignore_ascii_case(b"MD5-sess") {
        Some(Algorithm::Md5Sess)
    } else if value.eq_ignore_ascii_case(b"SHA-256") {
        Some(Algorithm::Sha256)
    } else if value.eq_ignore_ascii_case(b"SHA-256-sess") {
        Some(Algorithm::Sha256Sess)
    } else {
        None
    }
}

/// What a challenge says of its algorithm. None where it names one that is not supported.
fn algorithm_said(value: Option<&Blob>) -> Option<Option<Algorithm>>
    ensures { result ≡ algorithm_said_lem (option_map (λ bytes. bytes.now) value.entry) }
{
    match value {
        None => Some(None),
        Some(value) => match algorithm_named(value) {
            None => None,
            Some(algorithm) => Some(Some(algorithm)),
        },
    }
}

/// Whether an element of a qop list is `auth`.
fn is_auth(element: &[u8]) -> bool
    ensures { result ≡ is_auth_lem element.now }
{
    Blanks::Field.trimmed(element).eq_ignore_ascii_case(b"auth")
}

/// Whether a qop list has `auth`: RFC 7616 section 3.3.
fn lists_auth(value: &Blob) -> bool
    ensures { result ≡ lists_auth_lem value.now }
{
    value
        .as_slice()
        .split(|b| *b == b',')
        .any(|element| is_auth(element))
}

/// What a challenge says of its qop. None where its list has none that is supported.
fn qop_said(value: Option<&Blob>) -> Option<Qop>
    ensures { result ≡ qop_said_lem (option_map (λ bytes. bytes.now) value.entry) }
{
    match value {
        None => Some(Qop::Missing),
        Some(value) => {
            if lists_auth(value) {
                Some(Qop::Auth)
            } else {
                None
            }
        }
    }
}

/// A copy of the bytes, if there are any.
fn copy_of(alloc: Global, bytes: Option<&Blob>) -> Result<Option<Blob>, Memory>
    ensures { IfOk result (λ copy. copy ≡ option_map (λ b. b.now) bytes.entry) }
{
    match bytes {
        Some(bytes) => {
            let copy = bytes.copy(alloc)?;
            Ok(Some(copy))
        }
        None => Ok(None),
    }
}

/// The challenge of the parameters before the next scheme, if it can be answered.
fn challenge_of(alloc: Global, pieces: &[Piece]) -> Result<Option<Challenge>, Memory>
    ensures { IfOk result (λ c. option_map parts_of c ≡ challenge_of_lem (parameters_in pieces.now)) }
{
    let Some(realm) = value_of(pieces, b"realm") else {
        return Ok(None);
    };
    let Some(nonce) = value_of(pieces, b"nonce") else {
        return Ok(None);
    };
    let Some(algorithm) = algorithm_said(value_of(pieces, b"algorithm")) else {
        return Ok(None);
    };
    let Some(qop) = qop_said(value_of(pieces, b"qop")) else {
        return Ok(None);
    };
    let realm = realm.copy(alloc)?;
    let nonce = nonce.copy(alloc)?;
    let opaque = copy_of(alloc, value_of(pieces, b"opaque"))?;
    Ok(Challenge::new(realm, nonce, opaque, algorithm, qop))
}

/// The first Digest challenge that can be answered.
pub(crate) fn choose(alloc: Global, pieces: &[Piece]) -> Result<Challenge, AuthFault>
    ensures { MatchResult result (λ c. first_answerable (offers_in pieces.now) ≡ Some (parts_of c)) (λ fault. IsUnanswered (offers_in pieces.now) fault) }
{
    let mut found = false;
    let mut rest = pieces;
    while let Some((first, more)) = rest.split_first() {
        if let Piece::Scheme(scheme) = first {
            if scheme.as_slice().eq_ignore_ascii_case(b"Digest") {
                found = true;
                if let Some(challenge) = challenge_of(alloc, more)? {
                    return Ok(challenge);
                }
            }
        }
        rest = more;
    }
    if found {
        Err(AuthFault::Unsupported)
    } else {
        Err(AuthFault::NoDigest)
    }
}
