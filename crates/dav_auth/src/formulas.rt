ghost use Rattle.std.specs.Prelude.{◌≡◌, IfOk, IsTrue};
ghost use Rattle.dav_auth.specs.Algorithm.{algorithm_of as algorithm_of_lem};
ghost use Rattle.dav_auth.specs.Clean.{is_clean as is_clean_lem};
ghost use Rattle.dav_auth.specs.Digest.{digest, owed, first_hash as first_hash_lem, response as response_lem};

use crate::algorithm::{Algorithm, Qop};
use crate::challenge::Challenge;
use crate::hashes::{eight_digits, hash_joined};
use crate::secret::Secret;
use dav_text::{Memory, Method, Text};
use std::alloc::Global;

/// The algorithm that a challenge asks for.
fn algorithm_of(challenge: &Challenge) -> Algorithm
    ensures { result ≡ algorithm_of_lem challenge.now.algorithm }
{
    challenge.algorithm.unwrap_or(Algorithm::Md5)
}

/// The hash of who logs in.
fn first_hash(
    alloc: Global,
    challenge: &Challenge,
    secret: &Secret,
    cnonce: &[u8],
) -> Result<Text, Memory>
    ensures { IfOk result (λ t. t ≡ first_hash_lem challenge.now secret.now cnonce.now) }
{
    let algorithm = algorithm_of(challenge);
    let (user, realm) = (secret.user.as_bytes(), challenge.realm.as_slice());
    let rest = [realm, secret.password.as_slice()];
    let login = hash_joined(alloc, algorithm, user, rest.as_slice())?;
    if !algorithm.is_session() {
        return Ok(login);
    }
    let nonces = [challenge.nonce.as_slice(), cnonce];
    hash_joined(alloc, algorithm, login.as_bytes(), nonces.as_slice())
}

/// The response about a request of this method and target.
fn response(
    alloc: Global,
    challenge: &Challenge,
    secret: &Secret,
    method: &[u8],
    uri: &[u8],
    nc: u32,
    cnonce: &[u8],
) -> Result<Text, Memory>
    ensures value { IfOk result (λ t. t ≡ response_lem challenge.now secret.now method.now uri.now nc cnonce.now) }
    ensures clean { IfOk result (λ t. IsTrue (is_clean_lem t)) }
{
    let algorithm = algorithm_of(challenge);
    let first = first_hash(alloc, challenge, secret, cnonce)?;
    let second = hash_joined(alloc, algorithm, method, &[uri])?;
    let nonce = challenge.nonce.as_slice();
    let (first, second) = (first.as_bytes(), second.as_bytes());
    match challenge.qop {
        Qop::Missing => hash_joined(alloc, algorithm, first, &[nonce, second]),
        Qop::Auth => {
            let nc = eight_digits(alloc, nc)?;
            let rest = [nonce, nc.as_bytes(), cnonce, b"auth", second];
            hash_joined(alloc, algorithm, first, rest.as_slice())
        }
    }
}

/// The digits that answer a challenge: RFC 7616 section 3.4.1. `uri` is the request's target, and
/// `nc` counts how often the challenge was answered, this time included.
///
/// # Errors
///
/// Want of memory.
pub fn answer(
    alloc: Global,
    challenge: &Challenge,
    secret: &Secret,
    method: Method,
    uri: &[u8],
    nc: u32,
    cnonce: &[u8],
) -> Result<Text, Memory>
    ensures value { IfOk result (λ t. t ≡ digest challenge.now secret.now method uri.now nc cnonce.now) }
    ensures clean { IfOk result (λ t. IsTrue (is_clean_lem t)) }
{
    let method = method.name();
    response(alloc, challenge, secret, method.as_bytes(), uri, nc, cnonce)
}

/// The digits that a server owes in its reply to such an answer: RFC 7616 section 3.5.
///
/// # Errors
///
/// Want of memory.
pub fn rspauth(
    alloc: Global,
    challenge: &Challenge,
    secret: &Secret,
    uri: &[u8],
    nc: u32,
    cnonce: &[u8],
) -> Result<Text, Memory>
    ensures { IfOk result (λ t. t ≡ owed challenge.now secret.now uri.now nc cnonce.now) }
{
    response(alloc, challenge, secret, b"", uri, nc, cnonce)
}
