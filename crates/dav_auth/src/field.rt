ghost use Rattle.std.specs.Prelude.{◌≡◌, ◌++◌, OnOk, IfOk, IsTrue};
ghost use Rattle.dav_auth.specs.Clean.{is_clean as is_clean_lem};
ghost use Rattle.dav_auth.specs.Field.{login_text, algorithm_text, opaque_text, count_text, qop_text, authorization_text};

use crate::algorithm::{Algorithm, Qop};
use crate::challenge::Challenge;
use crate::formulas::answer;
use crate::hashes::eight_digits;
use crate::put::{put_all, put_quoted};
use crate::secret::Secret;
use dav_text::{Blob, Memory, Method};
use std::alloc::Global;

/// Appends the parameters that each value has.
fn put_login(
    challenge: &Challenge,
    secret: &Secret,
    uri: &[u8],
    answer: &[u8],
    out: &mut Vec<u8>,
) -> Result<(), Memory>
    ensures { OnOk result (out.new.items ≡ out.old.items ++ login_text challenge.now secret.now uri.now answer.now) }
{
    put_quoted("Digest username=", secret.user.as_bytes(), out)?;
    put_quoted(", realm=", challenge.realm.as_slice(), out)?;
    put_quoted(", nonce=", challenge.nonce.as_slice(), out)?;
    put_quoted(", uri=", uri, out)?;
    put_quoted(", response=", answer, out)
}

/// Appends the algorithm, where the challenge names it.
fn put_algorithm(algorithm: Option<Algorithm>, out: &mut Vec<u8>) -> Result<(), Memory>
    ensures { OnOk result (out.new.items ≡ out.old.items ++ algorithm_text algorithm) }
{
    match algorithm {
        Some(algorithm) => put_all(&[b", algorithm=", algorithm.name().as_bytes()], out),
        None => Ok(()),
    }
}

/// Appends the opaque text, where the challenge has one.
fn put_opaque(opaque: &Option<Blob>, out: &mut Vec<u8>) -> Result<(), Memory>
    ensures { OnOk result (out.new.items ≡ out.old.items ++ opaque_text opaque.now) }
{
    match opaque {
        Some(opaque) => put_quoted(", opaque=", opaque.as_slice(), out),
        None => Ok(()),
    }
}

/// Appends the qop and the number of uses of the nonce.
fn put_count(alloc: Global, nc: u32, out: &mut Vec<u8>) -> Result<(), Memory>
    ensures { OnOk result (out.new.items ≡ out.old.items ++ count_text nc) }
{
    let nc = eight_digits(alloc, nc)?;
    put_all(&[b", qop=auth, nc=", nc.as_bytes()], out)
}

/// Appends the parameters that go with a qop.
fn put_qop(alloc: Global, qop: Qop, nc: u32, cnonce: &[u8], out: &mut Vec<u8>) -> Result<(), Memory>
    ensures { OnOk result (out.new.items ≡ out.old.items ++ qop_text qop nc cnonce.now) }
{
    match qop {
        Qop::Missing => Ok(()),
        Qop::Auth => {
            put_count(alloc, nc, out)?;
            put_quoted(", cnonce=", cnonce, out)
        }
    }
}

/// The value of the Authorization field that answers a challenge: RFC 7616 section 3.4. It holds no
/// CR, LF or NUL where the target and the client's nonce hold none.
///
/// # Errors
///
/// Want of memory.
pub fn authorization(
    alloc: Global,
    challenge: &Challenge,
    secret: &Secret,
    method: Method,
    uri: &[u8],
    nc: u32,
    cnonce: &[u8],
) -> Result<Blob, Memory>
    ensures value { IfOk result (λ b. b ≡ authorization_text challenge.now secret.now method uri.now nc cnonce.now) }
    ensures clean { IsTrue (is_clean_lem uri.now) → IsTrue (is_clean_lem cnonce.now) → IfOk result (λ b. IsTrue (is_clean_lem b)) }
{
    let answer = answer(alloc, challenge, secret, method, uri, nc, cnonce)?;
    let mut out = Vec::new(alloc);
    put_login(challenge, secret, uri, answer.as_bytes(), &mut out)?;
    put_algorithm(challenge.algorithm, &mut out)?;
    put_opaque(&challenge.opaque, &mut out)?;
    put_qop(alloc, challenge.qop, nc, cnonce, &mut out)?;
    Ok(Blob::from_vec(out))
}
