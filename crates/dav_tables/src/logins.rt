//! Digest logins: challenges, answers, and what a server owes.

use crate::case::{Case, starved};
use crate::told::{Told, plain};
use crate::words::method_of;
use dav_auth::{
    Algorithm, AuthFault, Challenge, Qop, Secret, answer, authorization, proved, rspauth,
    rspauth_of,
};
use dav_script::RowFault;
use dav_text::{Blob, Method, Text};
use std::alloc::Global;

/// The algorithm of a name.
fn algorithm_of(name: &str) -> Option<Algorithm> {
    match name {
        "MD5" => Some(Algorithm::Md5),
        "MD5-sess" => Some(Algorithm::Md5Sess),
        "SHA-256" => Some(Algorithm::Sha256),
        "SHA-256-sess" => Some(Algorithm::Sha256Sess),
        _ => None,
    }
}

/// The word of a quality of protection.
fn qop_text(qop: Qop) -> &'static str {
    match qop {
        Qop::Missing => "missing",
        Qop::Auth => "auth",
    }
}

/// A fault as an outcome.
fn told_fault(alloc: Global, fault: AuthFault) -> Result<Vec<u8>, RowFault> {
    match fault {
        AuthFault::NoDigest => plain(alloc, "fault no digest"),
        AuthFault::Unsupported => plain(alloc, "fault unsupported"),
        AuthFault::BadChallenge { at } => {
            Ok(format!(in alloc; "fault bad challenge at {at}")?.into_bytes())
        }
        AuthFault::Memory => Err(RowFault::Memory),
    }
}

/// The lines of a challenge; what it does not state has none.
fn told_challenge(
    alloc: Global,
    case: &Case<'_>,
    challenge: &Challenge,
) -> Result<Vec<u8>, RowFault> {
    let mut told = Told::new(alloc, case);
    told.line("realm", challenge.realm.as_slice())?;
    told.line("nonce", challenge.nonce.as_slice())?;
    if let Some(opaque) = &challenge.opaque {
        told.line("opaque", opaque.as_slice())?;
    }
    if let Some(algorithm) = challenge.algorithm {
        told.line("algorithm", algorithm.name().as_bytes())?;
    }
    told.line("qop", qop_text(challenge.qop).as_bytes())?;
    told.end()
}

/// The challenge that is answered of a list of them, or why none is.
pub fn outcome_of_challenge(alloc: Global, case: &Case<'_>) -> Result<Vec<u8>, RowFault> {
    match Challenge::read(alloc, case.given.bytes()) {
        Ok(challenge) => told_challenge(alloc, case, &challenge),
        Err(fault) => told_fault(alloc, fault),
    }
}

/// Who logs in where, and with what.
#[derive(Drop)]
struct Login<'a> {
    challenge: Challenge,
    secret: Secret,
    uri: &'a [u8],
    cnonce: &'a [u8],
}

/// The bytes of a setting.
fn blob_of(alloc: Global, case: &Case<'_>, name: &str) -> Result<Blob, RowFault> {
    Blob::copy_of(alloc, case.bytes_or_none(name)).map_err(starved)
}

/// The algorithm that the settings state, if they state one.
fn algorithm_in(case: &Case<'_>) -> Result<Option<Algorithm>, RowFault> {
    let Some(entry) = case.setting("algorithm") else {
        return Ok(None);
    };
    match (entry.text()?, algorithm_of(entry.text()?)) {
        ("none", _) => Ok(None),
        (_, Some(algorithm)) => Ok(Some(algorithm)),
        _ => Err(entry.bad_value()),
    }
}

/// The challenge that the settings state; none where there can be no such challenge.
fn challenge_in(alloc: Global, case: &Case<'_>) -> Result<Option<Challenge>, RowFault> {
    let opaque = match case.setting("opaque") {
        Some(entry) => Some(Blob::copy_of(alloc, entry.bytes()).map_err(starved)?),
        None => None,
    };
    let qop = match case.text_or("qop", "missing")? {
        "missing" => Qop::Missing,
        "auth" => Qop::Auth,
        _ => return Err(case.bad_given()),
    };
    let algorithm = algorithm_in(case)?;
    let realm = blob_of(alloc, case, "realm")?;
    let nonce = blob_of(alloc, case, "nonce")?;
    Ok(Challenge::new(realm, nonce, opaque, algorithm, qop))
}

/// The login that the settings state; none where its challenge or its user can be none.
fn login_in<'a>(
    alloc: Global,
    case: &Case<'a>,
    uri: &'a [u8],
) -> Result<Option<Login<'a>>, RowFault> {
    let user = Text::copy_of(alloc, case.text_or("user", "")?).map_err(starved)?;
    let secret = Secret::new(user, blob_of(alloc, case, "password")?);
    match (challenge_in(alloc, case)?, secret) {
        (Some(challenge), Some(secret)) => Ok(Some(Login {
            challenge,
            secret,
            uri,
            cnonce: case.bytes_or_none("cnonce"),
        })),
        _ => Ok(None),
    }
}

/// The lines of the first answer of a login.
fn told_answer(
    alloc: Global,
    case: &Case<'_>,
    login: &Login<'_>,
    method: Method,
) -> Result<Vec<u8>, RowFault> {
    let (challenge, secret) = (&login.challenge, &login.secret);
    let (uri, cnonce) = (login.uri, login.cnonce);
    let digits = answer(alloc, challenge, secret, method, uri, 1, cnonce).map_err(starved)?;
    let field = authorization(alloc, challenge, secret, method, uri, 1, cnonce).map_err(starved)?;
    let mut told = Told::new(alloc, case);
    told.line("answer", digits.as_bytes())?;
    told.line("field", field.as_slice())?;
    told.end()
}

/// The answer to the challenge of the settings, with the field that carries it, for a request `METHOD TARGET`.
pub fn outcome_of_login(alloc: Global, case: &Case<'_>) -> Result<Vec<u8>, RowFault> {
    let Some((name, target)) = case.given.text()?.split_once(' ') else {
        return Err(case.bad_given());
    };
    let Some(method) = method_of(name) else {
        return Err(case.bad_given());
    };
    match login_in(alloc, case, target.as_bytes())? {
        Some(login) => told_answer(alloc, case, &login, method),
        None => plain(alloc, "no login"),
    }
}

/// Whether digits are what a server owes for the login of the settings; the setting `target` names what was asked for.
pub fn outcome_of_server_proof(alloc: Global, case: &Case<'_>) -> Result<Vec<u8>, RowFault> {
    let Some(login) = login_in(alloc, case, case.bytes_or_none("target"))? else {
        return plain(alloc, "no login");
    };
    let (challenge, secret) = (&login.challenge, &login.secret);
    let owed = rspauth(alloc, challenge, secret, login.uri, 1, login.cnonce).map_err(starved)?;
    if proved(owed.as_bytes(), case.given.bytes()) {
        plain(alloc, "proved")
    } else {
        plain(alloc, "not proved")
    }
}

/// The digits that a field Authentication-Info carries, if it carries any.
pub fn outcome_of_info(alloc: Global, case: &Case<'_>) -> Result<Vec<u8>, RowFault> {
    match rspauth_of(alloc, case.given.bytes()).map_err(starved)? {
        Some(digits) => Ok(format!(in alloc;
            "says {digits}",
            digits = digits.as_str()
        )?.into_bytes()),
        None => plain(alloc, "says none"),
    }
}
