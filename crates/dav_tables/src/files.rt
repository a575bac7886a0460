//! What is known of a file on the server: preconditions, replies, waiting times and outcomes.

use crate::case::Case;
use crate::replies::reply_of;
use crate::told::{Told, plain};
use crate::words::{seen_of, word_of};
use dav_script::RowFault;
use dav_verbs::{Outcome, outcome_of, precondition, retry_after, seen_after};
use std::alloc::Global;

/// The field that asks for what is known.
pub fn outcome_of_precondition(alloc: Global, case: &Case<'_>) -> Result<Vec<u8>, RowFault> {
    let Some(seen) = seen_of(case.given.bytes()) else {
        return Err(case.bad_given());
    };
    let condition = precondition(&seen);
    let Some((name, value)) = condition.field() else {
        return plain(alloc, "no field");
    };
    let mut told = Told::new(alloc, case);
    told.always(name.written(), value)?;
    told.end()
}

/// What is known after a reply to the setting `method`, where what the setting `before` says was known before.
pub fn outcome_of_seen(alloc: Global, case: &Case<'_>) -> Result<Vec<u8>, RowFault> {
    let Some(before) = seen_of(case.bytes_or_none("before")) else {
        return Err(case.bad_given());
    };
    let reply = reply_of(alloc, case)?;
    let seen = seen_after(&before, case.method()?, &reply);
    Ok(Vec::from_slice(alloc, word_of(&seen))?)
}

/// After how many seconds a reply asks for the request again.
pub fn outcome_of_waiting(alloc: Global, case: &Case<'_>) -> Result<Vec<u8>, RowFault> {
    let seconds = retry_after(&reply_of(alloc, case)?);
    Ok(format!(in alloc; "{seconds}")?.into_bytes())
}

/// What comes of a file whose reply has a status.
pub fn outcome_of_status(alloc: Global, case: &Case<'_>) -> Result<Vec<u8>, RowFault> {
    let Ok(status) = u16::try_from(case.given.number()?) else {
        return Err(case.bad_given());
    };
    match outcome_of(status) {
        Outcome::Sent => plain(alloc, "sent"),
        Outcome::Again => plain(alloc, "again"),
        Outcome::Refused => plain(alloc, "refused"),
    }
}
