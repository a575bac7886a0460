//! Noise, a clock and a pace from a list: calls one after another, and what each answers.

use crate::case::Case;
use crate::devices::{calls_of, numbers_of};
use dav_edge::{Clock, ListClock, ListNoise, ListPace, Noise, Pace};
use dav_script::RowFault;
use std::alloc::Global;

/// The pace of the numbers of the setting `numbers`.
fn pace_of(alloc: Global, case: &Case<'_>) -> Result<ListPace, RowFault> {
    let mut turns = Vec::new(alloc);
    for number in &numbers_of(alloc, case, "numbers")? {
        turns.push(u8::try_from(*number).unwrap_or(u8::MAX))?;
    }
    Ok(ListPace::new(turns))
}

/// The answers to the calls `word`, `now` and `before_step` of three devices, each with the numbers of the setting `numbers`.
pub fn outcome_of_numbers(alloc: Global, case: &Case<'_>) -> Result<Vec<u8>, RowFault> {
    let mut noise = ListNoise::new(numbers_of(alloc, case, "numbers")?);
    let mut clock = ListClock::new(numbers_of(alloc, case, "numbers")?);
    let mut pace = pace_of(alloc, case)?;
    let mut out = String::new(alloc);
    for call in calls_of(case)?.lines() {
        let answer = match call {
            "word" => noise.word(),
            "now" => clock.now(),
            "before_step" => u64::from(pace.before_step()),
            _ => return Err(case.given.bad_value()),
        };
        writeln!(out, "{call}: {answer}")?;
    }
    Ok(out.into_bytes())
}
