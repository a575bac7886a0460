//! The tables of the lower layers: carries out each case of the rows of its folder, and prints what came of each row.
#![tactic(auto)]

mod asks;
mod case;
mod devices;
mod disks;
mod documents;
mod files;
mod heads;
mod jobs;
mod kinds;
mod lent;
mod listings;
mod locals;
mod locks;
mod logins;
mod numbers;
mod paths;
mod pieces;
mod records;
mod replies;
mod requests;
mod telling;
mod texts;
mod told;
mod turns;
mod uris;
mod words;

use case::{Case, Cuts};
use dav_script::{Entry, Player, Row, RowFault, difference, play_all};
use kinds::{comes_in_pieces, is_setting, outcome_of};
use std::alloc::Global;
use std::process::ExitCode;

/// Carries out tables: `kind KIND`, and then settings, and cases, each a `given` with a `gives` behind it.
#[derive(Clone, Copy)]
struct Tables;

/// What differs of a case whose bytes are cut at a place.
fn check_cut(alloc: Global, case: &Case<'_>, gives: &Entry) -> Result<Option<String>, RowFault> {
    let found = outcome_of(alloc, case)?;
    if gives.bytes() == found.as_slice() {
        return Ok(None);
    }
    let line = case.given.line;
    let part = if comes_in_pieces(case.kind) {
        let cut = case.cut;
        format!(in alloc; "line {line}, cut at {cut},")?
    } else {
        format!(in alloc; "line {line},")?
    };
    Ok(difference(alloc, part.as_str(), gives.bytes(), found.as_slice())?)
}

/// The first place at which the bytes of a case are cut in two, and one past the last.
fn places_of(case: &Case<'_>) -> Result<(usize, usize), RowFault> {
    let length = case.given.bytes().len();
    let end = length.saturating_add(1);
    if !comes_in_pieces(case.kind) {
        return Ok((length, end));
    }
    match case.cuts()? {
        Cuts::Everywhere => Ok((0, end)),
        Cuts::Nowhere => Ok((length, end)),
        Cuts::Between(first, last) if first <= last && last <= length => {
            Ok((first, last.saturating_add(1)))
        }
        Cuts::Between(..) => match case.setting("between") {
            Some(entry) => Err(entry.bad_value()),
            None => Err(case.bad_given()),
        },
    }
}

/// What differs first of a case; where its bytes come in pieces, cut at each place in turn.
fn check(alloc: Global, case: &Case<'_>, gives: &Entry) -> Result<Option<String>, RowFault> {
    let (first, end) = places_of(case)?;
    for cut in first..end {
        let cut_there = Case { cut, ..*case };
        if let Some(what) = check_cut(alloc, &cut_there, gives)? {
            return Ok(Some(what));
        }
    }
    Ok(None)
}

/// The kind that the first entry of a table names, and the entries behind it.
fn kind_of(entries: &[Entry]) -> Result<(&str, &[Entry]), RowFault> {
    match entries.split_first() {
        Some((first, rest)) if first.word.as_str() == "kind" => Ok((first.text()?, rest)),
        Some((first, _)) => Err(first.bad_word()),
        None => Err(RowFault::NoExpectation { line: 1 }),
    }
}

/// Sees that a kind reads a setting.
fn check_setting(kind: &str, entry: &Entry) -> Result<(), RowFault> {
    let word = entry.word.as_str();
    let is_cut = matches!(word, "everywhere" | "whole" | "between");
    if is_setting(kind, word) || (is_cut && comes_in_pieces(kind)) {
        Ok(())
    } else {
        Err(entry.bad_word())
    }
}

/// The entries before a place, and the one there.
fn at_place(entries: &[Entry], place: usize) -> Option<(&[Entry], &Entry)> {
    let (before, rest) = entries.split_at_checked(place)?;
    let (here, _) = rest.split_first()?;
    Some((before, here))
}

/// What differs first of the cases of a table.
fn check_all(alloc: Global, kind: &str, entries: &[Entry]) -> Result<Option<String>, RowFault> {
    let mut cases = 0u32;
    let mut open: Option<&Entry> = None;
    for place in 0..entries.len() {
        let Some((settings, entry)) = at_place(entries, place) else {
            break;
        };
        match (entry.word.as_str(), open) {
            ("given", None) => open = Some(entry),
            ("gives", Some(given)) => {
                let case = Case {
                    kind,
                    settings,
                    given,
                    cut: 0,
                };
                if let Some(what) = check(alloc, &case, entry)? {
                    return Ok(Some(what));
                }
                open = None;
                cases = cases.saturating_add(1);
            }
            (_, Some(given)) => return Err(RowFault::NoExpectation { line: given.line }),
            _ => check_setting(kind, entry)?,
        }
    }
    match open {
        Some(given) => Err(RowFault::NoExpectation { line: given.line }),
        None if cases == 0 => Err(RowFault::NoExpectation { line: 1 }),
        None => Ok(None),
    }
}

impl Player for Tables {
    fn play(&self, alloc: Global, row: &Row) -> Result<Option<String>, RowFault> {
        if !row.modes.is_empty() {
            return Ok(Some(String::from_str(alloc, "a table has no modes")?));
        }
        let (kind, entries) = kind_of(row.entries.as_slice())?;
        check_all(alloc, kind, entries)
    }
}

fn main(rt: HostRuntime) -> ExitCode {
    match play_all(&rt, &Tables) {
        Ok(true) => ExitCode::SUCCESS,
        _ => ExitCode::from(1),
    }
}
