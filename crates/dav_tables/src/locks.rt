//! Locks that are held: calls one after another, and what each answers; and how long a lock is granted.

use crate::asks::path_at;
use crate::case::{Case, starved};
use crate::devices::{call_of, calls_of};
use crate::told::plain;
use dav_locks::{Depth, Lock, LockFault, LockStore, Token, Use, if_text, submits, timeout_of};
use dav_script::{RowFault, shown};
use dav_text::Path;
use dav_uri::Base;
use std::alloc::{AllocError, Global};

/// A call of a store of locks.
#[derive(Clone, Copy)]
enum Call<'a> {
    /// Holds a lock of a token at a root.
    Add(Depth, &'a str, &'a str),
    /// Holds so many locks of the top, each of a token of its own.
    Fill(u32),
    Remove(&'a str),
    Find(&'a str),
    /// Which locks are held, in their order.
    Order,
    Submits(Use, Depth, &'a str),
    /// The text by which all are submitted to the server of a URL.
    If(&'a str),
}

/// The depth in front of a text, and what stands behind it and one blank.
fn depth_before(text: &str) -> Option<(Depth, &str)> {
    let (word, rest) = call_of(text);
    match word {
        "zero" => Some((Depth::Zero, rest)),
        "infinity" => Some((Depth::Infinity, rest)),
        _ => None,
    }
}

/// The use in front of a text, and what stands behind it and one blank.
fn use_before(text: &str) -> Option<(Use, &str)> {
    let (word, rest) = call_of(text);
    match word {
        "itself" => Some((Use::Itself, rest)),
        "member" => Some((Use::Member, rest)),
        _ => None,
    }
}

/// The call that a line spells.
fn lock_call(line: &str) -> Option<Call<'_>> {
    let (word, rest) = call_of(line);
    match word {
        "add" => {
            let (depth, rest) = depth_before(rest)?;
            let (root, token) = call_of(rest);
            Some(Call::Add(depth, root, token))
        }
        "fill" => Some(Call::Fill(rest.parse::<u32>().ok()?)),
        "remove" => Some(Call::Remove(rest)),
        "find" => Some(Call::Find(rest)),
        "order" => Some(Call::Order),
        "submits" => {
            let (how, rest) = use_before(rest)?;
            let (depth, path) = depth_before(rest)?;
            Some(Call::Submits(how, depth, path))
        }
        "if" => Some(Call::If(rest)),
        _ => None,
    }
}

/// Holds a lock that a server granted without end.
fn hold(
    alloc: Global,
    store: &mut LockStore,
    depth: Depth,
    root: Path,
    token: &[u8],
) -> Result<(), LockFault> {
    let token = Token::read(alloc, token)?;
    store.add(&Lock {
        token,
        root,
        depth,
        auto: false,
        seconds: None,
        renew_at: 0,
    })
}

/// Holds so many locks of the top, whose tokens are numbers from 0 on.
fn fill(alloc: Global, store: &mut LockStore, count: u32) -> Result<(), LockFault> {
    for number in 0..count {
        let Ok(token) = format!(in alloc; "{number}") else {
            return Err(LockFault::Memory);
        };
        hold(
            alloc,
            store,
            Depth::Zero,
            Path::top(alloc),
            token.as_bytes(),
        )?;
    }
    Ok(())
}

/// Appends whether a lock is held now.
fn tell_held(held: Result<(), LockFault>, out: &mut String) -> Result<(), AllocError> {
    match held {
        Ok(()) => out.push_str(" held"),
        Err(fault) => write!(out, " {fault}"),
    }
}

/// Appends the token of a lock.
fn tell_token(lock: &Lock, out: &mut String) -> Result<(), AllocError> {
    out.push(' ')?;
    out.push_str(lock.token.as_str())
}

/// Appends the tokens of all locks, in their order.
fn tell_order(store: &LockStore, out: &mut String) -> Result<(), AllocError> {
    for lock in store.locks().as_slice() {
        tell_token(lock, out)?;
    }
    Ok(())
}

/// Appends the tokens of the locks that a request submits.
fn tell_submitted(
    store: &LockStore,
    how: Use,
    path: &Path,
    depth: Depth,
    out: &mut String,
) -> Result<(), AllocError> {
    for lock in submits(store.locks(), how, path, depth) {
        tell_token(lock, out)?;
    }
    Ok(())
}

/// Appends the text that submits all locks to the server of a URL.
fn tell_if(
    alloc: Global,
    store: &LockStore,
    url: &str,
    fault: RowFault,
    out: &mut String,
) -> Result<(), RowFault> {
    let base = Base::read(alloc, url).map_err(|_| fault)?;
    let text = if_text(alloc, &base, store.locks()).map_err(starved)?;
    let text = shown(alloc, text.as_slice())?;
    write!(out, " {text}")?;
    Ok(())
}

/// Makes a call, and appends what it answers.
fn call_locks(
    alloc: Global,
    store: &mut LockStore,
    call: Call<'_>,
    fault: RowFault,
    out: &mut String,
) -> Result<(), RowFault> {
    match call {
        Call::Add(depth, root, token) => {
            let root = path_at(alloc, root, fault)?;
            tell_held(hold(alloc, store, depth, root, token.as_bytes()), out)?;
        }
        Call::Fill(count) => tell_held(fill(alloc, store, count), out)?,
        Call::Remove(token) => {
            out.push_str(if store.remove(token) { " yes" } else { " no" })?;
        }
        Call::Find(root) => {
            if let Some(lock) = store.find(&path_at(alloc, root, fault)?) {
                tell_token(lock, out)?;
            }
        }
        Call::Order => tell_order(store, out)?,
        Call::Submits(how, depth, path) => {
            let path = path_at(alloc, path, fault)?;
            tell_submitted(store, how, &path, depth, out)?;
        }
        Call::If(url) => tell_if(alloc, store, url, fault, out)?,
    }
    Ok(())
}

/// Makes the calls of all lines.
fn call_all(
    alloc: Global,
    store: &mut LockStore,
    case: &Case<'_>,
    out: &mut String,
) -> Result<(), RowFault> {
    let fault = case.given.bad_value();
    for line in calls_of(case)?.lines() {
        let call = lock_call(line).ok_or(fault)?;
        write!(out, "{line}:")?;
        call_locks(alloc, store, call, fault, out)?;
        out.push('\n')?;
    }
    Ok(())
}

/// The answers to `add DEPTH ROOT TOKEN`, `fill COUNT`, `remove TOKEN`, `find ROOT`, `order`, `submits USE DEPTH PATH` and `if URL`.
pub fn outcome_of_locks(alloc: Global, case: &Case<'_>) -> Result<Vec<u8>, RowFault> {
    let mut store = LockStore::new(alloc);
    let mut out = String::new(alloc);
    call_all(alloc, &mut store, case, &mut out)?;
    Ok(out.into_bytes())
}

/// How long a server grants a lock, by the text of its timeout.
pub fn outcome_of_timeout(alloc: Global, case: &Case<'_>) -> Result<Vec<u8>, RowFault> {
    match timeout_of(case.given.bytes()) {
        Some(Some(seconds)) => Ok(format!(in alloc; "{seconds} seconds")?.into_bytes()),
        Some(None) => plain(alloc, "without end"),
        None => plain(alloc, "no timeout"),
    }
}
