//! Bases, references and redirects.

use crate::case::{Case, starved};
use crate::told::{Told, plain};
use crate::words::method_of;
use dav_script::RowFault;
use dav_text::{Path, PathFault, Text};
use dav_uri::{Base, Follow, Target, UriFault, resolve};
use std::alloc::Global;

/// A fault as an outcome.
fn told_fault(alloc: Global, fault: &UriFault) -> Result<Vec<u8>, RowFault> {
    match fault {
        UriFault::NotAUrl => plain(alloc, "fault no url"),
        UriFault::NotHttp => plain(alloc, "fault not http"),
        UriFault::OtherServer { host, port } => {
            let host = host.as_str();
            Ok(format!(in alloc; "fault other server {host} {port}")?.into_bytes())
        }
        UriFault::Memory => Err(RowFault::Memory),
    }
}

/// The lines of a base.
fn told_base(alloc: Global, case: &Case<'_>, base: &Base) -> Result<Vec<u8>, RowFault> {
    let mut told = Told::new(alloc, case);
    told.line("host", base.host().as_bytes())?;
    told.number("port", u64::from(base.port()))?;
    let field = base.host_field(alloc).map_err(starved)?;
    told.line("field", field.as_bytes())?;
    let path = base.path().escaped(alloc).map_err(starved)?;
    told.line("path", path.as_bytes())?;
    told.line("text", base.text().as_bytes())?;
    told.asked("size", base.text().len() as u64)?;
    told.end()
}

/// The base that a URL names, or why it names none.
pub fn outcome_of_base(alloc: Global, case: &Case<'_>) -> Result<Vec<u8>, RowFault> {
    match Base::read(alloc, case.given.text()?) {
        Ok(base) => told_base(alloc, case, &base),
        Err(fault) => told_fault(alloc, &fault),
    }
}

/// The path of a target as what stands before its query says it.
fn front_of(alloc: Global, target: &Target) -> Result<Path, PathFault> {
    match target.text.as_str().split_once('?') {
        Some((front, _)) => Path::read(alloc, front),
        None => Path::read(alloc, target.text.as_str()),
    }
}

/// The text of a target, which its path has to agree with.
fn told_target(alloc: Global, target: &Target) -> Result<Vec<u8>, RowFault> {
    let text = target.text.as_str();
    match front_of(alloc, target) {
        Err(PathFault::Memory) => Err(RowFault::Memory),
        Ok(path) if path.same(&target.path) && path.has_slash() == target.path.has_slash() => {
            plain(alloc, text)
        }
        _ => Ok(format!(in alloc; "{text}, with another path")?.into_bytes()),
    }
}

/// The target of a reference, or why it has none: the setting `base` is the URL of the base, and `at` the text of the target that the
/// reference came from.
pub fn outcome_of_reference(alloc: Global, case: &Case<'_>) -> Result<Vec<u8>, RowFault> {
    let Ok(base) = Base::read(alloc, case.text_or("base", "http://h/")?) else {
        return Err(case.bad_given());
    };
    let at = Target {
        path: Path::top(alloc),
        text: Text::copy_of(alloc, case.text_or("at", "/")?).map_err(starved)?,
    };
    match resolve(alloc, &base, &at, case.given.text()?) {
        Ok(target) => told_target(alloc, &target),
        Err(fault) => told_fault(alloc, &fault),
    }
}

/// What is done with a reply `METHOD STATUS HOPS`.
pub fn outcome_of_redirect(alloc: Global, case: &Case<'_>) -> Result<Vec<u8>, RowFault> {
    let mut words = case.given.text()?.split(' ');
    let method = method_of(words.next().unwrap_or(""));
    let status = words.next().unwrap_or("").parse::<u16>();
    let hops = words.next().unwrap_or("").parse::<u8>();
    let (Some(method), Ok(status), Ok(hops)) = (method, status, hops) else {
        return Err(case.bad_given());
    };
    match Follow::of(method, status, hops) {
        Follow::Go => plain(alloc, "go"),
        Follow::Answer => plain(alloc, "answer"),
        Follow::Stay => plain(alloc, "stay"),
        Follow::TooMany => plain(alloc, "too many"),
    }
}
