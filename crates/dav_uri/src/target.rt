ghost use Rattle.std.specs.Prelude.{◌≡◌, ◌≢◌, ◌++◌, Ok, Err, Some, None, MatchResult, OnOk, IfOk, string_bytes};
ghost use Rattle.url.specs.Parser.{parse_url};
ghost use Rattle.dav_uri.specs.Target.{target, target_url, tested, url_of, is_on as is_on_lem, is_http as is_http_lem, path_in, host_of, port_of, request_text};

use crate::base::Base;
use crate::fault::UriFault;
use dav_text::{Memory, Path, PathFault, Text};
use std::alloc::Global;
use url::{ParseError, Url};

/// A place on the base's server: its path, and path and query as a request has them.
#[derive(Debug, Drop)]
pub struct Target {
    pub path: Path,
    pub text: Text,
}

/// The target of a reference that stands at a target.
pub fn resolve(alloc: Global, base: &Base, at: &Target, reference: &str) -> Result<Target, UriFault>
    ensures { MatchResult result (λ t. target base.now at.now reference.now ≡ Ok t)
        (λ f. f ≢ UriFault.Memory → target base.now at.now reference.now ≡ Err f) }
{
    let text = base.url_of(alloc, at.text.as_str())?;
    let from = parsed(alloc, text.as_str())?;
    let url = joined(&from, reference)?;
    if !is_http(&url) {
        return Err(UriFault::NotHttp);
    }
    if !base.is_on(&url) {
        let host = Text::copy_of(alloc, url.host_str().unwrap_or(""))?;
        let port = url.port().unwrap_or(80);
        return Err(UriFault::OtherServer { host, port });
    }
    let path = path_in(alloc, url.path())?;
    let text = request_text(alloc, &url)?;
    Ok(Target { path, text })
}

/// The URL that the text is.
pub(crate) fn parsed(alloc: Global, text: &str) -> Result<Url, UriFault>
    ensures { MatchResult result (λ u. url_of (parse_url None text.now) ≡ Ok u)
        (λ f. f ≢ UriFault.Memory → url_of (parse_url None text.now) ≡ Err f) }
{
    match Url::parse(alloc, text) {
        Ok(url) => Ok(url),
        Err(ParseError::OutOfMemory) => Err(UriFault::Memory),
        Err(ParseError::Overflow) => Err(UriFault::Memory),
        Err(_) => Err(UriFault::NotAUrl),
    }
}

// The URL that the reference is where it stands at this one.
fn joined(from: &Url, reference: &str) -> Result<Url, UriFault>
    ensures { MatchResult result (λ u. url_of (parse_url (Some from.now) reference.now) ≡ Ok u)
        (λ f. f ≢ UriFault.Memory → url_of (parse_url (Some from.now) reference.now) ≡ Err f) }
{
    match from.join(reference) {
        Ok(url) => Ok(url),
        Err(ParseError::OutOfMemory) => Err(UriFault::Memory),
        Err(ParseError::Overflow) => Err(UriFault::Memory),
        Err(_) => Err(UriFault::NotAUrl),
    }
}

/// Whether the scheme is `http`.
pub(crate) fn is_http(url: &Url) -> bool
    ensures { result ≡ is_http_lem url.now }
{
    url.scheme() == "http"
}

/// The path that the text is.
pub(crate) fn path_in(alloc: Global, text: &str) -> Result<Path, UriFault>
    ensures { MatchResult result (λ p. path_in text.now ≡ Ok p)
        (λ f. f ≢ UriFault.Memory → path_in text.now ≡ Err f) }
{
    match Path::read(alloc, text) {
        Ok(path) => Ok(path),
        Err(PathFault::NotRooted) => Err(UriFault::NotAUrl),
        Err(PathFault::BadEscape { .. }) => Err(UriFault::NotAUrl),
        Err(PathFault::NotText { .. }) => Err(UriFault::NotAUrl),
        Err(PathFault::TooLong { .. }) => Err(UriFault::NotAUrl),
        Err(PathFault::Memory) => Err(UriFault::Memory),
    }
}

// Path and query of the URL.
fn request_text(alloc: Global, url: &Url) -> Result<Text, Memory>
    ensures { IfOk result (λ text. text ≡ request_text url.now) }
{
    let mut text = String::from_str(alloc, url.path())?;
    if let Some(query) = url.query() {
        text.push('?')?;
        text.push_str(query)?;
    }
    Ok(Text::from_string(text))
}
