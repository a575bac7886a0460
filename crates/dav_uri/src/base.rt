ghost use Rattle.std.specs.Prelude.{◌≡◌, ◌≢◌, ◌++◌, Ok, Err, IfOk, MatchResult, IsTrue, string_bytes};
ghost use Rattle.url.specs.Parts.{serialize};
ghost use Rattle.dav_uri.specs.Url.{is_url_text};
ghost use Rattle.dav_uri.specs.Target.{base_of, base_tested, is_plain as is_plain_lem, is_on as is_on_lem, ends_with_slash as ends_with_slash_lem, with_slash, host_of, host_field, target_url};

use crate::fault::UriFault;
use crate::target::{is_http, parsed, path_in};
use dav_text::{Memory, Path, Text};
use itoa::Buffer;
use std::alloc::Global;
use std::marker::Model;
use url::Url;

// How many bytes the text of a base may have.
const TEXT_MAX: usize = 65_504;

/// A server, and a path on it below which others stand.
#[derive(Debug, Drop)]
pub struct Base {
    host: Text,
    port: u16,
    path: Path,
    text: Text,
}

impl Model for Base {
    ghost use Rattle.std.specs.Prelude.{IsTrue};
    ghost use Rattle.dav_uri.specs.Target.{BaseParts};
    ghost use Rattle.dav_uri.specs.Url.{is_url_text};

    ghost Value = { BaseParts };

    ghost view = { λ b. record { host = b.host; port = b.port; path = b.path; text = b.text } };

    ghost invariant = { λ b. IsTrue (is_url_text b.host) };
}

impl Base {
    /// Reads a URL of `http` without user, password, query and fragment. A missing last slash is
    /// added.
    pub fn read(alloc: Global, text: &str) -> Result<Base, UriFault>
        ensures { MatchResult result (λ b. base_of text.now ≡ Ok b)
            (λ f. f ≢ UriFault.Memory → base_of text.now ≡ Err f) }
    {
        let url = parsed(alloc, text)?;
        if !is_http(&url) {
            return Err(UriFault::NotHttp);
        }
        let path = with_slash(alloc, url.path())?;
        let path = path_in(alloc, path.as_str())?;
        let text = with_slash(alloc, url.as_str())?;
        if !is_plain(&url) || text.len() > TEXT_MAX {
            return Err(UriFault::NotAUrl);
        }
        let host = host_of(alloc, &url)?;
        Ok(Base {
            host,
            port: url.port().unwrap_or(80),
            path,
            text,
        })
    }

    /// The host.
    pub fn host(&self) -> &str
        ensures { result.now ≡ self.now.host }
    {
        self.host.as_str()
    }

    /// The port.
    pub fn port(&self) -> u16
        ensures { result ≡ self.now.port }
    {
        self.port
    }

    /// The path, with a slash at its end.
    pub fn path(&self) -> &Path
        ensures { result.now ≡ self.now.path }
    {
        &self.path
    }

    /// The base as a URL, with a slash at its end.
    pub fn text(&self) -> &str
        ensures { result.now ≡ self.now.text }
    {
        self.text.as_str()
    }

    /// The value of a Host field: the host, and the port where it isn't 80. It has no blank, no control
    /// character and no angle bracket.
    pub fn host_field(&self, alloc: Global) -> Result<Text, Memory>
        ensures value { IfOk result (λ text. text ≡ host_field self.now.host self.now.port) }
        ensures plain { IsTrue (is_url_text (host_field self.now.host self.now.port)) }
    {
        let port = self.port;
        field_of(alloc, self.host.as_str(), port)
    }

    /// The URL of a path and a query on the server.
    pub(crate) fn url_of(&self, alloc: Global, request_text: &str) -> Result<Text, Memory>
        ensures { IfOk result (λ text. text ≡ target_url self.now request_text.now) }
    {
        let host = self.host_field(alloc)?;
        let mut text = String::from_str(alloc, "http://")?;
        text.push_str(host.as_str())?;
        text.push_str(request_text)?;
        Ok(Text::from_string(text))
    }

    /// Whether the URL is on the server.
    pub(crate) fn is_on(&self, url: &Url) -> bool
        ensures { result ≡ is_on_lem self.now url.now }
    {
        url.host_str().unwrap_or("").as_bytes() == self.host.as_bytes()
            && url.port().unwrap_or(80) == self.port
    }
}

// The host of the URL.
fn host_of(alloc: Global, url: &Url) -> Result<Text, Memory>
    ensures value { IfOk result (λ text. text ≡ host_of url.now) }
    ensures plain { IsTrue (is_url_text (host_of url.now)) }
{
    let _scheme = url.scheme();
    Text::copy_of(alloc, url.host_str().unwrap_or(""))
}

// The value of a Host field.
fn field_of(alloc: Global, host: &str, port: u16) -> Result<Text, Memory>
    ensures { IfOk result (λ text. text ≡ host_field host.now port) }
{
    if port == 80 {
        return Text::copy_of(alloc, host);
    }
    let mut buffer = Buffer::new();
    let mut text = String::from_str(alloc, host)?;
    text.push(':')?;
    text.push_str(buffer.format(port))?;
    Ok(Text::from_string(text))
}

// Whether the URL has no part but scheme, host, port and path.
fn is_plain(url: &Url) -> bool
    ensures { result ≡ is_plain_lem url.now }
{
    url.username().is_empty()
        && url.password().is_none()
        && url.query().is_none()
        && url.fragment().is_none()
}

// The text with a slash at its end.
fn with_slash(alloc: Global, text: &str) -> Result<Text, Memory>
    ensures { IfOk result (λ t. t ≡ with_slash text.now) }
{
    if ends_with_slash(text) {
        return Text::copy_of(alloc, text);
    }
    let mut ended = String::from_str(alloc, text)?;
    ended.push('/')?;
    Ok(Text::from_string(ended))
}

fn ends_with_slash(text: &str) -> bool
    ensures { result ≡ ends_with_slash_lem text.now }
{
    match text.as_bytes().last() {
        Some(last) => *last == b'/',
        None => false,
    }
}
