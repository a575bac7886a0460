ghost use Rattle.std.specs.Prelude.{◌≡◌, ◌≢◌, ◌↔◌, false, Ok, Err, MatchResult, IfOk, IsTrue};
ghost use Rattle.std.specs.List.{list_all};
ghost use Rattle.std.specs.Str.{is_utf8};
ghost use Rattle.dav_locks.specs.Token.{is_token_byte as is_token_byte_lem, is_token as is_token_lem, token_of};

use crate::fault::LockFault;
use dav_text::{Memory, Text};
use std::alloc::Global;
use std::marker::Model;
use std::str;

// How many bytes a token may have.
const TOKEN_MAX: usize = 512;

/// A lock token: RFC 4918 section 6.5. Contracts see its bytes.
#[derive(Debug, Drop)]
pub struct Token {
    text: Text,
}

impl Model for Token {
    ghost use Rattle.std.specs.Prelude.{ℕ, List, IsTrue};
    ghost use Rattle.dav_locks.specs.Token.{is_token};

    ghost Value = { List ℕ };

    ghost view = { λ t. t.text };

    ghost invariant = { λ t. IsTrue (is_token t.text) };
}

impl Token {
    /// The token that the bytes are.
    pub fn read(alloc: Global, bytes: &[u8]) -> Result<Token, LockFault>
        ensures value { MatchResult result (λ t. token_of bytes.now ≡ Ok t)
            (λ f. f ≢ LockFault.Memory → token_of bytes.now ≡ Err f) }
        ensures refused { is_token_lem bytes.now ≡ false → result ≡ Err LockFault.NoToken }
    {
        if !is_token(bytes) {
            return Err(LockFault::NoToken);
        }
        let Ok(text) = str::from_utf8(bytes) else {
            return Err(LockFault::NoToken);
        };
        let text = Text::copy_of(alloc, text)?;
        Ok(Token { text })
    }

    /// The token as text.
    pub fn as_str(&self) -> &str
        ensures value { result.now ≡ self.now }
        ensures token { IsTrue (is_token_lem self.now) }
    {
        self.text.as_str()
    }

    /// The bytes of the token.
    pub fn as_bytes(&self) -> &[u8]
        ensures value { result.now ≡ self.now }
        ensures token { IsTrue (is_token_lem self.now) }
    {
        self.text.as_bytes()
    }

    /// Another value of the same token.
    pub fn copy(&self, alloc: Global) -> Result<Token, Memory>
        ensures { IfOk result (λ t. t ≡ self.now) }
    {
        let text = self.text.copy(alloc)?;
        Ok(Token { text })
    }

    /// Whether both are the same token.
    pub fn same(&self, other: &Token) -> bool
        ensures { IsTrue result ↔ (self.now ≡ other.now) }
    {
        self.text.same(&other.text)
    }
}

/// Whether the bytes are a token that can be submitted: UTF-8 of 1 to 512 bytes, without `<`, `>`, blanks
/// and control characters.
pub fn is_token(bytes: &[u8]) -> bool
    ensures { result ≡ is_token_lem bytes.now }
{
    if bytes.is_empty() || bytes.len() > TOKEN_MAX {
        return false;
    }
    if !are_token_bytes(bytes) {
        return false;
    }
    is_text(bytes)
}

fn are_token_bytes(bytes: &[u8]) -> bool
    ensures { result ≡ list_all is_token_byte_lem bytes.now }
{
    bytes.iter().all(|byte| is_token_byte(*byte))
}

fn is_token_byte(byte: u8) -> bool
    ensures { result ≡ is_token_byte_lem byte }
{
    byte > b' ' && byte != b'<' && byte != b'>' && byte != 127
}

fn is_text(bytes: &[u8]) -> bool
    ensures { result ≡ is_utf8 bytes.now }
{
    match str::from_utf8(bytes) {
        Ok(_) => true,
        Err(_) => false,
    }
}
