ghost use Rattle.std.specs.Prelude.{◌≡◌, ◌++◌, ◌∷◌, [], IfOk};
ghost use Rattle.std.specs.List.{list_all};
ghost use Rattle.dav_doc.specs.Bytes.{in_name as in_name_lem, starts_name as starts_name_lem};
ghost use Rattle.dav_doc.specs.Names.{is_plain as is_plain_lem, is_name as is_name_lem, prefix_of, local_of, written as written_lem};
ghost use Rattle.dav_markup.specs.Kind.{kind_in};
ghost use Rattle.dav_markup.specs.Name.{name_in, is_begun as is_begun_lem, GoesBy};
ghost use Rattle.dav_markup.specs.Stretch.{longer_by};

use crate::kind::{ByteKind, kind_of};
use dav_text::{Blob, Memory};
use std::alloc::Global;

/// A name with one part or two: Namespaces in XML 1.0, section 4.
#[derive(Debug, Drop)]
pub enum Name {
    Plain(Blob),
    Qualified { prefix: Blob, local: Blob },
}

/// What a byte does behind the front of a name.
#[derive(Debug, Drop)]
pub enum Next {
    /// The name goes on.
    Longer(Name),
    /// The byte is not the name's.
    Ended(Name),
}

/// The bytes and one more.
fn grown(bytes: Blob, byte: u8) -> Result<Blob, Memory>
    ensures { IfOk result (λ b. b ≡ bytes ++ byte ∷ []) }
{
    let mut longer = bytes.into_vec();
    longer.push(byte)?;
    Ok(Blob::from_vec(longer))
}

/// The bytes and more of them.
fn grown_by(bytes: Blob, more: &[u8]) -> Result<Blob, Memory>
    ensures { IfOk result (λ b. b ≡ bytes ++ more.now) }
{
    let mut longer = bytes.into_vec();
    longer.extend_from_slice(more)?;
    Ok(Blob::from_vec(longer))
}

/// Whether a name can begin with the byte.
fn starts_name(byte: u8) -> bool
    ensures { result ≡ starts_name_lem byte }
{
    match kind_of(byte) {
        ByteKind::Letter => true,
        _ => false,
    }
}

/// Whether a name can go on with the byte.
pub(crate) fn in_name(byte: u8) -> bool
    ensures { result ≡ in_name_lem byte }
{
    match kind_of(byte) {
        ByteKind::Letter | ByteKind::Digit => true,
        _ => false,
    }
}

/// Whether the bytes are a name without a colon.
fn is_plain(bytes: &[u8]) -> bool
    ensures { result ≡ is_plain_lem bytes.now }
{
    match bytes.split_first() {
        None => false,
        Some((first, rest)) => starts_name(*first) && are_in_name(rest),
    }
}

/// Whether a name can go on with all of the bytes.
fn are_in_name(bytes: &[u8]) -> bool
    ensures { result ≡ list_all in_name_lem bytes.now }
{
    bytes.iter().all(|b| in_name(*b))
}

/// A byte behind the front of a name that has no colon yet.
fn behind_plain(alloc: Global, local: Blob, kind: ByteKind, byte: u8) -> Result<Next, Memory>
    ensures { IfOk result (λ next. GoesBy (Name.Plain local) byte (kind_in kind) next) }
{
    match kind {
        ByteKind::Letter | ByteKind::Digit => {
            let local = grown(local, byte)?;
            Ok(Next::Longer(Name::Plain(local)))
        }
        ByteKind::Colon => Ok(Next::Longer(Name::Qualified {
            prefix: local,
            local: Blob::from_vec(Vec::new(alloc)),
        })),
        _ => Ok(Next::Ended(Name::Plain(local))),
    }
}

/// A byte behind the colon of a name.
fn behind_colon(prefix: Blob, local: Blob, kind: ByteKind, byte: u8) -> Result<Next, Memory>
    ensures { IfOk result (λ next. GoesBy (Name.Qualified prefix local) byte (kind_in kind) next) }
{
    match kind {
        ByteKind::Letter => {
            let local = grown(local, byte)?;
            Ok(Next::Longer(Name::Qualified { prefix, local }))
        }
        ByteKind::Digit => {
            if local.is_empty() {
                return Ok(Next::Ended(Name::Qualified { prefix, local }));
            }
            let local = grown(local, byte)?;
            Ok(Next::Longer(Name::Qualified { prefix, local }))
        }
        _ => Ok(Next::Ended(Name::Qualified { prefix, local })),
    }
}

impl Name {
    /// What a byte of this kind does behind the front of a name.
    pub fn next(self, alloc: Global, kind: ByteKind, byte: u8) -> Result<Next, Memory>
        ensures { IfOk result (λ next. GoesBy self byte (kind_in kind) next) }
    {
        match self {
            Name::Plain(local) => behind_plain(alloc, local, kind, byte),
            Name::Qualified { prefix, local } => behind_colon(prefix, local, kind, byte),
        }
    }

    /// Whether the next byte is not the first one of a part of it, so that any byte of a name goes on
    /// with it.
    pub fn is_begun(&self) -> bool
        ensures { result ≡ is_begun_lem (name_in self.now) }
    {
        match self {
            Name::Plain(_) => true,
            Name::Qualified { prefix: _, local } => !local.is_empty(),
        }
    }

    /// The name with these bytes more.
    pub fn longer(self, bytes: &[u8]) -> Result<Name, Memory>
        ensures { IfOk result (λ name. name_in name ≡ longer_by (name_in self) bytes.now) }
    {
        match self {
            Name::Plain(local) => Ok(Name::Plain(grown_by(local, bytes)?)),
            Name::Qualified { prefix, local } => {
                let local = grown_by(local, bytes)?;
                Ok(Name::Qualified { prefix, local })
            }
        }
    }

    /// Whether this is a whole name.
    pub fn is_whole(&self) -> bool
        ensures { result ≡ is_name_lem (name_in self.now) }
    {
        match self {
            Name::Plain(local) => is_plain(local.as_slice()),
            Name::Qualified { prefix, local } => {
                is_plain(prefix.as_slice()) && is_plain(local.as_slice())
            }
        }
    }

    /// The prefix, which is empty where there is none.
    pub fn prefix(&self) -> &[u8]
        ensures { result.now ≡ prefix_of (name_in self.now) }
    {
        match self {
            Name::Plain(_) => b"",
            Name::Qualified { prefix, local: _ } => prefix.as_slice(),
        }
    }

    /// The name without its prefix.
    pub fn local(&self) -> &[u8]
        ensures { result.now ≡ local_of (name_in self.now) }
    {
        match self {
            Name::Plain(local) => local.as_slice(),
            Name::Qualified { prefix: _, local } => local.as_slice(),
        }
    }

    /// The name as it is written.
    pub fn written(&self, alloc: Global) -> Result<Blob, Memory>
        ensures { IfOk result (λ bytes. bytes ≡ written_lem (name_in self.now)) }
    {
        match self {
            Name::Plain(local) => local.copy(alloc),
            Name::Qualified { prefix, local } => {
                let mut bytes = Vec::from_slice(alloc, prefix.as_slice())?;
                bytes.push(b':')?;
                bytes.extend_from_slice(local.as_slice())?;
                Ok(Blob::from_vec(bytes))
            }
        }
    }
}
