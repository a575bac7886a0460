ghost use Rattle.std.specs.Prelude.{◌≡◌, ◌++◌, [], IsTrue, OnOk, OnErr};
ghost use Rattle.dav_frame.specs.Fields.{written_name, place_of, is_clean as is_clean_lem, with_value, Finds, field_line, field_lines};
ghost use Rattle.dav_frame.specs.Request.{BeginsWith};

use crate::put::put_all;
use dav_text::{Blob, Memory};
use std::alloc::Global;
use std::marker::Model;

/// A field that a request may carry, beside those that each request has.
#[derive(Clone, Copy, Debug, PartialEq, Eq)]
pub enum FieldName {
    Depth,
    Destination,
    Overwrite,
    IfMatch,
    IfNoneMatch,
    If,
    Timeout,
    LockToken,
    Authorization,
    ContentType,
}

impl FieldName {
    /// The name as a request writes it.
    pub fn written(self) -> &'static str
        ensures { result.now ≡ written_name self }
    {
        match self {
            FieldName::Depth => "Depth",
            FieldName::Destination => "Destination",
            FieldName::Overwrite => "Overwrite",
            FieldName::IfMatch => "If-Match",
            FieldName::IfNoneMatch => "If-None-Match",
            FieldName::If => "If",
            FieldName::Timeout => "Timeout",
            FieldName::LockToken => "Lock-Token",
            FieldName::Authorization => "Authorization",
            FieldName::ContentType => "Content-Type",
        }
    }

    /// Its place in the order in which a request writes its fields.
    fn place(self) -> u8
        ensures { result ≡ place_of self }
    {
        match self {
            FieldName::Depth => 0,
            FieldName::Destination => 1,
            FieldName::Overwrite => 2,
            FieldName::IfMatch => 3,
            FieldName::IfNoneMatch => 4,
            FieldName::If => 5,
            FieldName::Timeout => 6,
            FieldName::LockToken => 7,
            FieldName::Authorization => 8,
            FieldName::ContentType => 9,
        }
    }
}

/// Whether the bytes can be a field's value: no CR, LF or NUL is among them.
pub fn is_clean(value: &[u8]) -> bool
    ensures { result ≡ is_clean_lem value.now }
{
    value
        .iter()
        .all(|b| !(*b == b'\r' || *b == b'\n' || *b == 0))
}

/// The index at which a value of this name stands, or else the one at which it is to stand.
fn place_in(entries: &[(FieldName, Blob)], name: FieldName) -> Result<usize, usize>
    ensures { Finds entries.now name result }
{
    for (i, entry) in entries.iter().enumerate() {
        if entry.0.place() == name.place() {
            return Ok(i);
        }
        if entry.0.place() > name.place() {
            return Err(i);
        }
    }
    Err(entries.len())
}

/// The fields of a request: at most one value for each name, in the order in which they are written.
#[derive(Drop)]
pub struct Fields {
    alloc: Global,
    entries: Vec<(FieldName, Blob)>,
}

impl Model for Fields {
    ghost use Rattle.std.specs.Prelude.{ℕ, List};
    ghost use Rattle.dav_frame.specs.declared.fields.FieldName.{FieldName};
    ghost use Rattle.dav_frame.specs.Fields.{AreFields};

    ghost Value = { List (FieldName × List ℕ) };

    ghost view = { λ f. f.entries.items };

    ghost invariant = { λ f. AreFields f.entries.items };
}

impl Fields {
    /// No fields.
    pub fn new(alloc: Global) -> Fields
        ensures { result ≡ [] }
    {
        Fields {
            alloc,
            entries: Vec::new(alloc),
        }
    }

    /// Sets the value of a name, in place of an older one.
    ///
    /// # Errors
    ///
    /// Want of memory, which changes nothing.
    pub fn set(&mut self, name: FieldName, value: &[u8]) -> Result<(), Memory>
        requires { IsTrue (is_clean_lem value.now) }
        ensures ok { OnOk result (self.new ≡ with_value self.old name value.now) }
        ensures err { OnErr result (self.new ≡ self.old) }
    {
        let value = Blob::copy_of(self.alloc, value)?;
        match place_in(&self.entries, name) {
            Ok(i) => self.entries[i] = (name, value),
            Err(i) => self.entries.insert(i, (name, value))?,
        }
        Ok(())
    }

    /// Appends the lines of the fields. On an error some of them may stand after the old bytes.
    pub(crate) fn put(&self, out: &mut Vec<u8>) -> Result<(), Memory>
        ensures ok { OnOk result (out.new.items ≡ out.old.items ++ field_lines self.now) }
        ensures err { OnErr result (BeginsWith out.old.items out.new.items) }
    {
        put_entries(&self.entries, out)
    }
}

/// Appends the line of each entry. On an error some of them may stand after the old bytes.
fn put_entries(entries: &[(FieldName, Blob)], out: &mut Vec<u8>) -> Result<(), Memory>
    ensures ok { OnOk result (out.new.items ≡ out.old.items ++ field_lines entries.now) }
    ensures err { OnErr result (BeginsWith out.old.items out.new.items) }
{
    for entry in entries {
        put_field(entry.0.written(), entry.1.as_slice(), out)?;
    }
    Ok(())
}

/// Appends the line of a field. On an error some of it may stand after the old bytes.
pub(crate) fn put_field(name: &str, value: &[u8], out: &mut Vec<u8>) -> Result<(), Memory>
    ensures ok { OnOk result (out.new.items ≡ out.old.items ++ field_line name.now value.now) }
    ensures err { OnErr result (BeginsWith out.old.items out.new.items) }
{
    put_all(&[name.as_bytes(), b": ", value, b"\r\n"], out)
}
