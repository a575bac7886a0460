ghost use Rattle.std.specs.Prelude.{◌≡◌, ◌≢◌, ℕ, List, None, Some, MatchOption, IfOk, OnOk, IsErr, string_bytes};
ghost use Rattle.std.specs.Option.{option_copied};
ghost use Rattle.dav_edge.specs.LocalFile.{is_named, last_named, content_of};

use dav_text::Memory;
use std::alloc::Global;

/// A local file in memory.
#[derive(Drop)]
pub struct LocalFile {
    pub name: String,
    pub bytes: Vec<u8>,
}

impl LocalFile {
    /// A file of this name that holds these bytes.
    pub fn copy_of(alloc: Global, name: &str, bytes: &[u8]) -> Result<LocalFile, Memory>
        ensures name { IfOk result (λ file. string_bytes file.name ≡ name.now) }
        ensures bytes { IfOk result (λ file. file.bytes.items ≡ bytes.now) }
    {
        let name = String::from_str(alloc, name)?;
        let bytes = Vec::from_slice(alloc, bytes)?;
        Ok(LocalFile { name, bytes })
    }

    fn is_named(&self, name: &str) -> bool
        ensures { result ≡ is_named name.now self.now }
    {
        self.name.as_bytes() == name.as_bytes()
    }
}

// The last file of a name.
fn last_named<'a>(files: &'a [LocalFile], name: &str) -> Option<&'a LocalFile>
    ensures { option_copied result ≡ last_named files.now name.now }
{
    let mut last = None;
    for file in files {
        if file.is_named(name) {
            last = Some(file);
        }
    }
    last
}

/// The bytes that a name stands for.
pub fn content_of<'a>(files: &'a [LocalFile], name: &str) -> Option<&'a [u8]>
    ensures { MatchOption result (content_of files.now name.now ≡ None) (λ bytes. content_of files.now name.now ≡ Some bytes.now) }
{
    match last_named(files, name) {
        Some(file) => Some(file.bytes.as_slice()),
        None => None,
    }
}

/// Makes a name stand for these bytes.
pub fn put(
    alloc: Global,
    files: &mut Vec<LocalFile>,
    name: &str,
    bytes: &[u8],
) -> Result<(), Memory>
    ensures stored { OnOk result (content_of files.new.items name.now ≡ Some bytes.now) }
    ensures others { (other : List ℕ) → other ≢ name.now → content_of files.new.items other ≡ content_of files.old.items other }
    ensures same { IsErr result → files.new.items ≡ files.old.items }
{
    let file = LocalFile::copy_of(alloc, name, bytes)?;
    files.push(file)?;
    Ok(())
}
