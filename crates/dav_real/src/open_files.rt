ghost use Rattle.std.specs.Prelude.{◌≡◌, ◌≤◌, length, drop, IfOk};

use std::fs::{File, OpenFile, OpenOptions};
use std::io;
use std::io::{ErrorKind, Read, Seek, SeekFrom, Write};
use std::rt::Files;

/// The number of the index.
const INDEX: u32 = 0;

/// How many files are made where one is missing: that one, and those of the next numbers.
const MADE_AT_ONCE: u32 = 8;

/// The files of a folder, each named by its number in ten digits. From one call to the next it keeps two of them open: the
/// index, and the one of the others that was used last.
#[derive(Drop)]
pub(crate) struct OpenFiles<'a, R: Files + AllocGlobal> {
    rt: &'a R,
    folder: &'a str,
    index: Option<R::File>,
    other: Option<(u32, R::File)>,
    /// Whether the folder was synced in this run, and no file was made since.
    names_settled: bool,
}

impl<'a, R: Files + AllocGlobal> OpenFiles<'a, R> {
    /// Those of this folder, of which none is open yet.
    pub(crate) fn new(rt: &'a R, folder: &'a str) -> Self {
        OpenFiles {
            rt,
            folder,
            index: None,
            other: None,
            names_settled: false,
        }
    }

    /// The length of a file, which is 0 where it is not there.
    pub(crate) fn size_of(&mut self, file: u32) -> io::Result<u64> {
        let Some(open) = self.found(file)? else {
            return Ok(0);
        };
        let len = open.metadata()?.len();
        self.keep(file, open);
        Ok(len)
    }

    /// Reads through a buffer of its own, since a read may write behind what it gives.
    pub(crate) fn read_from(&mut self, file: u32, at: u64, buf: &mut [u8]) -> io::Result<usize>
        ensures within { IfOk result (λ n. n ≤ length buf.old) }
        ensures rest { IfOk result (λ n. drop n buf.new ≡ drop n buf.old) }
    {
        let Some(mut open) = self.found(file)? else {
            return Ok(0);
        };
        open.seek(SeekFrom::Start(at))?;
        let mut bytes = Vec::from_elem(self.rt.alloc(), 0u8, buf.len())?;
        let count = fill(&mut open, bytes.as_mut_slice())?;
        buf[..count].copy_from_slice(&bytes[..count]);
        self.keep(file, open);
        Ok(count)
    }

    /// Writes all the bytes at a place of a file, which is made where it is not there.
    pub(crate) fn write_to(&mut self, file: u32, at: u64, bytes: &[u8]) -> io::Result<()> {
        let mut open = self.made(file)?;
        open.seek(SeekFrom::Start(at))?;
        open.write_all(bytes)?;
        self.keep(file, open);
        Ok(())
    }

    /// Cuts a file, which is made where it is not there, to a length.
    pub(crate) fn cut_to(&mut self, file: u32, len: u64) -> io::Result<()> {
        let open = self.made(file)?;
        open.set_len(len)?;
        self.keep(file, open);
        Ok(())
    }

    /// Settles a file's bytes, and the folder where a name in it may not be settled.
    pub(crate) fn settle(&mut self, file: u32) -> io::Result<()> {
        if let Some(open) = self.found(file)? {
            open.sync_all()?;
            self.keep(file, open);
        }
        if !self.names_settled {
            File::open(self.rt, self.folder)?.sync_all()?;
            self.names_settled = true;
        }
        Ok(())
    }

    /// A file that is there, out of those that are kept where it is one of them.
    fn found(&mut self, file: u32) -> io::Result<Option<R::File>> {
        if let Some(open) = self.kept(file) {
            return Ok(Some(open));
        }
        let path = path_of(self.rt, self.folder, file)?;
        match OpenOptions::new()
            .read(true)
            .write(true)
            .open(self.rt, path.as_str())
        {
            Ok(open) => Ok(Some(open)),
            Err(error) if error.kind() == ErrorKind::NotFound => Ok(None),
            Err(error) => Err(error),
        }
    }

    /// The same, where a file that is not there is made, and the next ones with it: so that the folder is synced once for
    /// several new files.
    fn made(&mut self, file: u32) -> io::Result<R::File> {
        if let Some(open) = self.found(file)? {
            return Ok(open);
        }
        self.names_settled = false;
        let open = make(self.rt, self.folder, file)?;
        self.make_ahead(file);
        Ok(open)
    }

    /// Makes the files behind this one. One that can't be made is made when it is needed.
    fn make_ahead(&self, file: u32) {
        for ahead in 1..MADE_AT_ONCE {
            let _ = make(self.rt, self.folder, file.saturating_add(ahead));
        }
    }

    fn kept(&mut self, file: u32) -> Option<R::File> {
        if file == INDEX {
            return self.index.take();
        }
        match self.other.take() {
            Some((number, open)) if number == file => Some(open),
            _ => None,
        }
    }

    fn keep(&mut self, file: u32, open: R::File) {
        if file == INDEX {
            self.index = Some(open);
        } else {
            self.other = Some((file, open));
        }
    }
}

fn path_of<R: Files + AllocGlobal>(rt: &R, folder: &str, file: u32) -> io::Result<String> {
    let path = format!(in rt.alloc(); "{folder}/{file:010}")?;
    Ok(path)
}

/// Opens a file, which is made where it is not there.
fn make<R: Files + AllocGlobal>(rt: &R, folder: &str, file: u32) -> io::Result<R::File> {
    let path = path_of(rt, folder, file)?;
    OpenOptions::new()
        .read(true)
        .write(true)
        .create(true)
        .open(rt, path.as_str())
}

/// Reads until the buffer is full, or the file ends.
fn fill<F: Read>(file: &mut F, buf: &mut [u8]) -> io::Result<usize>
    ensures { IfOk result (λ n. n ≤ length buf.old) }
{
    let mut filled = 0;
    for _ in 0..u64::MAX {
        if filled >= buf.len() {
            break;
        }
        match file.read(&mut buf[filled..]) {
            Ok(0) => break,
            Ok(count) => filled += count,
            Err(error) if error.kind() == ErrorKind::Interrupted => {}
            Err(error) => return Err(error),
        }
    }
    Ok(filled)
}
