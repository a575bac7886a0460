ghost use Rattle.std.specs.Prelude.{◌≡◌, [], is_ok};

use crate::open_files::OpenFiles;
use dav_disk::{Calls, Failed, Modelled, Note, Record};
use std::rt::Files;

/// The calls on a folder, in which each file is named by its number in ten digits. It makes the call, and then notes what was
/// asked and answered.
#[derive(Drop)]
pub struct FolderCalls<'a, R: Files + AllocGlobal> {
    files: OpenFiles<'a, R>,
    log: Record,
}

/// A folder as a disk.
pub type FolderDisk<'a, R, S> = Modelled<FolderCalls<'a, R>, S>;

impl<'a, R: Files + AllocGlobal> FolderCalls<'a, R> {
    /// The folder, which was asked nothing yet.
    pub fn new(rt: &'a R, folder: &'a str) -> Self
        ensures { result.log.events ≡ [] }
    {
        FolderCalls {
            files: OpenFiles::new(rt, folder),
            log: Record::new(),
        }
    }
}

/// The answer of a call that went, or did not.
fn answer(went: bool) -> Result<(), Failed>
    ensures { is_ok result ≡ went }
{
    if went { Ok(()) } else { Err(Failed) }
}

impl<R: Files + AllocGlobal> Calls for FolderCalls<'_, R> {
    ghost history = { λ c. c.log.events };

    fn size(&mut self, file: u32) -> Result<u64, Failed> {
        match self.files.size_of(file) {
            Ok(size) => {
                let note = Note::Size {
                    file,
                    went: true,
                    size,
                };
                self.log.note(&note, &[]);
                Ok(size)
            }
            Err(_) => {
                let note = Note::Size {
                    file,
                    went: false,
                    size: 0,
                };
                self.log.note(&note, &[]);
                Err(Failed)
            }
        }
    }

    fn read(&mut self, file: u32, at: u64, buf: &mut [u8]) -> Result<usize, Failed> {
        let room = buf.len();
        match self.files.read_from(file, at, buf) {
            Ok(count) => {
                let note = Note::Read {
                    file,
                    at,
                    room,
                    went: true,
                };
                self.log.note(&note, &buf[..count]);
                Ok(count)
            }
            Err(_) => {
                let note = Note::Read {
                    file,
                    at,
                    room,
                    went: false,
                };
                self.log.note(&note, &[]);
                Err(Failed)
            }
        }
    }

    fn write_at(&mut self, file: u32, at: u64, bytes: &[u8]) -> Result<(), Failed> {
        let went = self.files.write_to(file, at, bytes).is_ok();
        self.log.note(&Note::Write { file, at, went }, bytes);
        answer(went)
    }

    fn cut(&mut self, file: u32, len: u64) -> Result<(), Failed> {
        let went = self.files.cut_to(file, len).is_ok();
        self.log.note(&Note::Cut { file, len, went }, &[]);
        answer(went)
    }

    fn sync(&mut self, file: u32) -> Result<(), Failed> {
        let went = self.files.settle(file).is_ok();
        self.log.note(&Note::Sync { file, went }, &[]);
        answer(went)
    }
}
