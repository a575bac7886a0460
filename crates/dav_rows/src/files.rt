use crate::halt::Halt;
use dav_disk::{Call, Disk, MemDisk};
use std::alloc::{AllocError, Global};

/// How long a wish is, in bytes.
const WISH_LEN: usize = 512;

/// A file of a disk.
#[derive(Drop)]
pub struct File {
    /// Its number.
    pub number: u32,
    /// Its bytes.
    pub bytes: Vec<u8>,
}

/// What is wished of the bytes that a stop leaves open.
#[derive(Clone, Copy, Debug, PartialEq, Eq)]
pub enum Wish {
    /// Files as short as may be.
    Empty,
    /// Zeros.
    Zeros,
    /// Ones and sevens.
    Pattern,
    /// What was written, as if it had been synced.
    Written,
}

/// All wishes.
pub const WISHES: [Wish; 4] = [Wish::Empty, Wish::Zeros, Wish::Pattern, Wish::Written];

/// The wished bytes of a file in which these were written.
fn wished(alloc: Global, wish: Wish, written: &[u8]) -> Result<Vec<u8>, AllocError> {
    match wish {
        Wish::Empty => Ok(Vec::new(alloc)),
        Wish::Zeros => Vec::from_slice(alloc, [0; WISH_LEN].as_slice()),
        Wish::Pattern => repeated(alloc, b"\x01\x07"),
        Wish::Written => Vec::from_slice(alloc, written),
    }
}

/// These bytes, over and over.
fn repeated(alloc: Global, bytes: &[u8]) -> Result<Vec<u8>, AllocError> {
    let mut text = Vec::new(alloc);
    for _ in 0..WISH_LEN / 2 {
        text.extend_from_slice(bytes)?;
    }
    Ok(text)
}

/// How many calls it takes to lay these files on a disk.
pub fn laying_calls(files: &[File]) -> u64 {
    (files.len() as u64).saturating_mul(2)
}

/// A disk on which these files lie, synced, and of which calls of these numbers fail, counted from the first one behind that.
pub fn disk_with(alloc: Global, files: &[File], fails: &[u64]) -> Result<MemDisk, Halt> {
    let begun = laying_calls(files);
    let mut numbers = Vec::new(alloc);
    for call in fails {
        numbers.push(begun.saturating_add(*call))?;
    }
    let mut disk = MemDisk::new(alloc, numbers);
    lay(&mut disk, files)?;
    Ok(disk)
}

/// Lays the files on an empty disk.
fn lay(disk: &mut MemDisk, files: &[File]) -> Result<(), Halt> {
    for file in files {
        disk.write_at(file.number, 0, file.bytes.as_slice())?;
        disk.sync(file.number)?;
    }
    Ok(())
}

/// The file that a call changes, and what stands in it then.
fn changed_by(call: &Call) -> Option<(u32, &[u8])> {
    match call {
        Call::Write { file, next, .. } => Some((*file, next.as_slice())),
        Call::Cut { file, next, .. } => Some((*file, next.as_slice())),
        Call::Look | Call::Sync { .. } => None,
    }
}

/// Whether a call changes what a stop may leave.
pub fn is_change(call: &Call) -> bool {
    match call {
        Call::Look => false,
        Call::Write { .. } | Call::Cut { .. } | Call::Sync { .. } => true,
    }
}

/// The numbers of the files that these calls changed.
fn numbers_of(alloc: Global, calls: &[Call]) -> Result<Vec<u32>, Halt> {
    let mut numbers = Vec::new(alloc);
    for call in calls {
        if let Some((number, _)) = changed_by(call) {
            if !numbers.as_slice().contains(&number) {
                numbers.push(number)?;
            }
        }
    }
    Ok(numbers)
}

/// What stands in a file behind these calls.
fn content_of(calls: &[Call], number: u32) -> &[u8] {
    let mut content: &[u8] = &[];
    for call in calls {
        match changed_by(call) {
            Some((file, bytes)) if file == number => content = bytes,
            _ => {}
        }
    }
    content
}

/// The first calls of a disk, up to a moment.
fn calls_up_to(disk: &MemDisk, moment: u64) -> &[Call] {
    let calls = disk.record_of_calls();
    match calls.split_at_checked(moment as usize) {
        Some((before, _)) => before,
        None => calls,
    }
}

/// The bytes of a file, if it is among these; a file that is not there is empty.
pub fn bytes_of_file(files: &[File], number: u32) -> &[u8] {
    for file in files {
        if file.number == number {
            return file.bytes.as_slice();
        }
    }
    &[]
}

/// The files of a disk, as a read gives them.
pub fn files_of(alloc: Global, disk: &MemDisk) -> Result<Vec<File>, Halt> {
    let calls = disk.record_of_calls();
    let mut files = Vec::new(alloc);
    for number in &numbers_of(alloc, calls)? {
        let bytes = Vec::from_slice(alloc, content_of(calls, *number))?;
        files.push(File {
            number: *number,
            bytes,
        })?;
    }
    Ok(files)
}

/// The files that a stop at a moment leaves, each as near to the wish as may be.
pub fn files_after_stop(
    alloc: Global,
    disk: &MemDisk,
    moment: u64,
    wish: Wish,
) -> Result<Vec<File>, Halt> {
    let calls = calls_up_to(disk, moment);
    let mut files = Vec::new(alloc);
    for number in &numbers_of(alloc, calls)? {
        let near = wished(alloc, wish, content_of(calls, *number))?;
        let bytes = disk.image(moment, *number, near.as_slice())?;
        files.push(File {
            number: *number,
            bytes,
        })?;
    }
    Ok(files)
}
