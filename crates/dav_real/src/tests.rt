use crate::{FolderCalls, Unknown};
use dav_disk::{Disk, Failed, Modelled};
use std::{fs, io};

/// The folder that the tests fill, in the one for what is built.
const FOLDER: &str = "out/folder_disk";

/// A folder without files.
fn make_anew(rt: &HostRuntime) -> io::Result<()> {
    let _ = fs::remove_dir_all(rt, FOLDER);
    fs::create_dir_all(rt, FOLDER)
}

/// Writes `hello` into file 2, and cuts it to three bytes.
fn fill<D: Disk>(disk: &mut D) -> Result<(), Failed> {
    disk.write_at(2, 0, b"hello")?;
    disk.sync(2)?;
    disk.cut(2, 3)?;
    disk.sync(2)
}

#[test]
fn a_folder_keeps_files_by_their_numbers(rt: HostRuntime) {
    assert!(rt; make_anew(&rt).is_ok());
    let mut disk = Modelled::new(FolderCalls::new(&rt, FOLDER), Unknown);
    assert!(rt; disk.size(2) == Ok(0));
    assert!(rt; fill(&mut disk).is_ok());
    assert!(rt; disk.size(2) == Ok(3));
    let mut buf = [0u8; 4];
    assert!(rt; disk.read(2, 0, &mut buf) == Ok(3));
    assert!(rt; buf.as_slice() == b"hel\x00".as_slice());
    assert!(rt; disk.read(2, 1, &mut buf) == Ok(2));
    assert!(rt; disk.read(3, 0, &mut buf) == Ok(0));
    assert_eq!(rt; disk.faults(), 0);
    assert_eq!(rt; disk.calls(), 9);
    let stored = fs::read_to_string(&rt, "out/folder_disk/0000000002");
    assert!(rt; stored.is_ok_and(|text| text.as_str() == "hel"));
}

#[test]
fn a_folder_that_is_not_there_fails_and_is_counted(rt: HostRuntime) {
    let mut disk = Modelled::new(FolderCalls::new(&rt, "out/no_such_folder"), Unknown);
    assert!(rt; disk.size(2) == Ok(0));
    assert!(rt; disk.write_at(2, 0, b"hello") == Err(Failed));
    assert!(rt; disk.sync(2) == Err(Failed));
    assert_eq!(rt; disk.faults(), 2);
    assert_eq!(rt; disk.calls(), 3);
}
