//! davsh: a shell for files on a WebDAV server.
#![tactic(auto)]

use dav_disk::Modelled;
use dav_real::{FolderCalls, ReaderSource, TcpWire, Unknown, WriterSink};
use dav_run::run;
use std::alloc::Global;
use std::process::ExitCode;
use std::rt::Env;
use std::{env, fs, io};

/// The folder of the cache, in the folder where the program is started.
const CACHE: &str = "davcache";

/// The words behind the program's name.
fn words_of(rt: &(impl Env + AllocGlobal)) -> io::Result<Vec<String>> {
    let mut words = Vec::new(rt.alloc());
    for word in env::args(rt)?.skip(1) {
        words.push(word)?;
    }
    Ok(words)
}

fn main(rt: HostRuntime) -> ExitCode {
    let words = match words_of(&rt) {
        Ok(words) => words,
        Err(_) => Vec::new(rt.alloc()),
    };
    let mut input = ReaderSource::new(rt.stdin());
    let mut out = WriterSink::new(rt.stdout());
    let mut up_wire = TcpWire::new(&rt);
    // Where it is not there and cannot be made, the disk fails.
    let _ = fs::create_dir_all(&rt, CACHE);
    let disk = Modelled::new(FolderCalls::new(&rt, CACHE), Unknown);
    let (status, _disk, _ended) = run(
        rt.alloc(),
        words.as_slice(),
        &mut input,
        &mut out,
        &mut up_wire,
        disk,
    );
    ExitCode::from(status.code())
}
