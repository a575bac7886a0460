//! A trial of the store over a real folder, by a process that is killed: `dav_trial write FOLDER` adds bodies and rows and
//! prints the number of each that was acknowledged; `dav_trial read FOLDER` prints how many stand.
#![tactic(auto)]

mod trial;

use std::process::ExitCode;
use std::rt::Env;
use std::{env, io};
use trial::{read_all, write_rows};

/// The words behind the program's name.
fn words_of(rt: &(impl Env + AllocGlobal)) -> io::Result<Vec<String>> {
    let mut words = Vec::new(rt.alloc());
    for word in env::args(rt)?.skip(1) {
        words.push(word)?;
    }
    Ok(words)
}

fn main(rt: HostRuntime) -> ExitCode {
    let Ok(words) = words_of(&rt) else {
        return ExitCode::from(2);
    };
    let done = match words.as_slice() {
        [word, folder] if word.as_str() == "write" => write_rows(&rt, folder.as_str()),
        [word, folder] if word.as_str() == "read" => read_all(&rt, folder.as_str()),
        _ => return ExitCode::from(2),
    };
    match done {
        Ok(()) => ExitCode::from(0),
        Err(stop) => {
            let _ = eprintln!(rt; "{stop:?}");
            ExitCode::from(1)
        }
    }
}
