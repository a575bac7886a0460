//! Carries out the rows of a folder: runs of the program over devices in memory, with what is to come of each.
#![tactic(auto)]

mod closes;
mod comparing;
mod counted;
mod files;
mod halt;
mod keeping;
mod message;
mod modes;
mod player;
mod playing;
mod reading;
mod story;

use dav_script::play_all;
use player::RunPlayer;
use std::process::ExitCode;

fn main(rt: HostRuntime) -> ExitCode {
    match play_all(&rt, &RunPlayer) {
        Ok(true) => ExitCode::from(0),
        Ok(false) => ExitCode::from(1),
        Err(fault) => {
            let _ = eprintln!(rt; "{fault:?}");
            ExitCode::from(2)
        }
    }
}
