use crate::closes::{Close, add_closes, is_followed};
use crate::comparing::compare;
use crate::files::{File, files_of};
use crate::halt::{Halt, within};
use crate::keeping::{Became, Stage, became_in};
use crate::modes::{Tried, check_plain, try_cuts, try_ends, try_failures, try_restops, try_stops};
use crate::playing::{Played, Trial, play, start_of};
use crate::reading::runs_of;
use crate::story::Script;
use dav_disk::Disk;
use dav_script::{Player, Row, RowFault};
use std::alloc::Global;

/// Carries out rows of runs.
pub struct RunPlayer;

/// Tries a run in a mode.
fn try_mode(alloc: Global, mode: &str, tried: &Tried<'_>) -> Result<(), Halt> {
    match mode {
        "cuts" => try_cuts(alloc, tried),
        "ends" => try_ends(alloc, tried),
        "fails" => try_failures(alloc, tried),
        "stops" => try_stops(alloc, tried),
        "restops" => try_restops(alloc, tried),
        _ => {
            let text = format!(in alloc; "no mode {mode}")?;
            Err(Halt::Differs(text))
        }
    }
}

/// Tries a run as it is, and in each of the modes.
fn try_all(alloc: Global, modes: &[String], tried: &Tried<'_>) -> Result<(), Halt> {
    check_plain(alloc, tried)?;
    for mode in modes {
        try_mode(alloc, mode.as_str(), tried)?;
    }
    Ok(())
}

/// What the runs so far left.
#[derive(Drop)]
struct Progress<'a> {
    files: Vec<File>,
    owed: Vec<Close<'a>>,
    /// The words of the last run that had a cache.
    words: Option<&'a [String]>,
}

/// The words for a start behind a run: its own if it had a cache, else those of the last run that had one.
fn words_of<'a>(script: &'a Script, plain: &Played, progress: &Progress<'a>) -> &'a [String] {
    let own = script.words.as_slice();
    match plain.status {
        2 | 6 => progress.words.unwrap_or(own),
        _ => own,
    }
}

/// What is owed still of these closes behind a run: of each path the last one, where it was not sent.
fn owed_after<'a>(
    alloc: Global,
    played: &Played,
    closes: &[Close<'a>],
) -> Result<Vec<Close<'a>>, Halt> {
    let stop = played.disk.calls();
    let stage = Stage { played, stop };
    let mut owed = Vec::new(alloc);
    for (place, close) in closes.iter().enumerate() {
        let became = became_in(alloc, &stage, close, close.moment)?;
        if became != Became::Sent && !is_followed(closes, place, close, u64::MAX) {
            owed.push(Close {
                moment: 0,
                lost: close.lost || became == Became::Lost,
                ..*close
            })?;
        }
    }
    Ok(owed)
}

/// Lays the files of a run over those that the runs before it left. What lay in them is owed no more.
fn lay_over(alloc: Global, progress: &mut Progress<'_>, files: &[File]) -> Result<(), Halt> {
    for file in files {
        let number = file.number;
        progress.files.retain(|old| old.number != number);
        progress
            .owed
            .retain(|close| number != 0 && close.file != number);
        progress.files.push(File {
            number,
            bytes: Vec::from_slice(alloc, file.bytes.as_slice())?,
        })?;
    }
    Ok(())
}

/// Compares a run with its row, and tries it in the modes.
fn try_run(
    alloc: Global,
    modes: &[String],
    script: &Script,
    progress: &Progress<'_>,
    plain: &Played,
    left: &[File],
) -> Result<(), Halt> {
    compare(alloc, script, plain, left)?;
    let count = progress.owed.len().saturating_add(script.closings.len());
    let words = words_of(script, plain, progress);
    let start = start_of(alloc, words, count.saturating_add(4))?;
    let files = progress.files.as_slice();
    let tried = Tried {
        script,
        start: &start,
        files,
        starts: play(alloc, &start, files, Trial::Plain)?.status <= 1,
        owed: progress.owed.as_slice(),
        plain,
        left,
    };
    try_all(alloc, modes, &tried)
}

/// What is owed behind a run.
fn owed_behind<'a>(
    alloc: Global,
    script: &'a Script,
    owed: &[Close<'a>],
    plain: &Played,
) -> Result<Vec<Close<'a>>, Halt> {
    let mut closes = Vec::from_slice(alloc, owed)?;
    add_closes(alloc, script.closings.as_slice(), plain, &mut closes)?;
    owed_after(alloc, plain, closes.as_slice())
}

/// Tries a run, and notes what it leaves.
fn go_on<'a>(
    alloc: Global,
    modes: &[String],
    script: &'a Script,
    progress: &mut Progress<'a>,
    plain: &Played,
) -> Result<(), Halt> {
    let left = files_of(alloc, &plain.disk)?;
    try_run(alloc, modes, script, progress, plain, left.as_slice())?;
    progress.owed = owed_behind(alloc, script, progress.owed.as_slice(), plain)?;
    progress.words = Some(words_of(script, plain, progress));
    progress.files = left;
    Ok(())
}

/// Carries out a run over what the runs before it left.
fn play_run<'a>(
    alloc: Global,
    modes: &[String],
    script: &'a Script,
    progress: &mut Progress<'a>,
) -> Result<(), Halt> {
    lay_over(alloc, progress, script.files.as_slice())?;
    let plain = play(alloc, script, progress.files.as_slice(), Trial::Plain)?;
    go_on(alloc, modes, script, progress, &plain)
}

/// Carries out the runs of a row, one after the other.
fn play_runs(alloc: Global, modes: &[String], runs: &[Script]) -> Result<(), Halt> {
    let mut progress = Progress {
        files: Vec::new(alloc),
        owed: Vec::new(alloc),
        words: None,
    };
    let mut number = 0usize;
    for script in runs {
        number = number.saturating_add(1);
        let text = format!(in alloc; "run {number}")?;
        let came = play_run(alloc, modes, script, &mut progress);
        within(alloc, text.as_str(), came)?;
    }
    Ok(())
}

/// Carries out a row.
fn play_row(alloc: Global, row: &Row) -> Result<(), Halt> {
    let runs = runs_of(alloc, row.entries.as_slice())?;
    play_runs(alloc, row.modes.as_slice(), runs.as_slice())
}

impl Player for RunPlayer {
    fn play(&self, alloc: Global, row: &Row) -> Result<Option<String>, RowFault> {
        match play_row(alloc, row) {
            Ok(()) => Ok(None),
            Err(Halt::Differs(what)) => Ok(Some(what)),
            Err(Halt::Fault(fault)) => Err(fault),
        }
    }
}
