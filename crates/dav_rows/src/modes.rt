//! The ways in which a run is tried.

use crate::closes::{Close, add_closes};
use crate::comparing::compare;
use crate::files::{File, WISHES, Wish, bytes_of_file, files_after_stop, files_of, is_change};
use crate::halt::{Halt, ensure, within};
use crate::keeping::{Stage, check_kept};
use crate::playing::{Played, Trial, play};
use crate::story::{Device, Failure, Script};
use dav_disk::Disk;
use std::alloc::Global;

/// A run of a row, beside what it begins with and what came of it.
#[derive(Clone, Copy)]
pub struct Tried<'a> {
    /// The run.
    pub script: &'a Script,
    /// A start behind it, against a server that takes more files than there are.
    pub start: &'a Script,
    /// The files before it.
    pub files: &'a [File],
    /// Whether a start over them ends well.
    pub starts: bool,
    /// The closes of the runs before it that are still owed.
    pub owed: &'a [Close<'a>],
    /// What came of it, with no trial.
    pub plain: &'a Played,
    /// The files behind it.
    pub left: &'a [File],
}

/// The closes that are owed and those of a run, in their order.
fn closes_with<'a>(
    alloc: Global,
    tried: &Tried<'a>,
    played: &Played,
) -> Result<Vec<Close<'a>>, Halt> {
    let mut closes = Vec::from_slice(alloc, tried.owed)?;
    add_closes(alloc, tried.script.closings.as_slice(), played, &mut closes)?;
    Ok(closes)
}

/// Ok where a start behind a run has every close, and ends well if one before the run does.
fn check_start(
    alloc: Global,
    tried: &Tried<'_>,
    stages: &[Stage<'_>],
    last: &Played,
    closes: &[Close<'_>],
) -> Result<(), Halt> {
    ensure(
        alloc,
        !tried.starts || last.status <= 1,
        "start: it does not end well",
    )?;
    check_kept(alloc, stages, last, closes)
}

/// Ok where a start over what a run left at its end has every close.
fn check_left(
    alloc: Global,
    tried: &Tried<'_>,
    played: &Played,
    files: &[File],
) -> Result<(), Halt> {
    let closes = closes_with(alloc, tried, played)?;
    let last = play(alloc, tried.start, files, Trial::Plain)?;
    let stop = played.disk.calls();
    check_start(
        alloc,
        tried,
        [Stage { played, stop }].as_slice(),
        &last,
        closes.as_slice(),
    )
}

/// Ok where the closes of the plain run are those that the row lists, and a start behind it has each of them.
pub fn check_plain(alloc: Global, tried: &Tried<'_>) -> Result<(), Halt> {
    let mut closes = Vec::new(alloc);
    let closings = tried.script.closings.as_slice();
    let left = add_closes(alloc, closings, tried.plain, &mut closes)?;
    ensure(alloc, left == 0, "closes: one that no step answers")?;
    check_left(alloc, tried, tried.plain, tried.left)
}

/// Ok where all of a run came as in the plain one, and the index, too.
fn check_same(alloc: Global, tried: &Tried<'_>, played: &Played) -> Result<(), Halt> {
    let files = files_of(alloc, &played.disk)?;
    compare(alloc, tried.script, played, files.as_slice())?;
    let is_same = bytes_of_file(files.as_slice(), 0) == bytes_of_file(tried.left, 0);
    ensure(alloc, is_same, "index: another one")
}

/// One run with a cut.
fn try_cut(alloc: Global, tried: &Tried<'_>, place: usize) -> Result<(), Halt> {
    let played = play(alloc, tried.script, tried.files, Trial::Cut { place })?;
    check_same(alloc, tried, &played)
}

/// The length of the longest answer.
fn longest_answer(script: &Script) -> usize {
    let mut most = 0usize;
    for one in &script.connections {
        most = most.max(one.answer.len());
    }
    most
}

/// The answers are received in two pieces, cut at each byte in turn. Where the row lists calls of the wire, which cuts would count
/// anew, nothing is tried.
pub fn try_cuts(alloc: Global, tried: &Tried<'_>) -> Result<(), Halt> {
    let failures = tried.script.failures.as_slice();
    if failures.iter().any(|one| one.device == Device::Wire) {
        return Ok(());
    }
    for place in 1..longest_answer(tried.script) {
        let text = format!(in alloc; "cut at {place}")?;
        within(alloc, text.as_str(), try_cut(alloc, tried, place))?;
    }
    Ok(())
}

/// The output without its last line, where that tells how the run ended.
fn without_last_line(output: &[u8]) -> &[u8] {
    let lines = output.strip_suffix(b"\n").unwrap_or(output);
    let length = lines.iter().rev().take_while(|b| **b != b'\n').count();
    match output.split_at_checked(lines.len().saturating_sub(length)) {
        Some((before, last)) if last.starts_with(b"end: ") || last.starts_with(b"left: ") => before,
        _ => output,
    }
}

/// Whether the output is a beginning of the plain one's lines, and the line that tells the device by which the run ended. Where the wire
/// failed, all those lines are there; a sink stops anywhere, within a line too.
fn is_output_of(tried: &Tried<'_>, played: &Played, device: Device) -> bool {
    let output = played.output.as_slice();
    let plain = tried.plain.output.as_slice();
    let front = without_last_line(output);
    match device {
        Device::Source => plain.starts_with(front) && output.ends_with(b"end: input\n"),
        Device::Disk => plain.starts_with(front) && output.ends_with(b"end: disk\n"),
        Device::Wire => front == without_last_line(plain),
        Device::Sink => plain.starts_with(output) || plain.starts_with(front),
    }
}

/// Whether the status is the one that a failing device gives.
fn is_status_of(tried: &Tried<'_>, played: &Played, device: Device) -> bool {
    let plain = tried.plain.status;
    match device {
        Device::Source => played.status == 4,
        Device::Disk => played.status == 3,
        Device::Sink => played.status == 5 || 1 < plain && played.status == plain,
        Device::Wire => played.status == plain,
    }
}

/// Ok where a run ended as a failing device makes it end, unless the row itself lists failing calls, and no close is lost.
fn check_failing(
    alloc: Global,
    tried: &Tried<'_>,
    played: &Played,
    device: Device,
) -> Result<(), Halt> {
    if tried.script.failures.is_empty() {
        ensure(
            alloc,
            is_output_of(tried, played, device),
            "output: another one",
        )?;
        ensure(
            alloc,
            is_status_of(tried, played, device),
            "status: another one",
        )?;
    }
    let files = files_of(alloc, &played.disk)?;
    check_left(alloc, tried, played, files.as_slice())
}

/// One run in which a device fails.
fn try_failing(alloc: Global, tried: &Tried<'_>, trial: Trial, device: Device) -> Result<(), Halt> {
    let played = play(alloc, tried.script, tried.files, trial)?;
    check_failing(alloc, tried, &played, device)
}

/// Each call of each device fails in turn.
pub fn try_failures(alloc: Global, tried: &Tried<'_>) -> Result<(), Halt> {
    for device in [Device::Source, Device::Sink, Device::Wire, Device::Disk] {
        for call in 0..tried.plain.calls.of(device) {
            let trial = Trial::Fail(Failure { device, call });
            let text = format!(in alloc; "{device:?} fails at {call}")?;
            within(
                alloc,
                text.as_str(),
                try_failing(alloc, tried, trial, device),
            )?;
        }
    }
    Ok(())
}

/// Each connection ends at each byte of what the server sends, in turn.
pub fn try_ends(alloc: Global, tried: &Tried<'_>) -> Result<(), Halt> {
    for (connection, one) in tried.script.connections.iter().enumerate() {
        for length in 0..one.answer.len() {
            let trial = Trial::End { connection, length };
            let text = format!(in alloc; "connection {connection} ends at {length}")?;
            within(
                alloc,
                text.as_str(),
                try_failing(alloc, tried, trial, Device::Wire),
            )?;
        }
    }
    Ok(())
}

/// The moments of a run at which a stop leaves something else than at the next one: before each call that changes the disk, and at the
/// end. A call that only looks changes nothing, so a stop before it leaves what a stop behind it leaves, when as much or more was
/// answered.
fn moments_of(alloc: Global, played: &Played) -> Result<Vec<u64>, Halt> {
    let mut moments = Vec::new(alloc);
    let mut moment = 0u64;
    for call in played.disk.record_of_calls() {
        if played.begun <= moment && is_change(call) {
            moments.push(moment)?;
        }
        moment = moment.saturating_add(1);
    }
    moments.push(moment)?;
    Ok(moments)
}

/// The start behind a stop that left what is nearest to a wish.
fn start_after(
    alloc: Global,
    tried: &Tried<'_>,
    stage: Stage<'_>,
    wish: Wish,
) -> Result<Played, Halt> {
    let files = files_after_stop(alloc, &stage.played.disk, stage.stop, wish)?;
    play(alloc, tried.start, files.as_slice(), Trial::Plain)
}

/// Starts over the image of what some stopped runs left that is nearest to a wish: no close is lost.
fn try_image(
    alloc: Global,
    tried: &Tried<'_>,
    closes: &[Close<'_>],
    stages: &[Stage<'_>],
    wish: Wish,
) -> Result<(), Halt> {
    let Some(stage) = stages.last() else {
        return Ok(());
    };
    let last = start_after(alloc, tried, *stage, wish)?;
    check_start(alloc, tried, stages, &last, closes)
}

/// Starts over each of some images of what a stop left.
fn try_stop(
    alloc: Global,
    tried: &Tried<'_>,
    closes: &[Close<'_>],
    stage: Stage<'_>,
) -> Result<(), Halt> {
    for wish in WISHES {
        let came = try_image(alloc, tried, closes, [stage].as_slice(), wish);
        let text = format!(in alloc; "{wish:?}")?;
        within(alloc, text.as_str(), came)?;
    }
    Ok(())
}

/// The run is stopped at each call of the disk.
pub fn try_stops(alloc: Global, tried: &Tried<'_>) -> Result<(), Halt> {
    let closes = closes_with(alloc, tried, tried.plain)?;
    let played = tried.plain;
    for moment in &moments_of(alloc, played)? {
        let stop = *moment;
        let text = format!(in alloc; "stop at {stop}")?;
        let came = try_stop(alloc, tried, closes.as_slice(), Stage { played, stop });
        within(alloc, text.as_str(), came)?;
    }
    Ok(())
}

/// A start behind a stop is stopped at each of its own calls.
fn try_stops_of_start(
    alloc: Global,
    tried: &Tried<'_>,
    closes: &[Close<'_>],
    stage: Stage<'_>,
    start: &Played,
) -> Result<(), Halt> {
    for moment in &moments_of(alloc, start)? {
        let stop = *moment;
        let second = Stage {
            played: start,
            stop,
        };
        let stages = [stage, second];
        let came = try_image(alloc, tried, closes, stages.as_slice(), Wish::Pattern);
        let text = format!(in alloc; "stop of the start at {stop}")?;
        within(alloc, text.as_str(), came)?;
    }
    Ok(())
}

/// The start behind a stop, and its stops.
fn try_restop(
    alloc: Global,
    tried: &Tried<'_>,
    closes: &[Close<'_>],
    stage: Stage<'_>,
) -> Result<(), Halt> {
    let start = start_after(alloc, tried, stage, Wish::Pattern)?;
    try_stops_of_start(alloc, tried, closes, stage, &start)
}

/// Each start behind a stop is stopped at each of its own calls.
pub fn try_restops(alloc: Global, tried: &Tried<'_>) -> Result<(), Halt> {
    let closes = closes_with(alloc, tried, tried.plain)?;
    let played = tried.plain;
    for moment in &moments_of(alloc, played)? {
        let stop = *moment;
        let text = format!(in alloc; "stop at {stop}")?;
        let came = try_restop(alloc, tried, closes.as_slice(), Stage { played, stop });
        within(alloc, text.as_str(), came)?;
    }
    Ok(())
}
