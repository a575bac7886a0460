//! That no close is lost.

use crate::closes::{Close, is_followed, kept_by};
use crate::files::{bytes_of_file, files_of};
use crate::halt::{Halt, ensure};
use crate::playing::Played;
use dav_deeds::{Deed, Fated, Step, Told};
use dav_edge::MemConnection;
use dav_script::shown;
use std::alloc::Global;

/// A run that was stopped at a moment of its disk.
#[derive(Clone, Copy)]
pub struct Stage<'a> {
    /// The run.
    pub played: &'a Played,
    /// The moment; that of the end for a run that was not stopped.
    pub stop: u64,
}

/// What became of the bytes of a close.
#[derive(Clone, Copy, Debug, PartialEq, Eq)]
pub enum Became {
    /// The server has them.
    Sent,
    /// They are among the lost files.
    Lost,
    /// Neither is known.
    Open,
}

/// Whether this is a whole PUT of these bytes to this path, and nothing else.
fn is_whole_put(sent: &[u8], close: &Close<'_>) -> bool {
    let Some(rest) = sent.strip_prefix(b"PUT ") else {
        return false;
    };
    let Some(rest) = rest.strip_prefix(close.path) else {
        return false;
    };
    let Some(rest) = rest.strip_prefix(b" HTTP/1.1\r\n") else {
        return false;
    };
    let Some(head) = rest.strip_suffix(close.bytes) else {
        return false;
    };
    head.ends_with(b"\r\n\r\n") && has_length(head, close.bytes.len())
}

/// Whether a line of a head says that the body has this length.
fn has_length(head: &[u8], length: usize) -> bool {
    head.split(|b| *b == b'\n')
        .filter_map(|line| line.strip_prefix(b"Content-Length: "))
        .any(|line| is_length(line, length))
}

/// Whether a field's value is this length, behind which the line ends.
fn is_length(value: &[u8], length: usize) -> bool {
    let Some(digits) = value.strip_suffix(b"\r") else {
        return false;
    };
    match str::from_utf8(digits) {
        Ok(digits) => digits.parse::<usize>() == Ok(length),
        Err(_) => false,
    }
}

/// What stands behind the first empty line.
fn behind_head(reply: &[u8]) -> &[u8] {
    let end = reply
        .windows(4)
        .position(|four| four == b"\r\n\r\n".as_slice());
    match reply.split_at_checked(end.unwrap_or(reply.len()).saturating_add(4)) {
        Some((_, rest)) => rest,
        None => &[],
    }
}

/// Whether the first reply that is not an interim one has a status of 200 to 299.
fn is_taken(received: &[u8]) -> bool {
    let mut rest = received;
    for _ in 0..received.len() {
        match rest.get(9) {
            Some(b'1') => rest = behind_head(rest),
            Some(b'2') => return true,
            _ => return false,
        }
    }
    false
}

/// Whether one of these connections has the whole PUT of the close.
fn is_sent_on(made: &[MemConnection], close: &Close<'_>) -> bool {
    made.iter()
        .any(|one| is_whole_put(one.sent.as_slice(), close))
}

/// Whether one of these connections has the whole PUT of the close, and a reply that takes it.
fn is_taken_on(made: &[MemConnection], close: &Close<'_>) -> bool {
    made.iter().any(|one| {
        is_whole_put(one.sent.as_slice(), close) && is_taken(one.received.as_slice())
    })
}

impl<'a> Stage<'a> {
    /// The steps that had ended at the stop, and those that had not.
    fn parted(&self) -> (&'a [Step], &'a [Step]) {
        let steps = self.played.ended.trace.steps.as_slice();
        let count = steps.iter().take_while(|s| s.moment <= self.stop).count();
        match steps.split_at_checked(count) {
            Some(parts) => parts,
            None => (steps, &[]),
        }
    }

    /// The step that was under way at the stop: a call of it had been made, or the disk failed in it.
    fn under_way(&self) -> Option<&'a Step> {
        let (before, after) = self.parted();
        match (before.last(), after.first()) {
            (_, None) => self.played.ended.under.as_ref(),
            (Some(ended), Some(_)) if ended.moment == self.stop => None,
            (_, Some(next)) => Some(next),
        }
    }
}

/// The job in which a close is sent, and what became of it so far.
#[derive(Clone, Copy)]
struct Following {
    job: Option<u64>,
    became: Became,
}

/// What a step says of a close.
fn follow(
    alloc: Global,
    step: &Step,
    close: &Close<'_>,
    so_far: Following,
) -> Result<Following, Halt> {
    match (&step.deed, &step.told) {
        (Deed::Take, Some(Told::Took(flight))) => {
            let is_its = flight.body.file == close.file && close.is_of(alloc, &flight.path)?;
            Ok(Following {
                job: if is_its { Some(flight.number) } else { None },
                became: so_far.became,
            })
        }
        (Deed::Settle { job, .. }, Some(Told::Settled(fated))) if Some(*job) == so_far.job => {
            Ok(Following {
                job: None,
                became: became_of(*fated),
            })
        }
        _ => Ok(so_far),
    }
}

/// What the end of its job makes of a close.
fn became_of(fated: Fated) -> Became {
    match fated {
        Fated::Clean => Became::Sent,
        Fated::Lost { .. } => Became::Lost,
        Fated::Superseded | Fated::Waits { .. } => Became::Open,
    }
}

/// What became of a close in a run by the stop, with the step that was under way. `since` is the moment at which the close was
/// answered.
pub fn became_in(
    alloc: Global,
    stage: &Stage<'_>,
    close: &Close<'_>,
    since: u64,
) -> Result<Became, Halt> {
    let (ended, _) = stage.parted();
    let mut so_far = Following {
        job: None,
        became: Became::Open,
    };
    for step in ended {
        if since < step.moment {
            so_far = follow(alloc, step, close, so_far)?;
        }
    }
    if let Some(step) = stage.under_way() {
        so_far = follow(alloc, step, close, so_far)?;
    }
    Ok(so_far.became)
}

/// What became of a close over the runs. Sent is believed only of a run in which the whole PUT stands on the wire, with a reply that
/// takes it; it counts more than lost, which may be of the step that was under way.
fn became_over(alloc: Global, stages: &[Stage<'_>], close: &Close<'_>) -> Result<Became, Halt> {
    let mut so_far = if close.lost {
        Became::Lost
    } else {
        Became::Open
    };
    let mut since = close.moment;
    for stage in stages {
        match became_in(alloc, stage, close, since)? {
            Became::Sent if is_taken_on(stage.played.made.as_slice(), close) => {
                return Ok(Became::Sent);
            }
            Became::Lost => so_far = Became::Lost,
            _ => {}
        }
        since = 0;
    }
    Ok(so_far)
}

/// What became of a close over the runs and the start behind them. A lost one has its bytes in its file of the disk.
fn found(
    alloc: Global,
    stages: &[Stage<'_>],
    last: &Played,
    close: &Close<'_>,
) -> Result<Became, Halt> {
    if last.status <= 1 && is_sent_on(last.made.as_slice(), close) {
        return Ok(Became::Sent);
    }
    let became = became_over(alloc, stages, close)?;
    if became != Became::Lost {
        return Ok(became);
    }
    let files = files_of(alloc, &last.disk)?;
    if bytes_of_file(files.as_slice(), close.file) == close.bytes {
        Ok(Became::Lost)
    } else {
        Ok(Became::Open)
    }
}

/// The close that takes the place of the one at a place, if its step was under way at the stop.
fn newer_under_way<'a>(
    alloc: Global,
    stages: &[Stage<'_>],
    closes: &[Close<'a>],
    place: usize,
    close: &Close<'_>,
) -> Result<Option<Close<'a>>, Halt> {
    let Some(step) = stages.first().and_then(|stage| stage.under_way()) else {
        return Ok(None);
    };
    let Some((path, file)) = kept_by(step) else {
        return Ok(None);
    };
    if !close.is_of(alloc, path)? {
        return Ok(None);
    }
    Ok(
        closes
            .iter()
            .skip(place.saturating_add(1))
            .find(|next| next.path == close.path && next.file == file)
            .copied(),
    )
}

/// What became of the close at a place or, where that is open, of the newer one that was under way.
fn found_with_newer(
    alloc: Global,
    stages: &[Stage<'_>],
    last: &Played,
    closes: &[Close<'_>],
    place: usize,
    close: &Close<'_>,
) -> Result<Became, Halt> {
    let became = found(alloc, stages, last, close)?;
    if became != Became::Open {
        return Ok(became);
    }
    match newer_under_way(alloc, stages, closes, place, close)? {
        Some(newer) => found(alloc, stages, last, &newer),
        None => Ok(Became::Open),
    }
}

/// Ok where a close is kept.
fn ensure_kept(alloc: Global, close: &Close<'_>, became: Became) -> Result<(), Halt> {
    if became != Became::Open {
        return Ok(());
    }
    let path = shown(alloc, close.path)?;
    let bytes = shown(alloc, close.bytes)?;
    let text = format!(in alloc; "closes: \"{bytes}\" of {path} is not kept")?;
    Err(Halt::Differs(text))
}

/// Ok where no close is lost over these runs, each stopped, and the start behind them.
///
/// Of each path the last close is looked at whose step had ended at the stop of the first run. One of these is so: the start behind the
/// runs ended with status 0 or 1, and sent the whole PUT of just the row's bytes to the path on a connection of its own; or a run
/// settled it as sent by its stop, or in the step that was under way then, and the whole PUT of the row's bytes stands on a connection
/// of that run with a reply of 200 to 299; or a run settled it as lost by then, and its bytes stand in its file of the disk at the very
/// end; or one of these is so of the next close of the path, whose step was under way at the stop of the first run. At the very end at
/// least as many files are counted as lost as these are.
pub fn check_kept(
    alloc: Global,
    stages: &[Stage<'_>],
    last: &Played,
    closes: &[Close<'_>],
) -> Result<(), Halt> {
    let stop = stages.first().map_or(0, |first| first.stop);
    let mut lost = 0u32;
    for (place, close) in closes.iter().enumerate() {
        if stop < close.moment || is_followed(closes, place, close, stop) {
            continue;
        }
        let became = found_with_newer(alloc, stages, last, closes, place, close)?;
        ensure_kept(alloc, close, became)?;
        lost = lost.saturating_add(u32::from(became == Became::Lost));
    }
    ensure(
        alloc,
        lost <= last.ended.lost,
        "lost: fewer than were lost before",
    )
}
