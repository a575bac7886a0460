use crate::halt::{Halt, ensure};
use crate::playing::Played;
use crate::story::Closing;
use dav_deeds::{Deed, Step};
use dav_text::Path;
use std::alloc::Global;

/// A close that was answered, with the row's own bytes.
#[derive(Clone, Copy, Debug)]
pub struct Close<'a> {
    /// The path, as it is printed.
    pub path: &'a [u8],
    /// The bytes.
    pub bytes: &'a [u8],
    /// The file of the disk in which they lie.
    pub file: u32,
    /// The moment at which its step had ended: 0 for one of an earlier run, and the greatest number for one whose step did not end.
    pub moment: u64,
    /// Whether its bytes were lost in an earlier run.
    pub lost: bool,
}

impl Close<'_> {
    /// Whether this is its path.
    pub fn is_of(&self, alloc: Global, path: &Path) -> Result<bool, Halt> {
        let mut text = Vec::new(alloc);
        path.escaped_into(&mut text)?;
        Ok(text.as_slice() == self.path)
    }
}

/// Whether the close at a place is followed by one of its path that was answered by a moment.
pub fn is_followed(closes: &[Close<'_>], place: usize, close: &Close<'_>, by: u64) -> bool {
    closes
        .iter()
        .skip(place.saturating_add(1))
        .any(|next| next.path == close.path && next.moment <= by)
}

/// The path and the file of the bytes that a step kept, if it did.
pub fn kept_by(step: &Step) -> Option<(&Path, u32)> {
    match &step.deed {
        Deed::Store {
            path,
            body: Some(body),
            ..
        } => Some((path, body.file)),
        _ => None,
    }
}

/// The close that a step made, where this is the row's next one.
fn close_of<'a>(
    alloc: Global,
    path: &Path,
    file: u32,
    moment: u64,
    closing: &'a Closing,
) -> Result<Close<'a>, Halt> {
    let close = Close {
        path: closing.path.as_slice(),
        bytes: closing.bytes.as_slice(),
        file,
        moment,
        lost: false,
    };
    ensure(alloc, close.is_of(alloc, path)?, "closes: another path")?;
    Ok(close)
}

/// Adds the closes of the steps that ended. Those of the row's closes that are left.
fn add_ended<'a>(
    alloc: Global,
    steps: &[Step],
    closings: &'a [Closing],
    closes: &mut Vec<Close<'a>>,
) -> Result<&'a [Closing], Halt> {
    let mut rest = closings;
    for step in steps {
        let Some((path, file)) = kept_by(step) else {
            continue;
        };
        let Some((closing, more)) = rest.split_first() else {
            let text = String::from_str(alloc, "closes: one that is not listed")?;
            return Err(Halt::Differs(text));
        };
        closes.push(close_of(alloc, path, file, step.moment, closing)?)?;
        rest = more;
    }
    Ok(rest)
}

/// Adds the close of the step in which the disk failed, if it is one of the row's.
fn add_under<'a>(
    alloc: Global,
    under: &Option<Step>,
    rest: &'a [Closing],
    closes: &mut Vec<Close<'a>>,
) -> Result<(), Halt> {
    let Some(step) = under else {
        return Ok(());
    };
    if let (Some((path, file)), Some((closing, _))) = (kept_by(step), rest.split_first()) {
        closes.push(close_of(alloc, path, file, u64::MAX, closing)?)?;
    }
    Ok(())
}

/// Adds the closes of a run, in their order, to those of the runs before it. How many of the row's are left.
pub fn add_closes<'a>(
    alloc: Global,
    closings: &'a [Closing],
    played: &Played,
    closes: &mut Vec<Close<'a>>,
) -> Result<usize, Halt> {
    let ended = &played.ended;
    let rest = add_ended(alloc, ended.trace.steps.as_slice(), closings, closes)?;
    add_under(alloc, &ended.under, rest, closes)?;
    Ok(rest.len())
}
