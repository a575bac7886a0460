use crate::case::Case;
use dav_script::RowFault;
use std::alloc::Global;

/// An outcome: lines of a name and a value, of which a case tells those that its setting `tells` names, and all without one. One
/// line alone has no line feed.
#[derive(Drop)]
pub struct Told<'a> {
    alloc: Global,
    case: Case<'a>,
    lines: u32,
    out: Vec<u8>,
}

impl<'a> Told<'a> {
    /// The outcome of a case, with no line.
    pub fn new(alloc: Global, case: &Case<'a>) -> Told<'a> {
        Told {
            alloc,
            case: *case,
            lines: 0,
            out: Vec::new(alloc),
        }
    }

    /// A line that the case tells in any event.
    pub fn always(&mut self, name: &str, value: &[u8]) -> Result<(), RowFault> {
        self.lines = self.lines.saturating_add(1);
        self.out.extend_from_slice(name.as_bytes())?;
        self.out.push(b' ')?;
        self.out.extend_from_slice(value)?;
        self.out.push(b'\n')?;
        Ok(())
    }

    /// A line, where the case tells it.
    pub fn line(&mut self, name: &str, value: &[u8]) -> Result<(), RowFault> {
        if self.case.tells(name)? {
            self.always(name, value)?;
        }
        Ok(())
    }

    /// A line, where the case names it.
    pub fn asked(&mut self, name: &str, value: u64) -> Result<(), RowFault> {
        if self.case.asks(name)? {
            self.number(name, value)?;
        }
        Ok(())
    }

    /// A line of a number, where the case tells it.
    pub fn number(&mut self, name: &str, value: u64) -> Result<(), RowFault> {
        let text = format!(in self.alloc; "{value}")?;
        self.line(name, text.as_bytes())
    }

    /// A line of `yes` or `no`, where the case tells it.
    pub fn yes(&mut self, name: &str, holds: bool) -> Result<(), RowFault> {
        if holds {
            self.line(name, b"yes")
        } else {
            self.line(name, b"no")
        }
    }

    /// The lines; the fault of the case where it tells none.
    pub fn end(self) -> Result<Vec<u8>, RowFault> {
        let Told {
            case,
            lines,
            mut out,
            ..
        } = self;
        match lines {
            0 => return Err(RowFault::NoExpectation {
                line: case.given.line,
            }),
            1 => {
                out.pop();
            }
            _ => {}
        }
        Ok(out)
    }
}

/// The bytes of a text as an outcome.
pub fn plain(alloc: Global, text: &str) -> Result<Vec<u8>, RowFault> {
    Ok(Vec::from_slice(alloc, text.as_bytes())?)
}
