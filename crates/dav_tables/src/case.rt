use crate::words::method_of;
use dav_script::{Entry, RowFault};
use dav_text::{Memory, Method};

/// A case of a table.
#[derive(Clone, Copy)]
pub struct Case<'a> {
    /// What the table is of.
    pub kind: &'a str,
    /// The settings before it, the latest last.
    pub settings: &'a [Entry],
    /// What is given.
    pub given: &'a Entry,
    /// Where the bytes that are given are cut into two pieces, if they come in pieces.
    pub cut: usize,
}

/// At which places the bytes that are given are cut in two, each place in turn.
#[derive(Clone, Copy, Debug, PartialEq, Eq)]
pub enum Cuts {
    /// At all.
    Everywhere,
    /// At none.
    Nowhere,
    /// From the first place to the second.
    Between(usize, usize),
}

/// The fault of a row where there was no memory.
pub fn starved(_memory: Memory) -> RowFault {
    RowFault::Memory
}

/// The two places that a setting states.
fn places_of(entry: &Entry) -> Result<Cuts, RowFault> {
    let Some((first, last)) = entry.text()?.split_once(' ') else {
        return Err(entry.bad_value());
    };
    match (first.parse::<usize>(), last.parse::<usize>()) {
        (Ok(first), Ok(last)) => Ok(Cuts::Between(first, last)),
        _ => Err(entry.bad_value()),
    }
}

impl<'a> Case<'a> {
    /// The latest setting of a name.
    pub fn setting(&self, name: &str) -> Option<&'a Entry> {
        self.settings
            .iter()
            .rev()
            .find(|entry| entry.word.as_str() == name)
    }

    /// The text of the latest setting of a name; the default where there is none.
    pub fn text_or(&self, name: &str, default: &'a str) -> Result<&'a str, RowFault> {
        match self.setting(name) {
            Some(entry) => entry.text(),
            None => Ok(default),
        }
    }

    /// The bytes of the latest setting of a name; none where there is none.
    pub fn bytes_or_none(&self, name: &str) -> &'a [u8] {
        match self.setting(name) {
            Some(entry) => entry.bytes(),
            None => &[],
        }
    }

    /// The number of the latest setting of a name; the default where there is none.
    pub fn number_or(&self, name: &str, default: u64) -> Result<u64, RowFault> {
        match self.setting(name) {
            Some(entry) => entry.number(),
            None => Ok(default),
        }
    }

    /// The method that the latest setting `method` names; GET where there is none.
    pub fn method(&self) -> Result<Method, RowFault> {
        match self.setting("method") {
            Some(entry) => method_of(entry.text()?).ok_or(entry.bad_value()),
            None => Ok(Method::Get),
        }
    }

    /// The fault of what is given, which the kind does not take.
    pub fn bad_given(&self) -> RowFault {
        self.given.bad_value()
    }

    /// The bytes that are given, in two pieces.
    pub fn pieces(&self) -> (&'a [u8], &'a [u8]) {
        let bytes = self.given.bytes();
        match bytes.split_at_checked(self.cut) {
            Some(pieces) => pieces,
            None => (bytes, &[]),
        }
    }

    /// Where the bytes that are given are to be cut: what the latest setting of that says, and everywhere without one.
    pub fn cuts(&self) -> Result<Cuts, RowFault> {
        for entry in self.settings.iter().rev() {
            match entry.word.as_str() {
                "everywhere" => return Ok(Cuts::Everywhere),
                "whole" | "by" => return Ok(Cuts::Nowhere),
                "between" => return places_of(entry),
                _ => {}
            }
        }
        Ok(Cuts::Everywhere)
    }

    /// Whether a part of the outcome is named by the latest setting `tells`.
    pub fn asks(&self, name: &str) -> Result<bool, RowFault> {
        for word in self.text_or("tells", "")?.split(' ') {
            if word == name {
                return Ok(true);
            }
        }
        Ok(false)
    }

    /// Whether a part of the outcome is to be told: where no setting `tells` names parts, each is.
    pub fn tells(&self, name: &str) -> Result<bool, RowFault> {
        match self.setting("tells") {
            Some(_) => self.asks(name),
            None => Ok(true),
        }
    }
}
