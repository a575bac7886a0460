use crate::entry::entries_of;
use crate::list::{List, Listed, Wanted, list_of};
use crate::{Entry, RowFault};
use std::alloc::Global;
use std::rt::Files;
use std::{fs, io};

/// The name of the list of a folder's rows.
const LIST: &str = "rows.list";

/// A row that was read.
#[derive(Drop)]
pub struct Row {
    /// The ways in which it is tried beside the plain one.
    pub modes: Vec<String>,
    /// Its entries.
    pub entries: Vec<Entry>,
}

/// What carries out rows.
pub trait Player {
    /// Carries out a row. What differs first from what the row expects; none where nothing does.
    fn play(&self, alloc: Global, row: &Row) -> Result<Option<String>, RowFault>;
}

/// The row that a text spells, with the modes of its list and those that it asks for itself.
fn row_of(alloc: Global, modes: &[String], text: &[u8]) -> Result<Row, RowFault> {
    let mut row = Row {
        modes: Vec::new(alloc),
        entries: Vec::new(alloc),
    };
    for mode in modes {
        row.modes.push(String::from_str(alloc, mode.as_str())?)?;
    }
    for entry in entries_of(alloc, text)? {
        if entry.word.as_str() == "mode" {
            row.modes.push(String::from_str(alloc, entry.text()?)?)?;
        } else {
            row.entries.push(entry)?;
        }
    }
    Ok(row)
}

/// What a player says of a text.
fn played<P: Player>(
    alloc: Global,
    player: &P,
    modes: &[String],
    text: &[u8],
) -> Result<Option<String>, RowFault> {
    let row = row_of(alloc, modes, text)?;
    player.play(alloc, &row)
}

/// Carries out the row of a name. What differs first, or the fault of its text; none where nothing differs.
fn play_one<R: Files + AllocGlobal, P: Player>(
    rt: &R,
    player: &P,
    modes: &[String],
    name: &str,
) -> io::Result<Option<String>> {
    let alloc = rt.alloc();
    let file = format!(in alloc; "{name}.row")?;
    let Ok(text) = fs::read(rt, file.as_str()) else {
        return Ok(Some(String::from_str(alloc, "no such file")?));
    };
    match played(alloc, player, modes, text.as_slice()) {
        Ok(came) => Ok(came),
        Err(fault) => Ok(Some(fault.to_string(alloc)?)),
    }
}

/// Prints what came of a row. Whether that is what is wanted of it.
fn tell<R: Print>(rt: &R, listed: &Listed, came: Option<String>) -> io::Result<bool> {
    let name = listed.name.as_str();
    match (came, listed.wanted) {
        (None, Wanted::Same) => {
            println!(rt; "ok {name}")?;
            Ok(true)
        }
        (Some(what), Wanted::Same) => {
            println!(rt; "{name}: {what}")?;
            Ok(false)
        }
        (None, Wanted::Difference) => {
            println!(rt; "{name}: nothing differs")?;
            Ok(false)
        }
        (Some(what), Wanted::Difference) => {
            println!(rt; "differs {name}: {what}")?;
            Ok(true)
        }
    }
}

/// Whether a file is the list, or of a row that it names.
fn is_listed(list: &List, file: &str) -> bool {
    file == LIST
        || list
            .rows
            .iter()
            .any(|row| file.strip_suffix(".row") == Some(row.name.as_str()))
}

/// Prints each file of the folder that nothing reads. Whether there is none.
fn tell_unread<R: Files + Print + AllocGlobal + Clone + Drop>(
    rt: &R,
    list: &List,
) -> io::Result<bool> {
    let mut all_read = true;
    for file in fs::read_dir(rt, ".")? {
        let file = file?;
        let name = file.file_name();
        if !is_listed(list, name) {
            println!(rt; "{name}: not in the list")?;
            all_read = false;
        }
    }
    Ok(all_read)
}

/// Carries out each row that the list of the folder names, and prints a line for each: `ok NAME`, or the name and what differs.
/// Whether each row came as the list wants it, and no file is there that the list does not name.
pub fn play_all<R: Files + Print + AllocGlobal + Clone + Drop, P: Player>(
    rt: &R,
    player: &P,
) -> io::Result<bool> {
    let alloc = rt.alloc();
    let text = fs::read(rt, LIST)?;
    let list = match list_of(alloc, text.as_slice()) {
        Ok(list) => list,
        Err(fault) => {
            println!(rt; "{LIST}: {fault}")?;
            return Ok(false);
        }
    };
    let mut all_well = tell_unread(rt, &list)?;
    for listed in &list.rows {
        let came = play_one(rt, player, list.modes.as_slice(), listed.name.as_str())?;
        let is_well = tell(rt, listed, came)?;
        all_well &= is_well;
    }
    Ok(all_well)
}
