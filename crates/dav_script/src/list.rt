use crate::RowFault;
use crate::entry::entries_of;
use std::alloc::Global;

/// What is wanted of a row of a list.
#[derive(Clone, Copy, Debug, PartialEq, Eq)]
pub enum Wanted {
    /// That nothing differs.
    Same,
    /// That something differs: the row tries the program that reads it.
    Difference,
}

/// A row that a list names.
#[derive(Drop)]
pub struct Listed {
    /// Its name.
    pub name: String,
    /// What is wanted of it.
    pub wanted: Wanted,
}

/// A list of rows.
#[derive(Drop)]
pub struct List {
    /// The ways in which each of its rows is tried beside the plain one.
    pub modes: Vec<String>,
    /// Its rows.
    pub rows: Vec<Listed>,
}

/// The list that a text spells: `mode MODE` for all its rows, `row NAME` for a row, and `wrong NAME` for one that has to differ.
pub fn list_of(alloc: Global, text: &[u8]) -> Result<List, RowFault> {
    let mut list = List {
        modes: Vec::new(alloc),
        rows: Vec::new(alloc),
    };
    for entry in &entries_of(alloc, text)? {
        let text = String::from_str(alloc, entry.text()?)?;
        match entry.word.as_str() {
            "mode" => list.modes.push(text)?,
            "row" => list.rows.push(Listed {
                name: text,
                wanted: Wanted::Same,
            })?,
            "wrong" => list.rows.push(Listed {
                name: text,
                wanted: Wanted::Difference,
            })?,
            _ => return Err(entry.bad_word()),
        }
    }
    Ok(list)
}
