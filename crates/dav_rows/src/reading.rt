use crate::files::File;
use crate::message::{add_reply, add_request};
use crate::story::{Closing, Connection, Count, Device, Failure, Script};
use dav_script::{Entry, RowFault};
use std::alloc::Global;

/// Where an entry stands in a run. A run's entries go from one place to the next.
#[derive(Clone, Copy, Debug, PartialEq, Eq, PartialOrd, Ord)]
enum Place {
    Words,
    Devices,
    Files,
    Input,
    Wire,
    Closes,
    Expected,
}

/// The place of a word; None for a word that no row has.
fn place_of(word: &str) -> Option<Place> {
    match word {
        "word" => Some(Place::Words),
        "pieces" | "takes" | "fails" => Some(Place::Devices),
        "file" => Some(Place::Files),
        "input" => Some(Place::Input),
        "connection" | "request" | "reply" | "sent" | "answer" => Some(Place::Wire),
        "closes" => Some(Place::Closes),
        "output" | "status" | "index" | "holds" | "lost" | "lines" | "steps" | "calls" | "under" =>
            Some(Place::Expected),
        _ => None,
    }
}

/// Two words that a blank parts.
fn two_words(entry: &Entry) -> Result<(&str, &str), RowFault> {
    match entry.text()?.split_once(' ') {
        Some(words) => Ok(words),
        None => Err(entry.bad_value()),
    }
}

/// A number among the words of an entry.
fn number_of(entry: &Entry, word: &str) -> Result<u64, RowFault> {
    match word.parse::<u64>() {
        Ok(number) => Ok(number),
        Err(_) => Err(entry.bad_value()),
    }
}

/// The places that an entry lists.
fn places_of(alloc: Global, entry: &Entry) -> Result<Vec<usize>, RowFault> {
    let mut places = Vec::new(alloc);
    for word in entry.text()?.split(' ') {
        places.push(number_of(entry, word)? as usize)?;
    }
    Ok(places)
}

/// The device of a name.
fn device_of(name: &str) -> Option<Device> {
    match name {
        "source" => Some(Device::Source),
        "sink" => Some(Device::Sink),
        "wire" => Some(Device::Wire),
        "disk" => Some(Device::Disk),
        _ => None,
    }
}

/// The call that an entry lets fail.
fn failure_of(entry: &Entry) -> Result<Failure, RowFault> {
    let (name, call) = two_words(entry)?;
    match device_of(name) {
        Some(device) => Ok(Failure {
            device,
            call: number_of(entry, call)?,
        }),
        None => Err(entry.bad_value()),
    }
}

/// A file with this number and the bytes of an entry.
fn file_of(alloc: Global, number: &str, entry: &Entry) -> Result<File, RowFault> {
    match number.parse::<u32>() {
        Ok(number) => Ok(File {
            number,
            bytes: Vec::from_slice(alloc, entry.block_bytes())?,
        }),
        Err(_) => Err(entry.bad_value()),
    }
}

/// How often an entry's block is the input.
fn times_of(entry: &Entry) -> Result<u64, RowFault> {
    if entry.rest.is_empty() {
        return Ok(1);
    }
    match two_words(entry)? {
        (count, "times") => number_of(entry, count),
        _ => Err(entry.bad_value()),
    }
}

/// Adds an entry's block to the input.
fn add_input(input: &mut Vec<u8>, entry: &Entry) -> Result<(), RowFault> {
    for _ in 0..times_of(entry)? {
        input.extend_from_slice(entry.block_bytes())?;
    }
    Ok(())
}

/// The connection that an entry begins.
fn connection_of(alloc: Global, entry: &Entry) -> Result<Connection, RowFault> {
    let (host, port) = two_words(entry)?;
    let Ok(port) = port.parse::<u16>() else {
        return Err(entry.bad_value());
    };
    Ok(Connection {
        host: String::from_str(alloc, host)?,
        port,
        sent: Vec::new(alloc),
        answer: Vec::new(alloc),
    })
}

/// Adds a message to a connection.
fn add_to_connection(
    alloc: Global,
    connection: &mut Connection,
    entry: &Entry,
) -> Result<(), RowFault> {
    match entry.word.as_str() {
        "request" => add_request(alloc, connection, entry),
        "reply" => add_reply(alloc, connection, entry),
        "sent" => Ok(connection.sent.extend_from_slice(entry.bytes())?),
        "answer" => Ok(connection.answer.extend_from_slice(entry.bytes())?),
        _ => Err(entry.bad_word()),
    }
}

/// Adds a message to the last connection.
fn add_message(
    alloc: Global,
    connections: &mut Vec<Connection>,
    entry: &Entry,
) -> Result<(), RowFault> {
    match connections.last_mut() {
        Some(connection) => add_to_connection(alloc, connection, entry),
        None => Err(entry.bad_word()),
    }
}

/// The close of an entry.
fn closing_of(alloc: Global, entry: &Entry) -> Result<Closing, RowFault> {
    Ok(Closing {
        path: Vec::from_slice(alloc, entry.rest.as_slice())?,
        bytes: Vec::from_slice(alloc, entry.block_bytes())?,
    })
}

/// Sets the output that is expected, once.
fn expect_output(alloc: Global, script: &mut Script, entry: &Entry) -> Result<(), RowFault> {
    if script.output.is_some() {
        return Err(entry.bad_word());
    }
    script.output = Some(Vec::from_slice(alloc, entry.bytes())?);
    Ok(())
}

/// The number of a word.
fn count_named(word: &str) -> Option<Count> {
    match word {
        "status" => Some(Count::Status),
        "lost" => Some(Count::Lost),
        "lines" => Some(Count::Lines),
        "steps" => Some(Count::Steps),
        "calls" => Some(Count::DiskCalls),
        "under" => Some(Count::Under),
        _ => None,
    }
}

/// What an entry says of a number.
fn count_value(count: Count, entry: &Entry) -> Result<u64, RowFault> {
    match (count, entry.text()?) {
        (Count::Under, "yes") => Ok(1),
        (Count::Under, "no") => Ok(0),
        (Count::Under, _) => Err(entry.bad_value()),
        (Count::DiskCalls, text) => match text.strip_prefix("disk ") {
            Some(number) => number_of(entry, number),
            None => Err(entry.bad_value()),
        },
        (_, text) => number_of(entry, text),
    }
}

/// Adds a number that is expected, once.
fn expect_count(script: &mut Script, entry: &Entry) -> Result<(), RowFault> {
    let Some(count) = count_named(entry.word.as_str()) else {
        return Err(entry.bad_word());
    };
    if script.counts.iter().any(|(other, _)| *other == count) {
        return Err(entry.bad_word());
    }
    script.counts.push((count, count_value(count, entry)?))?;
    Ok(())
}

/// Adds an entry to a run.
fn add_entry(alloc: Global, script: &mut Script, entry: &Entry) -> Result<(), RowFault> {
    match entry.word.as_str() {
        "word" => script.words.push(String::from_str(alloc, entry.text()?)?)?,
        "pieces" => script.pieces = places_of(alloc, entry)?,
        "takes" => script.takes = entry.number()? as usize,
        "fails" => script.failures.push(failure_of(entry)?)?,
        "file" => script.files.push(file_of(alloc, entry.text()?, entry)?)?,
        "input" => add_input(&mut script.input, entry)?,
        "connection" => script.connections.push(connection_of(alloc, entry)?)?,
        "request" | "reply" | "sent" | "answer" => {
            add_message(alloc, &mut script.connections, entry)?
        }
        "closes" => script.closings.push(closing_of(alloc, entry)?)?,
        "output" => expect_output(alloc, script, entry)?,
        "index" => script.holds.push(file_of(alloc, "0", entry)?)?,
        "holds" => script.holds.push(file_of(alloc, entry.text()?, entry)?)?,
        _ => expect_count(script, entry)?,
    }
    Ok(())
}

/// Whether a run expects what each owes: an output and a status.
fn is_owed_all(script: &Script) -> bool {
    let has_status = script
        .counts
        .iter()
        .any(|(count, _)| *count == Count::Status);
    has_status && script.output.is_some()
}

/// Adds the entries of a run to it, in their order. The line of the last one.
fn fill(alloc: Global, script: &mut Script, entries: &[Entry]) -> Result<u32, RowFault> {
    let mut last = Place::Words;
    let mut line = 1;
    for entry in entries {
        match place_of(entry.word.as_str()) {
            Some(place) if last <= place => last = place,
            _ => return Err(entry.bad_word()),
        }
        add_entry(alloc, script, entry)?;
        line = entry.line;
    }
    Ok(line)
}

/// The run of these entries.
fn script_of(alloc: Global, entries: &[Entry]) -> Result<Script, RowFault> {
    let mut script = Script::new(alloc);
    let line = fill(alloc, &mut script, entries)?;
    if is_owed_all(&script) {
        Ok(script)
    } else {
        Err(RowFault::NoExpectation { line })
    }
}

/// The runs of a row, each over what the one before it left. A line `again` parts them.
pub fn runs_of(alloc: Global, entries: &[Entry]) -> Result<Vec<Script>, RowFault> {
    let mut runs = Vec::new(alloc);
    for part in entries.split(|entry| entry.word.as_str() == "again") {
        runs.push(script_of(alloc, part)?)?;
    }
    Ok(runs)
}
