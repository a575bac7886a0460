//! Sources, sinks and wires in memory: calls one after another, and what each answers.

use crate::case::Case;
use dav_edge::{Failed, MemSink, MemSource, MemWire, Sink, Source, Stream, Wire};
use dav_script::{RowFault, shown};
use std::alloc::{AllocError, Global};

/// The numbers of a setting, with single blanks between them; none where it is not set.
pub fn numbers_of(alloc: Global, case: &Case<'_>, name: &str) -> Result<Vec<u64>, RowFault> {
    let mut numbers = Vec::new(alloc);
    let Some(entry) = case.setting(name) else {
        return Ok(numbers);
    };
    for word in entry.text()?.split_whitespace() {
        match word.parse::<u64>() {
            Ok(number) => numbers.push(number)?,
            Err(_) => return Err(entry.bad_value()),
        }
    }
    Ok(numbers)
}

/// The same, as lengths.
fn lengths_of(alloc: Global, case: &Case<'_>, name: &str) -> Result<Vec<usize>, RowFault> {
    let mut lengths = Vec::new(alloc);
    for number in &numbers_of(alloc, case, name)? {
        lengths.push(usize::try_from(*number).unwrap_or(usize::MAX))?;
    }
    Ok(lengths)
}

/// How many bytes a call takes, by the setting `takes`.
fn most_of(case: &Case<'_>) -> Result<usize, RowFault> {
    match case.setting("takes") {
        Some(entry) => Ok(usize::try_from(entry.number()?).unwrap_or(usize::MAX)),
        None => Ok(usize::MAX),
    }
}

/// The word of a call and what stands behind it.
pub fn call_of(line: &str) -> (&str, &str) {
    line.split_once(' ').unwrap_or((line, ""))
}

/// The lines of the calls that are given.
pub fn calls_of<'a>(case: &Case<'a>) -> Result<&'a str, RowFault> {
    match str::from_utf8(case.given.bytes()) {
        Ok(text) => Ok(text),
        Err(_) => Err(case.given.bad_value()),
    }
}

/// Appends the line of a call that took or gave a number of bytes, or failed.
fn tell_count(
    out: &mut String,
    call: &str,
    answer: Result<usize, Failed>,
) -> Result<(), AllocError> {
    match answer {
        Ok(count) => writeln!(out, "{call}: {count}"),
        Err(Failed) => writeln!(out, "{call}: failed"),
    }
}

/// Appends the line of bytes that a call gave, or of its failure.
fn tell_bytes(
    alloc: Global,
    out: &mut String,
    call: &str,
    buf: &[u8],
    answer: Result<usize, Failed>,
) -> Result<(), AllocError> {
    let Ok(count) = answer else {
        return writeln!(out, "{call}: failed");
    };
    let given = match buf.split_at_checked(count) {
        Some((given, _)) => shown(alloc, given)?,
        None => String::from_str(alloc, "too many")?,
    };
    writeln!(out, "{call}: \"{given}\"")
}

/// The answers of a source that holds the bytes of the setting `bytes`, to the calls `take LENGTH`.
pub fn outcome_of_source(alloc: Global, case: &Case<'_>) -> Result<Vec<u8>, RowFault> {
    let Some(bytes) = case.setting("bytes") else {
        return Err(case.given.bad_value());
    };
    let bytes = Vec::from_slice(alloc, bytes.bytes())?;
    let cuts = lengths_of(alloc, case, "cuts")?;
    let fails = numbers_of(alloc, case, "fails")?;
    let mut source = MemSource::new(alloc, bytes, cuts, fails);
    let mut out = String::new(alloc);
    let mut buf = [0u8; 64];
    for call in calls_of(case)?.lines() {
        let length = match call_of(call) {
            ("take", length) => length.parse::<usize>().unwrap_or(1),
            _ => return Err(case.given.bad_value()),
        };
        let Some(room) = buf.get_mut(..length) else {
            return Err(case.given.bad_value());
        };
        let answer = source.take(room);
        tell_bytes(alloc, &mut out, call, &buf, answer)?;
    }
    let faults = source.faults();
    writeln!(out, "faults {faults}")?;
    Ok(out.into_bytes())
}

/// The answers of a sink to the calls `put TEXT`, and what it took.
pub fn outcome_of_sink(alloc: Global, case: &Case<'_>) -> Result<Vec<u8>, RowFault> {
    let fails = numbers_of(alloc, case, "fails")?;
    let mut sink = MemSink::new(alloc, most_of(case)?, fails);
    let mut out = String::new(alloc);
    for call in calls_of(case)?.lines() {
        let ("put", text) = call_of(call) else {
            return Err(case.given.bad_value());
        };
        let answer = sink.put(text.as_bytes());
        tell_count(&mut out, call, answer)?;
    }
    let written = shown(alloc, sink.written())?;
    let faults = sink.faults();
    writeln!(out, "written \"{written}\"\nfaults {faults}")?;
    Ok(out.into_bytes())
}

/// The streams of the settings `stream`, each cut at the places of the setting `cuts`.
fn streams_of(alloc: Global, case: &Case<'_>) -> Result<Vec<Stream>, RowFault> {
    let mut streams = Vec::new(alloc);
    for entry in case.settings {
        if entry.word.as_str() == "stream" {
            let bytes = Vec::from_slice(alloc, entry.bytes())?;
            let cuts = lengths_of(alloc, case, "cuts")?;
            streams.push(Stream::new(bytes, cuts))?;
        }
    }
    Ok(streams)
}

/// Makes a call of a wire, and appends what it answers.
fn call_wire(
    alloc: Global,
    wire: &mut MemWire,
    call: &str,
    out: &mut String,
) -> Result<(), AllocError> {
    let mut buf = [0u8; 64];
    match call_of(call) {
        ("connect", host) => {
            let answer = wire.connect(host, 80).map(|()| 0);
            tell_count(out, call, answer)
        }
        ("send", text) => {
            let answer = wire.send(text.as_bytes());
            tell_count(out, call, answer)
        }
        ("receive", _) => {
            let answer = wire.receive(&mut buf);
            tell_bytes(alloc, out, call, &buf, answer)
        }
        ("shut", _) => {
            wire.shut();
            writeln!(out, "{call}")
        }
        _ => writeln!(out, "{call}: no such call"),
    }
}

/// Appends the connections that a wire made.
fn tell_connections(alloc: Global, wire: &MemWire, out: &mut String) -> Result<(), AllocError> {
    let Some(connections) = wire.connections()? else {
        return writeln!(out, "it does not tell");
    };
    for connection in &connections {
        let host = connection.host.as_str();
        let port = connection.port;
        let sent = shown(alloc, connection.sent.as_slice())?;
        let received = shown(alloc, connection.received.as_slice())?;
        writeln!(out, "{host} {port} sent \"{sent}\" received \"{received}\"")?;
    }
    Ok(())
}

/// The answers of a wire to `connect HOST` (port 80), `send TEXT`, `receive` and `shut`, and the connections that it made.
pub fn outcome_of_wire(alloc: Global, case: &Case<'_>) -> Result<Vec<u8>, RowFault> {
    let fails = numbers_of(alloc, case, "fails")?;
    let streams = streams_of(alloc, case)?;
    let mut wire = MemWire::new(alloc, streams, most_of(case)?, fails);
    let mut out = String::new(alloc);
    for call in calls_of(case)?.lines() {
        call_wire(alloc, &mut wire, call, &mut out)?;
    }
    tell_connections(alloc, &wire, &mut out)?;
    let faults = wire.faults();
    writeln!(out, "faults {faults}")?;
    Ok(out.into_bytes())
}
