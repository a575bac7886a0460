use crate::counted::Counted;
use crate::files::{File, disk_with, laying_calls};
use crate::halt::Halt;
use crate::story::{Connection, Device, Failure, Script};
use dav_disk::{Disk, MemDisk};
use dav_edge::{MemConnection, MemSink, MemSource, MemWire, Stream};
use dav_run::{Ended, Status, run};
use std::alloc::Global;

/// What a server answers that takes a file.
const TAKEN: &[u8] = b"HTTP/1.1 201 Created\r\nContent-Length: 0\r\n\r\n";

/// How a run differs from the one that a row tells.
#[derive(Clone, Copy, Debug, PartialEq, Eq)]
pub enum Trial {
    /// In nothing.
    Plain,
    /// A piece of what the server sends ends at this place, on each connection.
    Cut {
        /// The place, counted from the first byte.
        place: usize,
    },
    /// A connection ends early.
    End {
        /// The number of the connection, from 0.
        connection: usize,
        /// How many bytes come.
        length: usize,
    },
    /// A call fails.
    Fail(Failure),
}

/// How many calls a run asked each device.
#[derive(Clone, Copy, Debug, PartialEq, Eq)]
pub struct Calls {
    /// Of the source.
    pub source: u64,
    /// Of the sink.
    pub sink: u64,
    /// Of the wire.
    pub wire: u64,
    /// Of the disk.
    pub disk: u64,
}

impl Calls {
    /// Those of a device.
    pub fn of(&self, device: Device) -> u64 {
        match device {
            Device::Source => self.source,
            Device::Sink => self.sink,
            Device::Wire => self.wire,
            Device::Disk => self.disk,
        }
    }
}

/// What a run came to.
#[derive(Drop)]
pub struct Played {
    /// The status of the process.
    pub status: u8,
    /// What was printed.
    pub output: Vec<u8>,
    /// The connections that were made.
    pub made: Vec<MemConnection>,
    /// What the run leaves beside its disk.
    pub ended: Ended,
    /// The disk.
    pub disk: MemDisk,
    /// The moment of the disk at which the run began.
    pub begun: u64,
    /// The calls that it asked.
    pub calls: Calls,
}

/// The devices of a run.
#[derive(Drop)]
struct Devices {
    source: Counted<MemSource>,
    sink: Counted<MemSink>,
    wire: Counted<MemWire>,
    disk: MemDisk,
    begun: u64,
}

/// The calls of a device that fail in a run.
fn fails_of(
    alloc: Global,
    failures: &[Failure],
    device: Device,
    trial: Trial,
) -> Result<Vec<u64>, Halt> {
    let mut fails = Vec::new(alloc);
    for failure in failures {
        if failure.device == device {
            fails.push(failure.call)?;
        }
    }
    match trial {
        Trial::Fail(failure) if failure.device == device => fails.push(failure.call)?,
        _ => {}
    }
    Ok(fails)
}

/// What comes of an answer on a connection of this number.
fn part_of(answer: &[u8], number: usize, trial: Trial) -> &[u8] {
    match trial {
        Trial::End { connection, length } if connection == number => {
            match answer.split_at_checked(length) {
                Some((part, _)) => part,
                None => answer,
            }
        }
        _ => answer,
    }
}

/// The places at which a piece of an answer ends.
fn cuts_of(alloc: Global, trial: Trial) -> Result<Vec<usize>, Halt> {
    let mut cuts = Vec::new(alloc);
    if let Trial::Cut { place } = trial {
        cuts.push(place)?;
    }
    Ok(cuts)
}

/// What the server sends on each connection of a run.
fn streams_of(alloc: Global, script: &Script, trial: Trial) -> Result<Vec<Stream>, Halt> {
    let mut streams = Vec::new(alloc);
    for (number, connection) in script.connections.iter().enumerate() {
        let bytes = Vec::from_slice(alloc, part_of(connection.answer.as_slice(), number, trial))?;
        streams.push(Stream::new(bytes, cuts_of(alloc, trial)?))?;
    }
    Ok(streams)
}

/// The devices of a script's run over these files.
fn devices_of(
    alloc: Global,
    script: &Script,
    files: &[File],
    trial: Trial,
) -> Result<Devices, Halt> {
    let failures = script.failures.as_slice();
    let source_fails = fails_of(alloc, failures, Device::Source, trial)?;
    let sink_fails = fails_of(alloc, failures, Device::Sink, trial)?;
    let wire_fails = fails_of(alloc, failures, Device::Wire, trial)?;
    let disk_fails = fails_of(alloc, failures, Device::Disk, trial)?;
    let input = Vec::from_slice(alloc, script.input.as_slice())?;
    let pieces = Vec::from_slice(alloc, script.pieces.as_slice())?;
    let streams = streams_of(alloc, script, trial)?;
    let disk = disk_with(alloc, files, disk_fails.as_slice())?;
    Ok(Devices {
        source: Counted::new(MemSource::new(alloc, input, pieces, source_fails)),
        sink: Counted::new(MemSink::new(alloc, script.takes, sink_fails)),
        wire: Counted::new(MemWire::new(alloc, streams, script.takes, wire_fails)),
        disk,
        begun: laying_calls(files),
    })
}

/// Runs the program over these devices.
fn run_over(
    alloc: Global,
    words: &[String],
    source: &mut Counted<MemSource>,
    sink: &mut Counted<MemSink>,
    wire: &mut Counted<MemWire>,
    disk: MemDisk,
) -> (Status, MemDisk, Ended) {
    run(alloc, words, source, sink, wire, disk)
}

/// What a run over these devices comes to.
fn play_over(alloc: Global, words: &[String], devices: Devices) -> Result<Played, Halt> {
    let Devices {
        mut source,
        mut sink,
        mut wire,
        disk,
        begun,
    } = devices;
    let (status, disk, ended) = run_over(alloc, words, &mut source, &mut sink, &mut wire, disk);
    let calls = Calls {
        source: source.calls,
        sink: sink.calls,
        wire: wire.calls,
        disk: disk.calls().saturating_sub(begun),
    };
    let output = Vec::from_slice(alloc, sink.inner.written())?;
    let made = connections_of(alloc, &wire.inner)?;
    Ok(Played {
        status: status.code(),
        output,
        made,
        ended,
        disk,
        begun,
        calls,
    })
}

/// The connections that were made. The wire tells them but for want of memory.
fn connections_of(alloc: Global, wire: &MemWire) -> Result<Vec<MemConnection>, Halt> {
    match wire.connections()? {
        Some(made) => Ok(made),
        None => Ok(Vec::new(alloc)),
    }
}

/// The run that a script tells, over these files, but for a trial.
pub fn play(alloc: Global, script: &Script, files: &[File], trial: Trial) -> Result<Played, Halt> {
    let devices = devices_of(alloc, script, files, trial)?;
    play_over(alloc, script.words.as_slice(), devices)
}

/// The script of a start: a run with these words and no input, against a server that takes so many files.
pub fn start_of(alloc: Global, words: &[String], count: usize) -> Result<Script, Halt> {
    let mut start = Script::new(alloc);
    for word in words {
        start.words.push(String::from_str(alloc, word.as_str())?)?;
    }
    for _ in 0..count {
        start.connections.push(Connection {
            host: String::new(alloc),
            port: 0,
            sent: Vec::new(alloc),
            answer: Vec::from_slice(alloc, TAKEN)?,
        })?;
    }
    Ok(start)
}
