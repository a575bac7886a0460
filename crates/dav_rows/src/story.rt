use crate::files::File;
use std::alloc::Global;

/// A connection that a run makes: to whom, what is sent on it, and what the server answers.
#[derive(Drop)]
pub struct Connection {
    /// The host.
    pub host: String,
    /// The port.
    pub port: u16,
    /// All bytes that are sent.
    pub sent: Vec<u8>,
    /// All bytes that the server sends, before it ends the connection.
    pub answer: Vec<u8>,
}

/// A close that a run answers.
#[derive(Drop)]
pub struct Closing {
    /// The path, as it is printed.
    pub path: Vec<u8>,
    /// The bytes that are to be on the server under it.
    pub bytes: Vec<u8>,
}

/// A device of a run.
#[derive(Clone, Copy, Debug, PartialEq, Eq)]
pub enum Device {
    /// What gives the input.
    Source,
    /// What takes the output.
    Sink,
    /// The way to the server.
    Wire,
    /// The disk of the cache.
    Disk,
}

/// A call of a device that fails.
#[derive(Clone, Copy, Debug, PartialEq, Eq)]
pub struct Failure {
    /// The device.
    pub device: Device,
    /// The number of the call in the run, from 0.
    pub call: u64,
}

/// A number that a run comes to.
#[derive(Clone, Copy, Debug, PartialEq, Eq)]
pub enum Count {
    /// The status.
    Status,
    /// The files that are lost at the end.
    Lost,
    /// The lines that were carried out.
    Lines,
    /// The steps that the desk made.
    Steps,
    /// The calls of the disk.
    DiskCalls,
    /// The steps whose writing had begun when the disk failed: 0 or 1.
    Under,
}

/// One run of a row, and what is to come of it.
#[derive(Drop)]
pub struct Script {
    /// The words of the command line.
    pub words: Vec<String>,
    /// The places at which a piece of the input ends.
    pub pieces: Vec<usize>,
    /// How many bytes the sink and the wire take in a call.
    pub takes: usize,
    /// The calls that fail.
    pub failures: Vec<Failure>,
    /// What is laid into files of the disk before it.
    pub files: Vec<File>,
    /// The input.
    pub input: Vec<u8>,
    /// The connections that are made, in their order.
    pub connections: Vec<Connection>,
    /// The closes that are answered, in their order.
    pub closings: Vec<Closing>,
    /// All that is printed.
    pub output: Option<Vec<u8>>,
    /// Numbers that it comes to.
    pub counts: Vec<(Count, u64)>,
    /// What stands in files at the end.
    pub holds: Vec<File>,
}

impl Script {
    /// A run without words and input, of which nothing is expected.
    pub fn new(alloc: Global) -> Script {
        Script {
            words: Vec::new(alloc),
            pieces: Vec::new(alloc),
            takes: 1024,
            failures: Vec::new(alloc),
            files: Vec::new(alloc),
            input: Vec::new(alloc),
            connections: Vec::new(alloc),
            closings: Vec::new(alloc),
            output: None,
            counts: Vec::new(alloc),
            holds: Vec::new(alloc),
        }
    }
}
