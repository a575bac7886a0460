//! The real devices of the program: readers, writers and connections as sources, sinks and wires, and a folder as a disk.
#![tactic(auto)]

#[cfg(test)]
mod device_tests;
mod folder_calls;
mod open_files;
mod reader_source;
mod steady;
mod tcp_wire;
#[cfg(test)]
mod tests;
mod unknown;
mod writer_sink;

pub use folder_calls::{FolderCalls, FolderDisk};
pub use reader_source::ReaderSource;
pub use tcp_wire::TcpWire;
pub use unknown::Unknown;
pub use writer_sink::WriterSink;
