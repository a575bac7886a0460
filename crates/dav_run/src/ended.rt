ghost use Rattle.std.specs.Prelude.{◌≡◌};

use dav_deeds::{DeskFault, Step, Trace};

/// How a run of the program ended.
#[derive(Debug, Drop)]
pub enum Status {
    /// The input was read to its end, and no line answered a fault.
    Done,
    /// The same, and at least one line answered a fault.
    Faults,
    /// The words are not the program's.
    Words,
    /// The disk failed.
    Disk,
    /// The source failed.
    Input,
    /// The sink failed.
    Output,
    /// There is no cache for this run: its index is none, or is one of another URL, or a body is damaged.
    Cache(DeskFault),
    /// Want of memory ended the run.
    Memory,
}

impl Status {
    ghost use Rattle.dav_run.specs.Codes.{code_of};

    /// The status that the process ends with.
    pub fn code(&self) -> u8
        ensures { result ≡ code_of self.now }
    {
        match self {
            Status::Done => 0,
            Status::Faults => 1,
            Status::Words => 2,
            Status::Disk => 3,
            Status::Input => 4,
            Status::Output => 5,
            Status::Cache(_) => 6,
            Status::Memory => 8,
        }
    }
}

/// What a run leaves.
#[derive(Debug, Drop)]
pub struct Ended {
    /// The steps of the run, in their order. There are none where no desk was started.
    pub trace: Trace,
    /// The step in which the disk failed, if the writing of its record had begun.
    pub under: Option<Step>,
    /// How many files are lost at the end. It is 0 where no desk was started.
    pub lost: u32,
    /// Whether a line, a job or the run itself met want of memory.
    pub starved: bool,
    /// How many lines of the input were carried out, with their output written, before the first
    /// that met want of memory.
    pub done: u64,
}
