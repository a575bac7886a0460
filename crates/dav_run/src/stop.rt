ghost use Rattle.std.specs.Prelude.{◌≡◌};
ghost use Rattle.dav_run.specs.Stops.{stop_of};

use dav_deeds::DeskFault;

/// Why the shell reads no more lines.
#[derive(Debug, Drop)]
pub enum Stop {
    /// The input came to its end.
    End,
    /// The source failed.
    Input,
    /// The sink failed.
    Output,
    /// The desk was stopped.
    Desk(DeskFault),
}

/// Why the shell stopped in a line.
#[derive(Debug, Drop)]
pub enum Halt {
    /// The sink failed.
    Output,
    /// The desk was stopped.
    Desk(DeskFault),
}

/// The same, as why the shell reads no more lines.
pub fn stop_of(halt: Halt) -> Stop
    ensures { result ≡ stop_of halt }
{
    match halt {
        Halt::Output => Stop::Output,
        Halt::Desk(fault) => Stop::Desk(fault),
    }
}
