ghost use Rattle.std.specs.Prelude.{◌≡◌, ◌≤◌, [], map, MatchOption, OnOk, OnErr};
ghost use Rattle.dav_machine.specs.Log.{Rose};
ghost use Rattle.dav_edge.specs.Device.{Connect, Send, Receive, Goes, Fails, Gives, happened, sent, shut_down};
ghost use Rattle.dav_edge.specs.Note.{event_of};
ghost use Rattle.dav_edge.specs.History.{log_of, Wrote, Stopped, Faulted, Passed};

use crate::Failed;
use crate::note::Note;
use std::alloc::Global;

/// What came of the calls of a device in memory so far.
#[derive(Drop)]
pub struct History {
    alloc: Global,
    notes: Vec<Note>,
    tells: bool,
    faults: u64,
}

impl History {
    pub fn new(alloc: Global) -> History
        ensures { log_of result ≡ record { told = Some []; faults = 0 } }
    {
        History {
            alloc,
            notes: Vec::new(alloc),
            tells: true,
            faults: 0,
        }
    }

    pub fn alloc(&self) -> Global
        ensures { result ≡ self.now.alloc }
    {
        self.alloc
    }

    pub fn faults(&self) -> u64
        ensures { result ≡ (log_of self.now).faults }
    {
        self.faults
    }

    /// What was written down, unless the object stopped telling.
    pub fn notes(&self) -> Option<&[Note]>
        ensures { MatchOption result ((log_of self.now).told ≡ None) (λ notes. (log_of self.now).told ≡ Some (map event_of notes.now)) }
    {
        if self.tells {
            Some(self.notes.as_slice())
        } else {
            None
        }
    }

    fn count_fault(&mut self)
        ensures same { self.new ≡ record self.old { faults = self.new.faults } }
        ensures no_fewer { self.old.faults ≤ self.new.faults }
        ensures rose { Rose self.old.faults self.new.faults }
    {
        self.faults = self.faults.saturating_add(1);
    }

    /// Tells nothing from now on, for want of room. The call is counted as a failing one.
    pub fn stop(&mut self)
        ensures { Stopped (log_of self.old) (log_of self.new) }
    {
        self.tells = false;
        self.count_fault();
    }

    // Writes a call down that doesn't fail.
    fn write(&mut self, note: Note) -> Result<(), Failed>
        ensures ok { OnOk result (Wrote (log_of self.old) (log_of self.new) (event_of note)) }
        ensures err { OnErr result (Stopped (log_of self.old) (log_of self.new)) }
    {
        if let Ok(()) = self.notes.push(note) {
            return Ok(());
        }
        self.stop();
        Err(Failed)
    }

    // Writes a call down that fails, if there is room for it.
    fn write_fault(&mut self, note: Note)
        ensures { Faulted (log_of self.old) (log_of self.new) (event_of note) }
    {
        self.count_fault();
        if self.notes.push(note).is_err() {
            self.tells = false;
        }
    }

    pub fn connected(&mut self, host: &str, port: u16) -> Result<(), Failed>
        ensures ok { OnOk result (Wrote (log_of self.old) (log_of self.new) (happened (Connect host.now port) Goes)) }
        ensures err { OnErr result (Stopped (log_of self.old) (log_of self.new)) }
    {
        let Ok(host) = String::from_str(self.alloc, host) else {
            self.stop();
            return Err(Failed);
        };
        self.write(Note::Connected(host, port))
    }

    pub fn not_connected(&mut self, host: &str, port: u16)
        ensures { Faulted (log_of self.old) (log_of self.new) (happened (Connect host.now port) Fails) }
    {
        let Ok(host) = String::from_str(self.alloc, host) else {
            self.stop();
            return;
        };
        self.write_fault(Note::NotConnected(host, port));
    }

    /// Writes down that so many of the bytes were taken.
    pub fn sent(&mut self, bytes: &[u8], count: usize) -> Result<(), Failed>
        ensures ok { OnOk result (Wrote (log_of self.old) (log_of self.new) (sent bytes.now (Ok count))) }
        ensures err { OnErr result (Stopped (log_of self.old) (log_of self.new)) }
    {
        let Ok(bytes) = Vec::from_slice(self.alloc, bytes) else {
            self.stop();
            return Err(Failed);
        };
        self.write(Note::Sent(bytes, count))
    }

    pub fn not_sent(&mut self, bytes: &[u8])
        ensures { Faulted (log_of self.old) (log_of self.new) (happened (Send bytes.now) Fails) }
    {
        let Ok(bytes) = Vec::from_slice(self.alloc, bytes) else {
            self.stop();
            return;
        };
        self.write_fault(Note::NotSent(bytes));
    }

    /// Writes down the piece that came into a buffer of that length.
    pub fn received(&mut self, room: usize, piece: &[u8]) -> Result<(), Failed>
        ensures ok { OnOk result (Wrote (log_of self.old) (log_of self.new) (happened (Receive room) (Gives piece.now))) }
        ensures err { OnErr result (Stopped (log_of self.old) (log_of self.new)) }
    {
        let Ok(piece) = Vec::from_slice(self.alloc, piece) else {
            self.stop();
            return Err(Failed);
        };
        self.write(Note::Received(room, piece))
    }

    pub fn not_received(&mut self, room: usize)
        ensures { Faulted (log_of self.old) (log_of self.new) (happened (Receive room) Fails) }
    {
        self.write_fault(Note::NotReceived(room));
    }

    /// Writes down that the connection was shut, or tells nothing from now on. No fault is counted.
    pub fn shut(&mut self)
        ensures { Passed (log_of self.old) (log_of self.new) shut_down }
    {
        if self.notes.push(Note::ShutDown).is_err() {
            self.tells = false;
        }
    }
}
