ghost use Rattle.std.specs.Prelude.{◌≡◌, [], IfOk, OnOk, None, option_map, map};
ghost use Rattle.dav_edge.specs.Connections.{after_call, connection, sending, receiving, with_standing, all_of, none_yet};
ghost use Rattle.dav_edge.specs.Note.{event_of};

use crate::note::Note;
use std::alloc::{AllocError, Global};

/// A connection of a wire in memory, and the bytes that went over it.
#[derive(Drop)]
pub struct MemConnection {
    pub host: String,
    pub port: u16,
    pub sent: Vec<u8>,
    pub received: Vec<u8>,
}

/// The connections that some calls made: those that ended, and the one that stands.
#[derive(Drop)]
pub struct Made {
    ended: Vec<MemConnection>,
    standing: Option<MemConnection>,
}

impl Made {
    ghost use Rattle.dav_edge.specs.MemConnection.{connection_of, seen};

    pub fn new(alloc: Global) -> Made
        ensures { seen result ≡ none_yet }
    {
        Made {
            ended: Vec::new(alloc),
            standing: None,
        }
    }

    fn end(&mut self) -> Result<(), AllocError>
        ensures { OnOk result (seen self.new ≡ with_standing (all_of (seen self.old)) None) }
    {
        let Some(connection) = self.standing.take() else {
            return Ok(());
        };
        let Ok(()) = self.ended.push(connection) else {
            return Err(AllocError);
        };
        Ok(())
    }

    fn send(&mut self, bytes: &[u8]) -> Result<(), AllocError>
        ensures { OnOk result (seen self.new ≡ with_standing (seen self.old).ended (option_map (sending bytes.now) (seen self.old).standing)) }
    {
        let Some(mut connection) = self.standing.take() else {
            return Ok(());
        };
        connection.sent.extend_from_slice(bytes)?;
        self.standing = Some(connection);
        Ok(())
    }

    fn receive(&mut self, bytes: &[u8]) -> Result<(), AllocError>
        ensures { OnOk result (seen self.new ≡ with_standing (seen self.old).ended (option_map (receiving bytes.now) (seen self.old).standing)) }
    {
        let Some(mut connection) = self.standing.take() else {
            return Ok(());
        };
        connection.received.extend_from_slice(bytes)?;
        self.standing = Some(connection);
        Ok(())
    }

    fn begin(&mut self, alloc: Global, host: &str, port: u16) -> Result<(), AllocError>
        ensures { OnOk result (seen self.new ≡ with_standing (all_of (seen self.old)) (Some (connection host.now port [] []))) }
    {
        let Ok(host) = String::from_str(alloc, host) else {
            return Err(AllocError);
        };
        let Ok(()) = self.end() else {
            return Err(AllocError);
        };
        self.standing = Some(MemConnection {
            host,
            port,
            sent: Vec::new(alloc),
            received: Vec::new(alloc),
        });
        Ok(())
    }

    /// Does what the call does that was written down.
    pub fn follow(&mut self, alloc: Global, note: &Note) -> Result<(), AllocError>
        ensures { OnOk result (seen self.new ≡ after_call (seen self.old) (event_of note.now).asked (event_of note.now).answer) }
    {
        match note {
            Note::Connected(host, port) => self.begin(alloc, host.as_str(), *port),
            Note::NotConnected(_, _) => self.end(),
            Note::Sent(bytes, count) => {
                let count = bytes.len().min(*count);
                self.send(&bytes[..count])
            }
            Note::NotSent(_) => Ok(()),
            Note::Received(_, piece) => self.receive(piece.as_slice()),
            Note::NotReceived(_) => Ok(()),
            Note::ShutDown => self.end(),
        }
    }

    /// All of them, in the order in which they began.
    pub fn all(mut self) -> Result<Vec<MemConnection>, AllocError>
        ensures { IfOk result (λ made. map connection_of made.items ≡ all_of (seen self)) }
    {
        let Ok(()) = self.end() else {
            return Err(AllocError);
        };
        let Made { ended, standing: _ } = self;
        Ok(ended)
    }
}
