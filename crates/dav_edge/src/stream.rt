ghost use Rattle.std.specs.Prelude.{◌≡◌, ◌≤◌, length, take, drop, IfOk, OnErr};
ghost use Rattle.dav_edge.specs.Device.{Receive, Gives, happened};
ghost use Rattle.dav_edge.specs.History.{log_of, Wrote, Stopped};

use crate::Failed;
use crate::history::History;

/// The bytes that a server sends on one connection, and the places in them at which a piece ends.
#[derive(Drop)]
pub struct Stream {
    bytes: Vec<u8>,
    cuts: Vec<usize>,
    at: usize,
    ghost within: { at ≤ length bytes.items },
}

impl Stream {
    ghost use Rattle.dav_edge.specs.Stream.{bytes_left, IsPiece, MovesOn};

    /// A piece never goes across a cut, a place counted from the start of the bytes.
    pub fn new(bytes: Vec<u8>, cuts: Vec<usize>) -> Stream
        ensures left { bytes_left result ≡ bytes.items }
        ensures parts { (result.bytes ≡ bytes) × (result.cuts ≡ cuts) × (result.at ≡ 0) }
    {
        Stream { bytes, cuts, at: 0 }
    }

    // How long the next piece is: as long as the buffer, the bytes and the cuts allow.
    fn piece_len(&self, room: usize) -> usize
        ensures { IsPiece self.now room result }
    {
        let mut count = room.min(self.bytes.len() - self.at);
        for cut in &self.cuts {
            if self.at < *cut {
                count = count.min(*cut - self.at);
            }
        }
        count
    }

    /// Gives the next piece, once it is written down.
    pub fn give(&mut self, history: &mut History, buf: &mut [u8]) -> Result<usize, Failed>
        ensures ok { IfOk result (λ n. Wrote (log_of history.old) (log_of history.new) (happened (Receive (length buf.old)) (Gives (take n buf.new)))) }
        ensures err { OnErr result (Stopped (log_of history.old) (log_of history.new)) }
        ensures piece { IfOk result (IsPiece self.old (length buf.old)) }
        ensures given { IfOk result (λ n. take n buf.new ≡ take n (bytes_left self.old)) }
        ensures moves_on { IfOk result (MovesOn self.old self.new) }
        ensures left { IfOk result (λ n. bytes_left self.new ≡ drop n (bytes_left self.old)) }
        ensures same { OnErr result (self.new ≡ self.old) }
    {
        let room = buf.len();
        let count = self.piece_len(room);
        let piece = &self.bytes[self.at..self.at + count];
        let Ok(()) = history.received(room, piece) else {
            return Err(Failed);
        };
        buf[..count].copy_from_slice(piece);
        self.at += count;
        Ok(count)
    }
}
