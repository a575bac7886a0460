ghost use Rattle.std.specs.Prelude.{is_ok};
ghost use Rattle.dav_edge.specs.Whole.{DoesOn, Sends};

use crate::{Failed, Sink, Wire};

/// Sends all the bytes, in as many calls as it takes.
pub fn send_whole<W: Wire>(wire: &mut W, bytes: &[u8]) -> Result<(), Failed>
    ensures { DoesOn (W.log wire.old) (W.log wire.new) (Sends bytes.now) (is_ok result) }
{
    let mut rest = bytes;
    while !rest.is_empty() {
        let Ok(count) = wire.send(rest) else {
            return Err(Failed);
        };
        rest = &rest[count..];
    }
    Ok(())
}

/// Writes all the bytes, in as many calls as it takes.
pub fn put_whole<O: Sink>(out: &mut O, bytes: &[u8]) -> Result<(), Failed>
    ensures { DoesOn (O.log out.old) (O.log out.new) (Sends bytes.now) (is_ok result) }
{
    let mut rest = bytes;
    while !rest.is_empty() {
        let Ok(count) = out.put(rest) else {
            return Err(Failed);
        };
        rest = &rest[count..];
    }
    Ok(())
}
