ghost use Rattle.std.specs.Prelude.{◌≡◌, ◌≢◌, ◌∷◌, ◌+◌, ◌<◌, ◌^◌, [], length, MatchResult};
ghost use Rattle.dav_index.specs.Records.{IsRecord, text_of};
ghost use Rattle.dav_index.specs.Faults.{IsRefused, IsRefusedFrom, named_path, entry_path, a_body, a_seen, a_number, a_byte};

use crate::fault::RecordFault;
use crate::reader::Reader;
use crate::record::Record;
use std::alloc::Global;

impl Record {
    /// Reads the text of a record.
    pub fn read(alloc: Global, payload: &[u8]) -> Result<Record, RecordFault>
        ensures { MatchResult result (λ r. IsRecord r × (payload.now ≡ text_of r))
            (λ f. f ≢ RecordFault.Memory → IsRefused payload.now f) }
    {
        let Some((kind, rest)) = payload.split_first() else {
            return Err(RecordFault::Short);
        };
        match *kind {
            2 => read_forgot(alloc, rest),
            3 => read_closed(alloc, rest),
            4 => read_sent(alloc, rest),
            5 => read_lost(alloc, rest),
            6 => read_dropped(rest),
            byte => Err(RecordFault::Kind { byte }),
        }
    }
}

fn read_forgot(alloc: Global, rest: &[u8]) -> Result<Record, RecordFault>
    requires { length rest.now + 1 < 2 ^ 64 }
    ensures { MatchResult result (λ r. IsRecord r × (2 ∷ rest.now ≡ text_of r))
        (λ f. f ≢ RecordFault.Memory → IsRefusedFrom (named_path ∷ a_byte 3 ∷ []) 1 rest.now f) }
{
    let mut reader = Reader::new(rest);
    let path = reader.named_path(alloc)?;
    let flags = reader.byte(3)?;
    reader.end()?;
    Ok(Record::Forgot {
        path,
        locks: flags % 2 == 1,
        below: flags >= 2,
    })
}

fn read_closed(alloc: Global, rest: &[u8]) -> Result<Record, RecordFault>
    requires { length rest.now + 1 < 2 ^ 64 }
    ensures { MatchResult result (λ r. IsRecord r × (3 ∷ rest.now ≡ text_of r))
        (λ f. f ≢ RecordFault.Memory → IsRefusedFrom (entry_path ∷ a_body ∷ []) 1 rest.now f) }
{
    let mut reader = Reader::new(rest);
    let path = reader.entry_path(alloc)?;
    let body = reader.body()?;
    reader.end()?;
    Ok(Record::Closed { path, body })
}

fn read_sent(alloc: Global, rest: &[u8]) -> Result<Record, RecordFault>
    requires { length rest.now + 1 < 2 ^ 64 }
    ensures { MatchResult result (λ r. IsRecord r × (4 ∷ rest.now ≡ text_of r))
        (λ f. f ≢ RecordFault.Memory → IsRefusedFrom (entry_path ∷ a_number ∷ a_seen ∷ []) 1 rest.now f) }
{
    let mut reader = Reader::new(rest);
    let path = reader.entry_path(alloc)?;
    let file = reader.number()?;
    let seen = reader.seen()?;
    reader.end()?;
    Ok(Record::Sent { path, file, seen })
}

fn read_lost(alloc: Global, rest: &[u8]) -> Result<Record, RecordFault>
    requires { length rest.now + 1 < 2 ^ 64 }
    ensures { MatchResult result (λ r. IsRecord r × (5 ∷ rest.now ≡ text_of r))
        (λ f. f ≢ RecordFault.Memory → IsRefusedFrom (a_number ∷ entry_path ∷ a_byte 1 ∷ []) 1 rest.now f) }
{
    let mut reader = Reader::new(rest);
    let number = reader.number()?;
    let path = reader.entry_path(alloc)?;
    let stays = reader.byte(1)?;
    reader.end()?;
    Ok(Record::Lost {
        number,
        path,
        stays: stays == 1,
    })
}

fn read_dropped(rest: &[u8]) -> Result<Record, RecordFault>
    requires { length rest.now + 1 < 2 ^ 64 }
    ensures { MatchResult result (λ r. IsRecord r × (6 ∷ rest.now ≡ text_of r))
        (λ f. f ≢ RecordFault.Memory → IsRefusedFrom (a_number ∷ []) 1 rest.now f) }
{
    let mut reader = Reader::new(rest);
    let number = reader.number()?;
    reader.end()?;
    Ok(Record::Dropped { number })
}
