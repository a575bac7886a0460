ghost use Rattle.std.specs.Prelude.{◌≡◌, ◌+◌, ◌<◌, ◌≤◌, ◌^◌, ◌++◌, ◌∷◌, [], length, OnOk, OnErr, vec_len, vec_capacity};
ghost use Rattle.dav_text.specs.Path.{escaped, BeginsWith};
ghost use Rattle.dav_index.specs.Records.{IsRecord, IsNoted, text_of, sent_begun, path_text, body_text, seen_text, flags_of as flags_of_lem, bit_of, four_bytes, eight_bytes};

use crate::record::Record;
use dav_store::BodyId;
use dav_text::{Memory, Path, Seen};

impl Record {
    /// How many bytes the text of what is known of a file has at most.
    pub const SEEN_MAX: usize = 130;

    /// Writes the text of a `Sent` record up to what is known of the file. On an error a part of it may
    /// stand behind what was there.
    pub fn begin_sent(path: &Path, file: u32, out: &mut Vec<u8>) -> Result<(), Memory>
        requires { length (escaped path.now) < 65536 }
        ensures ok { OnOk result (out.new.items ≡ out.old.items ++ sent_begun path.now file) }
        ensures err { OnErr result (BeginsWith out.old.items out.new.items) }
    {
        out.push(4)?;
        append_path(path, out)?;
        append_number(file, out)
    }

    /// Writes the rest of the text of a `Sent` record, for which there is room. Takes no memory.
    pub fn end_sent(seen: &Seen, out: &mut Vec<u8>)
        requires noted { IsNoted seen.now }
        requires room { vec_len out.old + 130 ≤ vec_capacity out.old }
        ensures { out.new.items ≡ out.old.items ++ seen_text seen.now }
    {
        match seen {
            Seen::Unknown => {}
            Seen::Absent => out.push_reserved(1),
            Seen::Untagged => out.push_reserved(2),
            Seen::Tagged(tag) => put_tag(tag.as_slice(), out),
        }
    }

    /// Writes the record's text at the end of `out`. On an error nothing is written.
    pub fn write(&self, out: &mut Vec<u8>) -> Result<(), Memory>
        requires { IsRecord self.now }
        ensures ok { OnOk result (out.new.items ≡ out.old.items ++ text_of self.now) }
        ensures err { OnErr result (out.new.items ≡ out.old.items) }
    {
        let before = out.len();
        match self.append(out) {
            Ok(()) => Ok(()),
            Err(memory) => {
                out.truncate(before);
                Err(memory)
            }
        }
    }

    // Writes the record's text. On an error a part of it may stand behind what was there.
    fn append(&self, out: &mut Vec<u8>) -> Result<(), Memory>
        requires { IsRecord self.now }
        ensures ok { OnOk result (out.new.items ≡ out.old.items ++ text_of self.now) }
        ensures err { OnErr result (BeginsWith out.old.items out.new.items) }
    {
        match self {
            Record::Forgot { path, locks, below } => append_forgot(path, *locks, *below, out),
            Record::Closed { path, body } => append_closed(path, body, out),
            Record::Sent { path, file, seen } => append_sent(path, *file, seen, out),
            Record::Lost {
                number,
                path,
                stays,
            } => append_lost(*number, path, *stays, out),
            Record::Dropped { number } => append_dropped(*number, out),
        }
    }
}

fn append_forgot(path: &Path, locks: bool, below: bool, out: &mut Vec<u8>) -> Result<(), Memory>
    requires { length (escaped path.now) < 65536 }
    ensures ok { OnOk result (out.new.items ≡ out.old.items ++ text_of (Record.Forgot path.now locks below)) }
    ensures err { OnErr result (BeginsWith out.old.items out.new.items) }
{
    out.push(2)?;
    append_path(path, out)?;
    out.push(flags_of(locks, below))?;
    Ok(())
}

fn append_closed(path: &Path, body: &BodyId, out: &mut Vec<u8>) -> Result<(), Memory>
    requires { length (escaped path.now) < 65536 }
    ensures ok { OnOk result (out.new.items ≡ out.old.items ++ text_of (Record.Closed path.now body.now)) }
    ensures err { OnErr result (BeginsWith out.old.items out.new.items) }
{
    out.push(3)?;
    append_path(path, out)?;
    append_body(body, out)
}

fn append_sent(path: &Path, file: u32, seen: &Seen, out: &mut Vec<u8>) -> Result<(), Memory>
    requires short { length (escaped path.now) < 65536 }
    requires noted { IsNoted seen.now }
    ensures ok { OnOk result (out.new.items ≡ out.old.items ++ text_of (Record.Sent path.now file seen.now)) }
    ensures err { OnErr result (BeginsWith out.old.items out.new.items) }
{
    Record::begin_sent(path, file, out)?;
    out.reserve(Record::SEEN_MAX)?;
    Record::end_sent(seen, out);
    Ok(())
}

fn append_lost(number: u32, path: &Path, stays: bool, out: &mut Vec<u8>) -> Result<(), Memory>
    requires { length (escaped path.now) < 65536 }
    ensures ok { OnOk result (out.new.items ≡ out.old.items ++ text_of (Record.Lost number path.now stays)) }
    ensures err { OnErr result (BeginsWith out.old.items out.new.items) }
{
    out.push(5)?;
    append_number(number, out)?;
    append_path(path, out)?;
    out.push(u8::from(stays))?;
    Ok(())
}

fn append_dropped(number: u32, out: &mut Vec<u8>) -> Result<(), Memory>
    ensures ok { OnOk result (out.new.items ≡ out.old.items ++ text_of (Record.Dropped number)) }
    ensures err { OnErr result (BeginsWith out.old.items out.new.items) }
{
    out.push(6)?;
    append_number(number, out)
}

// Writes the length of the path's text, and that text.
fn append_path(path: &Path, out: &mut Vec<u8>) -> Result<(), Memory>
    requires { length (escaped path.now) < 65536 }
    ensures ok { OnOk result (out.new.items ≡ out.old.items ++ path_text path.now) }
    ensures err { OnErr result (BeginsWith out.old.items out.new.items) }
{
    let at = out.len();
    out.push(0)?;
    out.push(0)?;
    path.escaped_into(out)?;
    let len = out.len() - (at + 2);
    out[at] = (len / 256) as u8;
    out[at + 1] = (len % 256) as u8;
    Ok(())
}

fn append_body(body: &BodyId, out: &mut Vec<u8>) -> Result<(), Memory>
    ensures ok { OnOk result (out.new.items ≡ out.old.items ++ body_text body.now) }
    ensures err { OnErr result (BeginsWith out.old.items out.new.items) }
{
    append_number(body.file, out)?;
    append_size(body.len, out)?;
    out.extend_from_slice(&body.sum)?;
    Ok(())
}

// Writes a tag that there is, with its length.
fn put_tag(tag: &[u8], out: &mut Vec<u8>)
    requires short { length tag.now ≤ 128 }
    requires room { vec_len out.old + 130 ≤ vec_capacity out.old }
    ensures { out.new.items ≡ out.old.items ++ 3 ∷ length tag.now ∷ tag.now }
{
    out.push_reserved(3);
    out.push_reserved(tag.len() as u8);
    let Ok(()) = out.extend_from_slice(tag) else {
        unreachable!();
    };
}

// Writes the number in four bytes, the highest first.
fn append_number(number: u32, out: &mut Vec<u8>) -> Result<(), Memory>
    ensures ok { OnOk result (out.new.items ≡ out.old.items ++ four_bytes number) }
    ensures err { OnErr result (BeginsWith out.old.items out.new.items) }
{
    out.extend_from_slice(&number.to_be_bytes())?;
    Ok(())
}

// Writes the size in eight bytes, the highest first.
fn append_size(size: u64, out: &mut Vec<u8>) -> Result<(), Memory>
    ensures ok { OnOk result (out.new.items ≡ out.old.items ++ eight_bytes size) }
    ensures err { OnErr result (BeginsWith out.old.items out.new.items) }
{
    out.extend_from_slice(&size.to_be_bytes())?;
    Ok(())
}

fn flags_of(locks: bool, below: bool) -> u8
    ensures { result ≡ flags_of_lem locks below }
{
    u8::from(locks) + 2 * u8::from(below)
}
