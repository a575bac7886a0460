ghost use Rattle.std.specs.Prelude.{◌≡◌, ◌↔◌, ◌+◌, IsTrue, IfOk, OnOk, OnErr, min, count_by, nat_eq, nat_le};
ghost use Rattle.std.specs.List.{list_all};
ghost use Rattle.dav_index.specs.Item.{Item};
ghost use Rattle.dav_index.specs.Bounds.{IsWithin, queued_count as queued_count_lem, queued_bytes as queued_bytes_lem, len_of};
ghost use Rattle.dav_index.specs.Records.{IsRecord};
ghost use Rattle.dav_index.specs.Tables.{replay, has_file as has_file_lem, queued_body};
ghost use Rattle.dav_index.specs.Tests.{HasRoom, is_known as is_known_lem, is_body_within as is_body_within_lem, is_kept_within as is_kept_within_lem, waits_well as waits_well_lem, is_entry_within as is_entry_within_lem, is_lost_within as is_lost_within_lem, file_count, is_apart as is_apart_lem, is_numbered_apart as is_numbered_apart_lem};
ghost use Rattle.dav_index.specs.declared.lost.LostItem.{LostItem};
ghost use Rattle.dav_index.specs.declared.table.Table.{Table};

use crate::entries::Held;
use crate::entry::{Entry, has_file};
use crate::lost::LostItem;
use crate::record::Record;
use crate::table::Table;
use dav_store::BodyId;
use dav_text::{Memory, Seen};

/// How many files may be known.
const KNOWN_MAX: usize = 16384;

/// How many entries may be queued, with the lost bytes.
const KEPT_MAX: usize = 4096;

/// How many bytes may be queued.
const QUEUED_BYTES_MAX: u64 = 1_073_741_824;

/// How many bytes a body may have.
const BODY_MAX: u64 = 8_388_608;

impl Table {
    /// Does what the record says, and tells whether the table is still within its bounds. A record brings together only what
    /// it names, so of files and numbers only these are counted.
    pub fn replay_within(&mut self, row: u64, rec: &Record) -> Result<bool, Memory>
        requires row { row ≡ self.old.records + 1 }
        requires is_record { IsRecord rec.now }
        requires within { IsWithin self.old }
        ensures ok { OnOk result (self.new ≡ replay self.old rec.now) }
        ensures err { OnErr result (self.new ≡ self.old) }
        ensures told { IfOk result (λ told. IsTrue told ↔ IsWithin (replay self.old rec.now)) }
    {
        self.replay(row, rec)?;
        Ok(self.is_still_within(rec))
    }

    // Whether the table is within its bounds, as it was before this record.
    fn is_still_within(&self, rec: &Record) -> bool
        ensures { (before : Table) → IsWithin before → self.now ≡ replay before rec.now → (IsTrue result ↔ IsWithin self.now) }
    {
        let entries = self.entries.as_slice();
        let lost = self.lost.as_slice();
        if !self.has_room() {
            return false;
        }
        if !entries_within(entries, self.next_file) {
            return false;
        }
        if !lost_within(lost, self.next_file, self.next_lost) {
            return false;
        }
        if !self.is_apart(rec) {
            return false;
        }
        self.is_numbered_apart(rec)
    }

    // Whether no limit on numbers is passed.
    fn has_room(&self) -> bool
        ensures { IsTrue result ↔ HasRoom self.now }
    {
        let entries = self.entries.as_slice();
        let lost = self.lost.as_slice();
        let queued = queued_count(entries);
        entries.len() <= KNOWN_MAX
            && queued.saturating_add(lost.len()) <= KEPT_MAX
            && queued_bytes(entries) <= QUEUED_BYTES_MAX
            && self.next_file <= u64::from(u32::MAX)
            && self.next_lost >= 1
            && self.next_lost.saturating_add(queued as u64) < self.next_file
    }

    // Whether no other body is in the file of the one that the record brings.
    fn is_apart(&self, rec: &Record) -> bool
        ensures { result ≡ is_apart_lem rec.now self.now }
    {
        match rec {
            Record::Closed { body, .. } => self.has_one_at_most(body.file),
            _ => true,
        }
    }

    // Whether no other lost bytes have the number that the record gives.
    fn is_numbered_apart(&self, rec: &Record) -> bool
        ensures { result ≡ is_numbered_apart_lem rec.now self.now }
    {
        match rec {
            Record::Lost { number, .. } => number_count(self.lost.as_slice(), *number) <= 1,
            _ => true,
        }
    }

    // Whether at most one body is in this file.
    fn has_one_at_most(&self, file: u32) -> bool
        ensures { result ≡ nat_le (file_count self.now file) 1 }
    {
        let kept = kept_count(self.entries.as_slice(), file);
        let lost = lost_count(self.lost.as_slice(), file);
        kept.saturating_add(lost) <= 1
    }
}

// How many entries are queued.
pub(crate) fn queued_count(entries: &[Held]) -> usize
    ensures { result ≡ queued_count_lem entries.now }
{
    entries
        .iter()
        .filter(|held| held.entry().queued.is_some())
        .count()
}

// How many bytes are queued, up to the greatest number.
pub(crate) fn queued_bytes(entries: &[Held]) -> u64
    ensures { result ≡ min (queued_bytes_lem entries.now) 18446744073709551615 }
{
    let mut total: u64 = 0;
    for held in entries {
        total = total.saturating_add(queued_len(held.entry()));
    }
    total
}

// How many bytes of the entry are queued.
fn queued_len(entry: &Entry) -> u64
    ensures { result ≡ len_of (queued_body entry.now) }
{
    match entry.queued_body() {
        Some(body) => body.len,
        None => 0,
    }
}

// How many entries have a body in this file.
fn kept_count(entries: &[Held], file: u32) -> usize
    ensures { result ≡ count_by (λ (item : Item). has_file_lem file item.entry.body) entries.now }
{
    entries
        .iter()
        .filter(|held| has_file(held.entry().body, file))
        .count()
}

// How many lost bodies are in this file.
fn lost_count(lost: &[LostItem], file: u32) -> usize
    ensures { result ≡ count_by (λ (item : LostItem). nat_eq item.body.file file) lost.now }
{
    lost.iter().filter(|item| item.body.file == file).count()
}

// How many lost bodies have this number.
fn number_count(lost: &[LostItem], number: u32) -> usize
    ensures { result ≡ count_by (λ (item : LostItem). nat_eq item.number number) lost.now }
{
    lost.iter().filter(|item| item.number == number).count()
}

fn entries_within(entries: &[Held], next_file: u64) -> bool
    ensures { result ≡ list_all (λ (item : Item). is_entry_within_lem next_file item.entry) entries.now }
{
    entries
        .iter()
        .all(|held| is_entry_within(held.entry(), next_file))
}

fn lost_within(lost: &[LostItem], next_file: u64, next_lost: u64) -> bool
    ensures { result ≡ list_all (is_lost_within_lem next_file next_lost) lost.now }
{
    lost.iter().all(|item| is_body_within(&item.body, next_file)
        && u64::from(item.number) < next_lost)
}

fn is_entry_within(entry: &Entry, next_file: u64) -> bool
    ensures { result ≡ is_entry_within_lem next_file entry.now }
{
    is_known(&entry.seen) && waits_well(entry) && is_kept_within(entry.body, next_file)
}

fn is_known(seen: &Seen) -> bool
    ensures { result ≡ is_known_lem seen.now }
{
    !matches!(seen, Seen::Unknown)
}

fn waits_well(entry: &Entry) -> bool
    ensures { result ≡ waits_well_lem entry.now }
{
    entry.queued.is_none() || entry.body.is_some()
}

fn is_kept_within(body: Option<BodyId>, next_file: u64) -> bool
    ensures { result ≡ is_kept_within_lem next_file body }
{
    match body {
        Some(body) => is_body_within(&body, next_file),
        None => true,
    }
}

fn is_body_within(body: &BodyId, next_file: u64) -> bool
    ensures { result ≡ is_body_within_lem next_file body.now }
{
    body.len <= BODY_MAX && body.file >= 2 && u64::from(body.file) < next_file
}
