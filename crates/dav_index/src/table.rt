ghost use Rattle.std.specs.Prelude.{◌≡◌, ◌+◌, max, length, IfOk, OnOk, OnErr};
ghost use Rattle.dav_index.specs.Items.{entry_at};
ghost use Rattle.dav_index.specs.Ready.{IsReady, HasLoss, NeedsLoss, NeedsFresh};
ghost use Rattle.dav_index.specs.Records.{IsRecord, IsBare};
ghost use Rattle.dav_index.specs.Tables.{fresh_table, replay, queued_at, entries_after, lost_after};
ghost use Rattle.dav_index.specs.declared.record.Record.TheVariants as records;

use crate::entries::Entries;
use crate::fresh::{Fresh, Loss, Prepared};
use crate::lost::LostList;
use crate::record::Record;
use dav_text::{Memory, Path};
use std::alloc::Global;

/// What the records of an index come to.
#[derive(Debug, Drop)]
pub struct Table {
    /// What is known and queued, by path.
    pub entries: Entries,
    /// The bytes that the server refused.
    pub lost: LostList,
    /// How many records there were.
    pub records: u64,
    /// The next file number: above each that a record named, and at least 2.
    pub next_file: u64,
    /// The next number of lost bytes: above each that a record named, and at least 1. It is 2^32 once a
    /// record named the greatest.
    pub next_lost: u64,
}

impl Table {
    /// The table of a cache without records. Takes no memory.
    pub fn new(alloc: Global) -> Table
        ensures { result ≡ fresh_table }
    {
        Table {
            entries: Entries::new(alloc),
            lost: LostList::new(alloc),
            records: 0,
            next_file: 2,
            next_lost: 1,
        }
    }

    /// Does what the record says. `row` is the number of records up to and with this one.
    pub fn replay(&mut self, row: u64, rec: &Record) -> Result<(), Memory>
        requires row { row ≡ self.old.records + 1 }
        requires is_record { IsRecord rec.now }
        ensures ok { OnOk result (self.new ≡ replay self.old rec.now) }
        ensures err { OnErr result (self.new ≡ self.old) }
    {
        let prepared = self.prepare(rec)?;
        self.replay_prepared(row, rec, prepared);
        Ok(())
    }

    /// The memory that the replay of this record needs.
    pub fn prepare(&self, rec: &Record) -> Result<Prepared, Memory>
        requires { IsRecord rec.now }
        ensures { IfOk result (IsReady self.now rec.now) }
    {
        match rec {
            Record::Closed { path, .. } => self.prepare_entry(path),
            Record::Lost { path, .. } => self.prepare_loss(path),
            _ => Ok(Prepared::nothing()),
        }
    }

    /// The memory that is needed to lose what is queued of this path, whatever number it gets.
    pub fn prepare_loss(&self, path: &Path) -> Result<Prepared, Memory>
        ensures { IfOk result (λ p. HasLoss path.now (length self.now.lost) p.loss) }
    {
        let alloc = self.lost.alloc;
        let len = self.lost.as_slice().len();
        Ok(Prepared {
            fresh: None,
            loss: Some(Loss {
                path: path.copy(alloc)?,
                space: Vec::with_capacity(alloc, len + 16)?,
            }),
        })
    }

    // The memory that an entry of this path needs, if it has none.
    fn prepare_entry(&self, path: &Path) -> Result<Prepared, Memory>
        requires { IsBare path.now }
        ensures { IfOk result (λ p. NeedsFresh path.now (length self.now.entries) (entry_at path.now self.now.entries) p.fresh) }
    {
        if self.entries.get(path).is_some() {
            return Ok(Prepared::nothing());
        }
        let alloc = self.entries.alloc;
        let len = self.entries.as_slice().len();
        Ok(Prepared {
            fresh: Some(Fresh {
                key: path.escaped(alloc)?,
                path: path.copy(alloc)?,
                space: Vec::with_capacity(alloc, len + 64)?,
            }),
            loss: None,
        })
    }

    /// Does what the record says, with the memory that was taken for it.
    pub fn replay_prepared(&mut self, row: u64, rec: &Record, prepared: Prepared)
        requires row { row ≡ self.old.records + 1 }
        requires is_record { IsRecord rec.now }
        requires ready { IsReady self.old rec.now prepared }
        ensures { self.new ≡ replay self.old rec.now }
    {
        let Prepared { fresh, loss } = prepared;
        match rec {
            Record::Forgot { path, below, .. } => self.entries.forget(path, *below),
            Record::Closed { path, body } => {
                self.entries.close(path, *body, row, fresh);
                self.next_file = above(self.next_file, body.file);
            }
            Record::Sent { path, file, seen } => {
                self.entries.sent(path, *file, seen, row);
                self.next_file = above(self.next_file, *file);
            }
            Record::Lost {
                number,
                path,
                stays,
            } => {
                self.lose(*number, path, *stays, row, loss);
                self.next_lost = above(self.next_lost, *number);
            }
            Record::Dropped { number } => {
                self.lost.forget(*number);
                self.next_lost = above(self.next_lost, *number);
            }
        }
        self.records = row;
    }

    // What is queued of the path, if anything, goes to the lost bytes under this number.
    fn lose(&mut self, number: u32, path: &Path, stays: bool, row: u64, loss: Option<Loss>)
        requires bare { IsBare path.now }
        requires loss { NeedsLoss path.now (length self.old.lost) (queued_at path.now self.old.entries) loss }
        ensures { self.new ≡ record self.old {
          entries = entries_after self.old.entries row (records.Lost number path.now stays);
          lost = lost_after self.old.entries self.old.lost (records.Lost number path.now stays);
        } }
    {
        let Some(body) = self.entries.queued(path) else {
            return;
        };
        let Some(loss) = loss else {
            unreachable!();
        };
        if stays {
            self.entries.empty(path, row);
        } else {
            self.entries.forget(path, false);
        }
        self.lost.add(number, body, loss);
    }
}

// The next number, where this one was named too.
fn above(next: u64, named: u32) -> u64
    ensures { result ≡ max next (named + 1) }
{
    next.max(u64::from(named) + 1)
}
