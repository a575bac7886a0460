ghost use Rattle.std.specs.Prelude.{◌≡◌, ◌+◌, ◌<◌, ◌≤◌, false, [], length, IfOk};
ghost use Rattle.std.specs.Vec.{vec_capacity};
ghost use Rattle.dav_index.specs.Bounds.{IsWithin};
ghost use Rattle.dav_index.specs.Records.{IsBare, sent_begun, text_of};
ghost use Rattle.dav_index.specs.declared.record.Record.{Record};
ghost use Rattle.dav_deeds.specs.Spare.{HasNext, AreRows, IsSpare, kept_spare as kept_spare_lem};

use crate::answer::Flight;
use crate::fates::next_number;
use dav_index::{Prepared, Record, Table};
use dav_text::{Memory, Path};
use std::alloc::Global;

/// The memory that the end of a job needs, whatever the end will be. It is taken with the job.
#[derive(Drop)]
pub struct Spare {
    pub(crate) rows: Rows,
    /// The job's path, for how its bytes wait.
    pub(crate) waits: Path,
    /// Room for the file of its body.
    pub(crate) released: Vec<u32>,
}

/// What the record of the end needs.
#[derive(Drop)]
pub(crate) struct Rows {
    /// The job's path.
    pub path: Path,
    /// The row where its bytes were sent, up to what is known of the file since, with room for that.
    pub sent: Vec<u8>,
    /// The row where they are lost.
    pub lost: Vec<u8>,
    /// The memory to lose them.
    pub loss: Prepared,
}

impl Spare {
    /// What the end of this job needs over this table.
    pub(crate) fn new(alloc: Global, index: &Table, flight: &Flight) -> Result<Spare, Memory>
        requires within { IsWithin index.now }
        requires bare { IsBare flight.now.path }
        requires next { HasNext index.now }
        ensures { IfOk result (IsSpare index.now flight.now) }
    {
        let rows = rows_of(alloc, index, flight)?;
        let waits = flight.path.copy(alloc)?;
        let released = Vec::with_capacity(alloc, 1)?;
        Ok(Spare {
            rows,
            waits,
            released,
        })
    }
}

// What the record of the end of this job needs.
fn rows_of(alloc: Global, index: &Table, flight: &Flight) -> Result<Rows, Memory>
    requires within { IsWithin index.now }
    requires bare { IsBare flight.now.path }
    requires next { HasNext index.now }
    ensures { IfOk result (AreRows index.now flight.now) }
{
    let path = flight.path.copy(alloc)?;
    let sent = sent_row(alloc, flight)?;
    let lost = lost_row(alloc, index, flight)?;
    let loss = index.prepare_loss(&flight.path)?;
    Ok(Rows {
        path,
        sent,
        lost,
        loss,
    })
}

// The row of a job whose bytes were sent, up to what is known of the file since, with room for that.
fn sent_row(alloc: Global, flight: &Flight) -> Result<Vec<u8>, Memory>
    requires bare { IsBare flight.now.path }
    ensures row { IfOk result (λ row. row.items ≡ sent_begun flight.now.path flight.now.body.file) }
    ensures room { IfOk result (λ row. length row.items + 130 ≤ vec_capacity row) }
{
    let mut row = Vec::new(alloc);
    Record::begin_sent(&flight.path, flight.body.file, &mut row)?;
    row.reserve(Record::SEEN_MAX)?;
    Ok(row)
}

// The row of a job whose bytes are lost under the next number.
fn lost_row(alloc: Global, index: &Table, flight: &Flight) -> Result<Vec<u8>, Memory>
    requires within { IsWithin index.now }
    requires bare { IsBare flight.now.path }
    ensures { IfOk result (λ row. row.items ≡ text_of (Record.Lost index.now.next_lost flight.now.path false)) }
{
    let path = flight.path.copy(alloc)?;
    let record = Record::Lost {
        number: next_number(index),
        path,
        stays: false,
    };
    let mut row = Vec::new(alloc);
    record.write(&mut row)?;
    Ok(row)
}

/// What was taken now, or else what was there.
pub fn kept_spare(saved: Option<Spare>, old: Option<Spare>) -> Option<Spare>
    ensures { result ≡ kept_spare_lem saved old }
{
    match saved {
        Some(spare) => Some(spare),
        None => old,
    }
}
