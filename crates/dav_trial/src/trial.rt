ghost use Rattle.std.specs.Prelude.{◌≡◌, ◌≤◌, ⊤, ℕ, List, length, IfOk, OnOk};
ghost use Rattle.dav_store.specs.Rows.{IsReading, IsReady};
ghost use Rattle.dav_store.specs.View.{journal_end};

use dav_disk::{Disk, Modelled};
use dav_real::{FolderCalls, Unknown};
use dav_store::{Bodies, BodyId, Journal, StoreFault, head_payload};
use dav_text::Memory;
use std::alloc::Global;
use std::io;
use std::rt::Files;

/// Why a trial ended early.
#[derive(Debug, Drop)]
pub enum Stop {
    Store(StoreFault),
    Memory,
    Print,
    /// The row of that number, or its body, is not as it was acknowledged.
    Differs(u64),
}

impl From<StoreFault> for Stop {
    ghost from_gives = { λ _ _. ⊤ };

    fn from(fault: StoreFault) -> Stop {
        Stop::Store(fault)
    }
}

impl From<Memory> for Stop {
    ghost from_gives = { λ _ _. ⊤ };

    fn from(_memory: Memory) -> Stop {
        Stop::Memory
    }
}

impl From<io::Error> for Stop {
    ghost from_gives = { λ _ _. ⊤ };

    fn from(_error: io::Error) -> Stop {
        Stop::Print
    }
}

/// The bytes of the body of that number, which differ from number to number.
fn body_of(alloc: Global, number: u64) -> Result<Vec<u8>, Stop> {
    let mut bytes = Vec::new(alloc);
    for i in 0..number % 5000 + 1 {
        let Ok(()) = bytes.push(((number % 251 + i % 251) % 251) as u8) else {
            return Err(Stop::Memory);
        };
    }
    Ok(bytes)
}

/// The file of the body of that number.
fn file_of(number: u64) -> u32
    ensures { 2 ≤ result }
{
    (number % 1_000_000) as u32 + 2
}

/// The row of that number: the number, and its body's length and SHA-256.
fn row_of(number: u64, id: &BodyId) -> [u8; 48] {
    let mut row = [0u8; 48];
    row[..8].copy_from_slice(&number.to_be_bytes());
    row[8..16].copy_from_slice(&id.len.to_be_bytes());
    row[16..].copy_from_slice(&id.sum);
    row
}

/// Compares a row that stands, and its body, with what was to be written.
fn check_row<D: Disk>(alloc: Global, disk: &mut D, number: u64, row: &[u8]) -> Result<(), Stop>
    ensures reading { D.honest disk.new → (rows : List (List ℕ)) (end : ℕ) → IsReading rows end (D.seen disk.old 0) (D.past disk.old (D.moment disk.old) 0)
        → IsReading rows end (D.seen disk.new 0) (D.past disk.new (D.moment disk.new) 0) }
    ensures keeps { D.honest disk.new → D.honest disk.old }
{
    let bytes = body_of(alloc, number)?;
    let id = BodyId::of(file_of(number), bytes.as_slice());
    let body = Bodies::new(alloc).fetch(disk, &id)?;
    if row != row_of(number, &id).as_slice() || body.as_slice() != bytes.as_slice() {
        return Err(Stop::Differs(number));
    }
    Ok(())
}

/// Reads each row that stands, with its body, and says how many there are.
fn check_rows<D: Disk>(alloc: Global, disk: &mut D, journal: &mut Journal) -> Result<u64, Stop>
    ensures ready { D.honest disk.new → OnOk result ((rows : List (List ℕ)) → IsReading rows (journal_end journal.old) (D.seen disk.old 0) (D.past disk.old (D.moment disk.old) 0)
        → IsReady (journal_end journal.new) (D.seen disk.new 0) (D.past disk.new (D.moment disk.new) 0)) }
    ensures keeps { D.honest disk.new → D.honest disk.old }
{
    for number in 0..u64::MAX {
        match journal.next_row(disk)? {
            None => return Ok(number),
            Some((_, row)) => check_row(alloc, disk, number, row.as_slice())?,
        }
    }
    Err(Stop::Memory)
}

/// Opens the index, made where nothing stands, and reads all rows.
fn begin<D: Disk>(alloc: Global, disk: &mut D) -> Result<(Journal, u64), Stop>
    ensures { D.honest disk.new → IfOk result (λ both. IsReady (journal_end both.0) (D.seen disk.new 0) (D.past disk.new (D.moment disk.new) 0)) }
{
    let head = head_payload(alloc, b"http://h/")?;
    let mut journal = Journal::start(alloc, disk, head.as_slice())?;
    let count = check_rows(alloc, disk, &mut journal)?;
    Ok((journal, count))
}

/// Adds bodies and rows from that number on, and says the number of each row that is acknowledged.
fn add_rows<R: AllocGlobal + Print, D: Disk>(
    rt: &R,
    disk: &mut D,
    journal: &mut Journal,
    first: u64,
) -> Result<(), Stop>
    requires { D.honest disk.old → IsReady (journal_end journal.old) (D.seen disk.old 0) (D.past disk.old (D.moment disk.old) 0) }
{
    let alloc = rt.alloc();
    let mut bodies = Bodies::new(alloc);
    for number in first..u64::MAX {
        let bytes = body_of(alloc, number)?;
        let file = file_of(number);
        let id = BodyId::of(file, bytes.as_slice());
        bodies.keep(disk, file, bytes.as_slice())?;
        journal.append(disk, row_of(number, &id).as_slice())?;
        println!(rt; "{number}")?;
    }
    Ok(())
}

/// Says how many rows stand, each with its body.
pub fn read_all<R: Files + AllocGlobal + Print>(rt: &R, folder: &str) -> Result<(), Stop> {
    let mut disk = Modelled::new(FolderCalls::new(rt, folder), Unknown);
    let (_, count) = begin(rt.alloc(), &mut disk)?;
    println!(rt; "{count}")?;
    Ok(())
}

/// Adds bodies and rows, and says the number of each row that is acknowledged.
pub fn write_rows<R: Files + AllocGlobal + Print>(rt: &R, folder: &str) -> Result<(), Stop> {
    let mut disk = Modelled::new(FolderCalls::new(rt, folder), Unknown);
    let (mut journal, count) = begin(rt.alloc(), &mut disk)?;
    add_rows(rt, &mut disk, &mut journal, count)
}
