ghost use Rattle.std.specs.Prelude.{◌≡◌, ◌≤◌, ◌<◌, ℕ, List, length, IfOk, IfErr, OnOk};
ghost use Rattle.dav_disk.specs.Disk.{Touches, OthersStay};
ghost use Rattle.dav_store.specs.Rows.{IsReady};
ghost use Rattle.dav_store.specs.Start.{head_of};
ghost use Rattle.dav_store.specs.View.{journal_end};
ghost use Rattle.dav_index.specs.Bounds.{IsWithin};
ghost use Rattle.dav_index.specs.declared.table.Table.{Table};
ghost use Rattle.dav_recorder.specs.Stands.{EachImage};
ghost use Rattle.dav_recorder.specs.Recovers.{Recovers, AllRecover, IsConsistent};
ghost use Rattle.dav_recorder.specs.Opening.{IsIndexOf, IsStartFault, IsOther, desk_fault};

use crate::reading::{Opened, read_table};
use dav_deeds::DeskFault;
use dav_disk::Disk;
use dav_store::{Journal, StoreFault, head_payload};
use dav_text::{Memory, Text};
use std::alloc::Global;

/// Opens the index of a disk for a URL, which is made where nothing stands, and reads the table that it leads to. At each
/// moment a stop leaves what recovers to the same table.
pub(crate) fn open<D: Disk>(alloc: Global, disk: &mut D, url: &str) -> Result<Opened, DeskFault>
    requires { length url.now < 65505 }

    ensures table { D.honest disk.new → IfOk result (λ o. (table : Table) (bodies : ℕ → List ℕ) → AllRecover url.now table bodies (D.past disk.old (D.moment disk.old))
        → (o.table ≡ table) × IsConsistent url.now table bodies (journal_end o.journal) (D.seen disk.new) (D.past disk.new (D.moment disk.new))) }
    ensures any_moment { D.honest disk.new → (table : Table) (bodies : ℕ → List ℕ) → AllRecover url.now table bodies (D.past disk.old (D.moment disk.old))
        → EachImage (D.past disk.new) (D.moment disk.old) (D.moment disk.new) (Recovers url.now table bodies) }
    ensures opened { D.honest disk.new → IfOk result (λ o. (length (D.seen disk.old 0) < 1099511627776) × IsIndexOf url.now o.table (D.seen disk.old 0)) }
    ensures indexed { IfOk result (λ o. (file : List ℕ) × IsIndexOf url.now o.table file) }
    ensures within { IfOk result (λ o. IsWithin o.table) }
    ensures fault { IfErr result (λ e. IsStartFault (D.honest disk.new) url.now (D.seen disk.old 0) (D.faults disk.old) (D.faults disk.new) e) }
    ensures ready { D.honest disk.new → IfOk result (λ o. IsReady (journal_end o.journal) (D.seen disk.new 0) (D.past disk.new (D.moment disk.new) 0)) }
    ensures touches { D.honest disk.new → Touches (λ f. f ≡ 0) (D.moment disk.old) (D.moment disk.new) (D.past disk.old) (D.past disk.new) }
    ensures others { D.honest disk.new → OthersStay 0 (D.seen disk.old) (D.seen disk.new) }
    ensures keeps { D.honest disk.new → D.honest disk.old }
    ensures moments { D.moment disk.old ≤ D.moment disk.new }
    ensures faults { D.faults disk.old ≤ D.faults disk.new }
{
    let head = head_payload(alloc, url.as_bytes())?;
    let journal = match Journal::start(alloc, disk, head.as_slice()) {
        Ok(journal) => journal,
        Err(fault) => return Err(fault_of(fault)),
    };
    if journal.head() != head.as_slice() {
        return Err(other_server(alloc, journal.head(), url));
    }
    match read_table(alloc, disk, journal) {
        Ok(opened) => Ok(opened),
        Err(fault) => Err(fault_of(fault)),
    }
}

/// The same fault as one of the desk.
pub(crate) fn fault_of(fault: StoreFault) -> DeskFault
    ensures { result ≡ desk_fault fault }
{
    match fault {
        StoreFault::Disk => DeskFault::Disk,
        StoreFault::NotACache { at } => DeskFault::NotACache { at },
        StoreFault::Damaged {
            file,
            stored,
            found,
        } => DeskFault::Damaged {
            file,
            stored,
            found,
        },
        StoreFault::Memory => DeskFault::Memory,
    }
}

/// The answer where this head is not the one of this URL.
fn other_server(alloc: Global, head: &[u8], url: &str) -> DeskFault
    ensures { IsOther url.now head.now result }
{
    let text = &head[head.len().min(7)..];
    let Ok(kept) = str::from_utf8(text) else {
        return DeskFault::NotACache { at: 0 };
    };
    match both_texts(alloc, kept, url) {
        Ok((kept, asked)) => DeskFault::OtherServer { kept, asked },
        Err(Memory) => DeskFault::Memory,
    }
}

/// Both texts as values of their own.
fn both_texts(alloc: Global, kept: &str, asked: &str) -> Result<(Text, Text), Memory>
    ensures { IfOk result (λ both. (both.0 ≡ kept.now) × (both.1 ≡ asked.now)) }
{
    let kept = Text::copy_of(alloc, kept)?;
    let asked = Text::copy_of(alloc, asked)?;
    Ok((kept, asked))
}
