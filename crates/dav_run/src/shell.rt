ghost use Rattle.std.specs.Prelude.{◌≡◌, ◌++◌, ℕ, List, length, Ok, OnOk};
ghost use Rattle.dav_text.specs.Path.{PathParts, IsPath};
ghost use Rattle.dav_deeds.specs.Legal.{IsAsk, IsOfShell};
ghost use Rattle.dav_deeds.specs.declared.ask.Ask.TheVariants as asks;
ghost use Rattle.dav_upload.specs.Desks.{disk_view};
ghost use Rattle.dav_run.specs.Answering.{DoesDesk, DoesLine, HasPath, IsFit, lined_of, said_text};
ghost use Rattle.dav_run.specs.Causes.{cause_of as cause_of_lem};
ghost use Rattle.dav_run.specs.Line.{IsPut};
ghost use Rattle.dav_run.specs.Said.{state_of};
ghost use Rattle.dav_run.specs.Shell.{fresh_state, counted, faulted, starved, closed_line, crowded_line, limit_line, StoresOr, makes_room, refused as refused_lem, unforgotten as unforgotten_lem, StillCrowded, IsStillCrowded};

use crate::ask::ask_desk;
use crate::cause::{Cause, cause_of};
use crate::line::{Put, read_put};
use dav_deeds::{Ask, DeskFault};
use dav_desk::Desk;
use dav_disk::Disk;
use dav_text::{Memory, Path, Which, decimal};
use std::alloc::Global;

/// What the shell has: the desk, and what the lines so far came to.
#[derive(Drop)]
pub struct Shell<D> {
    pub alloc: Global,
    /// Where a typed path stands that is not rooted.
    pub current: Path,
    pub desk: Desk<D>,
    /// The text of an answer that has a path in it.
    pub text: Vec<u8>,
    pub faulty: bool,
    pub starved: bool,
    pub done: u64,
}

/// What a line came to.
#[derive(Clone, Copy, Debug, PartialEq, Eq)]
pub enum Said {
    Nothing,
    /// The text of the shell.
    Text,
    Syntax,
    Limit(Which),
    Memory,
}

impl<D: Disk> Shell<D> {
    /// No line yet was carried out on the desk.
    pub fn new(alloc: Global, current: Path, desk: Desk<D>) -> Shell<D>
        ensures state { state_of result ≡ fresh_state current desk.table }
        ensures desk { result.desk ≡ desk }
        ensures current { result.current ≡ current }
    {
        Shell {
            alloc,
            current,
            desk,
            text: Vec::new(alloc),
            faulty: false,
            starved: false,
            done: 0,
        }
    }

    /// Carries out a line on the desk. Answers the desk's fault where it was stopped.
    pub fn answer(&mut self, line: &[u8]) -> Result<Said, DeskFault>
        requires { IsFit D.honest D.moment D.seen D.past self.old }
        ensures does { DoesLine (disk_view D.honest D.moment D.seen D.past D.faults) self.old.desk self.new.desk
            (state_of self.old) line.now result self.new.text.items (state_of self.new) }
        ensures fit { IsFit D.honest D.moment D.seen D.past self.new }
    {
        if line.is_empty() {
            return Ok(Said::Nothing);
        }
        match read_put(self.alloc, &self.current, line) {
            Ok(Some(put)) => self.store(put),
            Ok(None) => Ok(self.refuse()),
            Err(_) => Ok(self.starve()),
        }
    }

    // Stores the bytes. The answer is written first, so that there is no want of memory behind the
    // desk's step.
    fn store(&mut self, put: Put) -> Result<Said, DeskFault>
        requires fit { IsFit D.honest D.moment D.seen D.past self.old }
        requires path { IsPath put.path }
        ensures does { (line : List ℕ) → IsPut self.old.current line put.path put.bytes
            → DoesLine (disk_view D.honest D.moment D.seen D.past D.faults) self.old.desk self.new.desk (state_of self.old) line result self.new.text.items (state_of self.new) }
        ensures fit { IsFit D.honest D.moment D.seen D.past self.new }
    {
        self.text.clear();
        let Ok(()) = write_closed(&put.path, put.bytes.len(), &mut self.text) else {
            return Ok(self.starve());
        };
        let ask = Ask::Store {
            path: put.path,
            bytes: put.bytes,
        };
        match ask_desk(&mut self.desk, &ask) {
            Ok(_) => Ok(Said::Text),
            Err(fault) => self.refused(fault, &ask),
        }
    }

    // The store was refused, or the desk was stopped. Where the desk is crowded room is made first.
    fn refused(&mut self, fault: DeskFault, ask: &Ask) -> Result<Said, DeskFault>
        requires fit { IsFit D.honest D.moment D.seen D.past self.old }
        requires ask { IsAsk ask.now }
        requires of_shell { IsOfShell ask.now }
        requires oldest { HasPath fault }
        ensures does { (path : PathParts) (bytes : List ℕ) → ask.now ≡ asks.Store path bytes → self.old.text.items ≡ closed_line path (length bytes)
            → DoesDesk (disk_view D.honest D.moment D.seen D.past D.faults) self.old.desk self.new.desk
            (refused_lem (makes_room path bytes) (cause_of_lem fault) (state_of self.old)) (lined_of result self.new.text.items (state_of self.new)) }
        ensures fit { IsFit D.honest D.moment D.seen D.past self.new }
    {
        match cause_of(fault) {
            Cause::Crowded(oldest) => self.make_room(oldest, ask),
            Cause::Limit(which) => Ok(self.limit(which)),
            Cause::Memory => Ok(self.starve()),
            Cause::Disk => Err(DeskFault::Disk),
            Cause::Cache(fault) => Err(fault),
        }
    }

    // Forgets the oldest path, and stores the bytes again.
    fn make_room(&mut self, oldest: Path, ask: &Ask) -> Result<Said, DeskFault>
        requires fit { IsFit D.honest D.moment D.seen D.past self.old }
        requires ask { IsAsk ask.now }
        requires of_shell { IsOfShell ask.now }
        requires oldest { IsPath oldest }
        ensures does { (path : PathParts) (bytes : List ℕ) → ask.now ≡ asks.Store path bytes → self.old.text.items ≡ closed_line path (length bytes)
            → DoesDesk (disk_view D.honest D.moment D.seen D.past D.faults) self.old.desk self.new.desk
            (makes_room path bytes oldest (state_of self.old)) (lined_of result self.new.text.items (state_of self.new)) }
        ensures fit { IsFit D.honest D.moment D.seen D.past self.new }
    {
        let forget = Ask::Forget {
            path: oldest,
            locks: false,
            below: false,
        };
        match ask_desk(&mut self.desk, &forget) {
            Ok(_) => self.store_again(ask),
            Err(fault) => self.unforgotten(fault),
        }
    }

    // The path was not forgotten.
    fn unforgotten(&mut self, fault: DeskFault) -> Result<Said, DeskFault>
        ensures does { DoesDesk (disk_view D.honest D.moment D.seen D.past D.faults) self.old.desk self.new.desk
            (unforgotten_lem (cause_of_lem fault) (state_of self.old)) (lined_of result self.new.text.items (state_of self.new)) }
        ensures same { (self.new.desk ≡ self.old.desk) × (self.new.current ≡ self.old.current) }
    {
        match cause_of(fault) {
            Cause::Crowded(oldest) => Err(DeskFault::Crowded { oldest }),
            Cause::Limit(which) => Err(DeskFault::Limit { which }),
            Cause::Memory => Ok(self.starve()),
            Cause::Disk => Err(DeskFault::Disk),
            Cause::Cache(fault) => Err(fault),
        }
    }

    // The bytes are stored, where room was made for them.
    fn store_again(&mut self, ask: &Ask) -> Result<Said, DeskFault>
        requires fit { IsFit D.honest D.moment D.seen D.past self.old }
        requires ask { IsAsk ask.now }
        requires of_shell { IsOfShell ask.now }
        ensures does { (path : PathParts) (bytes : List ℕ) → ask.now ≡ asks.Store path bytes → self.old.text.items ≡ closed_line path (length bytes)
            → DoesDesk (disk_view D.honest D.moment D.seen D.past D.faults) self.old.desk self.new.desk
            (StoresOr path bytes StillCrowded (state_of self.old)) (lined_of result self.new.text.items (state_of self.new)) }
        ensures fit { IsFit D.honest D.moment D.seen D.past self.new }
    {
        match ask_desk(&mut self.desk, ask) {
            Ok(_) => Ok(Said::Text),
            Err(fault) => self.refused_again(fault),
        }
    }

    // The store was refused though room was made, or the desk was stopped.
    fn refused_again(&mut self, fault: DeskFault) -> Result<Said, DeskFault>
        ensures does { DoesDesk (disk_view D.honest D.moment D.seen D.past D.faults) self.old.desk self.new.desk
            (refused_lem StillCrowded (cause_of_lem fault) (state_of self.old)) (lined_of result self.new.text.items (state_of self.new)) }
        ensures same { (self.new.desk ≡ self.old.desk) × (self.new.current ≡ self.old.current) }
    {
        match cause_of(fault) {
            Cause::Crowded(oldest) => Ok(self.still_crowded(&oldest)),
            Cause::Limit(which) => Ok(self.limit(which)),
            Cause::Memory => Ok(self.starve()),
            Cause::Disk => Err(DeskFault::Disk),
            Cause::Cache(fault) => Err(fault),
        }
    }

    // No more paths can be known, though one was forgotten.
    fn still_crowded(&mut self, oldest: &Path) -> Said
        ensures lined { IsStillCrowded oldest.now (state_of self.old) (lined_of (Ok result) self.new.text.items (state_of self.new)) }
        ensures same { (self.new.desk ≡ self.old.desk) × (self.new.current ≡ self.old.current) }
    {
        self.text.clear();
        let Ok(()) = write_crowded(oldest, &mut self.text) else {
            return self.starve();
        };
        self.faulty = true;
        Said::Text
    }

    // A limit is reached.
    fn limit(&mut self, which: Which) -> Said
        ensures said { result ≡ Said.Limit which }
        ensures state { state_of self.new ≡ faulted (state_of self.old) }
        ensures same { (self.new.desk ≡ self.old.desk) × (self.new.current ≡ self.old.current) }
    {
        self.faulty = true;
        Said::Limit(which)
    }

    /// A line that is no command.
    pub fn refuse(&mut self) -> Said
        ensures said { result ≡ Said.Syntax }
        ensures state { state_of self.new ≡ faulted (state_of self.old) }
        ensures same { (self.new.desk ≡ self.old.desk) × (self.new.current ≡ self.old.current) }
    {
        self.faulty = true;
        Said::Syntax
    }

    /// A line that met want of memory.
    pub fn starve(&mut self) -> Said
        ensures said { result ≡ Said.Memory }
        ensures state { state_of self.new ≡ starved (state_of self.old) }
        ensures same { (self.new.desk ≡ self.old.desk) × (self.new.current ≡ self.old.current) }
    {
        self.faulty = true;
        self.starved = true;
        Said::Memory
    }

    /// A line was carried out, and its answer written.
    pub fn count(&mut self)
        ensures state { state_of self.new ≡ counted (state_of self.old) }
        ensures same { (self.new.desk ≡ self.old.desk) × (self.new.current ≡ self.old.current) }
    {
        if !self.starved {
            self.done = self.done.saturating_add(1);
        }
    }
}

/// Writes the answer to a store of so many bytes.
fn write_closed(path: &Path, len: usize, out: &mut Vec<u8>) -> Result<(), Memory>
    ensures { OnOk result (out.new.items ≡ out.old.items ++ closed_line path.now len) }
{
    out.extend_from_slice(b"closed ")?;
    path.escaped_into(out)?;
    out.push(b' ')?;
    decimal(len as u64, out)?;
    out.push(b'\n')?;
    Ok(())
}

/// Writes that no more paths can be known.
fn write_crowded(oldest: &Path, out: &mut Vec<u8>) -> Result<(), Memory>
    ensures { OnOk result (out.new.items ≡ out.old.items ++ crowded_line oldest.now) }
{
    out.extend_from_slice(b"fault: crowded ")?;
    oldest.escaped_into(out)?;
    out.push(b'\n')?;
    Ok(())
}

/// The text of what a line came to, where this is the text of the shell.
pub fn text_of(said: Said, text: &[u8]) -> &[u8]
    ensures { result.now ≡ said_text said text.now }
{
    match said {
        Said::Nothing => b"".as_slice(),
        Said::Text => text,
        Said::Syntax => b"fault: syntax early 0\n".as_slice(),
        Said::Limit(which) => limit_text(which),
        Said::Memory => b"fault: memory\n".as_slice(),
    }
}

fn limit_text(which: Which) -> &'static [u8]
    ensures { result.now ≡ limit_line which }
{
    match which {
        Which::Body => b"fault: limit body\n".as_slice(),
        Which::Head => b"fault: limit head\n".as_slice(),
        Which::Queue => b"fault: limit queue\n".as_slice(),
        Which::Bytes => b"fault: limit bytes\n".as_slice(),
        Which::Locks => b"fault: limit locks\n".as_slice(),
        Which::Opens => b"fault: limit opens\n".as_slice(),
        Which::Path => b"fault: limit path\n".as_slice(),
        Which::Files => b"fault: limit files\n".as_slice(),
        Which::Depth => b"fault: limit depth\n".as_slice(),
        Which::Nodes => b"fault: limit nodes\n".as_slice(),
        Which::Held => b"fault: limit held\n".as_slice(),
        Which::Attributes => b"fault: limit attributes\n".as_slice(),
        Which::Tag => b"fault: limit tag\n".as_slice(),
    }
}
