ghost use Rattle.std.specs.Prelude.{◌≡◌, ◌≢◌, ℕ, List, [], ◌∷◌};
ghost use Rattle.dav_upload.specs.Desks.{disk_view};
ghost use Rattle.dav_run.specs.Answering.{DoesLine, IsFit};
ghost use Rattle.dav_run.specs.Said.{state_of};
ghost use Rattle.dav_run.specs.Pending.{Holds};
ghost use Rattle.dav_run.specs.declared.stop.Stop.TheVariants as stops;
ghost use Rattle.dav_run.specs.Carrying.{line_at, CarriesOn, ReadsPiece, ReadsAll, EndsOn};

use crate::pending::{Fits, Pending};
use crate::shell::{Said, Shell, text_of};
use crate::stop::{Halt, Stop, stop_of};
use dav_deeds::DeskFault;
use dav_disk::Disk;
use dav_edge::{Sink, Source, put_whole};

/// Carries out a line and writes its answer. Says why the shell stops, if it does.
fn carry_out<O: Sink, D: Disk>(
    out: &mut O,
    shell: &mut Shell<D>,
    pending: &Pending,
    fed: bool,
) -> Result<(), Halt>
    requires { IsFit D.honest D.moment D.seen D.past shell.old }
    ensures does { (begun : List ℕ) → Holds pending.now begun
        → CarriesOn (disk_view D.honest D.moment D.seen D.past D.faults) (O.log out.old) (O.log out.new) shell.old.desk shell.new.desk
        (line_at fed begun) (state_of shell.old) (state_of shell.new) result }
    ensures fit { IsFit D.honest D.moment D.seen D.past shell.new }
{
    let said = match answer_to(shell, pending, fed) {
        Ok(said) => said,
        Err(fault) => return Err(Halt::Desk(fault)),
    };
    match put_whole(out, text_of(said, shell.text.as_slice())) {
        Ok(()) => {
            shell.count();
            Ok(())
        }
        Err(_) => Err(Halt::Output),
    }
}

/// Carries out a line on the desk. Answers the desk's fault where it was stopped.
fn answer_to<D: Disk>(shell: &mut Shell<D>, pending: &Pending, fed: bool) -> Result<Said, DeskFault>
    requires { IsFit D.honest D.moment D.seen D.past shell.old }
    ensures does { (begun : List ℕ) → Holds pending.now begun
        → DoesLine (disk_view D.honest D.moment D.seen D.past D.faults) shell.old.desk shell.new.desk
        (state_of shell.old) (line_at fed begun) result shell.new.text.items (state_of shell.new) }
    ensures fit { IsFit D.honest D.moment D.seen D.past shell.new }
{
    match pending.fits {
        Fits::Whole => shell.answer(line_of(pending.bytes.as_slice(), fed)),
        Fits::TooLong => Ok(shell.refuse()),
        Fits::NoMemory => Ok(shell.starve()),
    }
}

/// The bytes without the carriage return before a line feed.
fn line_of(bytes: &[u8], fed: bool) -> &[u8]
    ensures { result.now ≡ line_at fed bytes.now }
{
    if !fed {
        return bytes;
    }
    match bytes.strip_suffix(b"\r") {
        Some(line) => line,
        None => bytes,
    }
}

/// Carries out the lines that a piece of the input ends. Says why the shell stops, if it does.
fn carry_all<O: Sink, D: Disk>(
    out: &mut O,
    shell: &mut Shell<D>,
    pending: &mut Pending,
    piece: &[u8],
) -> Result<(), Halt>
    requires { IsFit D.honest D.moment D.seen D.past shell.old }
    ensures does { (begun : List ℕ) → Holds pending.old begun
        → ReadsPiece (disk_view D.honest D.moment D.seen D.past D.faults) (O.log out.old) (O.log out.new) shell.old.desk shell.new.desk
        piece.now begun pending.new (state_of shell.old) (state_of shell.new) result }
    ensures fit { IsFit D.honest D.moment D.seen D.past shell.new }
{
    for byte in piece {
        match carry_byte(out, shell, pending, *byte) {
            Ok(()) => {}
            Err(halt) => return Err(halt),
        }
    }
    Ok(())
}

/// Reads one byte of the input. Where it ends a line, says why the shell stops, if it does.
fn carry_byte<O: Sink, D: Disk>(
    out: &mut O,
    shell: &mut Shell<D>,
    pending: &mut Pending,
    byte: u8,
) -> Result<(), Halt>
    requires { IsFit D.honest D.moment D.seen D.past shell.old }
    ensures does { (begun : List ℕ) → Holds pending.old begun
        → ReadsPiece (disk_view D.honest D.moment D.seen D.past D.faults) (O.log out.old) (O.log out.new) shell.old.desk shell.new.desk
        (byte ∷ []) begun pending.new (state_of shell.old) (state_of shell.new) result }
    ensures fit { IsFit D.honest D.moment D.seen D.past shell.new }
{
    if byte != b'\n' {
        pending.push(byte);
        return Ok(());
    }
    let went = carry_out(out, shell, pending, true);
    pending.clear();
    went
}

/// Reads the input to its end, and carries out each line.
pub fn read_lines<S: Source, O: Sink, D: Disk>(
    input: &mut S,
    out: &mut O,
    shell: &mut Shell<D>,
) -> Stop
    requires { IsFit D.honest D.moment D.seen D.past shell.old }
    ensures reads { ReadsAll (disk_view D.honest D.moment D.seen D.past D.faults) (S.log input.old) (S.log input.new) (O.log out.old) (O.log out.new)
        shell.old.desk shell.new.desk
        (state_of shell.old) (state_of shell.new) result }
    ensures fit { IsFit D.honest D.moment D.seen D.past shell.new }
{
    let mut pending = Pending::new(shell.alloc);
    loop {
        let mut buf = [0u8; 4096];
        let Ok(count) = input.take(&mut buf) else {
            return Stop::Input;
        };
        if count == 0 {
            return carry_last(out, shell, &pending);
        }
        match carry_all(out, shell, &mut pending, &buf[..count]) {
            Ok(()) => {}
            Err(halt) => return stop_of(halt),
        }
    }
}

/// Carries out the line that the input's end ends, where it has a byte.
fn carry_last<O: Sink, D: Disk>(out: &mut O, shell: &mut Shell<D>, pending: &Pending) -> Stop
    requires { IsFit D.honest D.moment D.seen D.past shell.old }
    ensures does { (begun : List ℕ) → Holds pending.now begun
        → EndsOn (disk_view D.honest D.moment D.seen D.past D.faults) (O.log out.old) (O.log out.new) shell.old.desk shell.new.desk
        begun (state_of shell.old) (state_of shell.new) result }
    ensures other { result ≢ stops.Input }
    ensures fit { IsFit D.honest D.moment D.seen D.past shell.new }
{
    if pending.is_empty() {
        return Stop::End;
    }
    match carry_out(out, shell, pending, false) {
        Ok(()) => Stop::End,
        Err(halt) => stop_of(halt),
    }
}
