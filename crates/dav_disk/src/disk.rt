ghost use Rattle.std.specs.Prelude.{◌≡◌, ℕ, ◌+◌, ◌-◌, ◌<◌, ◌≤◌, min, List, ◌++◌, length, take, drop, IsErr, IfOk, OnOk};
ghost use Rattle.dav_disk.specs.Disk.{Doubt, IsOutcome, settled, after_write, after_cut, overwritten, Passes, OthersStay, AllStay, IsCounted, HasCause};

use crate::Failed;

/// A disk of numbered files; a missing file is empty. Each device call (`size`, `read`, `write_at`, `cut`, `sync`) adds
/// one to the moment, and at the greatest u64 each fails. A stop at a moment leaves of each file what is in doubt
/// there allows.
pub trait Disk {
    /// The disk has kept, in every call so far, what the clauses below say of its files. It may cease to, and never begins to.
    ghost honest: { Self → Type 0 };

    /// The bytes of each file, as a read gives them.
    ghost seen: { Self → ℕ → List ℕ };

    /// The number of device calls so far.
    ghost moment: { Self → ℕ };

    /// What was in doubt at each moment so far, of each file.
    ghost past: { Self → ℕ → ℕ → Doubt };

    /// The number of calls that failed.
    ghost faults: { Self → ℕ };

    /// The number of device calls so far.
    fn calls(&self) -> u64
        ensures { result ≡ moment self.now };

    /// The number of calls that failed.
    fn faults(&self) -> u64
        ensures { result ≡ faults self.now };

    /// The length of a file in bytes; 0 where there is none.
    fn size(&mut self, file: u32) -> Result<u64, Failed>
        ensures bytes { honest self.new → IfOk result (λ n. n ≡ length (seen self.old file)) }
        ensures seen { honest self.new → AllStay (seen self.old) (seen self.new) }
        ensures time { honest self.new → Passes (moment self.old) (moment self.new) (past self.old) (past self.new) file (past self.old (moment self.old) file) }
        ensures keeps { honest self.new → honest self.old }
        ensures counts { IsCounted (moment self.old) (moment self.new) result }
        ensures cause { HasCause (faults self.old) (faults self.new) result };

    /// Fills the buffer from a place on, as far as the file goes, and says how many bytes that is.
    fn read(&mut self, file: u32, at: u64, buf: &mut [u8]) -> Result<usize, Failed>
        ensures count { honest self.new → IfOk result (λ n. n ≡ min (length buf.old) (length (seen self.old file) - at)) }
        ensures bytes { honest self.new → IfOk result (λ n. buf.new ≡ take n (drop at (seen self.old file)) ++ drop n buf.old) }
        ensures within { IfOk result (λ n. n ≤ length buf.old) }
        ensures seen { honest self.new → AllStay (seen self.old) (seen self.new) }
        ensures time { honest self.new → Passes (moment self.old) (moment self.new) (past self.old) (past self.new) file (past self.old (moment self.old) file) }
        ensures keeps { honest self.new → honest self.old }
        ensures counts { IsCounted (moment self.old) (moment self.new) result }
        ensures cause { HasCause (faults self.old) (faults self.new) result };

    /// Writes all the bytes at a place that is not past the file's end. A write that would end past the greatest u64 fails.
    fn write_at(&mut self, file: u32, at: u64, bytes: &[u8]) -> Result<(), Failed>
        requires { honest self.old → at ≤ length (seen self.old file) }
        ensures written { honest self.new → OnOk result (seen self.new file ≡ overwritten (seen self.old file) at bytes.now) }
        ensures others { honest self.new → OthersStay file (seen self.old) (seen self.new) }
        ensures time { honest self.new → Passes (moment self.old) (moment self.new) (past self.old) (past self.new) file
            (after_write at (length bytes.now) (length (seen self.old file)) (past self.old (moment self.old) file)) }
        ensures keeps { honest self.new → honest self.old }
        ensures counts { IsCounted (moment self.old) (moment self.new) result }
        ensures cause { HasCause (faults self.old) (faults self.new) result };

    /// Cuts the file to a length that is not greater than its own.
    fn cut(&mut self, file: u32, len: u64) -> Result<(), Failed>
        requires { honest self.old → len ≤ length (seen self.old file) }
        ensures cut { honest self.new → OnOk result (seen self.new file ≡ take len (seen self.old file)) }
        ensures others { honest self.new → OthersStay file (seen self.old) (seen self.new) }
        ensures time { honest self.new → Passes (moment self.old) (moment self.new) (past self.old) (past self.new) file
            (after_cut len (past self.old (moment self.old) file)) }
        ensures keeps { honest self.new → honest self.old }
        ensures counts { IsCounted (moment self.old) (moment self.new) result }
        ensures cause { HasCause (faults self.old) (faults self.new) result };

    /// Settles a file: after `Ok` a stop leaves what a read gives, until the next change. A sync that failed settles nothing.
    fn sync(&mut self, file: u32) -> Result<(), Failed>
        ensures seen { honest self.new → AllStay (seen self.old) (seen self.new) }
        ensures durable { honest self.new → OnOk result (Passes (moment self.old) (moment self.new) (past self.old) (past self.new) file (settled (seen self.old file))) }
        ensures failed { honest self.new → IsErr result → Passes (moment self.old) (moment self.new) (past self.old) (past self.new) file (past self.old (moment self.old) file) }
        ensures keeps { honest self.new → honest self.old }
        ensures counts { IsCounted (moment self.old) (moment self.new) result }
        ensures cause { HasCause (faults self.old) (faults self.new) result };

    /// What a read gives is one of the outcomes of a stop.
    ghost reads: { (disk : Self) → honest disk → (f : ℕ) → IsOutcome (past disk (moment disk) f) (seen disk f) };

    /// No file is longer than the greatest u64.
    ghost fits: { (disk : Self) → honest disk → (f : ℕ) → length (seen disk f) < 18446744073709551616 };

    /// Nor is the number of calls greater.
    ghost counted: { (disk : Self) → moment disk < 18446744073709551616 };
}
