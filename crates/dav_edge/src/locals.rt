ghost use Rattle.std.specs.Prelude.{◌≡◌, ◌↔◌, ◌⊎◌, ◌≤◌, [], ◌∷◌, length, Option, Some, None, Err, IfOk, IfErr, IfSome, OnOk};
ghost use Rattle.dav_edge.specs.Locals.{LocalLog, LocalsGrew, loaded, stored, LocalFiles, IsLonger, FilesStay, OtherFilesStay};
ghost use Rattle.dav_edge.specs.declared.local_fault.LocalFault.TheVariants.{NoFile, TooLong, Failed, Memory};

use crate::LocalFault;
use dav_text::Blob;

/// The local files, which the user names.
pub trait Locals {
    /// The calls so far, where the object tells them, and its count of faults.
    ghost log: { Self → LocalLog };

    /// The bytes of each file, where the object tells them.
    ghost files: { Self → Option LocalFiles };

    /// The bytes of a file of at most `limit` bytes. `NoFile` exactly where there is none, and `TooLong` exactly where it is
    /// longer; `Failed` only where the count of faults rose.
    fn load(&mut self, name: &str, limit: u64) -> Result<Blob, LocalFault>
        ensures log { LocalsGrew (log self.old) (log self.new) (loaded name.now limit result ∷ []) }
        ensures bytes { IfSome (files self.old) (λ files. IfOk result (λ b. files name.now ≡ Some b)) }
        ensures within { IfOk result (λ b. length b ≤ limit) }
        ensures no_file { IfSome (files self.old) (λ files. (result ≡ Err NoFile) ↔ (files name.now ≡ None)) }
        ensures too_long { IfSome (files self.old) (λ files. (result ≡ Err TooLong) ↔ IsLonger limit (files name.now)) }
        ensures files { FilesStay (files self.old) (files self.new) };

    /// Makes the file hold these bytes. `Failed` only where the count of faults rose, and then the file may hold anything, or be
    /// missing; `Memory` leaves it as it was.
    fn store(&mut self, name: &str, bytes: &[u8]) -> Result<(), LocalFault>
        ensures log { LocalsGrew (log self.old) (log self.new) (stored name.now bytes.now result ∷ []) }
        ensures stored { IfSome (files self.new) (λ files. OnOk result (files name.now ≡ Some bytes.now)) }
        ensures others { OtherFilesStay name.now (files self.old) (files self.new) }
        ensures faults { IfErr result (λ fault. (fault ≡ Failed) ⊎ (fault ≡ Memory)) }
        ensures starved { result ≡ Err Memory → FilesStay (files self.old) (files self.new) };
}
