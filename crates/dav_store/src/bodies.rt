ghost use Rattle.std.specs.Prelude.{◌≡◌, ◌≢◌, [], take, OnOk, IfOk, IfErr};
ghost use Rattle.sha2.specs.Sha256.{sha256};
ghost use Rattle.dav_disk.specs.Disk.{Touches, OthersStay, AllStay, settled};
ghost use Rattle.dav_store.specs.Body.{IsDamage};
ghost use Rattle.dav_store.specs.Cause.{IsCaused, OnlyDisk};
ghost use Rattle.dav_store.specs.Counts.{IsCountedAs};
ghost use Rattle.dav_store.specs.declared.fault.StoreFault.TheVariants.{Memory as MemoryFault};

use crate::body_id::sum_of;
use crate::{BodyId, StoreFault};
use dav_disk::Disk;
use dav_text::Blob;
use std::alloc::Global;

/// The bodies, each in a file of its own.
#[derive(Drop)]
pub struct Bodies {
    alloc: Global,
}

impl Bodies {
    /// The bodies of any disk. Takes no memory.
    pub fn new(alloc: Global) -> Bodies {
        Bodies { alloc }
    }

    /// Puts these bytes into a file, in place of what it holds. After `Ok` each stop leaves them, until that file is
    /// changed again. Takes no memory, and answers `Disk` alone. The body's name is `BodyId::of`, and the caller's to make:
    /// it takes the bytes' SHA-256, which is taken once.
    pub fn keep<D: Disk>(&mut self, disk: &mut D, file: u32, bytes: &[u8]) -> Result<(), StoreFault>
        ensures kept { D.honest disk.new → OnOk result (D.past disk.new (D.moment disk.new) file ≡ settled bytes.now) }
        ensures seen { D.honest disk.new → OnOk result (D.seen disk.new file ≡ bytes.now) }
        ensures touches { D.honest disk.new → Touches (λ f. f ≡ file) (D.moment disk.old) (D.moment disk.new) (D.past disk.old) (D.past disk.new) }
        ensures others { D.honest disk.new → OthersStay file (D.seen disk.old) (D.seen disk.new) }
        ensures counts { IsCountedAs 3 (D.moment disk.old) (D.moment disk.new) result }
        ensures only { OnlyDisk result }
        ensures keeps { D.honest disk.new → D.honest disk.old }
        ensures cause { IsCaused (D.faults disk.old) (D.faults disk.new) result }
    {
        disk.cut(file, 0)?;
        disk.write_at(file, 0, bytes)?;
        disk.sync(file)?;
        Ok(())
    }

    /// The bytes of a body: the first `len` of its file, or fewer where the file is shorter. Answers `Damaged` where
    /// their SHA-256 is not the body's, whatever the disk is, and `Memory` only before the first device call.
    pub fn fetch<D: Disk>(&mut self, disk: &mut D, id: &BodyId) -> Result<Blob, StoreFault>
        ensures bytes { D.honest disk.new → IfOk result (λ blob. blob ≡ take id.now.len (D.seen disk.old id.now.file)) }
        ensures sum { IfOk result (λ blob. sha256 blob ≡ id.now.sum) }
        ensures damaged { IfErr result (IsDamage (D.honest disk.new) id.now (D.seen disk.old id.now.file)) }
        ensures starved { IfErr result (λ e. e ≡ MemoryFault → disk.new ≡ disk.old) }
        ensures touches { D.honest disk.new → Touches (λ _. ⊥) (D.moment disk.old) (D.moment disk.new) (D.past disk.old) (D.past disk.new) }
        ensures seen { D.honest disk.new → AllStay (D.seen disk.old) (D.seen disk.new) }
        ensures counts { IsCountedAs 1 (D.moment disk.old) (D.moment disk.new) result }
        ensures keeps { D.honest disk.new → D.honest disk.old }
        ensures cause { IsCaused (D.faults disk.old) (D.faults disk.new) result }
    {
        let mut bytes = Vec::from_elem(self.alloc, 0u8, id.len as usize)?;
        let count = disk.read(id.file, 0, bytes.as_mut_slice())?;
        bytes.truncate(count);
        let found = sum_of(bytes.as_slice());
        if found != id.sum {
            return Err(StoreFault::Damaged {
                file: id.file,
                stored: id.sum,
                found,
            });
        }
        Ok(Blob::from_vec(bytes))
    }

    /// Empties a file. After `Ok` each stop leaves it empty, until it is changed again. Takes no memory, and answers `Disk`
    /// alone.
    pub fn release<D: Disk>(&mut self, disk: &mut D, file: u32) -> Result<(), StoreFault>
        ensures empty { D.honest disk.new → OnOk result (D.past disk.new (D.moment disk.new) file ≡ settled []) }
        ensures seen { D.honest disk.new → OnOk result (D.seen disk.new file ≡ []) }
        ensures touches { D.honest disk.new → Touches (λ f. f ≡ file) (D.moment disk.old) (D.moment disk.new) (D.past disk.old) (D.past disk.new) }
        ensures others { D.honest disk.new → OthersStay file (D.seen disk.old) (D.seen disk.new) }
        ensures counts { IsCountedAs 2 (D.moment disk.old) (D.moment disk.new) result }
        ensures only { OnlyDisk result }
        ensures keeps { D.honest disk.new → D.honest disk.old }
        ensures cause { IsCaused (D.faults disk.old) (D.faults disk.new) result }
    {
        disk.cut(file, 0)?;
        disk.sync(file)?;
        Ok(())
    }
}
