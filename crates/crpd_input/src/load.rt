// The bytes of a file.
ghost use Rattle.std.specs.Prelude.{[], ◌∷◌};
ghost use Rattle.crpd_io.specs.Asked.{Asked};
ghost use Rattle.crpd_input.specs.Steps.{HoldsFor, LeavesFiles, Means, bytes_in};

use crate::cause::Cause;
use crate::halt::Halt;
use crate::refuse::refuse_plainly;
use crpd_base::Items;
use crpd_io::{FileError, Files, read_all};
use std::alloc::Global;

/// A file's bytes. Refused with 80 if there is no such file, and with 81 if it has more than `most`
/// bytes; `Fault` is possible only if the files counted one. Linear in the bytes.
pub fn load<F: Files>(
    alloc: Global,
    files: &mut F,
    name: &str,
    most: u64,
) -> Result<Items<u8>, Halt>
    ensures exact { HoldsFor (F.log files.old) (F.log files.new)
        (λ c. Means (bytes_in most c name.now) result) }
    ensures files { LeavesFiles F.contents F.faults F.log files.old files.new result }
    ensures asked { Asked (F.log files.old) (F.log files.new) (name.now ∷ []) }
{
    match read_all(alloc, files, name, most) {
        Ok(bytes) => Ok(Items::new(bytes)),
        Err(FileError::NoFile) => Err(refuse_plainly(alloc, Cause::NoFile, name)),
        Err(FileError::FileTooLong) => Err(refuse_plainly(alloc, Cause::FileTooLong, name)),
        Err(FileError::Memory) => Err(Halt::Memory),
        Err(FileError::Fault) => Err(Halt::Fault),
    }
}
