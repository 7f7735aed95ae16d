// The task set of a file.
ghost use Rattle.std.specs.Prelude.{IfOk, [], ◌∷◌};
ghost use Rattle.crpd_io.specs.Asked.{Asked};
ghost use Rattle.crpd_base.specs.Ranges.{IsTaskSet};
ghost use Rattle.crpd_input.specs.Steps.{HoldsFor, IsRefusal, LeavesFiles, Means};
ghost use Rattle.crpd_input.specs.Reading as spec;
ghost use Rattle.crpd_input.specs.Reading.{set_in};

use crate::cause::Cause;
use crate::halt::Halt;
use crate::load::load;
use crate::refuse::{refuse, refuse_count, refuse_plainly};
use crpd_base::{FILE_BYTES, TaskSet};
use crpd_io::Files;
use set_reader::{SetError, read_set};
use std::alloc::Global;

/// The refusal of a set's file, or out of memory.
fn set_halt(alloc: Global, file: &str, error: SetError) -> Halt
    ensures { IsRefusal (spec.set_halt file.now error) result }
{
    let (cause, key) = match error {
        SetError::Memory => return Halt::Memory,
        SetError::NotToml => return refuse_plainly(alloc, Cause::SetNotToml, file),
        SetError::Missing(key) => (Cause::SetMissing, key),
        SetError::BadValue(key) => (Cause::SetBadValue, key),
        SetError::TooManyTasks(count) => return refuse_count(
            alloc,
            Cause::TooManyTasks,
            file,
            count,
        ),
        SetError::SameName(key) => (Cause::SameName, key),
        SetError::DeadlineAfterPeriod(key) => (Cause::DeadlineAfterPeriod, key),
        SetError::UnknownKey(key) => (Cause::SetUnknownKey, key),
    };
    refuse(alloc, cause, file, key)
}

/// The task set of a file of at most 16,777,216 bytes: 1 to 32 tasks.
///
/// Refused with 80 if there is no such file, with 81 if it is longer, and with 20 to 26 by its
/// text; the subject is the file. `Fault` is possible only if the files counted one. Cost: that of
/// reading the TOML text.
pub fn load_task_set<F: Files>(alloc: Global, files: &mut F, name: &str) -> Result<TaskSet, Halt>
    ensures exact { HoldsFor (F.log files.old) (F.log files.new)
        (λ c. Means (set_in c name.now) result) }
    ensures ranges { IfOk result IsTaskSet }
    ensures files { LeavesFiles F.contents F.faults F.log files.old files.new result }
    ensures asked { Asked (F.log files.old) (F.log files.new) (name.now ∷ []) }
{
    let bytes = load(alloc, files, name, FILE_BYTES)?;
    match read_set(alloc, bytes.as_slice()) {
        Ok(set) => Ok(set),
        Err(error) => Err(set_halt(alloc, name, error)),
    }
}
