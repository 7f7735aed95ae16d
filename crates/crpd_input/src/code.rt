// The code of a task set.
ghost use Rattle.std.specs.Prelude.{IfOk};
ghost use Rattle.crpd_base.specs.Ranges.{IsTaskSet};
ghost use Rattle.task_shapes.specs.Inputs.{IsInput};
ghost use Rattle.crpd_input.specs.Steps.{HoldsFor, IsRefusal, LeavesFiles, Means};
ghost use Rattle.crpd_input.specs.Asking.{AsksFor, task_files};
ghost use Rattle.crpd_input.specs.Reading as spec;
ghost use Rattle.crpd_input.specs.Reading.{code_in};

use crate::cause::Cause;
use crate::halt::Halt;
use crate::images::load_images;
use crate::refuse::{refuse, refuse_address};
use code_map::{CodeMap, MapError};
use crpd_base::{TaskSet, task_name};
use crpd_io::Files;
use std::alloc::Global;

/// The refusal of a set's code, or out of memory.
fn map_halt(alloc: Global, file: &str, set: &TaskSet, error: MapError) -> Halt
    ensures { IsRefusal (spec.map_halt file.now set.now error) result }
{
    match error {
        MapError::Memory => Halt::Memory,
        MapError::CodeConflict(address) => refuse_address(
            alloc,
            Cause::CodeConflict,
            file,
            address,
        ),
        MapError::UnknownSymbol(task, place) => refuse(
            alloc,
            Cause::UnknownSymbol,
            task_name(set, task),
            place,
        ),
        MapError::EntryOutside(task, address) => {
            refuse_address(alloc, Cause::EntryOutside, task_name(set, task), address)
        }
    }
}

/// The code of a set that was read from this file: the images of its tasks' files, and the plan of
/// each task.
///
/// For a task's file: refused with 80 if it does not exist, with 81 if it is longer than 16,777,216
/// bytes, and with 1 to 11 if it is not such an ELF file; the subject is the file. Then, for the
/// code of all files: refused with 40, where the subject is the set's file, or with 41 or 42, where
/// it is the task. A file that several tasks name is read once, and their images share its segments
/// and symbols. `Fault` is possible only if the files counted one. Cost: linear in the files and
/// images, n log n in their segments and symbols. An image has a copy of each symbol's name; names
/// may share bytes in the file, so it may be far larger than the file.
pub fn load_code<F: Files>(
    alloc: Global,
    files: &mut F,
    name: &str,
    set: &TaskSet,
) -> Result<CodeMap, Halt>
    requires { IsTaskSet set.now }
    ensures exact { HoldsFor (F.log files.old) (F.log files.new)
        (λ c. Means (code_in c name.now set.now) result) }
    ensures input { IfOk result (λ code. IsInput (record { set = set.now; code = code })) }
    ensures files { LeavesFiles F.contents F.faults F.log files.old files.new result }
    ensures asks { AsksFor (F.log files.old) (F.log files.new) (λ c. task_files set.now) result }
{
    let images = load_images(alloc, files, set.tasks.as_slice())?;
    match CodeMap::new(alloc, set, images.into_vec()) {
        Ok(code) => {
            code.plans_law();
            code.words_law();
            Ok(code)
        }
        Err(error) => Err(map_halt(alloc, name, set, error)),
    }
}
