// A task set with its code.
ghost use Rattle.crpd_input.specs.Steps.{LeavesFiles, Means, HoldsFor};
ghost use Rattle.crpd_input.specs.Asking.{AsksFor, set_files};
ghost use Rattle.crpd_input.specs.Reading.{input_in};

use crate::code::load_code;
use crate::halt::Halt;
use crate::set::load_task_set;
use crpd_io::Files;
use std::alloc::Global;
use task_shapes::Input;

/// The set of a file with its code, as `load_task_set` and then `load_code` give them. Refused as
/// these two say; `Fault` is possible only if the files counted one. Cost: that of both.
pub fn load_input<F: Files>(alloc: Global, files: &mut F, name: &str) -> Result<Input, Halt>
    ensures exact { HoldsFor (F.log files.old) (F.log files.new)
        (λ c. Means (input_in c name.now) result) }
    ensures files { LeavesFiles F.contents F.faults F.log files.old files.new result }
    ensures asks { AsksFor (F.log files.old) (F.log files.new) (λ c. set_files c name.now) result }
{
    let set = load_task_set(alloc, files, name)?;
    let code = load_code(alloc, files, name, &set)?;
    let input = Input::new(alloc, set, code)?;
    Ok(input)
}
