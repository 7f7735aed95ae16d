// The script of a file.
ghost use Rattle.std.specs.Prelude.{◌≤◌, length, IfOk, [], ◌∷◌};
ghost use Rattle.crpd_io.specs.Asked.{Asked};
ghost use Rattle.preempt_machine.specs.Safe.{NamesTasks};
ghost use Rattle.crpd_input.specs.Steps.{HoldsFor, IsRefusal, LeavesFiles, Means};
ghost use Rattle.crpd_input.specs.Script as spec;
ghost use Rattle.crpd_input.specs.Script.{script_in};

use crate::cause::Cause;
use crate::halt::Halt;
use crate::load::load;
use crate::refuse::{refuse, refuse_plainly};
use crpd_base::{FILE_BYTES, Script, TaskSet};
use crpd_io::Files;
use script_reader::{ScriptError, read_script};
use std::alloc::Global;

/// The refusal of a script's file, or out of memory.
fn script_halt(alloc: Global, file: &str, error: ScriptError) -> Halt
    ensures { IsRefusal (spec.script_halt file.now error) result }
{
    match error {
        ScriptError::Memory => Halt::Memory,
        ScriptError::NotToml => refuse_plainly(alloc, Cause::ScriptNotToml, file),
        ScriptError::Missing(key) => refuse(alloc, Cause::ScriptMissing, file, key),
        ScriptError::BadValue(key) => refuse(alloc, Cause::ScriptBadValue, file, key),
        ScriptError::UnknownTask(key) => refuse(alloc, Cause::UnknownTask, file, key),
        ScriptError::TooLong(key) => refuse(alloc, Cause::ScriptTooLong, file, key),
        ScriptError::UnknownKey(key) => refuse(alloc, Cause::ScriptUnknownKey, file, key),
    }
}

/// The script of a file of at most 16,777,216 bytes, for the set whose tasks it names: at most
/// 10,000 jobs.
///
/// Refused with 80 if there is no such file, with 81 if it is longer, and with 30 to 35 by its
/// text; the subject is the file. `Fault` is possible only if the files counted one. Cost: that of
/// reading the TOML text.
pub fn load_script<F: Files>(
    alloc: Global,
    files: &mut F,
    name: &str,
    set: &TaskSet,
) -> Result<Script, Halt>
    ensures exact { HoldsFor (F.log files.old) (F.log files.new)
        (λ c. Means (script_in c name.now set.now) result) }
    ensures tasks { IfOk result (λ script. NamesTasks set.now script.jobs) }
    ensures few { IfOk result (λ script. length script.jobs ≤ 10000) }
    ensures files { LeavesFiles F.contents F.faults F.log files.old files.new result }
    ensures asked { Asked (F.log files.old) (F.log files.new) (name.now ∷ []) }
{
    let bytes = load(alloc, files, name, FILE_BYTES)?;
    match read_script(alloc, bytes.as_slice(), set) {
        Ok(script) => Ok(script),
        Err(error) => Err(script_halt(alloc, name, error)),
    }
}
