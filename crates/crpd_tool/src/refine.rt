// The command `refine`.
ghost use Rattle.std.specs.Prelude.{IsErrOf, Ok};
ghost use Rattle.crpd_input.specs.Asking.{AsksFor, set_files};
ghost use Rattle.crpd_input.specs.Steps.{Exactly, HoldsFor, LeavesFiles, MeansBy};
ghost use Rattle.crpd_tool.specs.Refine.{RefineEnds, RefinedOf, refined_answer as answer_of};
ghost use Rattle.crpd_tool.specs.Refine.{without_windows as ending_without};

use crate::answer::{Answer, Outcome};
use crate::texts::no_window_answer;
use crpd_base::{Items, RefinedTask, TaskSet, task_name};
use crpd_input::{Cause, Halt, ShapedSet, load_shaped, refuse_address};
use crpd_io::Files;
use crpd_report::refined_text;
use delay_point::{RefineError, refined};
use std::alloc::Global;

/// The answer with refined windows.
fn refined_answer(alloc: Global, set: &TaskSet, tasks: &[RefinedTask]) -> Result<Answer, Halt>
    ensures exact { MeansBy (Exactly (Ok (answer_of set.now tasks.now))) result }
    ensures no_fault { ¬ IsErrOf result Halt.Fault }
{
    let text = refined_text(alloc, set, tasks)?;
    Ok(Answer {
        text: Items::new(text),
        outcome: Outcome::Done,
    })
}

/// The end of the command if there are no refined windows. A bound that is too large is a refusal
/// of the task. A task without a window is an answer.
fn without_windows(alloc: Global, set: &TaskSet, error: RefineError) -> Result<Answer, Halt>
    ensures exact { MeansBy (Exactly (ending_without set.now error)) result }
    ensures no_fault { ¬ IsErrOf result Halt.Fault }
{
    match error {
        RefineError::Memory => Err(Halt::Memory),
        RefineError::TooLarge { task, address } => {
            let name = task_name(set, task);
            Err(refuse_address(alloc, Cause::BoundTooLarge, name, address))
        }
        RefineError::Unschedulable(task) => no_window_answer(alloc, task_name(set, task)),
    }
}

/// How the command ends for a set with its shapes: with the refined windows, or without.
fn refined_ending(alloc: Global, shaped: &ShapedSet) -> Result<Answer, Halt>
    ensures exact { MeansBy (RefinedOf shaped.now) result }
    ensures no_fault { ¬ IsErrOf result Halt.Fault }
{
    shaped.shaped_law();
    let set = shaped.set();
    match refined(alloc, set, shaped.graphs(), shaped.nests()) {
        Ok(tasks) => refined_answer(alloc, set, tasks.as_slice()),
        Err(error) => without_windows(alloc, set, error),
    }
}

/// The answer with the refined windows of the set of a file.
pub(crate) fn refine<F: Files>(alloc: Global, files: &mut F, file: &str) -> Result<Answer, Halt>
    ensures exact { HoldsFor (F.log files.old) (F.log files.new)
        (λ c. MeansBy (RefineEnds c file.now) result) }
    ensures files { LeavesFiles F.contents F.faults F.log files.old files.new result }
    ensures asks { AsksFor (F.log files.old) (F.log files.new) (λ c. set_files c file.now) result }
{
    let shaped = load_shaped(alloc, files, file)?;
    refined_ending(alloc, &shaped)
}
