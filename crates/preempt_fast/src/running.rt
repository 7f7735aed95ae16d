// The run of a script without an observer.
ghost use Rattle.std.specs.Prelude.{◌≡◌, ◌<◌, ◌≤◌, ◌^◌, length, IfOk};
ghost use Rattle.crpd_base.specs.Limits.{most_sets};
ghost use Rattle.preempt_machine.specs.Outcome.{IsOutcome};
ghost use Rattle.preempt_machine.specs.Safe.{NamesTasks};
ghost use Rattle.preempt_machine.specs.Starts.{script_end_state};

use code_map::CodeMap;
use crpd_base::{Memory, Script, TaskSet};
use preempt_machine::{Completion, Observation, Observer, run_observed};
use std::alloc::Global;

/// An observer of a script's run that does nothing.
#[derive(Clone, Copy)]
struct Unobserved<'a> {
    code: &'a CodeMap,
    set: &'a TaskSet,
    script: &'a Script,
}

impl Observer for Unobserved<'_> {
    ghost use Rattle.preempt_machine.specs.Starts.{start_of_script};
    ghost use Rattle.preempt_machine.specs.Step.{Start};

    ghost Run = { Start };

    ghost observed = { λ o. start_of_script o.set.now o.code.now o.script.now };

    ghost start = { λ s. s };

    ghost has_observed = { λ o n. Unit {0} };

    #[inline(always)]
    fn observe(&mut self, _seen: Observation) -> Result<(), Memory> {
        Ok(())
    }

    ghost passes = { λ o n none before. tt };
}

/// The completions of a script's jobs after its cycles, in the script's order, and whether no watch
/// is broken. The machine starts with the script's cache and the bytes of the files in memory.
///
/// It requires of set, code map and script what `run_observed` requires, and its time and memory
/// are those of that call. Out of memory is the only error.
pub fn run_fast(
    alloc: Global,
    code: &CodeMap,
    set: &TaskSet,
    script: &Script,
) -> Result<(Vec<Completion>, bool), Memory>
    requires line { 0 < set.now.platform.line }
    requires sets { 0 < set.now.platform.sets }
    requires few { set.now.platform.sets ≤ most_sets }
    requires plans { length code.now.plans ≡ length set.now.tasks }
    requires tasks { NamesTasks set.now script.now.jobs }
    requires jobs { length script.now.jobs < 2 ^ 32 }
    ensures { IfOk result (λ outcome.
        IsOutcome (script_end_state set.now code.now script.now) outcome.0.items outcome.1) }
{
    let mut nobody = Unobserved { code, set, script };
    run_observed(alloc, code, set, script, &mut nobody)
}
