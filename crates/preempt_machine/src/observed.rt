// The run of a script whose fetches an observer receives.
ghost use Rattle.std.specs.Prelude.{◌≡◌, ◌<◌, ◌≤◌, ◌^◌, length, IfOk, OnOk};
ghost use Rattle.crpd_base.specs.Limits.{most_sets};
ghost use Rattle.preempt_machine.specs.Safe.{NamesTasks};
ghost use Rattle.preempt_machine.specs.Starts.{script_end_state, start_of_script};
ghost use Rattle.preempt_machine.specs.Outcome.{IsOutcome};
ghost use Rattle.preempt_machine.specs.Inner.Stretches.{RunsAs};

use crate::Completion;
use crate::addresses::AddressTable;
use crate::moves::FastCore;
use crate::observer::Observer;
use crate::schedule::Schedule;
use crate::start::{start_cache, start_memory};
use crate::stretches::FastParts;
use code_map::CodeMap;
use crpd_base::{Memory, Script, TaskSet};
use icache::Geometry;
use std::alloc::Global;

/// The machine at the start of a script: the script's cache, the bytes of the files in memory, no
/// owner of the core, and no job released.
fn load(alloc: Global, code: &CodeMap, set: &TaskSet, script: &Script) -> Result<FastParts, Memory>
    requires line { 0 < set.now.platform.line }
    requires sets { 0 < set.now.platform.sets }
    requires few { set.now.platform.sets ≤ most_sets }
    requires plans { length code.now.plans ≡ length set.now.tasks }
    requires tasks { NamesTasks set.now script.now.jobs }
    requires jobs { length script.now.jobs < 2 ^ 32 }
    ensures runs { IfOk result
        (RunsAs (start_of_script set.now code.now script.now) code.now) }
    ensures steps { IfOk result (λ parts. parts.schedule.steps ≡ 0) }
{
    let memory = start_memory(alloc, code)?;
    let schedule = Schedule::new(alloc, code, set, script)?;
    let geometry = Geometry::new(&set.platform);
    let decoded = AddressTable::new(alloc, code, &geometry)?;
    let kept = schedule.are_kept();
    Ok(FastParts {
        core: FastCore {
            geometry,
            cache: start_cache(set, script),
            memory,
            decoded,
            kept,
        },
        schedule,
    })
}

/// The completions of a script's jobs after its cycles, in the script's order, and whether no watch
/// is broken. The machine starts with the script's cache and the bytes of the files in memory. An
/// observer of that run, which has observed nothing, receives each fetch.
///
/// The code map has a plan for each task of the set, and the script's jobs are of the set's tasks.
/// Out of memory, here or in the observer, is the only error. Idle cycles, switch cycles, and those
/// of an instruction in which no job is released are skipped in one move. Time: `Schedule::new`,
/// `start_memory`, and each instruction executed with what the observer does at its fetch. A call,
/// a return or a jump out of the quiet range adds a search of the ranges of the stated loops, and a
/// release, a completion or a fault a search of each task's first waiting job and of the ranges.
/// Memory: a table of 4,096 addresses with their instructions, the schedule, the cache, the data
/// memory and the observer's.
pub fn run_observed<O: Observer>(
    alloc: Global,
    code: &CodeMap,
    set: &TaskSet,
    script: &Script,
    observer: &mut O,
) -> Result<(Vec<Completion>, bool), Memory>
    requires line { 0 < set.now.platform.line }
    requires sets { 0 < set.now.platform.sets }
    requires few { set.now.platform.sets ≤ most_sets }
    requires plans { length code.now.plans ≡ length set.now.tasks }
    requires tasks { NamesTasks set.now script.now.jobs }
    requires jobs { length script.now.jobs < 2 ^ 32 }
    requires start { O.start (O.observed observer.old)
        ≡ start_of_script set.now code.now script.now }
    requires nothing { O.has_observed observer.old 0 }
    ensures outcome { IfOk result (λ outcome.
        IsOutcome (script_end_state set.now code.now script.now) outcome.0.items outcome.1) }
    ensures same { OnOk result (O.observed observer.new ≡ O.observed observer.old) }
    ensures all { OnOk result (O.has_observed observer.new script.now.cycles) }
{
    let mut parts = load(alloc, code, set, script)?;
    while parts.schedule.steps < script.cycles {
        parts.make_fast_steps(code, script.cycles, observer)?;
    }
    let kept = parts.core.kept;
    let schedule = parts.schedule;
    Ok((schedule.completions, kept))
}
