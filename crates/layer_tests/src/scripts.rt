// Scripts of the tasks of a set.
ghost use Rattle.std.specs.Prelude.{◌<◌, ◌^◌, IsTrue, length};
ghost use Rattle.preempt_machine.specs.Safe.{NamesTasks};

use crpd_base::{Items, Script, ScriptJob, Task, TaskSet};
use std::alloc::Global;
use std::process::Abort;

fn are_named(set: &TaskSet, script: &Script) -> bool
    ensures { IsTrue result → NamesTasks set.now script.now.jobs }
{
    let tasks = set.tasks.len();
    for job in script.jobs.as_slice() {
        if usize::from(job.task.0) >= tasks {
            return false;
        }
    }
    true
}

fn jobs_of(rt: &impl Abort, alloc: Global, jobs: &[(u8, u64, u64)]) -> Vec<ScriptJob> {
    let mut lines = Vec::new(alloc);
    for &(task, arrival, release) in jobs {
        let job = ScriptJob {
            task: Task(task),
            arrival,
            release,
        };
        lines.push(job).expect(rt, "memory");
    }
    lines
}

// A script of a set's tasks: its cycles, the blocks in the cache at the start, and its jobs by
// task, arrival and release.
pub(crate) fn script_of(
    rt: &impl Abort,
    alloc: Global,
    set: &TaskSet,
    cycles: u64,
    blocks: &[u32],
    jobs: &[(u8, u64, u64)],
) -> Script
    ensures tasks { NamesTasks set.now result.jobs }
    ensures jobs { length result.jobs < 2 ^ 32 }
{
    let blocks = Vec::from_slice(alloc, blocks).expect(rt, "memory");
    let script = Script {
        cycles,
        cache: Items::new(blocks),
        jobs: Items::new(jobs_of(rt, alloc, jobs)),
    };
    assert!(rt; are_named(set, &script) && script.jobs.len() <= 100);
    script
}
