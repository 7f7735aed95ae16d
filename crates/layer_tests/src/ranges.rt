// Whether a task set of one task is in the ranges of task sets.
ghost use Rattle.std.specs.Prelude.{◌≡◌, ◌↔◌, ◌&&◌, nat_le, All, IsTrue, length};
ghost use Rattle.crpd_base.specs.Names as names;
ghost use Rattle.crpd_base.specs.Ranges.{IsLoopSpec, IsTaskSpec, IsPlatform, IsTaskSet};

use crpd_base::{LONGEST_TIME, LoopSpec, Platform, TaskSet, TaskSpec, is_file, is_name};

fn is_line(bytes: u32) -> bool
    ensures { result ≡ names.is_line_length bytes }
{
    matches!(bytes, 4 | 8 | 16 | 32 | 64)
}

pub(crate) fn is_platform(p: &Platform) -> bool
    ensures { IsTrue result → IsPlatform p.now }
{
    let line = 4 <= p.line && p.line <= 64 && is_line(p.line);
    let sets = 1 <= p.sets && p.sets <= 512;
    let first = 1 <= p.hit && p.hit <= 65535 && p.miss <= 65535 && p.memory <= 65535;
    let others = p.taken <= 65535 && p.switch <= 65535 && p.mul <= 65535 && p.div <= 65535;
    line && sets && first && others
}

fn is_loop(l: &LoopSpec) -> bool
    ensures { result ≡ (nat_le 1 l.now.bound && nat_le l.now.bound 1000000) }
{
    1 <= l.bound && l.bound <= 1_000_000
}

fn are_loops(loops: &[LoopSpec]) -> bool
    ensures { IsTrue result ↔ All IsLoopSpec loops.now }
{
    loops.iter().all(is_loop)
}

fn is_task(task: &TaskSpec) -> bool
    ensures { IsTrue result → IsTaskSpec task.now }
{
    let loops = task.loops.as_slice();
    if loops.len() > 64 || !are_loops(loops) {
        return false;
    }
    if !is_name(task.name.as_str()) || !is_file(task.file.as_str()) {
        return false;
    }
    if task.period > LONGEST_TIME || task.jitter > LONGEST_TIME {
        return false;
    }
    1 <= task.period && 1 <= task.deadline && task.deadline <= task.period
}

// Whether the set has one task in its ranges, on a platform in its ranges.
pub(crate) fn is_set_of_one(set: &TaskSet) -> bool
    ensures set { IsTrue result → IsTaskSet set.now }
    ensures one { IsTrue result → length set.now.tasks ≡ 1 }
{
    match set.tasks.as_slice() {
        [task] => is_platform(&set.platform) && is_task(task),
        _ => false,
    }
}
