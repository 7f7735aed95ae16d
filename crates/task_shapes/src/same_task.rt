// Which tasks of a set have the graph and the stated loops of a task of an old set.
ghost use Rattle.std.specs.Prelude.{◌≡◌, ◌↔◌, ◌<◌, length, IfOk, IsTrue};
ghost use Rattle.task_shapes.specs.SameTask.{IsSameTask};
ghost use Rattle.task_shapes.specs.Inner.SameTask.{AreSources, IsSource};

use crate::input::Input;
use crate::shaped::ShapedSet;
use crpd_base::{LoopAt, Task, place_of_name};
use std::alloc::{AllocError, Global};

/// Whether two lists have the same pairs of addresses in the same order.
fn are_same_ranges(old: &[(u32, u32)], new: &[(u32, u32)]) -> bool
    ensures { IsTrue result ↔ (old.now ≡ new.now) }
{
    old == new
}

/// Whether two loops are the same, in all their fields.
fn is_same_loop(old: &LoopAt, new: &LoopAt) -> bool
    ensures { IsTrue result ↔ (old.now ≡ new.now) }
{
    if old.head != new.head {
        return false;
    }
    if old.bound != new.bound {
        return false;
    }
    let before = old.ranges.as_slice();
    let after = new.ranges.as_slice();
    are_same_ranges(before, after)
}

/// Whether two lists have the same loops in the same order.
fn are_same_loops(old: &[LoopAt], new: &[LoopAt]) -> bool
    ensures { IsTrue result ↔ (old.now ≡ new.now) }
{
    if old.len() != new.len() {
        return false;
    }
    for place in 0..old.len() {
        if !is_same_loop(&old[place], &new[place]) {
            return false;
        }
    }
    true
}

/// Whether the graph of an old task is that of a new task, and both have the same loops. Linear in
/// the nodes.
fn is_same_task(old: &ShapedSet, old_task: Task, input: &Input, task: Task) -> bool
    requires old_task { old_task.0 < length old.now.input.set.tasks }
    requires task { task.0 < length input.now.set.tasks }
    ensures { IsTrue result ↔ IsSameTask old.now old_task.0 input.now task.0 }
{
    old.shaped_law();
    let old_plan = old.input().plan(old_task);
    let plan = input.plan(task);
    if !are_same_loops(old_plan.loops.as_slice(), plan.loops.as_slice()) {
        return false;
    }
    let graph = &old.graphs()[usize::from(old_task.0)];
    graph.is_of_code(input.code(), plan.entry)
}

/// The old task with a new task's name, if it is the same; otherwise `None`.
fn source(old: &ShapedSet, input: &Input, task: Task) -> Option<usize>
    requires { task.0 < length input.now.set.tasks }
    ensures { IsSource old.now input.now task.0 result }
{
    let place = place_of_name(old.set().tasks.as_slice(), input.name(task))?;
    if is_same_task(old, Task(place as u8), input, task) {
        Some(place)
    } else {
        None
    }
}

/// For each new task the old task of its name, if it is the same. Time: at most a look-up of a word
/// for each node of these old tasks, and one pass over their stated loops with their ranges.
pub(crate) fn sources(
    alloc: Global,
    old: &ShapedSet,
    input: &Input,
) -> Result<Vec<Option<usize>>, AllocError>
    ensures { IfOk result (λ s.
        AreSources old.now input.now (length input.now.set.tasks) s.items) }
{
    let mut sources = Vec::new(alloc);
    for place in 0..input.task_count() {
        sources.push(source(old, input, Task(place as u8)))?;
    }
    Ok(sources)
}
