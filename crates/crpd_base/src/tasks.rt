// The tasks of a set by number and by name, and laws of a set.
ghost use Rattle.std.specs.Prelude.{◌≡◌, ◌<◌, length, IfSome};
ghost use Rattle.crpd_base.specs.Ranges.{IsTaskSet};
ghost use Rattle.crpd_base.specs.Tasks.{HasTimes, task_name, place_of_name};

use crate::data::{Task, TaskSet, TaskSpec};

/// The name of a task, empty if the set has no such task. In constant time; it takes no memory.
pub fn task_name(set: &TaskSet, task: Task) -> &str
    ensures { result.now ≡ task_name set.now task }
{
    match set.tasks.get(usize::from(task.0)) {
        Some(spec) => spec.name.as_str(),
        None => "",
    }
}

/// The place of the first of these tasks with this name. Linear in the tasks; it takes no memory.
pub fn place_of_name(tasks: &[TaskSpec], name: &str) -> Option<usize>
    ensures is { result ≡ place_of_name tasks.now name.now }
    ensures within { IfSome result (λ place. place < length tasks.now) }
{
    tasks.iter().position(|task| name == task.name.as_str())
}

/// The times of a task set are in their ranges. In constant time.
pub fn times_law(set: &TaskSet)
    requires { IsTaskSet set.now }
    ensures { HasTimes set.now }
{}
