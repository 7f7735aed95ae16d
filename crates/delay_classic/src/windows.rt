// The window of each task by the plain union delays.
ghost use Rattle.std.specs.Prelude.{◌≡◌, ℕ, ◌^◌, ◌<◌, ◌≤◌, length, slice_index, MatchResult};
ghost use Rattle.std.specs.Prelude.{MatchOption};
ghost use Rattle.crpd_base.specs.Limits.{longest_time};
ghost use Rattle.crpd_base.specs.declared.data.Method.TheVariants.{Ucb, Ecb};
ghost use Rattle.crpd_base.specs.Tasks.{HasTimes, deadline_of, jitter_of};
ghost use Rattle.delay_count.specs.Gamma.{part_at};
ghost use Rattle.delay_count.specs.Demand.{HasLongest};
ghost use Rattle.response.specs.Windows.{IsWindow, HasNoWindow, IsSmallerWindow, AreAllChoices};
ghost use Rattle.response.specs.Windows.{IsWindowError};
ghost use Rattle.delay_classic.specs.Demand.{classic_demand, classic_demands};

use crate::charged::charged_parts;
use crpd_base::{MOST_TASKS, Method, Part, Task, TaskSet};
use response::{Choice, WindowError, smaller, window};
use std::alloc::Global;

/// The windows of all tasks by the plain union delays, from the highest down: for each the smaller
/// of the windows by the two methods, the UCB-union one if they are equal. A window is the smallest
/// number of cycles that the task's demand does not exceed. With the task's jitter it is within the
/// deadline.
///
/// Requires a part, with a bound of at most 2^40 cycles, and the longest instruction, from 1 to
/// 2^20 cycles, of each task. `Unschedulable` names the first task that has no window by either
/// method. The only other error is out of memory, which only the choices take. The search continues
/// from lower bounds by the rates of the higher tasks. So it mostly takes few steps, even if these
/// tasks leave almost nothing. A step computes the demand of one window.
pub fn classic_windows(
    alloc: Global,
    set: &TaskSet,
    parts: &[Part],
    longest: &[u64],
) -> Result<Vec<Choice>, WindowError>
    requires times { HasTimes set.now }
    requires parts { length parts.now ≡ length set.now.tasks }
    requires bounds { (k : ℕ) → k < length set.now.tasks
        → (part_at parts.now k).bound ≤ longest_time }
    requires longest { HasLongest set.now longest.now }
    ensures { MatchResult result
        (λ choices. AreAllChoices set.now
        (classic_demands set.now (part_at parts.now) (slice_index longest.now)) choices.items)
        (λ e. IsWindowError set.now
        (classic_demands set.now (part_at parts.now) (slice_index longest.now)) e) }
{
    let mut choices = Vec::new(alloc);
    for i in 0..set.tasks.len() {
        let task = Task(i as u8);
        match choice(set, parts, longest, task) {
            None => return Err(WindowError::Unschedulable(task)),
            Some(choice) => {
                if choices.push(choice).is_err() {
                    return Err(WindowError::Memory);
                }
            }
        }
    }
    Ok(choices)
}

// The smaller of a task's windows by the two methods.
fn choice(set: &TaskSet, parts: &[Part], longest: &[u64], task: Task) -> Option<Choice>
    requires times { HasTimes set.now }
    requires task { task.0 < length set.now.tasks }
    requires parts { length parts.now ≡ length set.now.tasks }
    requires bounds { (k : ℕ) → k < length set.now.tasks
        → (part_at parts.now k).bound ≤ longest_time }
    requires longest { HasLongest set.now longest.now }
    requires higher { (k : ℕ) → k < task.0 → jitter_of set.now k ≤ deadline_of set.now k }
    ensures { let needs =
        classic_demand set.now (part_at parts.now) (slice_index longest.now) task.0 in
        MatchOption result
        (HasNoWindow set.now (needs Ucb) task.0 × HasNoWindow set.now (needs Ecb) task.0)
        (λ c. IsSmallerWindow set.now needs task.0 c.method c.window) }
{
    let ucb = classic_window(set, parts, longest, task, Method::Ucb);
    let ecb = classic_window(set, parts, longest, task, Method::Ecb);
    smaller(ucb, ecb)
}

// The smallest window of a task by a plain union delay, if with the jitter it is within the
// deadline. It does not depend on the windows of higher tasks.
fn classic_window(
    set: &TaskSet,
    parts: &[Part],
    longest: &[u64],
    task: Task,
    method: Method,
) -> Option<u64>
    requires times { HasTimes set.now }
    requires task { task.0 < length set.now.tasks }
    requires parts { length parts.now ≡ length set.now.tasks }
    requires bounds { (k : ℕ) → k < length set.now.tasks
        → (part_at parts.now k).bound ≤ longest_time }
    requires longest { HasLongest set.now longest.now }
    requires higher { (k : ℕ) → k < task.0 → jitter_of set.now k ≤ deadline_of set.now k }
    ensures { let needs =
        classic_demand set.now (part_at parts.now) (slice_index longest.now) task.0 method in
        MatchOption result (HasNoWindow set.now needs task.0)
        (λ w. IsWindow set.now needs task.0 w) }
{
    let platform = &set.platform;
    let charged = charged_parts(platform.miss, parts, task, method);
    window(set, &charged, longest, &[0; MOST_TASKS], task, method)
}
