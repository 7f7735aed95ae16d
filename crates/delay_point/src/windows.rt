// The window of each task, by the best of five methods.
ghost use Rattle.std.specs.Prelude.{◌≡◌, ℕ, ◌+◌, ◌^◌, ◌<◌, length, slice_index, MatchOption};
ghost use Rattle.std.specs.Prelude.{MatchResult};
ghost use Rattle.crpd_base.specs.Tasks.{HasTimes, jitter_of};
ghost use Rattle.crpd_base.specs.declared.data.PointMethod.{PointMethod};
ghost use Rattle.delay_count.specs.Counts.{HasWindows};
ghost use Rattle.delay_count.specs.Demand.{HasLongest};
ghost use Rattle.response.specs.Windows.{HasNoWindow, IsWindow};
ghost use Rattle.delay_point.specs.Refined.{AreFirstRefined, IsRefinedWindow};
ghost use Rattle.delay_point.specs.Inner.Lists.{list_by, HaveSize};
ghost use Rattle.delay_point.specs.Inner.Windows.{counted_needs, counted_bounds, HasNoRefined};
ghost use Rattle.delay_point.specs.Inner.Windows.{multiset_of, shorter_of, told_of};

use crate::error::RefineError;
use crate::parts::PointParts;
use crpd_base::{MOST_TASKS, Method, Part, PointMethod, RefinedTask, Task, TaskSet};
use response::window;
use std::alloc::Global;

/// The methods, in the order in which the first one with the least window is taken.
const METHODS: [PointMethod; 5] = [
    PointMethod::Ucb,
    PointMethod::Ecb,
    PointMethod::Point,
    PointMethod::PersistentUcb,
    PointMethod::PersistentPoint,
];

/// A window in cycles, and the first method that gives it.
#[derive(Clone, Copy)]
pub(crate) struct PointChoice {
    /// The most cycles from a release to the completion.
    pub(crate) window: u64,
    /// The method.
    pub(crate) method: PointMethod,
}

/// The refined windows of all tasks, from their parts.
pub(crate) fn refined_windows(
    alloc: Global,
    set: &TaskSet,
    parts: &PointParts,
    longest: &[u64],
) -> Result<Vec<RefinedTask>, RefineError>
    requires times { HasTimes set.now }
    requires parts { HaveSize parts.now (length set.now.tasks) }
    requires longest { HasLongest set.now longest.now }
    ensures { let needs = counted_needs set.now (list_by parts.now) (slice_index longest.now) in
        let bounds = counted_bounds (list_by parts.now) in
        MatchResult result
        (λ tasks. AreFirstRefined set.now needs bounds (length set.now.tasks) tasks.items)
        (λ e. HasNoRefined set.now needs bounds e) }
{
    let mut tasks = Vec::new(alloc);
    let mut found = [0; MOST_TASKS];
    for i in 0..set.tasks.len() {
        let task = Task(i as u8);
        match refined_window(set, parts, longest, &found, task) {
            None => return Err(RefineError::Unschedulable(task)),
            Some(choice) => {
                found[i] = choice.window;
                tasks.push(refined_task(set, parts, task, choice))?;
            }
        }
    }
    Ok(tasks)
}

/// The result for a task with this window.
fn refined_task(set: &TaskSet, parts: &PointParts, task: Task, choice: PointChoice) -> RefinedTask
    requires task { task.0 < length set.now.tasks }
    requires parts { HaveSize parts.now (length set.now.tasks) }
    requires window { choice.window + jitter_of set.now task.0 < 2 ^ 64 }
    ensures { result ≡ told_of set.now (list_by parts.now) task.0 choice }
{
    let i = task.0 as usize;
    let spec = &set.tasks[i];
    let part = &counted_by(parts, choice.method)[i];
    RefinedTask {
        bound: part.bound,
        window: choice.window,
        response: choice.window + spec.jitter,
        method: choice.method,
    }
}

/// The refined window of a task, or `None` if it has no window by any method.
fn refined_window(
    set: &TaskSet,
    parts: &PointParts,
    longest: &[u64],
    windows: &[u64],
    task: Task,
) -> Option<PointChoice>
    requires times { HasTimes set.now }
    requires task { task.0 < length set.now.tasks }
    requires parts { HaveSize parts.now (length set.now.tasks) }
    requires longest { HasLongest set.now longest.now }
    requires windows { HasWindows set.now windows.now task.0 }
    ensures { let needs =
        counted_needs set.now (list_by parts.now) (slice_index longest.now)
        (slice_index windows.now) task.0 in
        MatchOption result ((m : PointMethod) → HasNoWindow set.now (needs m) task.0)
        (λ c. IsRefinedWindow set.now needs task.0 c.method c.window) }
{
    let mut best = None;
    for method in METHODS {
        let window = window_by(set, parts, longest, windows, task, method);
        best = shorter(best, method, window);
    }
    best
}

/// The window of a task by a method, or `None` if it has none.
fn window_by(
    set: &TaskSet,
    parts: &PointParts,
    longest: &[u64],
    windows: &[u64],
    task: Task,
    method: PointMethod,
) -> Option<u64>
    requires times { HasTimes set.now }
    requires task { task.0 < length set.now.tasks }
    requires parts { HaveSize parts.now (length set.now.tasks) }
    requires longest { HasLongest set.now longest.now }
    requires windows { HasWindows set.now windows.now task.0 }
    ensures { let needs =
        counted_needs set.now (list_by parts.now) (slice_index longest.now)
        (slice_index windows.now) task.0 method in
        MatchOption result (HasNoWindow set.now needs task.0)
        (λ w. IsWindow set.now needs task.0 w) }
{
    let counted = counted_by(parts, method);
    window(set, counted, longest, windows, task, multiset_by(method))
}

/// The parts of all tasks that a window by a method counts.
fn counted_by(parts: &PointParts, method: PointMethod) -> &[Part]
    ensures { result.now ≡ list_by parts.now method }
{
    match method {
        PointMethod::Ucb | PointMethod::Ecb => &parts.parts,
        PointMethod::Point => &parts.points,
        PointMethod::PersistentUcb => &parts.chosen,
        PointMethod::PersistentPoint => &parts.chosen_points,
    }
}

/// The multiset delay of a method with these parts: of the parts with sets that stand for those of
/// the nodes it is the delay by program point.
fn multiset_by(method: PointMethod) -> Method
    ensures { result ≡ multiset_of method }
{
    match method {
        PointMethod::Ucb | PointMethod::PersistentUcb => Method::Ucb,
        PointMethod::Ecb | PointMethod::Point | PointMethod::PersistentPoint => Method::Ecb,
    }
}

/// The shorter of the best window so far and this one; if they are equal, the one so far.
fn shorter(
    best: Option<PointChoice>,
    method: PointMethod,
    window: Option<u64>,
) -> Option<PointChoice>
    ensures { result ≡ shorter_of best method window }
{
    match (best, window) {
        (_, None) => best,
        (None, Some(window)) => Some(PointChoice { window, method }),
        (Some(choice), Some(window)) => {
            let shorter = window < choice.window;
            if shorter {
                Some(PointChoice { window, method })
            } else {
                best
            }
        }
    }
}
