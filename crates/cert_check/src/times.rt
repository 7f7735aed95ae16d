// The clauses on a task's part apart from its graph.
ghost use Rattle.std.specs.Prelude.{◌≡◌, ◌↔◌, ◌<◌, ◌≤◌, ◌^◌, ◌+◌, ℕ, length, slice_index, IsTrue};
ghost use Rattle.std.specs.Prelude.{All};
ghost use Rattle.crpd_base.specs.Limits.{longest_time};
ghost use Rattle.crpd_base.specs.Ranges.{IsTaskSet};
ghost use Rattle.crpd_base.specs.declared.data.TaskPart.{TaskPart};
ghost use Rattle.loop_regions.specs.TaskGraph.{TaskGraph};
ghost use Rattle.delay_count.specs.Demand.{HasLongest};
ghost use Rattle.cert_check.specs.declared.outcome.Clause.TheVariants.{Window};
ghost use Rattle.cert_check.specs.Verdict.{ClauseHolds, TimesHold};
ghost use Rattle.cert_check.specs.Inner.FirstFailing.{IsRangeJudged};
ghost use Rattle.cert_check.specs.Inner.Times.{HigherHold};

use crate::least::at_most;
use crate::outcome::Clause;
use crpd_base::{Certificate, MOST_TASKS, Platform, Task, TaskSet, Text, times_law};
use delay_count::demand;

fn are_same(a: &Text, b: &Text) -> bool
    ensures { IsTrue result ↔ (a.now ≡ b.now) }
{
    a.as_str() == b.as_str()
}

pub(crate) fn are_alike(a: &Platform, b: &Platform) -> bool
    ensures { IsTrue result ↔ (a.now ≡ b.now) }
{
    *a == *b
}

/// The first failure of the platform, the tasks and the names at a task, as an error.
pub(crate) fn name_failure(set: &TaskSet, certificate: &Certificate, i: usize) -> Result<(), Clause>
    requires { i < length set.now.tasks }
    ensures { (graphs : ℕ → TaskGraph)
        → IsRangeJudged (ClauseHolds set.now graphs certificate.now i) 1 1 result }
{
    let tasks = set.tasks.as_slice();
    let parts = certificate.tasks.as_slice();
    if !are_alike(&certificate.platform, &set.platform) {
        return Err(Clause::Platforms);
    }
    if parts.len() <= i {
        return Err(Clause::HasTask);
    }
    let (task, part) = (&tasks[i], &parts[i]);
    if !are_same(&part.name, &task.name) {
        return Err(Clause::Names);
    }
    if i + 1 == tasks.len() && parts.len() != tasks.len() {
        return Err(Clause::Last);
    }
    Ok(())
}

/// Whether a task's window has room for the demand: it is at least 1, and at least the demand of
/// that window.
fn has_room(set: &TaskSet, certificate: &Certificate, longest: &[u64], i: usize) -> bool
    requires set { IsTaskSet set.now }
    requires task { i < length set.now.tasks }
    requires longest { HasLongest set.now longest.now }
    requires windows { All (λ (t : TaskPart). t.window ≤ longest_time) certificate.now.tasks }
    requires higher { HigherHold set.now certificate.now i }
    ensures { IsTrue result ↔ TimesHold set.now (slice_index longest.now) certificate.now i Window }
{
    times_law(set);
    let tasks = certificate.tasks.as_slice();
    let part = &tasks[i];
    let mut parts = [part.part; MOST_TASKS];
    let mut windows = [0; MOST_TASKS];
    for k in 0..i + 1 {
        let task = &tasks[k];
        parts[k] = task.part;
        windows[k] = task.window;
    }
    let window = part.window;
    let task = Task(i as u8);
    if window == 0 {
        return false;
    }
    let demand = demand(set, &parts, longest, &windows, task, part.method, window);
    at_most(demand, u128::from(window))
}

/// The first failure of a task's times, as an error.
pub(crate) fn time_failure(
    set: &TaskSet,
    certificate: &Certificate,
    longest: &[u64],
    i: usize,
) -> Result<(), Clause>
    requires set { IsTaskSet set.now }
    requires task { i < length set.now.tasks }
    requires longest { HasLongest set.now longest.now }
    requires windows { All (λ (t : TaskPart). t.window ≤ longest_time) certificate.now.tasks }
    requires higher { HigherHold set.now certificate.now i }
    ensures { IsRangeJudged (TimesHold set.now (slice_index longest.now) certificate.now i)
        8 9 result }
{
    let task = &set.tasks[i];
    let part = &certificate.tasks[i];
    if !has_room(set, certificate, longest, i) {
        return Err(Clause::Window);
    }
    if u128::from(part.response) != u128::from(part.window) + u128::from(task.jitter) {
        return Err(Clause::Response);
    }
    if part.response > task.deadline {
        return Err(Clause::Deadline);
    }
    Ok(())
}
