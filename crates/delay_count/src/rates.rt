// A lower bound on the rate at which a higher task uses any window.
ghost use Rattle.std.specs.Prelude.{◌≡◌, ℕ, ◌+◌, ◌*◌, ◌/◌, ◌^◌, ◌<◌, ◌≤◌, length, slice_index};
ghost use Rattle.crpd_base.specs.Limits.{longest_time};
ghost use Rattle.crpd_base.specs.Sets.{has};
ghost use Rattle.crpd_base.specs.Tasks.{HasTimes, period_of};
ghost use Rattle.delay_count.specs.Counts.{jobs_of, HasWindows};
ghost use Rattle.delay_count.specs.Gamma.{count_at, useful_at, part_at};
ghost use Rattle.delay_count.specs.Demand.{gamma};
ghost use Rattle.delay_count.specs.Rates.{IsRate, CountsJobs};
ghost use Rattle.delay_count.specs.Inner.Rates.{release_rate, affected_rate};

use crate::jobs::jobs;
use crate::share::Share;
use crate::window_demand::delay_by;
use crpd_base::{MOST_TASKS, Method, Part, SetBits, Task, TaskSet, WORDS};

// One cycle in each cycle, as a rate.
const ONE: u128 = 1 << 80;

// One job in each cycle, as a rate.
const ONE_JOB: u64 = 1 << 63;

/// A lower bound on the rate at which a higher task uses any window of a task, in units of 2^-80,
/// at most one. It counts the task's jobs as if they were released evenly, each with its bound and
/// two switches, and the delay by the evictions of that many jobs. It is one, or more than the
/// exact rate of these jobs less one unit of 2^-80. Requires what `demand` requires, without the
/// longest instructions; `higher` is above `task`. Time: that of the delay.
pub fn least_rate(
    set: &TaskSet,
    parts: &[Part],
    windows: &[u64],
    task: Task,
    higher: Task,
    method: Method,
) -> u128
    requires times { HasTimes set.now }
    requires task { task.0 < length set.now.tasks }
    requires higher { higher.0 < task.0 }
    requires parts { task.0 < length parts.now }
    requires windows { HasWindows set.now windows.now task.0 }
    ensures most { result ≤ 2 ^ 80 }
    ensures is { IsRate set.now (part_at parts.now) (slice_index windows.now) method task.0
        higher.0 result }
    ensures counts { CountsJobs set.now (part_at parts.now) higher.0 result }
{
    let (i, j) = (task.0 as usize, higher.0 as usize);
    let jobs = jobs_rate(set, parts, j);
    let delay = delay_rate(set, parts, windows, i, j, method);
    (jobs + delay).min(ONE)
}

// The rate of a task's jobs, each with its bound and two switches.
fn jobs_rate(set: &TaskSet, parts: &[Part], j: usize) -> u128
    requires times { HasTimes set.now }
    requires task { j < length set.now.tasks }
    requires parts { j < length parts.now }
    ensures most { result ≤ 2 ^ 80 }
    ensures is { (w : ℕ) →
        result * w ≤ jobs_of set.now j
        w * ((part_at parts.now j).bound + (set.now.platform.switch + set.now.platform.switch)) * 2
        ^ 80 }
    ensures counts { CountsJobs set.now (part_at parts.now) j result }
{
    let platform = &set.platform;
    let part = &parts[j];
    let switch = u128::from(platform.switch);
    let each = u128::from(part.bound) + (switch + switch);
    let period = u128::from(period(set, j));
    each.min(period) * ONE / period
}

// The rate of the delay by a task's jobs.
fn delay_rate(
    set: &TaskSet,
    parts: &[Part],
    windows: &[u64],
    i: usize,
    j: usize,
    method: Method,
) -> u128
    requires times { HasTimes set.now }
    requires i { i < length set.now.tasks }
    requires j { j < i }
    requires parts { i < length parts.now }
    requires windows { HasWindows set.now windows.now i }
    ensures most { result ≤ 2 ^ 80 }
    ensures is { (w : ℕ) → result * w
        ≤ gamma set.now (part_at parts.now) (slice_index windows.now) w method i j * 2 ^ 80 }
{
    let shares = rate_shares(set, parts, windows, i, j);
    let platform = &set.platform;
    let delay = delay_by(
        platform.miss,
        parts,
        i,
        j,
        method,
        job_rate(set, j),
        &shares,
    );
    delay.min(u128::from(ONE_JOB)) * (ONE / u128::from(ONE_JOB))
}

// For each task down to `i`, how often jobs of task `j` may preempt its jobs in a cycle of task
// `i`, and its useful sets.
fn rate_shares(
    set: &TaskSet,
    parts: &[Part],
    windows: &[u64],
    i: usize,
    j: usize,
) -> [Share<WORDS>; MOST_TASKS]
    requires times { HasTimes set.now }
    requires i { i < length set.now.tasks }
    requires j { j < i }
    requires parts { i < length parts.now }
    requires windows { HasWindows set.now windows.now i }
    ensures size { length result ≡ 32 }
    ensures counts { (k : ℕ) → k ≤ i
        → count_at result k ≡ affected_rate set.now (slice_index windows.now) i j k }
    ensures useful { (k c : ℕ) → k ≤ i → useful_at result k c ≡ has (part_at parts.now k).useful c }
{
    let none = Share {
        count: 0,
        useful: SetBits::new(),
    };
    let mut shares = [none; MOST_TASKS];
    for k in 0..i + 1 {
        let part = &parts[k];
        shares[k] = Share {
            count: preemption_rate(set, windows, i, j, k),
            useful: part.useful,
        };
    }
    shares
}

// How often jobs of task `j` may preempt those of task `k` in a cycle of task `i`.
fn preemption_rate(set: &TaskSet, windows: &[u64], i: usize, j: usize, k: usize) -> u128
    requires times { HasTimes set.now }
    requires i { i < length set.now.tasks }
    requires j { j < i }
    requires k { k ≤ i }
    requires windows { HasWindows set.now windows.now i }
    ensures { result ≡ affected_rate set.now (slice_index windows.now) i j k }
{
    if k <= j {
        return 0;
    }
    let released = u128::from(job_rate(set, j));
    if k == i {
        return released;
    }
    let each = u128::from(jobs(set, j, windows[k]));
    released.min(each * u128::from(job_rate(set, k)))
}

// The rate at which a task releases jobs, in units of 2^-63 jobs per cycle.
fn job_rate(set: &TaskSet, k: usize) -> u64
    requires times { HasTimes set.now }
    requires task { k < length set.now.tasks }
    ensures is { result ≡ release_rate set.now k }
    ensures most { result ≤ 2 ^ 63 }
{
    ONE_JOB / period(set, k)
}

// The period of a task, in cycles.
fn period(set: &TaskSet, k: usize) -> u64
    requires times { HasTimes set.now }
    requires task { k < length set.now.tasks }
    ensures is { result ≡ period_of set.now k }
    ensures some { 1 ≤ result }
    ensures most { result ≤ longest_time }
{
    let task = &set.tasks[k];
    task.period
}
