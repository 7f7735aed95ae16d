// Counts of jobs in windows.
ghost use Rattle.std.specs.Prelude.{◌≡◌, ℕ, suc, ◌+◌, ◌*◌, ◌^◌, ◌<◌, ◌≤◌, length, slice_index};
ghost use Rattle.crpd_base.specs.Limits.{longest_time};
ghost use Rattle.crpd_base.specs.Sets.{has};
ghost use Rattle.crpd_base.specs.Tasks.{HasTimes};
ghost use Rattle.delay_count.specs.Counts.{jobs_of, affected_preemptions, HasWindows};
ghost use Rattle.delay_count.specs.Gamma.{count_at, useful_at, part_at};

use crate::share::Share;
use crpd_base::{MOST_TASKS, Part, SetBits, TaskSet, WORDS};

/// The most jobs of a task that are released in a window of `window` cycles, at most 2^40: the
/// window plus the task's jitter over its period, rounded up. In constant time.
pub fn jobs(set: &TaskSet, task: usize, window: u64) -> u64
    requires times { HasTimes set.now }
    requires task { task < length set.now.tasks }
    requires window { window ≤ longest_time }
    ensures { result ≡ jobs_of set.now task window }
{
    let task = &set.tasks[task];
    (window + task.jitter + (task.period - 1)) / task.period
}

/// For each task down to `i`, how often jobs of the higher task `j` may preempt its jobs in a
/// window of `window` cycles, at most 2^40, of task `i`, and its useful sets. The count is 0 for
/// tasks that `j` does not preempt. Requires a window of each task above `i`, at most 2^40 and,
/// with its jitter, within its deadline. Linear in the tasks, each with its set.
pub fn affected_shares(
    set: &TaskSet,
    parts: &[Part],
    windows: &[u64],
    i: usize,
    j: usize,
    window: u64,
) -> [Share<WORDS>; MOST_TASKS]
    requires times { HasTimes set.now }
    requires i { i < length set.now.tasks }
    requires j { j < i }
    requires parts { i < length parts.now }
    requires windows { HasWindows set.now windows.now i }
    requires window { window ≤ longest_time }
    ensures size { length result ≡ 32 }
    ensures counts { (k : ℕ) → k ≤ i
        → count_at result k ≡ affected_preemptions set.now (slice_index windows.now) window i j k }
    ensures useful { (k c : ℕ) → k ≤ i → useful_at result k c ≡ has (part_at parts.now k).useful c }
{
    let none = Share {
        count: 0,
        useful: SetBits::new(),
    };
    let mut shares = [none; MOST_TASKS];
    for k in 0..i + 1 {
        let part = &parts[k];
        shares[k] = Share {
            count: preemptions(set, windows, i, j, k, window),
            useful: part.useful,
        };
    }
    shares
}

// How often jobs of task `j` may preempt those of task `k` in a window of task `i`.
fn preemptions(set: &TaskSet, windows: &[u64], i: usize, j: usize, k: usize, window: u64) -> u128
    requires times { HasTimes set.now }
    requires i { i < length set.now.tasks }
    requires j { j < i }
    requires k { k ≤ i }
    requires windows { HasWindows set.now windows.now i }
    requires window { window ≤ longest_time }
    ensures { result ≡ affected_preemptions set.now (slice_index windows.now) window i j k }
{
    if k <= j {
        return 0;
    }
    if k == i {
        return u128::from(jobs(set, j, window));
    }
    u128::from(jobs(set, j, windows[k])) * u128::from(jobs(set, k, window))
}
