// The demand of a window.
ghost use Rattle.std.specs.Prelude.{◌≡◌, ℕ, suc, ◌+◌, ◌-◌, ◌*◌, ◌^◌, ◌<◌, ◌≤◌, length, slice_index};
ghost use Rattle.crpd_base.specs.Limits.{longest_time, most_tasks};
ghost use Rattle.crpd_base.specs.Sets.{has};
ghost use Rattle.crpd_base.specs.Tasks.{HasTimes};
ghost use Rattle.delay_count.specs.Counts.{HasWindows};
ghost use Rattle.delay_count.specs.Gamma.{count_at, useful_at, part_at, evicted_from};
ghost use Rattle.delay_count.specs.Demand.{HasLongest, greatest_from, blocking, gamma, own_demand};
ghost use Rattle.delay_count.specs.Demand.{higher_demand, demand, charged_delays};
ghost use Rattle.delay_count.specs.Inner.Rates.{gamma_by};

use crate::choice::gamma_ecb;
use crate::jobs::{affected_shares, jobs};
use crate::share::Share;
use crate::union::gamma_ucb;
use crpd_base::{Method, Part, SetBits, Switching, Task, TaskSet, WORDS};

/// The demand of a window of `w` cycles: the cycles that jobs may take of the core until a job of
/// the task completes. They are its context switch, its execution bound, blocking by an instruction
/// begun before, and of each higher task its jobs in the window, each with its bound and two
/// switches, and the delay by the cache sets that they evict (Altmeyer, Davis and Maiza, 2012).
///
/// Requires the longest instruction of each task, from 1 to 2^20 cycles; a part of the task and of
/// all higher ones; a window of each higher task, at most 2^40 and, with its jitter, within its
/// deadline; and `w` of at most 2^40. Time: that of the delays by each higher task.
pub fn demand(
    set: &TaskSet,
    parts: &[Part],
    longest: &[u64],
    windows: &[u64],
    task: Task,
    method: Method,
    w: u64,
) -> u128
    requires times { HasTimes set.now }
    requires task { task.0 < length set.now.tasks }
    requires parts { task.0 < length parts.now }
    requires longest { HasLongest set.now longest.now }
    requires windows { HasWindows set.now windows.now task.0 }
    requires w { w ≤ longest_time }
    ensures { result ≡ demand set.now (part_at parts.now) (slice_index longest.now)
        (slice_index windows.now) task.0 method w }
{
    let i = task.0 as usize;
    let mut total = own_demand(set, parts, longest, task);
    for j in 0..i {
        total += higher_demand(set, parts, windows, task, Task(j as u8), method, w);
    }
    total
}

/// The cycles of its window that a task itself takes, at most 2^66: a context switch, its execution
/// bound, and blocking by an instruction begun before the window. Requires a part of the task, and
/// the longest instruction of each task, from 1 to 2^20 cycles. Linear in the tasks.
pub fn own_demand(set: &TaskSet, parts: &[Part], longest: &[u64], task: Task) -> u128
    requires task { task.0 < length set.now.tasks }
    requires parts { task.0 < length parts.now }
    requires longest { HasLongest set.now longest.now }
    ensures is { result ≡ own_demand set.now (part_at parts.now) (slice_index longest.now) task.0 }
    ensures most { result ≤ 2 ^ 66 }
{
    let i = task.0 as usize;
    let platform = &set.platform;
    let part = &parts[i];
    u128::from(platform.switch)
        + u128::from(part.bound)
        + u128::from(longest_begun(set, longest, i))
}

/// The cycles that a higher task takes of a window of `w` cycles of a task, at most 2^113: its jobs
/// in the window, each with its bound and two switches, and the delay by the cache sets that they
/// evict. Requires what `demand` requires, without the longest instructions; `higher` is above
/// `task`. Time: that of the delay.
pub fn higher_demand(
    set: &TaskSet,
    parts: &[Part],
    windows: &[u64],
    task: Task,
    higher: Task,
    method: Method,
    w: u64,
) -> u128
    requires times { HasTimes set.now }
    requires task { task.0 < length set.now.tasks }
    requires higher { higher.0 < task.0 }
    requires parts { task.0 < length parts.now }
    requires windows { HasWindows set.now windows.now task.0 }
    requires w { w ≤ longest_time }
    ensures is { result ≡ higher_demand set.now (part_at parts.now) (slice_index windows.now) w
        method task.0 higher.0 }
    ensures most { result ≤ 2 ^ 113 }
{
    let j = higher.0 as usize;
    let platform = &set.platform;
    let switch = u128::from(platform.switch);
    let part = &parts[j];
    let each = u128::from(part.bound) + (switch + switch);
    u128::from(jobs(set, j, w)) * each + delay(set, parts, windows, task.0 as usize, j, method, w)
}

/// The delays, in cycles, that the demand of a window of `w` cycles charges by a method, summed
/// over all higher tasks: for each, the delay by the cache sets that its jobs in the window evict
/// (Altmeyer, Davis and Maiza, 2012).
///
/// Requires a part of the task and of all higher ones; a window of each higher task, at most 2^40
/// and, with its jitter, within its deadline; and `w` of at most 2^40. Time: that of the delays by
/// each higher task.
pub fn charged_delays(
    set: &TaskSet,
    parts: &[Part],
    windows: &[u64],
    task: Task,
    method: Method,
    w: u64,
) -> u128
    requires times { HasTimes set.now }
    requires task { task.0 < length set.now.tasks }
    requires parts { task.0 < length parts.now }
    requires windows { HasWindows set.now windows.now task.0 }
    requires w { w ≤ longest_time }
    ensures { result ≡ charged_delays set.now (part_at parts.now) (slice_index windows.now)
        task.0 method w }
{
    let i = task.0 as usize;
    let mut total = 0;
    for higher in 0..i {
        total += delay(set, parts, windows, i, higher, method, w);
    }
    total
}

// The most cycles of a window that an instruction begun before it may take.
fn longest_begun(set: &TaskSet, longest: &[u64], i: usize) -> u64
    requires longest { HasLongest set.now longest.now }
    requires i { i < length set.now.tasks }
    ensures is { result ≡ blocking set.now.platform.switching (slice_index longest.now) i
        (length set.now.tasks) }
    ensures most { result ≤ 2 ^ 20 }
{
    match set.platform.switching {
        Switching::Cycle => 0,
        Switching::Instruction => longest_from(longest, i, set.tasks.len()),
    }
}

// The largest of these costs, less 1.
fn longest_from(longest: &[u64], i: usize, tasks: usize) -> u64
    requires tasks { tasks ≤ length longest.now }
    requires i { i ≤ tasks }
    requires range { (k : ℕ) → k < tasks
        → (1 ≤ slice_index longest.now k) × (slice_index longest.now k ≤ 2 ^ 20) }
    ensures is { result ≡ greatest_from (λ k. slice_index longest.now k - 1) i tasks }
    ensures most { result ≤ 2 ^ 20 }
{
    let mut most = 0;
    for k in i..tasks {
        most = most.max(longest[k] - 1);
    }
    most
}

// The delay by the evictions of a higher task's jobs.
fn delay(
    set: &TaskSet,
    parts: &[Part],
    windows: &[u64],
    i: usize,
    j: usize,
    method: Method,
    w: u64,
) -> u128
    requires times { HasTimes set.now }
    requires i { i < length set.now.tasks }
    requires j { j < i }
    requires parts { i < length parts.now }
    requires windows { HasWindows set.now windows.now i }
    requires w { w ≤ longest_time }
    ensures is { result ≡ gamma set.now (part_at parts.now) (slice_index windows.now) w method i j }
    ensures most { result ≤ 2 ^ 112 }
{
    let shares = affected_shares(set, parts, windows, i, j, w);
    let platform = &set.platform;
    delay_by(platform.miss, parts, i, j, method, jobs(set, j, w), &shares)
}

/// The delay of task `i` by the evictions of `jobs` jobs of a higher task `j`, in cycles, at most
/// 2^112. Requires 32 shares: first those of the higher tasks and of the task, each with a count
/// below 2^81. Time: that of `gamma_ucb` or `gamma_ecb`, by the method.
pub fn delay_by(
    miss: u32,
    parts: &[Part],
    i: usize,
    j: usize,
    method: Method,
    jobs: u64,
    shares: &[Share<WORDS>],
) -> u128
    requires i { i < most_tasks }
    requires j { j < i }
    requires parts { i < length parts.now }
    requires size { length shares.now ≡ 32 }
    requires counts { (k : ℕ) → k ≤ i → count_at shares.now k < 2 ^ 81 }
    requires useful { (k c : ℕ) → k ≤ i
        → useful_at shares.now k c ≡ has (part_at parts.now k).useful c }
    ensures is { result ≡ gamma_by method miss (part_at parts.now) (count_at shares.now) jobs i j }
    ensures most { result ≤ 2 ^ 112 }
{
    let lower = &shares[..i + 1];
    match method {
        Method::Ucb => {
            let part = &parts[j];
            gamma_ucb(miss, jobs, &part.evicting, lower)
        }
        Method::Ecb => gamma_ecb(miss, jobs, &evicted_up(parts, j), lower),
    }
}

/// The cache sets that a task or one above it evicts, by the parts of all of these. Time: a union
/// for each of them.
pub fn evicted_up(parts: &[Part], j: usize) -> SetBits<WORDS>
    requires { j < length parts.now }
    ensures { (c : ℕ) → has result c ≡ evicted_from (part_at parts.now) j c }
{
    let part = &parts[0];
    let mut sets = part.evicting;
    for k in 0..j {
        let part = &parts[k + 1];
        sets.union(&part.evicting);
    }
    sets
}
