// The ECB-union multiset delay.
ghost use Rattle.std.specs.Prelude.{◌≡◌, ℕ, ◌+◌, ◌*◌, ◌^◌, ◌<◌, ◌≤◌, ◌↔◌, length, slice_index};
ghost use Rattle.crpd_base.specs.Limits.{most_tasks};
ghost use Rattle.crpd_base.specs.Sets.{has};
ghost use Rattle.delay_count.specs.Gamma.{count_at, useful_at, shared_count, ecb_delay};
ghost use Rattle.delay_count.specs.Inner.Filling.{IsNextValue, sum_at_value};

use crate::share::Share;
use crpd_base::{MOST_TASKS, SetBits};

/// The delay, in cycles, by `jobs` jobs: the ECB-union multiset delay of Altmeyer, Davis and Maiza
/// (2012). Each of the jobs preempts one job of an affected task, each task at most as often as its
/// count, and evicts those useful sets of it that are in `evicting_up`: the sets of all tasks of at
/// least the jobs' priority. The delay is the largest sum of reloads of `miss` cycles. It is found
/// greedily, from the task with the largest number of such sets downwards.
///
/// Requires at most 32 shares, each with a count below 2^81. Time: at most all pairs of two shares,
/// and each share's set.
pub fn gamma_ecb<const W: usize>(
    miss: u32,
    jobs: u64,
    evicting_up: &SetBits<W>,
    lower: &[Share<W>],
) -> u128
    requires sets { 64 * W ≤ 65536 }
    requires shares { length lower.now ≤ most_tasks }
    requires counts { (k : ℕ) → k < length lower.now → count_at lower.now k < 2 ^ 81 }
    ensures { result ≡ ecb_delay miss jobs evicting_up.now lower.now (64 * W) }
{
    let values = shared_sets(evicting_up, lower);
    let mut room = u128::from(jobs);
    let mut charged = 0u128;
    let mut level = 64 * W as u32 + 1;
    loop {
        let value = next_value(&values, lower.len(), level);
        if value == 0 {
            return u128::from(miss) * charged;
        }
        let count = count_of_value(&values, lower, value);
        if count >= room {
            return u128::from(miss) * (charged + room * u128::from(value));
        }
        charged += count * u128::from(value);
        room -= count;
        level = value;
    }
}

// The number of useful sets of each share that are evicted.
fn shared_sets<const W: usize>(evicting_up: &SetBits<W>, lower: &[Share<W>]) -> [u32; MOST_TASKS]
    requires sets { 64 * W ≤ 65536 }
    requires shares { length lower.now ≤ most_tasks }
    ensures { (k : ℕ) → k < length lower.now →
        slice_index result k ≡ shared_count (useful_at lower.now k) (has evicting_up.now) (64 * W) }
{
    let mut values = [0; MOST_TASKS];
    for k in 0..lower.len() {
        let share = &lower[k];
        values[k] = shared(&share.useful, evicting_up);
    }
    values
}

/// The number of cache sets that are both useful and evicted: at most 64 * W. Linear in W, which is
/// at most 1,024.
pub fn shared<const W: usize>(useful: &SetBits<W>, evicted: &SetBits<W>) -> u32
    requires { 64 * W ≤ 65536 }
    ensures is { result ≡ shared_count (has useful.now) (has evicted.now) (64 * W) }
    ensures most { result ≤ 64 * W }
{
    let mut sets = *useful;
    sets.meet(evicted);
    sets.count()
}

// The largest of the first values below a level, or 0.
fn next_value(values: &[u32], tasks: usize, level: u32) -> u32
    requires tasks { tasks ≤ length values.now }
    requires level { 0 < level }
    ensures { IsNextValue (slice_index values.now) tasks level result }
{
    let mut next = 0;
    for k in 0..tasks {
        let value = values[k];
        if value < level && next < value {
            next = value;
        }
    }
    next
}

// The sum of the counts of the shares with this value.
fn count_of_value<const W: usize>(values: &[u32], lower: &[Share<W>], value: u32) -> u128
    requires values { length lower.now ≤ length values.now }
    requires shares { length lower.now ≤ most_tasks }
    requires counts { (k : ℕ) → k < length lower.now → count_at lower.now k < 2 ^ 81 }
    ensures { result ≡ sum_at_value (slice_index values.now) (count_at lower.now)
        (length lower.now) value }
{
    let mut count = 0;
    for k in 0..lower.len() {
        if values[k] == value {
            let share = &lower[k];
            count += share.count;
        }
    }
    count
}
