// The UCB-union multiset delay.
ghost use Rattle.crpd_base.specs.Limits.{most_tasks};
ghost use Rattle.std.specs.Prelude.{◌≡◌, ℕ, ◌+◌, ◌*◌, ◌^◌, ◌<◌, ◌≤◌, length, slice_index};
ghost use Rattle.delay_count.specs.Gamma.{count_at, ucb_delay};
ghost use Rattle.delay_count.specs.Inner.Words.{word_share, useful_words};

use crate::share::Share;
use crpd_base::{MOST_TASKS, SetBits};

/// The delay, in cycles, by `jobs` jobs that evict the sets of `evicting`: the UCB-union multiset
/// delay of Altmeyer, Davis and Maiza (2012). For each set it counts reloads of `miss` cycles: the
/// smaller of the jobs and of the preemptions of the affected tasks that find the set useful.
///
/// Requires at most 32 shares, each with a count below 2^81. Works on words of 64 sets. Time: at
/// most all pairs of a set and a share.
pub fn gamma_ucb<const W: usize>(
    miss: u32,
    jobs: u64,
    evicting: &SetBits<W>,
    lower: &[Share<W>],
) -> u128
    requires sets { 64 * W ≤ 65536 }
    requires shares { length lower.now ≤ most_tasks }
    requires counts { (k : ℕ) → k < length lower.now → count_at lower.now k < 2 ^ 81 }
    ensures { result ≡ ucb_delay miss jobs evicting.now lower.now (64 * W) }
{
    let counts = counts_of(lower);
    let mut charged = 0u128;
    for place in 0..W {
        let useful = words_at(lower, place);
        charged += share_of_word(jobs, evicting.word(place), &useful, &counts, lower.len(), 0);
    }
    u128::from(miss) * charged
}

// The counts of the shares.
fn counts_of<const W: usize>(lower: &[Share<W>]) -> [u128; MOST_TASKS]
    requires { length lower.now ≤ most_tasks }
    ensures { (k : ℕ) → k < length lower.now → slice_index result k ≡ count_at lower.now k }
{
    let mut counts = [0; MOST_TASKS];
    for k in 0..lower.len() {
        let share = &lower[k];
        counts[k] = share.count;
    }
    counts
}

// The useful sets of the shares, in one word.
fn words_at<const W: usize>(lower: &[Share<W>], place: usize) -> [u64; MOST_TASKS]
    requires shares { length lower.now ≤ most_tasks }
    requires place { place < W }
    ensures { (k : ℕ) → k < length lower.now
        → slice_index result k ≡ useful_words lower.now place k }
{
    let mut words = [0; MOST_TASKS];
    for k in 0..lower.len() {
        let share = &lower[k];
        words[k] = share.useful.word(place);
    }
    words
}

// The sum over the sets of one word of what each is charged, given what the tasks from number
// `tasks` on have counted for each of them.
fn share_of_word(
    jobs: u64,
    word: u64,
    useful: &[u64],
    counts: &[u128],
    tasks: usize,
    counted: u128,
) -> u128
    requires useful { tasks ≤ length useful.now }
    requires tasks { tasks ≤ length counts.now }
    requires counts { (k : ℕ) → k < tasks → slice_index counts.now k < 2 ^ 81 }
    requires counted { counted < 2 ^ 82 }
    ensures { result ≡ word_share jobs word (slice_index useful.now) (slice_index counts.now)
        tasks counted }
{
    if word == 0 {
        return 0;
    }
    if counted >= u128::from(jobs) {
        return u128::from(jobs) * u128::from(word.count_ones());
    }
    if tasks == 0 {
        return counted * u128::from(word.count_ones());
    }
    let last = tasks - 1;
    let inside = useful[last];
    let more = counted + counts[last];
    share_of_word(jobs, word & inside, useful, counts, last, more)
        + share_of_word(jobs, word & !inside, useful, counts, last, counted)
}
