// A set that stands for the useful cache sets of a task's nodes.
ghost use Rattle.std.specs.Prelude.{◌≡◌, ℕ, ◌+◌, ◌<◌, ◌≤◌, ◌&&◌, length, not, true};
ghost use Rattle.crpd_base.specs.Sets.{has};
ghost use Rattle.useful_sets.specs.Sets.{sets_at};
ghost use Rattle.delay_count.specs.Gamma.{part_at, shared_count};
ghost use Rattle.delay_point.specs.Gamma.{most_shared};
ghost use Rattle.delay_point.specs.Inner.Standing.{StandsFor};

use crpd_base::{Part, SETS, SetBits, WORDS};
use delay_count::{evicted_up, shared};

/// A set that stands for the useful cache sets of a task's nodes: with the sets that a higher task
/// and those above it evict, it shares the most that the useful set of one node does. The delay by
/// this set is the delay by program point, since the delay depends on these numbers alone. Such a
/// set exists, since each task evicts at least as many additional sets as it raises the number. The
/// time is one pass over the nodes for each higher task.
pub(crate) fn standing_sets(higher: &[Part], useful: &[SetBits<WORDS>]) -> SetBits<WORDS>
    ensures { StandsFor (part_at higher.now) (length higher.now)
        (λ y. has (sets_at useful.now y)) (length useful.now) (has result) }
{
    let mut standing = SetBits::new();
    let mut known = SetBits::new();
    for j in 0..higher.len() {
        let evicted = evicted_up(higher, j);
        let most = most_at_node(useful, &evicted);
        standing = with_further(&standing, &known, &evicted, most);
        known = evicted;
    }
    standing
}

/// The most evicted cache sets that are useful at one node.
fn most_at_node(useful: &[SetBits<WORDS>], evicted: &SetBits<WORDS>) -> u32
    ensures { result ≡ most_shared (λ y. has (sets_at useful.now y)) (has evicted.now)
        (length useful.now) }
{
    let mut most = 0;
    for sets in useful {
        most = most.max(shared(sets, evicted));
    }
    most
}

/// The `standing` set, with evicted sets that are not in `known` added until it shares `most` with
/// the evicted ones.
fn with_further(
    standing: &SetBits<WORDS>,
    known: &SetBits<WORDS>,
    evicted: &SetBits<WORDS>,
    most: u32,
) -> SetBits<WORDS>
    requires standing { (c : ℕ) → has standing.now c ≡ true → has known.now c ≡ true }
    requires known { (c : ℕ) → has known.now c ≡ true → has evicted.now c ≡ true }
    requires fewer { shared_count (has standing.now) (has evicted.now) 512 ≤ most }
    requires enough { most ≤ shared_count (has standing.now) (has evicted.now) 512
        + shared_count (λ c. not (has known.now c)) (has evicted.now) 512 }
    ensures evicted { (c : ℕ) → has result c ≡ true → has evicted.now c ≡ true }
    ensures kept { (c : ℕ) → has known.now c ≡ true → has result c ≡ has standing.now c }
    ensures most { shared_count (has result) (has evicted.now) 512 ≡ most }
{
    let mut sets = *standing;
    let mut count = shared(standing, evicted);
    for s in 0..SETS as u16 {
        if count < most && is_further(known, evicted, s) {
            sets.insert(s);
            count += 1;
        }
    }
    sets
}

/// Whether a cache set, below 512, is evicted and not in the known set.
fn is_further(known: &SetBits<WORDS>, evicted: &SetBits<WORDS>, s: u16) -> bool
    requires { s < 512 }
    ensures { result ≡ (not (has known.now s) && has evicted.now s) }
{
    !known.has(s) && evicted.has(s)
}
