// The state entries of a certificate.
ghost use Rattle.std.specs.Prelude.{◌≡◌, ◌≤◌, ◌^◌, length, All, sum_by};
ghost use Rattle.crpd_base.specs.CertificateRanges.{HasFewPairs};
ghost use Rattle.crpd_base.specs.Entries.{set_size, state_entries};
ghost use Rattle.crpd_base.specs.Limits.{most_sets, most_nodes};

use crate::data::NodeState;
use crate::limits::WORDS;
use crate::set_bits::SetBits;

/// How many numbers a set of cache sets has.
fn set_size(set: &SetBits<WORDS>) -> u32
    ensures is { result ≡ set_size set.now }
    ensures bound { result ≤ most_sets }
{
    set.count()
}

/// How many state entries a task has: the sure pairs and the useful sets of its listed nodes. There
/// are at most 16,384 states, each with at most 512 sure pairs. Linear in the states; it takes no
/// memory.
pub fn task_entries(states: &[NodeState]) -> u64
    requires few { length states.now ≤ most_nodes }
    requires each { All HasFewPairs states.now }
    ensures is { result ≡ sum_by state_entries states.now }
    ensures bound { result ≤ 2 ^ 24 }
{
    let mut found = 0;
    for state in states {
        let sure = state.sure.len() as u64;
        found += sure + u64::from(set_size(&state.useful));
    }
    found
}
