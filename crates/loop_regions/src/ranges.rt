// Stated loops with sorted ranges, in which an address is found by binary search.
ghost use Rattle.std.specs.Prelude.{◌≡◌, IfOk, length, nat_le, nat_lt};
ghost use Rattle.std.specs.List.Sorted.{IsNonDecreasingBy, IsPermutation};
ghost use Rattle.flow_watch.specs.Watch.{holds};
ghost use Rattle.loop_regions.specs.Inner.Ranges.{AreReaches};

use crpd_base::LoopAt;
use std::alloc::{AllocError, Global};
use std::marker::Model;

/// A stated loop with its ranges sorted by their first addresses, and for each of these the largest
/// end of it and those before it. Contracts see it as the loop.
#[derive(Drop)]
pub(crate) struct RangedLoop<'a> {
    stated: &'a LoopAt,
    ranges: Vec<(u32, u32)>,
    reaches: Vec<u32>,
}

impl<'a> Model for RangedLoop<'a> {
    ghost use Rattle.crpd_base.specs.declared.data.LoopAt.{LoopAt};
    ghost use Rattle.loop_regions.specs.Inner.Ranges.{AreRanges};

    ghost Value = { LoopAt };

    ghost view = { λ l. l.stated.now };

    ghost invariant = { λ l. AreRanges l.stated.now.ranges l.ranges.items l.reaches.items };
}

/// Ranges sorted by their first addresses.
fn sorted(alloc: Global, ranges: &[(u32, u32)]) -> Result<Vec<(u32, u32)>, AllocError>
    ensures same { IfOk result (λ v. IsPermutation ranges.now v.items) }
    ensures ascending { IfOk result (λ v. IsNonDecreasingBy (λ r. r.0) v.items) }
{
    let mut sorted = Vec::from_slice(alloc, ranges)?;
    sorted.sort_by_key(|range| range.0)?;
    Ok(sorted)
}

/// For each range, the largest end of it and those before it.
fn reaches(alloc: Global, ranges: &[(u32, u32)]) -> Result<Vec<u32>, AllocError>
    ensures { IfOk result (λ v. AreReaches ranges.now v.items (length ranges.now)) }
{
    let mut reaches = Vec::with_capacity(alloc, ranges.len())?;
    let mut greatest = 0u32;
    for range in ranges {
        greatest = greatest.max(range.1);
        reaches.push(greatest)?;
    }
    Ok(reaches)
}

/// Whether an address is below a reach.
fn is_before(address: u32, reach: u32) -> bool
    ensures { result ≡ nat_lt address reach }
{
    address < reach
}

impl<'a> RangedLoop<'a> {
    /// A stated loop with sorted ranges. Time is n log n in its ranges.
    pub(crate) fn new(alloc: Global, stated: &'a LoopAt) -> Result<Self, AllocError>
        ensures { IfOk result (λ l. l ≡ stated.now) }
    {
        let ranges = sorted(alloc, stated.ranges.as_slice())?;
        let reaches = reaches(alloc, &ranges)?;
        Ok(RangedLoop {
            stated,
            ranges,
            reaches,
        })
    }

    /// Whether the loop holds an address: as its head, or in one of its ranges, each of which
    /// includes its first address and excludes its second. Logarithmic in the number of ranges.
    pub(crate) fn holds(&self, address: u32) -> bool
        ensures { result ≡ holds self.now address }
    {
        if address == self.stated.head {
            return true;
        }
        let begun = self.ranges.partition_point(
            |range: &(u32, u32)| -> bool
                ensures { result ≡ nat_le range.now.0 address }
            { range.0 <= address },
        );
        begun > 0 && is_before(address, self.reaches[begun - 1])
    }
}

/// Stated loops with sorted ranges.
pub(crate) fn ranged_loops(
    alloc: Global,
    loops: &[LoopAt],
) -> Result<Vec<RangedLoop<'_>>, AllocError>
    ensures { IfOk result (λ v. v.items ≡ loops.now) }
{
    let mut ranged = Vec::with_capacity(alloc, loops.len())?;
    for stated in loops {
        ranged.push(RangedLoop::new(alloc, stated)?)?;
    }
    Ok(ranged)
}
