// The iterations of a frame's stated loops.
ghost use Rattle.std.specs.Prelude.{◌≡◌, ◌≢◌, ℕ, ◌+◌, ◌^◌, ◌<◌, ◌≤◌, Some, None, length, nat_le};
ghost use Rattle.std.specs.Prelude.{if◌then◌else◌};
ghost use Rattle.std.specs.Bool.{OnTrue};
ghost use Rattle.std.specs.List.{find, list_any};
ghost use Rattle.flow_watch.specs.Watch.{in_range, iterations_after, all_iterations_after};
ghost use Rattle.flow_watch.specs.Watch.{within_bounds};
ghost use Rattle.flow_watch.specs.Quiet.{AreAmong};
ghost use Rattle.flow_watch.specs.Inner.Quiet.{KeepsAllIterations, KeepsIterations};

use crate::Addresses;
use crpd_base::LoopAt;

/// No addresses.
const NOWHERE: Addresses = Addresses { from: 0, until: 0 };

/// All addresses except the last one.
pub(crate) const EVERYWHERE: Addresses = Addresses {
    from: 0,
    until: u32::MAX,
};

/// Whether a range has the address: it includes its first address and excludes its second.
fn in_range(address: u32, range: &(u32, u32)) -> bool
    ensures { result ≡ in_range address range.now }
{
    range.0 <= address && address < range.1
}

/// Whether one of a stated loop's ranges has the address.
fn is_in_ranges(stated: &LoopAt, address: u32) -> bool
    ensures { result ≡ list_any (in_range address) stated.now.ranges }
{
    stated.ranges.iter().any(|range| in_range(address, range))
}

/// The iterations of a stated loop after an arrival at an address, or None if they exceed its
/// bound. A count at the bound is not raised, so no sum wraps. The ranges are searched only if the
/// loop is open.
fn iterations_after(stated: &LoopAt, turns: u32, address: u32) -> Option<u32>
    ensures { let after = iterations_after address stated.now turns in
        result ≡ (if nat_le after stated.now.bound then Some after else None) }
{
    let bound = stated.bound;
    if address == stated.head {
        if turns < bound { Some(turns + 1) } else { None }
    } else if turns == 0 || !is_in_ranges(stated, address) {
        Some(0)
    } else if turns <= bound {
        Some(turns)
    } else {
        None
    }
}

/// Counts an arrival at an address in a frame's iterations, and returns whether all are within
/// their bounds. If not, only some of the iterations may be counted.
pub(crate) fn count_arrival(turns: &mut [u32], loops: &[LoopAt], address: u32) -> bool
    requires { length turns.old ≡ length loops.now }
    ensures within { result ≡ within_bounds loops.now
        (all_iterations_after address loops.now turns.old) }
    ensures counted { OnTrue result (turns.new ≡ all_iterations_after address loops.now turns.old) }
{
    for (i, stated) in loops.iter().enumerate() {
        match iterations_after(stated, turns[i], address) {
            Some(after) => turns[i] = after,
            None => return false,
        }
    }
    true
}

/// The first of a stated loop's ranges that has the address.
fn range_around(stated: &LoopAt, address: u32) -> Option<(u32, u32)>
    ensures { result ≡ find (in_range address) stated.now.ranges }
{
    for range in stated.ranges.as_slice() {
        if in_range(address, range) {
            return Some(*range);
        }
    }
    None
}

/// The addresses of a range on the same side of a loop's head as an address, after the head if it
/// is the head.
fn beside_head(range: Addresses, head: u32, near: u32) -> Addresses
    ensures beside { (a : ℕ) → result.from ≤ a → a < result.until
        → (range.from ≤ a) × (a < range.until) × (a ≢ head) }
    ensures near { near + 1 < 2 ^ 32 → AreAmong range near → near ≢ head → AreAmong result near }
{
    if near < head {
        Addresses {
            from: range.from,
            until: range.until.min(head),
        }
    } else if head < u32::MAX {
        Addresses {
            from: range.from.max(head + 1),
            until: range.until,
        }
    } else {
        NOWHERE
    }
}

/// The addresses of a range, around an address, at which an arrival does not change a stated loop's
/// iterations.
fn still_range(range: Addresses, stated: &LoopAt, turns: u32, near: u32) -> Addresses
    ensures still { (a : ℕ) → result.from ≤ a → a < result.until
        → (range.from ≤ a) × (a < range.until) × KeepsIterations a stated.now turns }
    ensures near { near + 1 < 2 ^ 32 → AreAmong range near → KeepsIterations near stated.now turns
        → AreAmong result near }
{
    let around = beside_head(range, stated.head, near);
    if turns == 0 {
        return around;
    }
    if turns > stated.bound {
        return NOWHERE;
    }
    match range_around(stated, near) {
        Some(held) => Addresses {
            from: around.from.max(held.0),
            until: around.until.min(held.1),
        },
        None => NOWHERE,
    }
}

/// Addresses around one at which an arrival does not change a frame's iterations; that one is among
/// them if an arrival there does not.
pub(crate) fn quiet_range(turns: &[u32], loops: &[LoopAt], near: u32) -> Addresses
    requires { length turns.now ≡ length loops.now }
    ensures still { (a : ℕ) → result.from ≤ a → a < result.until
        → KeepsAllIterations a loops.now turns.now }
    ensures near { near + 1 < 2 ^ 32 → KeepsAllIterations near loops.now turns.now
        → AreAmong result near }
{
    let mut range = EVERYWHERE;
    for (i, stated) in loops.iter().enumerate() {
        range = still_range(range, stated, turns[i], near);
    }
    range
}
