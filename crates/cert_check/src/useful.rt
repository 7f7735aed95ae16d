// Clauses 4 and 5: the useful sets of the nodes, and the sets of the task.
ghost use Rattle.std.specs.Prelude.{◌≡◌, ◌↔◌, ◌<◌, ◌≤◌, ◌==◌, ℕ, if◌then◌else◌, length, IsTrue};
ghost use Rattle.std.specs.Prelude.{IsFalse};
ghost use Rattle.crpd_base.specs.Sets.{has, member};
ghost use Rattle.flat_graph.specs.Graph.{Edge};
ghost use Rattle.flat_graph.specs.CodeGraph.{graph_of};
ghost use Rattle.evict_sets.specs.Full.{IsHit};
ghost use Rattle.evict_sets.specs.CacheClauses.{UsefulMeets, SetsMeet};
ghost use Rattle.evict_sets.specs.ListedPart.{listed_of};
ghost use Rattle.evict_sets.specs.Listing.{CountsHits, IsListing, IsChainOrder, counted};
ghost use Rattle.evict_sets.specs.Listing.{node_accesses};
ghost use Rattle.cert_check.specs.Inner.JudgedNodes.{IsUsefulAt, IsUsefulBehind};
ghost use Rattle.cert_check.specs.Inner.JudgedNodes.{IsLeastFailing};

use crate::least::least_failing;
use crpd_base::{NodeId, SetBits, WORDS};
use evict_sets::Listing;

/// Whether `sets` includes each set of `others`.
fn covers(sets: &SetBits<WORDS>, others: &SetBits<WORDS>) -> bool
    ensures { IsTrue result ↔ ((t : ℕ) → IsTrue (has others.now t) → IsTrue (has sets.now t)) }
{
    others.within_law();
    sets.first_missing(others).is_none()
}

/// The sets that are useful at a successor of a node, given those that are useful at the next node
/// in the order.
fn useful_next(
    listing: &Listing<'_>,
    node: NodeId,
    next: NodeId,
    follower: &SetBits<WORDS>,
) -> SetBits<WORDS>
    requires case { IsListing listing.now.platform.now listing.now.graph.now listing.now.part.now
        listing.now.places.now }
    requires edge { Edge (graph_of listing.now.graph.now) node.0 next.0 }
    requires next { next.0 < (graph_of listing.now.graph.now).size }
    requires follower { (v : ℕ) → Edge (graph_of listing.now.graph.now) node.0 v
        → IsFalse ((listed_of listing.now.part.now).is_listed v)
        → IsUsefulAt (graph_of listing.now.graph.now)
        (node_accesses listing.now.platform.now listing.now.graph.now)
        (listed_of listing.now.part.now) v follower.now }
    ensures { IsUsefulAt (graph_of listing.now.graph.now)
        (node_accesses listing.now.platform.now listing.now.graph.now)
        (listed_of listing.now.part.now) next.0 result }
{
    match listing.entry(next) {
        Some(entry) => entry.useful,
        None => *follower,
    }
}

/// The sets that are useful at the successors of a node, given those that are useful at the next
/// node in the order.
fn useful_behind(listing: &Listing<'_>, node: NodeId, follower: &SetBits<WORDS>) -> SetBits<WORDS>
    requires case { IsListing listing.now.platform.now listing.now.graph.now listing.now.part.now
        listing.now.places.now }
    requires node { node.0 < (graph_of listing.now.graph.now).size }
    requires follower { (v : ℕ) → Edge (graph_of listing.now.graph.now) node.0 v
        → IsFalse ((listed_of listing.now.part.now).is_listed v)
        → IsUsefulAt (graph_of listing.now.graph.now)
        (node_accesses listing.now.platform.now listing.now.graph.now)
        (listed_of listing.now.part.now) v follower.now }
    ensures { IsUsefulBehind (graph_of listing.now.graph.now)
        (node_accesses listing.now.platform.now listing.now.graph.now)
        (listed_of listing.now.part.now) node.0 result }
{
    let mut sets = SetBits::new();
    for next in listing.graph.successors(node) {
        sets.union(&useful_next(listing, node, next, follower));
    }
    sets
}

/// The full useful set of a node.
fn useful_at(
    listing: &Listing<'_>,
    node: NodeId,
    hit: bool,
    behind: &SetBits<WORDS>,
) -> SetBits<WORDS>
    requires case { IsListing listing.now.platform.now listing.now.graph.now listing.now.part.now
        listing.now.places.now }
    requires node { node.0 < (graph_of listing.now.graph.now).size }
    requires hit { IsTrue hit
        ↔ IsHit (graph_of listing.now.graph.now)
        (node_accesses listing.now.platform.now listing.now.graph.now)
        (listed_of listing.now.part.now) node.0 }
    requires behind { IsUsefulBehind (graph_of listing.now.graph.now)
        (node_accesses listing.now.platform.now listing.now.graph.now)
        (listed_of listing.now.part.now) node.0 behind.now }
    ensures { IsUsefulAt (graph_of listing.now.graph.now)
        (node_accesses listing.now.platform.now listing.now.graph.now)
        (listed_of listing.now.part.now) node.0 result }
{
    match listing.entry(node) {
        Some(entry) => entry.useful,
        None => {
            let mut sets = *behind;
            sets.put(listing.cache_set(node), hit);
            sets
        }
    }
}

/// Whether clause 4 holds at a node.
fn useful_holds(listing: &Listing<'_>, node: NodeId, hit: bool, behind: &SetBits<WORDS>) -> bool
    requires case { IsListing listing.now.platform.now listing.now.graph.now listing.now.part.now
        listing.now.places.now }
    requires node { node.0 < (graph_of listing.now.graph.now).size }
    requires hit { IsTrue hit
        ↔ IsHit (graph_of listing.now.graph.now)
        (node_accesses listing.now.platform.now listing.now.graph.now)
        (listed_of listing.now.part.now) node.0 }
    requires behind { IsUsefulBehind (graph_of listing.now.graph.now)
        (node_accesses listing.now.platform.now listing.now.graph.now)
        (listed_of listing.now.part.now) node.0 behind.now }
    ensures { IsTrue result ↔ UsefulMeets (graph_of listing.now.graph.now)
        (node_accesses listing.now.platform.now listing.now.graph.now)
        (listed_of listing.now.part.now) node.0 }
{
    let Some(entry) = listing.entry(node) else {
        return true;
    };
    let own = listing.cache_set(node);
    let mut useful = entry.useful;
    if hit && !useful.has(own) {
        return false;
    }
    useful.put(own, true);
    covers(&useful, behind)
}

/// Whether clause 5 holds at a node with this full useful set.
fn sets_hold(listing: &Listing<'_>, node: NodeId, useful: &SetBits<WORDS>) -> bool
    requires case { IsListing listing.now.platform.now listing.now.graph.now listing.now.part.now
        listing.now.places.now }
    requires node { node.0 < (graph_of listing.now.graph.now).size }
    requires useful { IsUsefulAt (graph_of listing.now.graph.now)
        (node_accesses listing.now.platform.now listing.now.graph.now)
        (listed_of listing.now.part.now) node.0 useful.now }
    ensures { IsTrue result ↔ SetsMeet (graph_of listing.now.graph.now)
        (node_accesses listing.now.platform.now listing.now.graph.now)
        (listed_of listing.now.part.now) (has listing.now.part.now.part.evicting)
        (has listing.now.part.now.part.useful) node.0 }
{
    let part = &listing.part.part;
    part.evicting.has(listing.cache_set(node)) && covers(&part.useful, useful)
}

/// The smallest node at which clause 4 fails. Linear in the nodes and edges.
pub(crate) fn judge_useful(listing: &Listing<'_>, order: &[u32], hits: &[bool]) -> Option<u32>
    requires case { IsListing listing.now.platform.now listing.now.graph.now listing.now.part.now
        listing.now.places.now }
    requires order { IsChainOrder (graph_of listing.now.graph.now)
        (listed_of listing.now.part.now) order.now }
    requires count { length hits.now ≡ (graph_of listing.now.graph.now).size }
    requires hits { CountsHits (graph_of listing.now.graph.now)
        (node_accesses listing.now.platform.now listing.now.graph.now)
        (listed_of listing.now.part.now) (counted hits.now) }
    ensures { IsLeastFailing
        (UsefulMeets (graph_of listing.now.graph.now)
        (node_accesses listing.now.platform.now listing.now.graph.now)
        (listed_of listing.now.part.now)) (graph_of listing.now.graph.now).size result }
{
    let mut least = None;
    let mut useful = SetBits::new();
    for done in 0..order.len() {
        let node = NodeId(order[order.len() - 1 - done]);
        let hit = hits[node.0 as usize];
        let behind = useful_behind(listing, node, &useful);
        least = least_failing(least, node.0, useful_holds(listing, node, hit, &behind));
        useful = useful_at(listing, node, hit, &behind);
    }
    least
}

/// The smallest node at which clause 5 fails. Linear in the nodes and edges.
pub(crate) fn judge_sets(listing: &Listing<'_>, order: &[u32], hits: &[bool]) -> Option<u32>
    requires case { IsListing listing.now.platform.now listing.now.graph.now listing.now.part.now
        listing.now.places.now }
    requires order { IsChainOrder (graph_of listing.now.graph.now)
        (listed_of listing.now.part.now) order.now }
    requires count { length hits.now ≡ (graph_of listing.now.graph.now).size }
    requires hits { CountsHits (graph_of listing.now.graph.now)
        (node_accesses listing.now.platform.now listing.now.graph.now)
        (listed_of listing.now.part.now) (counted hits.now) }
    ensures { IsLeastFailing
        (SetsMeet (graph_of listing.now.graph.now)
        (node_accesses listing.now.platform.now listing.now.graph.now)
        (listed_of listing.now.part.now) (has listing.now.part.now.part.evicting)
        (has listing.now.part.now.part.useful)) (graph_of listing.now.graph.now).size result }
{
    let mut least = None;
    let mut useful = SetBits::new();
    for done in 0..order.len() {
        let node = NodeId(order[order.len() - 1 - done]);
        let hit = hits[node.0 as usize];
        let behind = useful_behind(listing, node, &useful);
        useful = useful_at(listing, node, hit, &behind);
        least = least_failing(least, node.0, sets_hold(listing, node, &useful));
    }
    least
}
