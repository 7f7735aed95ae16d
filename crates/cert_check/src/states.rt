// Clause 3: the states.
ghost use Rattle.std.specs.Prelude.{◌≡◌, ◌↔◌, ◌<◌, ◌≤◌, ℕ, length, IsTrue, All};
ghost use Rattle.crpd_base.specs.Limits.{most_sets};
ghost use Rattle.flat_graph.specs.Graph.{Edge};
ghost use Rattle.flat_graph.specs.CodeGraph.{graph_of};
ghost use Rattle.evict_sets.specs.Full.{FullState};
ghost use Rattle.evict_sets.specs.CacheClauses.{StatesMeet};
ghost use Rattle.evict_sets.specs.ListedPart.{listed_of};
ghost use Rattle.evict_sets.specs.Listing.{IsListing, IsChainOrder, IsStateAfter, node_accesses};
ghost use Rattle.cert_check.specs.Inner.JudgedNodes.{EdgeStateMeets, IsLeastFailing};

use crate::least::least_failing;
use crpd_base::{NodeId, SETS};
use evict_sets::{Listing, are_held};

/// Whether the state of a node is empty, if it is the first node.
fn starts_empty(listing: &Listing<'_>, node: NodeId) -> bool
    requires case { IsListing listing.now.platform.now listing.now.graph.now listing.now.part.now
        listing.now.places.now }
    requires node { node.0 < (graph_of listing.now.graph.now).size }
    ensures { IsTrue result ↔ (node.0 ≡ (graph_of listing.now.graph.now).first → (s m : ℕ)
        → FullState (graph_of listing.now.graph.now)
        (node_accesses listing.now.platform.now listing.now.graph.now)
        (listed_of listing.now.part.now) node.0 s m → ⊥) }
{
    if node.0 != listing.graph.first().0 {
        return true;
    }
    match listing.entry(node) {
        Some(entry) => entry.sure.is_empty(),
        None => true,
    }
}

/// Whether the state at a successor of a node has nothing that the state after the node lacks.
fn edge_state_holds(
    listing: &Listing<'_>,
    node: NodeId,
    next: NodeId,
    after: &[Option<u32>],
) -> bool
    requires case { IsListing listing.now.platform.now listing.now.graph.now listing.now.part.now
        listing.now.places.now }
    requires edge { Edge (graph_of listing.now.graph.now) node.0 next.0 }
    requires next { next.0 < (graph_of listing.now.graph.now).size }
    requires room { length after.now ≡ most_sets }
    requires after { IsStateAfter (graph_of listing.now.graph.now)
        (node_accesses listing.now.platform.now listing.now.graph.now)
        (listed_of listing.now.part.now) node.0 after.now }
    ensures { IsTrue result ↔ EdgeStateMeets (graph_of listing.now.graph.now)
        (node_accesses listing.now.platform.now listing.now.graph.now)
        (listed_of listing.now.part.now) node.0 next.0 }
{
    match listing.entry(next) {
        Some(entry) => are_held(after, entry.sure.as_slice()),
        None => true,
    }
}

/// Whether the states at all successors of a node have nothing that the state after the node lacks.
fn edge_states_hold(listing: &Listing<'_>, node: NodeId, after: &[Option<u32>]) -> bool
    requires case { IsListing listing.now.platform.now listing.now.graph.now listing.now.part.now
        listing.now.places.now }
    requires node { node.0 < (graph_of listing.now.graph.now).size }
    requires room { length after.now ≡ most_sets }
    requires after { IsStateAfter (graph_of listing.now.graph.now)
        (node_accesses listing.now.platform.now listing.now.graph.now)
        (listed_of listing.now.part.now) node.0 after.now }
    ensures { IsTrue result ↔ All
        (EdgeStateMeets (graph_of listing.now.graph.now)
        (node_accesses listing.now.platform.now listing.now.graph.now)
        (listed_of listing.now.part.now) node.0) ((graph_of listing.now.graph.now).next node.0) }
{
    for next in listing.graph.successors(node) {
        if !edge_state_holds(listing, node, next, after) {
            return false;
        }
    }
    true
}

/// Whether clause 3 holds at a node, given the state after it.
fn state_holds(listing: &Listing<'_>, node: NodeId, after: &[Option<u32>]) -> bool
    requires case { IsListing listing.now.platform.now listing.now.graph.now listing.now.part.now
        listing.now.places.now }
    requires node { node.0 < (graph_of listing.now.graph.now).size }
    requires room { length after.now ≡ most_sets }
    requires after { IsStateAfter (graph_of listing.now.graph.now)
        (node_accesses listing.now.platform.now listing.now.graph.now)
        (listed_of listing.now.part.now) node.0 after.now }
    ensures { IsTrue result ↔ StatesMeet (graph_of listing.now.graph.now)
        (node_accesses listing.now.platform.now listing.now.graph.now)
        (listed_of listing.now.part.now) node.0 }
{
    if !starts_empty(listing, node) {
        return false;
    }
    edge_states_hold(listing, node, after)
}

/// The smallest node at which clause 3 fails. Time: the nodes and the listed states, and each edge
/// with the listed state that it leads to.
pub(crate) fn judge_states(listing: &Listing<'_>, order: &[u32]) -> Option<u32>
    requires case { IsListing listing.now.platform.now listing.now.graph.now listing.now.part.now
        listing.now.places.now }
    requires order { IsChainOrder (graph_of listing.now.graph.now)
        (listed_of listing.now.part.now) order.now }
    ensures { IsLeastFailing
        (StatesMeet (graph_of listing.now.graph.now)
        (node_accesses listing.now.platform.now listing.now.graph.now)
        (listed_of listing.now.part.now)) (graph_of listing.now.graph.now).size result }
{
    let mut blocks = [None; SETS];
    let mut least = None;
    for k in 0..order.len() {
        let node = NodeId(order[k]);
        listing.enter(&mut blocks, node);
        listing.leave(&mut blocks, node);
        least = least_failing(least, node.0, state_holds(listing, node, &blocks));
    }
    least
}
