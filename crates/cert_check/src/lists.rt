// Clause 2: what is listed.
ghost use Rattle.std.specs.Prelude.{◌≡◌, ◌↔◌, ◌<◌, ◌≤◌, length, IsTrue, All};
ghost use Rattle.crpd_base.specs.declared.data.NodeState.{NodeState};
ghost use Rattle.flat_graph.specs.CodeGraph.{graph_of};
ghost use Rattle.evict_sets.specs.ListedPart.{listed_of};
ghost use Rattle.evict_sets.specs.CacheClauses.{ListsLeaders};
ghost use Rattle.evict_sets.specs.Listing.{IsEntryIndex};

use crpd_base::{NodeId, NodeState};
use evict_sets::Listing;

/// Whether each listed number is that of one of `size` nodes.
pub(crate) fn are_nodes(states: &[NodeState], size: u32) -> bool
    ensures { IsTrue result ↔ All (λ (s : NodeState). s.node < size) states.now }
{
    states.iter().all(|state| state.node < size)
}

/// Whether every leader is listed.
pub(crate) fn lists_leaders(listing: &Listing<'_>) -> bool
    requires index { IsEntryIndex listing.now.part.now.states (length listing.now.graph.now.nodes)
        listing.now.places.now }
    ensures { IsTrue result ↔ ListsLeaders (graph_of listing.now.graph.now)
        (listed_of listing.now.part.now) }
{
    listing.graph.graph_law();
    for node in 0..listing.graph.len() {
        if listing.graph.leader(NodeId(node)) && !listing.is_listed(NodeId(node)) {
            return false;
        }
    }
    true
}
