// For which cache sets an edge that brings blocks pays: those that do not hold the block that it
// brings.
ghost use Rattle.std.specs.Prelude.{◌≡◌, ◌↔◌, ℕ, ◌<◌, ◌≤◌, ◌*◌, Some, IsTrue, MatchOption};
ghost use Rattle.crpd_base.specs.Sets.{has};
ghost use Rattle.icache.specs.Accesses.{accesses};
ghost use Rattle.icache.specs.Cache.{held};
ghost use Rattle.flat_graph.specs.Graph.{Edge};
ghost use Rattle.flat_graph.specs.CodeGraph.{graph_of, places_of};
ghost use Rattle.must_cache.specs.Events.{events};
ghost use Rattle.must_cache.specs.Prepaid.{PrepaidAfter, Pays, PaysAtStart};
ghost use Rattle.must_cache.specs.FirstWalks.{ArePrepaidParts, IsKept};

use crate::brings::Brings;
use crate::state::MustState;
use crate::sure::SureParts;
use crpd_base::{NodeId, SetBits};
use flat_graph::Graph;
use icache::Geometry;

/// What the cache sets hold after a node, prepaid, if the node's state is kept.
fn kept_after<B: Brings<S, W>, const S: usize, const W: usize>(
    parts: &SureParts<S, W>,
    graph: &Graph,
    geometry: &Geometry,
    brings: &B,
    node: NodeId,
) -> Option<MustState<S>>
    requires room { geometry.now.platform.sets ≤ S }
    requires few { 64 * W ≤ 65536 }
    requires room_for_sets { S ≤ 64 * W }
    requires node { node.0 < (graph_of graph.now).size }
    requires parts { ArePrepaidParts (graph_of graph.now)
        (events (accesses geometry.now.platform (places_of graph.now).address)
        (B.brings brings.now) (B.at_start brings.now))
        parts.now.places.items parts.now.states.items parts.now.hits.items parts.now.unsure.items }
    ensures { MatchOption result
        (IsKept (graph_of graph.now) (B.brings brings.now) node.0 → ⊥)
        (λ state. IsKept (graph_of graph.now) (B.brings brings.now) node.0
        → (s m : ℕ) → (held state s ≡ Some m)
        ↔ PrepaidAfter (graph_of graph.now)
        (events (accesses geometry.now.platform (places_of graph.now).address)
        (B.brings brings.now) (B.at_start brings.now))
        node.0 s m) }
{
    graph.graph_law();
    let Some(place) = parts.places[node.0 as usize] else {
        return None;
    };
    if place >= parts.states.len() {
        return None;
    }
    let mut state = parts.states[place];
    state.forget(&parts.unsure[node.0 as usize]);
    state.access(geometry, graph.address(node));
    Some(state)
}

/// The cache sets for which an edge pays: it brings a block into them that they do not hold after
/// the edge's source. `parts` is what `prepaid_parts` returns for this graph, geometry and what
/// edges bring. Passes over the S sets a few times if the edge may bring something, and is in
/// constant time otherwise. It takes no memory.
pub fn edge_payments<B: Brings<S, W>, const S: usize, const W: usize>(
    parts: &SureParts<S, W>,
    graph: &Graph,
    geometry: &Geometry,
    brings: &B,
    source: NodeId,
    target: NodeId,
) -> SetBits<W>
    requires room { geometry.now.platform.sets ≤ S }
    requires few { 64 * W ≤ 65536 }
    requires room_for_sets { S ≤ 64 * W }
    requires own { (n : ℕ) → n < (graph_of graph.now).size → B.is_own brings.now n }
    requires source { source.0 < (graph_of graph.now).size }
    requires target { target.0 < (graph_of graph.now).size }
    requires parts { ArePrepaidParts (graph_of graph.now)
        (events (accesses geometry.now.platform (places_of graph.now).address)
        (B.brings brings.now) (B.at_start brings.now))
        parts.now.places.items parts.now.states.items parts.now.hits.items parts.now.unsure.items }
    ensures { (s : ℕ) → IsTrue (has result s)
        ↔ Pays (graph_of graph.now)
        (events (accesses geometry.now.platform (places_of graph.now).address)
        (B.brings brings.now) (B.at_start brings.now))
        source.0 target.0 s }
{
    if !brings.any(source.0, target.0) {
        return SetBits::new();
    }
    match kept_after(parts, graph, geometry, brings, source) {
        Some(after) => {
            let mut put = after;
            brings.put(source.0, target.0, &mut put);
            put.differing(&after)
        }
        None => SetBits::new(),
    }
}

/// The cache sets for which the start pays: those into which a block is brought before the first
/// node. Passes over the S sets. It takes no memory.
pub fn start_payments<B: Brings<S, W>, const S: usize, const W: usize>(brings: &B) -> SetBits<W>
    requires few { S ≤ 65536 }
    requires room { S ≤ 64 * W }
    ensures { (s : ℕ) → IsTrue (has result s) ↔ PaysAtStart (B.at_start brings.now) s }
{
    let empty = MustState::<S>::empty();
    let mut put = empty;
    brings.put_first(&mut put);
    put.differing(&empty)
}
