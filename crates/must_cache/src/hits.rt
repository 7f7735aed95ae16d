// The nodes that are surely hits, from the nodes' states.
ghost use Rattle.std.specs.Prelude.{◌≡◌, ◌≤◌, false, length, slice_index_or, IfOk};
ghost use Rattle.icache.specs.Accesses.{accesses};
ghost use Rattle.flat_graph.specs.CodeGraph.{graph_of, places_of};
ghost use Rattle.must_cache.specs.Sure.{CountsSureHits};
ghost use Rattle.must_cache.specs.States.{AreSure};

use crate::state::{MustState, is_hit};
use crpd_base::NodeId;
use flat_graph::Graph;
use icache::Geometry;
use std::alloc::{AllocError, Global};

/// Which nodes are hits on all walks, by the nodes' numbers, from their must states: their own
/// cache set surely holds their block. The only error is out of memory. One pass over the nodes; a
/// byte for each is allocated.
pub fn hits_of_states<const S: usize>(
    alloc: Global,
    graph: &Graph,
    geometry: &Geometry,
    must: &[MustState<S>],
) -> Result<Vec<bool>, AllocError>
    requires room { geometry.now.platform.sets ≤ S }
    requires sure { AreSure (graph_of graph.now)
        (accesses geometry.now.platform (places_of graph.now).address) must.now }
    ensures count { IfOk result (λ hits. length hits.items ≡ (graph_of graph.now).size) }
    ensures each { IfOk result (λ hits. CountsSureHits (graph_of graph.now)
        (accesses geometry.now.platform (places_of graph.now).address)
        (λ y. slice_index_or hits.items y false)) }
{
    let mut hits = Vec::with_capacity(alloc, must.len())?;
    for node in 0..graph.len() {
        let address = graph.address(NodeId(node));
        hits.push(is_hit(&must[node as usize], geometry, address))?;
    }
    Ok(hits)
}
