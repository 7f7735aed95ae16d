// The cache sets that a task evicts.
ghost use Rattle.std.specs.Prelude.{ℕ, ◌≤◌, ◌*◌, ◌↔◌, IsTrue};
ghost use Rattle.crpd_base.specs.Sets.{has};
ghost use Rattle.icache.specs.Accesses.{accesses};
ghost use Rattle.flat_graph.specs.CodeGraph.{graph_of, places_of};
ghost use Rattle.evict_sets.specs.Evicting.{IsEcb};

use crpd_base::{NodeId, SetBits};
use flat_graph::Graph;
use icache::Geometry;

/// The evicting cache blocks of a task (Altmeyer, Davis and Maiza 2012): the cache sets of the
/// blocks that its nodes fetch from. One pass over the nodes. It takes no memory.
pub fn evicting<const W: usize>(graph: &Graph, geometry: &Geometry) -> SetBits<W>
    requires { geometry.now.platform.sets ≤ 64 * W }
    ensures { (s : ℕ) → IsTrue (has result s)
        ↔ IsEcb (graph_of graph.now) (accesses geometry.now.platform (places_of graph.now).address)
        s }
{
    let mut accessed = SetBits::new();
    for node in 0..graph.len() {
        let address = graph.address(NodeId(node));
        accessed.insert(geometry.set(geometry.block(address)));
    }
    accessed
}
