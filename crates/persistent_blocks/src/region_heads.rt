// The region that each node heads.
ghost use Rattle.std.specs.Prelude.{◌≡◌, ℕ, ◌<◌, IfOk, length};
ghost use Rattle.flat_graph.specs.CodeGraph.{graph_of};
ghost use Rattle.loop_regions.specs.CodeNest.{nest_of, IsNestOf};
ghost use Rattle.loop_regions.specs.EdgeKinds.{item_by};
ghost use Rattle.loop_regions.specs.Nest.{IsItem};
ghost use Rattle.persistent_blocks.specs.Inner.Brought.{headed};

use crpd_base::NodeId;
use flat_graph::Graph;
use loop_regions::Nest;
use std::alloc::{AllocError, Global};

/// For each node the region that it heads, if any. One pass over the nodes.
pub(crate) fn region_heads(
    alloc: Global,
    graph: &Graph,
    nest: &Nest,
) -> Result<Vec<Option<u32>>, AllocError>
    requires { IsNestOf graph.now nest.now }
    ensures { IfOk result (λ heads. (y : ℕ) → y < (graph_of graph.now).size
        → IsItem (nest_of nest.now) y (item_by (headed heads.items y) y)) }
{
    let mut heads = Vec::with_capacity(alloc, graph.len() as usize)?;
    for node in 0..graph.len() {
        heads.push(nest.headed_by(graph, NodeId(node)))?;
    }
    Ok(heads)
}
