// The heads of stated loops.
ghost use Rattle.std.specs.Prelude.{IfOk};
ghost use Rattle.flat_graph.specs.CodeGraph.{graph_of, places_of};
ghost use Rattle.loop_regions.specs.Inner.Heads.{IsLoopAt, AreHeads};

use crpd_base::{LoopAt, NodeId};
use flat_graph::Graph;
use std::alloc::{AllocError, Global};

/// A node at the head of a stated loop, and the number and the bound of that loop.
#[derive(Clone, Copy)]
pub(crate) struct Head {
    pub(crate) node: u32,
    pub(crate) stated: usize,
    pub(crate) bound: u32,
}

/// The first stated loop with this head.
pub(crate) fn loop_at(loops: &[LoopAt], address: u32) -> Option<usize>
    ensures { IsLoopAt loops.now address result }
{
    for (number, stated) in loops.iter().enumerate() {
        if stated.head == address {
            return Some(number);
        }
    }
    None
}

/// The nodes at the heads of stated loops, in ascending order. Time: nodes times loops.
pub(crate) fn heads(alloc: Global, graph: &Graph, loops: &[LoopAt]) -> Result<Vec<Head>, AllocError>
    ensures { IfOk result (λ heads.
        AreHeads (places_of graph.now) loops.now (graph_of graph.now).size heads.items) }
{
    let mut heads = Vec::new(alloc);
    for node in 0..graph.len() {
        if let Some(stated) = loop_at(loops, graph.address(NodeId(node))) {
            let bound = loops[stated].bound;
            heads.push(Head {
                node,
                stated,
                bound,
            })?;
        }
    }
    Ok(heads)
}
