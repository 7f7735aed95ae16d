// Graphs as lists of edges, and reversed graphs.
ghost use Rattle.std.specs.Prelude.{◌≡◌, ℕ, length, slice_index_or, IfSome, IsNone, IsTrue, ◌↔◌};
ghost use Rattle.std.specs.Prelude.{◌<◌};
ghost use Rattle.std.specs.List.{All};
ghost use Rattle.dataflow.specs.Edges.{IsEdgeList};

use crate::problem::Flow;

/// A graph as a list of its edges, each with its source and its target.
#[derive(Clone, Copy)]
pub struct EdgeList<'a> {
    nodes: u32,
    edges: &'a [(u32, u32)],
    ghost within: { IsEdgeList nodes edges.now },
}

/// Whether the ends of all edges are below `nodes`.
fn all_within(nodes: u32, edges: &[(u32, u32)]) -> bool
    ensures { IsTrue result ↔ All (λ e. (e.0 < nodes) × (e.1 < nodes)) edges.now }
{
    edges.iter().all(|edge| edge.0 < nodes && edge.1 < nodes)
}

impl<'a> EdgeList<'a> {
    /// The graph with the nodes below `nodes` and these edges, at most 2^32 - 1. `None` if an end
    /// of an edge is no node, or if there are more edges. Linear in the edges. It takes no memory.
    pub fn new(nodes: u32, edges: &'a [(u32, u32)]) -> Option<Self>
        ensures none { IsNone result → ¬ IsEdgeList nodes edges.now }
        ensures graph { IfSome result (λ g. (g.nodes ≡ nodes) × (g.edges.now ≡ edges.now)) }
    {
        let few = edges.len() <= u32::MAX as usize;
        if few && all_within(nodes, edges) {
            Some(EdgeList { nodes, edges })
        } else {
            None
        }
    }
}

impl Flow for EdgeList<'_> {
    ghost node_count = { λ g. g.nodes };

    ghost edge_count = { λ g. length g.edges.now };

    ghost ends = { λ g k. slice_index_or g.edges.now k (0, 0) };

    fn nodes(&self) -> u32 {
        self.nodes
    }

    fn edges(&self) -> u32 {
        self.edges.len() as u32
    }

    fn edge(&self, k: u32) -> (u32, u32) {
        self.edges[k as usize]
    }
}

/// A graph with each edge reversed.
#[derive(Clone, Copy)]
pub struct Against<'a, G> {
    flow: &'a G,
}

impl<'a, G: Flow> Against<'a, G> {
    /// The reversed graph. In constant time.
    pub fn new(flow: &'a G) -> Self
        ensures { result.flow.now ≡ flow.now }
    {
        Against { flow }
    }
}

impl<G: Flow> Flow for Against<'_, G> {
    ghost node_count = { λ a. G.node_count a.flow.now };

    ghost edge_count = { λ a. G.edge_count a.flow.now };

    ghost ends = { λ a k. ((G.ends a.flow.now k).1, (G.ends a.flow.now k).0) };

    fn nodes(&self) -> u32 {
        self.flow.nodes()
    }

    fn edges(&self) -> u32 {
        self.flow.edges()
    }

    fn edge(&self, k: u32) -> (u32, u32) {
        let (source, target) = self.flow.edge(k);
        (target, source)
    }
}
