// How nodes and edges relate to the regions.
ghost use Rattle.std.specs.Prelude.{◌≡◌, ◌<◌, ◌≤◌, ◌↔◌, ℕ, IsTrue, MatchOption};
ghost use Rattle.flat_graph.specs.CodeGraph.{graph_of};
ghost use Rattle.loop_regions.specs.CodeNest.{nest_of, IsNestOf};
ghost use Rattle.loop_regions.specs.Nest.{IsItem, IsBackEdge, Leaves, LeavesLast};
ghost use Rattle.loop_regions.specs.EdgeKinds.{item_by, IsEdgeKind};

use crate::edge_kind::EdgeKind;
use crate::nest::Nest;
use crpd_base::NodeId;
use flat_graph::Graph;

impl Nest {
    /// The region that a node heads, `None` if it heads none. In constant time.
    pub fn headed_by(&self, graph: &Graph, node: NodeId) -> Option<u32>
        requires nest { IsNestOf graph.now self.now }
        requires node { node.0 < (graph_of graph.now).size }
        ensures { IsItem (nest_of self.now) node.0 (item_by result node.0) }
    {
        graph.graph_law();
        match self.innermost(node) {
            Some(region) => {
                let is_head = self.head(region).0 == node.0;
                if is_head { Some(region) } else { None }
            }
            None => None,
        }
    }

    /// Whether an edge leads back to the head of a region that holds its source. Time: at most the
    /// number of regions that hold the source.
    pub fn is_back(&self, graph: &Graph, source: NodeId, target: NodeId) -> bool
        requires nest { IsNestOf graph.now self.now }
        requires source { source.0 < (graph_of graph.now).size }
        requires target { target.0 < (graph_of graph.now).size }
        ensures { IsTrue result ↔ IsBackEdge (nest_of self.now) source.0 target.0 }
    {
        match self.headed_by(graph, target) {
            Some(region) => self.holds(region, source),
            None => false,
        }
    }

    /// The outermost region that an edge leaves, `None` if it leaves none. Time: the number of
    /// regions that it leaves, plus one, times the number that hold the target. It takes no memory.
    pub fn outermost_left(&self, graph: &Graph, source: NodeId, target: NodeId) -> Option<u32>
        requires nest { IsNestOf graph.now self.now }
        requires source { source.0 < (graph_of graph.now).size }
        requires target { target.0 < (graph_of graph.now).size }
        ensures { MatchOption result
            ((r : ℕ) → Leaves (nest_of self.now) source.0 target.0 r → ⊥)
            (λ r. LeavesLast (nest_of self.now) source.0 target.0 r) }
    {
        graph.graph_law();
        let mut left = None;
        let mut round = self.innermost(source);
        while let Some(region) = round {
            if self.holds(region, target) {
                break;
            }
            left = Some(region);
            round = self.parent(region);
        }
        left
    }

    /// How an edge relates to the regions round its source. Costs as `outermost_left`.
    pub fn edge_kind(&self, graph: &Graph, source: NodeId, target: NodeId) -> EdgeKind
        requires nest { IsNestOf graph.now self.now }
        requires source { source.0 < (graph_of graph.now).size }
        requires target { target.0 < (graph_of graph.now).size }
        ensures { IsEdgeKind (nest_of self.now) source.0 target.0 result }
    {
        if self.is_back(graph, source, target) {
            return EdgeKind::Back;
        }
        match self.outermost_left(graph, source, target) {
            Some(region) => EdgeKind::Exit(region),
            None => EdgeKind::Inside,
        }
    }
}
