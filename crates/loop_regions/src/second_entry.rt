// Regions that are entered at nodes other than their heads.
ghost use Rattle.std.specs.Prelude.{◌≡◌, ◌<◌, length};
ghost use Rattle.flat_graph.specs.CodeGraph.{graph_of};
ghost use Rattle.loop_regions.specs.Inner.Least.{IsLeastNumber};
ghost use Rattle.loop_regions.specs.Stated.{IsSecondEntry};
ghost use Rattle.loop_regions.specs.Inner.FoundRegions.{nest_in, enters};
ghost use Rattle.loop_regions.specs.Inner.FoundRegions.{EntersFrom, EntersAt, IsInsideStart};

use crate::found::Regions;
use crate::least::lesser;
use crpd_base::NodeId;
use flat_graph::Graph;

/// Whether an edge from u to v enters a region of which v is not the head. No region holds a number
/// that is no node.
fn enters(regions: &Regions, u: u32, v: u32) -> bool
    requires { v < length regions.now.holders }
    ensures { result ≡ enters regions.now u v }
{
    let around = regions.holders(v);
    for r in around {
        if !regions.is_head(*r, v) && !regions.holds(*r, u) {
            return true;
        }
    }
    false
}

/// A node v, if an edge from u to it enters a region of which it is not the head.
fn entered_at(regions: &Regions, u: u32, v: u32) -> Option<u32>
    requires { v < length regions.now.holders }
    ensures { IsLeastNumber (EntersAt (nest_in regions.now) u v) result }
{
    if enters(regions, u, v) { Some(v) } else { None }
}

/// The smallest successor of a node at which a region is entered of which it is not the head.
fn entered_from(graph: &Graph, regions: &Regions, u: u32) -> Option<u32>
    requires nodes { length regions.now.holders ≡ (graph_of graph.now).size }
    requires node { u < (graph_of graph.now).size }
    ensures { IsLeastNumber (EntersFrom (graph_of graph.now) (nest_in regions.now) u) result }
{
    let mut least = None;
    for next in graph.successors(NodeId(u)) {
        least = lesser(least, entered_at(regions, u, next.0));
    }
    least
}

/// The first node, if it is in a region of which it is not the head: an edge from outside the graph
/// would enter that region.
fn inside_start(graph: &Graph, regions: &Regions) -> Option<u32>
    requires { length regions.now.holders ≡ (graph_of graph.now).size }
    ensures { IsLeastNumber (IsInsideStart (graph_of graph.now) (nest_in regions.now)) result }
{
    graph.graph_law();
    entered_at(regions, graph.len(), graph.first().0)
}

/// The smallest node at which a region is entered of which it is not the head. Each edge is visited
/// once.
pub(crate) fn least_second_entry(graph: &Graph, regions: &Regions) -> Option<u32>
    requires { length regions.now.holders ≡ (graph_of graph.now).size }
    ensures { IsLeastNumber (IsSecondEntry (graph_of graph.now) (nest_in regions.now)) result }
{
    let mut least = inside_start(graph, regions);
    for u in 0..graph.len() {
        least = lesser(least, entered_from(graph, regions, u));
    }
    least
}
