// Cycles without back edges.
ghost use Rattle.std.specs.Prelude.{◌≡◌, ◌∷◌, ◌≤◌, ◌↔◌, ◌<◌, ℕ, IfOk, OnOk, IsTrue, length};
ghost use Rattle.flat_graph.specs.CodeGraph.{graph_of};
ghost use Rattle.loop_regions.specs.Inner.Least.{IsLeastNumber};
ghost use Rattle.loop_regions.specs.Stated.{IsOnCycle};
ghost use Rattle.loop_regions.specs.Inner.FoundRegions.{nest_in};
ghost use Rattle.loop_regions.specs.Inner.ForwardPaths.{IsSearch, to_search};

use crate::found::Regions;
use crate::ranks::{all_fall, is_back, ranks};
use crpd_base::NodeId;
use flat_graph::Graph;
use std::alloc::{AllocError, Global};

/// A search along forward edges from a node: the nodes found, and those of them whose edges are not
/// yet followed.
#[derive(Drop)]
struct Search {
    seen: Vec<bool>,
    waiting: Vec<u32>,
}

impl Search {
    /// Follows the forward edges of a node that was taken from the waiting ones.
    fn follow(&mut self, graph: &Graph, regions: &Regions, u: u32) -> Result<(), AllocError>
        requires regions { length regions.now.holders ≡ (graph_of graph.now).size }
        requires nodes { length self.old.seen.items ≡ (graph_of graph.now).size }
        requires node { u < (graph_of graph.now).size }
        ensures search { OnOk result ((y : ℕ) →
            IsSearch (graph_of graph.now) (nest_in regions.now) y self.old.seen.items
            (u ∷ self.old.waiting.items)
            → IsSearch (graph_of graph.now) (nest_in regions.now) y self.new.seen.items
            self.new.waiting.items) }
        ensures falls { OnOk result
            (to_search self.new.seen.items self.new.waiting.items
            ≤ to_search self.old.seen.items self.old.waiting.items) }
    {
        for next in graph.successors(NodeId(u)) {
            let v = next.0;
            if is_back(regions, u, v) || self.seen[v as usize] {
                continue;
            }
            self.seen[v as usize] = true;
            self.waiting.push(v)?;
        }
        Ok(())
    }
}

/// Whether forward edges lead from a node back to it.
fn is_on_cycle(alloc: Global, graph: &Graph, regions: &Regions, y: u32) -> Result<bool, AllocError>
    requires nodes { length regions.now.holders ≡ (graph_of graph.now).size }
    requires node { y < (graph_of graph.now).size }
    ensures { IfOk result (λ says. IsTrue says
        ↔ IsOnCycle (graph_of graph.now) (nest_in regions.now) y) }
{
    let mut search = Search {
        seen: vec![in alloc; false; graph.len() as usize]?,
        waiting: vec![in alloc; y]?,
    };
    while let Some(u) = search.waiting.pop() {
        search.follow(graph, regions, u)?;
    }
    Ok(search.seen[y as usize])
}

/// The smallest node on a cycle without back edges. If there is none, each edge is visited a few
/// times; otherwise each node up to the smallest is searched from.
pub(crate) fn least_on_cycle(
    alloc: Global,
    graph: &Graph,
    regions: &Regions,
) -> Result<Option<u32>, AllocError>
    requires { length regions.now.holders ≡ (graph_of graph.now).size }
    ensures { IfOk result (IsLeastNumber (IsOnCycle (graph_of graph.now) (nest_in regions.now))) }
{
    let ranks = ranks(alloc, graph, regions)?;
    if all_fall(graph, regions, &ranks) {
        return Ok(None);
    }
    for y in 0..graph.len() {
        if is_on_cycle(alloc, graph, regions, y)? {
            return Ok(Some(y));
        }
    }
    Ok(None)
}
