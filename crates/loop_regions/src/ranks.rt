// Ranks that decrease along forward edges if there is no cycle without back edges.
ghost use Rattle.std.specs.Prelude.{◌≡◌, ◌↔◌, ◌<◌, ◌^◌, ℕ, All, IfOk, OnOk, IsTrue, length};
ghost use Rattle.std.specs.Prelude.{slice_index};
ghost use Rattle.flat_graph.specs.CodeGraph.{graph_of};
ghost use Rattle.loop_regions.specs.Nest.{IsBackEdge};
ghost use Rattle.loop_regions.specs.Stated.{IsForward};
ghost use Rattle.loop_regions.specs.Inner.FoundRegions.{nest_in};

use crate::found::Regions;
use crpd_base::NodeId;
use flat_graph::Graph;
use std::alloc::{AllocError, Global};

/// Whether an edge from u to v leads to the head of a region that holds u.
pub(crate) fn is_back(regions: &Regions, u: u32, v: u32) -> bool
    requires { u < length regions.now.holders }
    ensures { IsTrue result ↔ IsBackEdge (nest_in regions.now) u v }
{
    let around = regions.holders(u);
    for r in around {
        if regions.is_head(*r, v) {
            return true;
        }
    }
    false
}

/// Counts an additional edge to a node.
fn add_edge(arrivals: &mut Vec<u32>, v: u32)
    requires { v < length arrivals.old.items }
    ensures { length arrivals.new.items ≡ length arrivals.old.items }
{
    let at = v as usize;
    arrivals[at] = arrivals[at].saturating_add(1);
}

/// Counts, at its target, each forward edge of a node.
fn count(graph: &Graph, regions: &Regions, u: u32, arrivals: &mut Vec<u32>)
    requires nodes { length regions.now.holders ≡ (graph_of graph.now).size }
    requires node { u < (graph_of graph.now).size }
    requires all { length arrivals.old.items ≡ (graph_of graph.now).size }
    ensures { length arrivals.new.items ≡ length arrivals.old.items }
{
    for next in graph.successors(NodeId(u)) {
        if !is_back(regions, u, next.0) {
            add_edge(arrivals, next.0);
        }
    }
}

/// How many forward edges arrive at each node.
fn count_arrivals(alloc: Global, graph: &Graph, regions: &Regions) -> Result<Vec<u32>, AllocError>
    requires { length regions.now.holders ≡ (graph_of graph.now).size }
    ensures { IfOk result (λ arrivals. length arrivals.items ≡ (graph_of graph.now).size) }
{
    let mut arrivals = vec![in alloc; 0u32; graph.len() as usize]?;
    for u in 0..graph.len() {
        count(graph, regions, u, &mut arrivals);
    }
    Ok(arrivals)
}

/// The nodes at which no edge arrives.
fn without_arrivals(alloc: Global, arrivals: &[u32]) -> Result<Vec<u32>, AllocError>
    requires { length arrivals.now < 2 ^ 32 }
    ensures { IfOk result (λ ready. All (λ v. v < length arrivals.now) ready.items) }
{
    let mut ready = Vec::new(alloc);
    for (v, left) in arrivals.iter().enumerate() {
        if *left == 0 {
            ready.push(v as u32)?;
        }
    }
    Ok(ready)
}

/// Removes an edge to a node. Returns whether it was the last that arrived there.
fn was_last(arrivals: &mut Vec<u32>, v: u32) -> bool
    requires { v < length arrivals.old.items }
    ensures { length arrivals.new.items ≡ length arrivals.old.items }
{
    let left = arrivals[v as usize].saturating_sub(1);
    arrivals[v as usize] = left;
    left == 0
}

/// Removes the forward edges of a ranked node. A target becomes ready if that was the last edge
/// that arrived there.
fn take_away(
    graph: &Graph,
    regions: &Regions,
    u: u32,
    arrivals: &mut Vec<u32>,
    ready: &mut Vec<u32>,
) -> Result<(), AllocError>
    requires nodes { length regions.now.holders ≡ (graph_of graph.now).size }
    requires node { u < (graph_of graph.now).size }
    requires all { length arrivals.old.items ≡ (graph_of graph.now).size }
    requires ready { All (λ v. v < (graph_of graph.now).size) ready.old.items }
    ensures all { length arrivals.new.items ≡ length arrivals.old.items }
    ensures ready { OnOk result (All (λ v. v < (graph_of graph.now).size) ready.new.items) }
{
    for next in graph.successors(NodeId(u)) {
        if is_back(regions, u, next.0) {
            continue;
        }
        if was_last(arrivals, next.0) {
            ready.push(next.0)?;
        }
    }
    Ok(())
}

/// A rank for each node. A node is ranked below all nodes with forward edges to it, once all of
/// these are ranked. Nodes that are not reached in this way have rank 0; they exist only if there
/// is a cycle. Each edge is visited twice.
pub(crate) fn ranks(alloc: Global, graph: &Graph, regions: &Regions) -> Result<Vec<u32>, AllocError>
    requires { length regions.now.holders ≡ (graph_of graph.now).size }
    ensures { IfOk result (λ ranks. length ranks.items ≡ (graph_of graph.now).size) }
{
    graph.graph_law();
    let nodes = graph.len();
    let mut arrivals = count_arrivals(alloc, graph, regions)?;
    let mut ready = without_arrivals(alloc, &arrivals)?;
    let mut ranks = vec![in alloc; 0u32; nodes as usize]?;
    for ranked in 0..nodes {
        let Some(u) = ready.pop() else {
            break;
        };
        ranks[u as usize] = nodes - ranked;
        take_away(graph, regions, u, &mut arrivals, &mut ready)?;
    }
    Ok(ranks)
}

/// Whether ranks decrease along an edge from u to v, if it is a forward one.
fn falls(regions: &Regions, ranks: &[u32], u: u32, v: u32) -> bool
    requires node { u < length regions.now.holders }
    requires source { u < length ranks.now }
    requires target { v < length ranks.now }
    ensures { IsTrue result → (IsBackEdge (nest_in regions.now) u v → ⊥)
        → slice_index ranks.now v < slice_index ranks.now u }
{
    is_back(regions, u, v) || ranks[v as usize] < ranks[u as usize]
}

/// Whether ranks decrease along the forward edges of a node.
fn falls_along(graph: &Graph, regions: &Regions, ranks: &[u32], u: u32) -> bool
    requires nodes { length regions.now.holders ≡ (graph_of graph.now).size }
    requires node { u < (graph_of graph.now).size }
    requires all { length ranks.now ≡ (graph_of graph.now).size }
    ensures { IsTrue result → All
        (λ v. (IsBackEdge (nest_in regions.now) u v → ⊥)
        → slice_index ranks.now v < slice_index ranks.now u) ((graph_of graph.now).next u) }
{
    for next in graph.successors(NodeId(u)) {
        if !falls(regions, ranks, u, next.0) {
            return false;
        }
    }
    true
}

/// Whether ranks decrease along all forward edges. Then there is no cycle without back edges.
pub(crate) fn all_fall(graph: &Graph, regions: &Regions, ranks: &[u32]) -> bool
    requires nodes { length regions.now.holders ≡ (graph_of graph.now).size }
    requires all { length ranks.now ≡ (graph_of graph.now).size }
    ensures { IsTrue result → (u v : ℕ) → IsForward (graph_of graph.now) (nest_in regions.now) u v
        → slice_index ranks.now v < slice_index ranks.now u }
{
    graph.graph_law();
    for u in 0..graph.len() {
        if !falls_along(graph, regions, ranks, u) {
            return false;
        }
    }
    true
}
