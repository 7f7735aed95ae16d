// Which regions hold a node.
ghost use Rattle.std.specs.Prelude.{◌≡◌, ◌<◌, ◌≤◌, ◌↔◌, ◌∷◌, [], ◌++◌, ℕ, IfOk, OnOk, IsTrue};
ghost use Rattle.std.specs.Prelude.{IsFalse, length, if◌then◌else◌, Some, slice_get};
ghost use Rattle.flat_graph.specs.CodeGraph.{graph_of, places_of};
ghost use Rattle.loop_regions.specs.CodeNest.{has, row};
ghost use Rattle.loop_regions.specs.Stated.{seen_from, region_holds};
ghost use Rattle.loop_regions.specs.Inner.Heads.{AreHeads, IsHeldBy, is_seen_from};

use crate::heads::Head;
use crate::holders::Holders;
use crate::ranges::{RangedLoop, ranged_loops};
use crpd_base::{LoopAt, NodeId};
use flat_graph::Graph;
use std::alloc::{AllocError, Global};

/// The address of a node as seen from a context: its own, or that of the call made in the context.
/// `None` if the node's context does not begin with this one.
fn seen_from(from: &[u32], context: &[u32], address: u32) -> Option<u32>
    ensures { result ≡ seen_from from.now context.now address }
{
    if !context.starts_with(from) {
        return None;
    }
    if from.len() < context.len() {
        Some(context[from.len()])
    } else {
        Some(address)
    }
}

/// The address of a node as seen from a context.
fn seen(graph: &Graph, from: &[u32], y: u32) -> Option<u32>
    requires { y < (graph_of graph.now).size }
    ensures { result ≡ seen_from from.now ((places_of graph.now).context y)
        ((places_of graph.now).address y) }
{
    seen_from(from, graph.context(NodeId(y)), graph.address(NodeId(y)))
}

/// Whether the region of a stated loop in the context of a head holds a node.
fn region_holds(graph: &Graph, stated: &RangedLoop, from: &[u32], y: u32) -> bool
    requires { y < (graph_of graph.now).size }
    ensures { result ≡ region_holds (places_of graph.now) stated.now from.now y }
{
    match seen(graph, from, y) {
        Some(address) => stated.holds(address),
        None => false,
    }
}

/// The first of the nodes seen from a node's context. Logarithmic in the number of nodes.
fn first_seen(graph: &Graph, head: u32) -> u32
    requires { head < (graph_of graph.now).size }
    ensures below { result ≤ head }
    ensures before { (y : ℕ) → y < result
        → IsFalse (is_seen_from (places_of graph.now) ((places_of graph.now).context head) y) }
{
    graph.graph_law();
    let from = graph.context(NodeId(head));
    let mut first = 0;
    let mut found = head;
    while first < found {
        let middle = first + (found - first) / 2;
        if seen(graph, from, middle).is_some() {
            found = middle;
        } else {
            first = middle + 1;
        }
    }
    first
}

/// The end of the nodes seen from a node's context. Logarithmic in the number of nodes.
fn past_seen(graph: &Graph, head: u32) -> u32
    requires { head < (graph_of graph.now).size }
    ensures within { result ≤ (graph_of graph.now).size }
    ensures after { (y : ℕ) → result ≤ y → y < (graph_of graph.now).size
        → IsFalse (is_seen_from (places_of graph.now) ((places_of graph.now).context head) y) }
{
    graph.graph_law();
    let from = graph.context(NodeId(head));
    let mut found = head + 1;
    let mut past = graph.len();
    while found < past {
        let middle = found + (past - found) / 2;
        if seen(graph, from, middle).is_some() {
            found = middle + 1;
        } else {
            past = middle;
        }
    }
    past
}

/// Adds a region to the nodes that it holds. Nodes are numbered by their contexts first, so those
/// seen from one context are consecutive. Only these are visited.
fn place(
    graph: &Graph,
    stated: &RangedLoop,
    head: u32,
    r: u32,
    holders: &mut Vec<Holders>,
) -> Result<(), AllocError>
    requires head { head < (graph_of graph.now).size }
    requires nodes { length holders.old.items ≡ (graph_of graph.now).size }
    ensures nodes { OnOk result (length holders.new.items ≡ (graph_of graph.now).size) }
    ensures placed { OnOk result
        ((y : ℕ) → y < (graph_of graph.now).size → row holders.new.items y ≡ row holders.old.items y
        ++ (if region_holds (places_of graph.now) stated.now ((places_of graph.now).context head) y
        then r ∷ [] else [])) }
{
    let from = graph.context(NodeId(head));
    for y in first_seen(graph, head)..past_seen(graph, head) {
        if region_holds(graph, stated, from, y) {
            let here = &mut holders[y as usize];
            here.push(r)?;
        }
    }
    Ok(())
}

/// For each node, the regions of these heads that hold it.
pub(crate) fn holders(
    alloc: Global,
    graph: &Graph,
    loops: &[LoopAt],
    heads: &[Head],
) -> Result<Vec<Holders>, AllocError>
    requires { AreHeads (places_of graph.now) loops.now (graph_of graph.now).size heads.now }
    ensures nodes { IfOk result (λ holders. length holders.items ≡ (graph_of graph.now).size) }
    ensures held { IfOk result (λ holders. (y r : ℕ) → y < (graph_of graph.now).size →
        IsTrue (has (row holders.items y) r)
        ↔ IsHeldBy (places_of graph.now) loops.now heads.now y r) }
{
    graph.graph_law();
    let ranged = ranged_loops(alloc, loops)?;
    let mut holders = vec![in alloc; Holders::new(alloc); graph.len() as usize]?;
    for (r, head) in heads.iter().enumerate() {
        place(
            graph,
            &ranged[head.stated],
            head.node,
            r as u32,
            &mut holders,
        )?;
    }
    Ok(holders)
}
