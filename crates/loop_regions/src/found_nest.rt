// The regions of a task's graph, or the first refusal.
ghost use Rattle.std.specs.Prelude.{◌≡◌, ℕ, IfOk, IfErr, OnOk, length};
ghost use Rattle.flat_graph.specs.CodeGraph.{graph_of, places_of};
ghost use Rattle.loop_regions.specs.CodeNest.{nest_of, AreBounded, IsNestOf};
ghost use Rattle.loop_regions.specs.Stated.{IsRegions, HasNoLoopRefusals, IsSameHead};
ghost use Rattle.loop_regions.specs.Inner.FoundRegions.{nest_in, code_nest, AreAround};
ghost use Rattle.loop_regions.specs.LoopErrors.{IsLoopError};
ghost use Rattle.loop_regions.specs.Inner.StoredNest.{IsStoredNest};

use crate::around::regions_around;
use crate::cycles::least_on_cycle;
use crate::error::LoopError;
use crate::found::Regions;
use crate::holders::Holders;
use crate::nest::Nest;
use crate::nested::{levels, not_nested, parents};
use crate::same_head::least_same_head;
use crate::second_entry::least_second_entry;
use crpd_base::{LoopAt, NodeId, TaskPlan};
use flat_graph::Graph;
use std::alloc::Global;

/// Fails with the first refusal of regions that were found for stated loops with distinct heads.
/// `around` has, for each region, the regions that hold all of its nodes.
fn accept(
    alloc: Global,
    graph: &Graph,
    loops: &[LoopAt],
    found: &Regions,
    around: &[Holders],
) -> Result<(), LoopError>
    requires nodes { length found.now.holders ≡ (graph_of graph.now).size }
    requires one_head { (a : ℕ) → ¬ IsSameHead loops.now a }
    requires regions { IsRegions (graph_of graph.now) (places_of graph.now) loops.now
        (nest_in found.now) }
    requires around { AreAround (nest_in found.now) around.now }
    ensures accepted { OnOk result (HasNoLoopRefusals (graph_of graph.now) (nest_in found.now)) }
    ensures refused { IfErr result
        (IsLoopError (graph_of graph.now) (places_of graph.now) loops.now) }
{
    graph.graph_law();
    if let Some(v) = least_second_entry(graph, found) {
        return Err(LoopError::SecondEntry(graph.node(NodeId(v)).address));
    }
    if let Some(v) = not_nested(found, around) {
        return Err(LoopError::NotNested(graph.node(NodeId(v)).address));
    }
    if let Some(v) = least_on_cycle(alloc, graph, found)? {
        return Err(LoopError::CycleWithoutBound(graph.node(NodeId(v)).address));
    }
    Ok(())
}

/// The parents of regions and the innermost regions of nodes.
#[derive(Drop)]
struct Nesting {
    parents: Vec<Option<u32>>,
    innermost: Vec<Option<u32>>,
}

/// How regions that were found for stated loops with distinct heads are nested, or the first
/// refusal.
fn find_nesting(
    alloc: Global,
    graph: &Graph,
    loops: &[LoopAt],
    found: &Regions,
) -> Result<Nesting, LoopError>
    requires nodes { length found.now.holders ≡ (graph_of graph.now).size }
    requires one_head { (a : ℕ) → ¬ IsSameHead loops.now a }
    requires regions { IsRegions (graph_of graph.now) (places_of graph.now) loops.now
        (nest_in found.now) }
    ensures stored { IfOk result
        (λ n. IsStoredNest (code_nest found.now) n.parents.items n.innermost.items) }
    ensures accepted { OnOk result (HasNoLoopRefusals (graph_of graph.now) (nest_in found.now)) }
    ensures refused { IfErr result
        (IsLoopError (graph_of graph.now) (places_of graph.now) loops.now) }
{
    let around = regions_around(alloc, found)?;
    accept(alloc, graph, loops, found, &around)?;
    let parents = parents(alloc, found, &around)?;
    let innermost = levels(alloc, found, &around)?;
    Ok(Nesting { parents, innermost })
}

/// The nest of regions that were found for stated loops with distinct heads, or the first refusal.
fn nest_of_found(
    alloc: Global,
    graph: &Graph,
    loops: &[LoopAt],
    found: Regions,
) -> Result<Nest, LoopError>
    requires nodes { length found.holders ≡ (graph_of graph.now).size }
    requires one_head { (a : ℕ) → ¬ IsSameHead loops.now a }
    requires regions { IsRegions (graph_of graph.now) (places_of graph.now) loops.now
        (nest_in found) }
    ensures regions { IfOk result
        (λ nest. IsRegions (graph_of graph.now) (places_of graph.now) loops.now (nest_of nest)) }
    ensures accepted { IfOk result (λ nest. HasNoLoopRefusals (graph_of graph.now) (nest_of nest)) }
    ensures nodes { IfOk result (λ nest. length nest.holders ≡ (graph_of graph.now).size) }
    ensures refused { IfErr result
        (IsLoopError (graph_of graph.now) (places_of graph.now) loops.now) }
{
    let Nesting { parents, innermost } = find_nesting(alloc, graph, loops, &found)?;
    Ok(Nest::new(found, parents, innermost))
}

/// The regions of a plan's stated loops in a task's graph: one for each loop in each context in
/// which its head is a node. A region holds the nodes of its context whose addresses the loop
/// holds, and the nodes of the calls made there.
///
/// An `Err` is the first refusal, in the order `SameHead`, `SecondEntry`, `NotNested`,
/// `CycleWithoutBound`, each with the address that `LoopError` describes, or `Memory` if memory
/// runs out.
///
/// Time: nodes times the loops that may hold them, edges times the regions at both ends, and n log
/// n in the ranges. A node with other regions than the node before it costs up to the cube of their
/// number. If a node is on a cycle without back edges, each node up to the smallest such one is
/// searched from. Stores the regions of each node.
pub fn regions(alloc: Global, graph: &Graph, plan: &TaskPlan) -> Result<Nest, LoopError>
    ensures regions { IfOk result
        (λ nest. IsRegions (graph_of graph.now) (places_of graph.now) plan.now.loops
        (nest_of nest)) }
    ensures accepted { IfOk result (λ nest. HasNoLoopRefusals (graph_of graph.now) (nest_of nest)) }
    ensures one_head { IfOk result (λ _. (a : ℕ) → ¬ IsSameHead plan.now.loops a) }
    ensures nodes { IfOk result (λ nest. length nest.holders ≡ (graph_of graph.now).size) }
    ensures nest { IfOk result (λ nest. AreBounded plan.now.loops → IsNestOf graph.now nest) }
    ensures refused { IfErr result
        (IsLoopError (graph_of graph.now) (places_of graph.now) plan.now.loops) }
{
    let loops = plan.loops.as_slice();
    if let Some(address) = least_same_head(loops) {
        return Err(LoopError::SameHead(address));
    }
    let found = Regions::find(alloc, graph, loops)?;
    nest_of_found(alloc, graph, loops, found)
}
