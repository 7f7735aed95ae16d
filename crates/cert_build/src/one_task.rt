// The analysis of one task's code.
ghost use Rattle.std.specs.Prelude.{◌≡◌, ◌≤◌, MatchResult, IfOk, false, length, slice_index_or};
ghost use Rattle.crpd_base.specs.Limits.{most_sets};
ghost use Rattle.crpd_base.specs.Ranges.{IsPlatform};
ghost use Rattle.icache.specs.Accesses.{accesses};
ghost use Rattle.flat_graph.specs.CodeGraph.{graph_of, places_of};
ghost use Rattle.must_cache.specs.Sure.{CountsSureHits};
ghost use Rattle.useful_sets.specs.Sets.{AreUseful};
ghost use Rattle.useful_sets.specs.Useful.{IsEcb, IsUcb};
ghost use Rattle.loop_regions.specs.CodeNest.{IsNestOf, nest_of};
ghost use Rattle.evict_sets.specs.Listing.{counted};
ghost use Rattle.exec_bound.specs.Costs.{costs_of, IsBound};
ghost use Rattle.exec_bound.specs.BoundErrors.{IsBoundError};
ghost use Rattle.loop_regions.specs.TaskGraphs.{task_graph};
ghost use Rattle.crpd_base.specs.Sets.{IsSetOf};
ghost use Rattle.cert_build.specs.Analysis.{IsAnalysis, KeepsRanges, HasNoAnalysis};

use crate::leader_states::node_entries;
use crpd_base::{Items, NodeState, Part, Platform, SETS, SetBits, WORDS};
use evict_sets::evicting;
use exec_bound::{Bound, BoundError, bound_by_hits};
use flat_graph::Graph;
use icache::Geometry;
use loop_regions::Nest;
use must_cache::sure_parts;
use std::alloc::Global;
use useful_sets::useful_of_hits;

/// The analysis of a task's code alone: its execution bound in cycles, its evicting and its useful
/// cache sets, the entries of its leaders in ascending order of nodes, and the least potentials of
/// its nodes and regions in cycles. An update may instead store here the part of an accepted
/// certificate of the same code. That part may list more nodes, fewer blocks before a node, more
/// cache sets, larger potentials and a larger bound, which is still at most 2^40.
#[derive(Drop)]
pub struct Analysis {
    /// Its execution bound in cycles, 1 to 2^40, and its evicting and useful cache sets.
    pub part: Part,
    /// What is surely held and useful before each leader, in ascending order of nodes.
    pub states: Items<NodeState>,
    /// The least potentials of its nodes, 0 to 2^40 cycles, by node number.
    pub potentials: Items<u64>,
    /// The least potentials of its regions, 0 to 2^40 cycles, by region number.
    pub loops: Items<u64>,
}

/// The analysis of a task's code, with the useful cache sets of all its nodes.
#[derive(Drop)]
pub struct PointAnalysis {
    /// The analysis.
    pub analysis: Analysis,
    /// The cache sets that are useful before each node, by node number.
    pub useful: Vec<SetBits<WORDS>>,
}

/// The execution bound of a task, given these hits by Sure.
fn found_bound(
    alloc: Global,
    graph: &Graph,
    nest: &Nest,
    platform: &Platform,
    hits: &[bool],
) -> Result<Bound, BoundError>
    requires nest { IsNestOf graph.now nest.now }
    requires count { length hits.now ≡ (graph_of graph.now).size }
    requires hits { CountsSureHits (graph_of graph.now)
        (accesses platform.now (places_of graph.now).address) (counted hits.now) }
    ensures { MatchResult result
        (λ b. IsBound (graph_of graph.now) (nest_of nest.now)
        (costs_of platform.now graph.now (counted hits.now)) b.cycles b.nodes b.loops)
        (λ e. IsBoundError graph.now (nest_of nest.now)
        (costs_of platform.now graph.now (counted hits.now)) e) }
{
    bound_by_hits(alloc, graph, nest, platform, hits)
}

/// A task's bound, with its evicting and its useful cache sets.
fn found_part(graph: &Graph, geometry: &Geometry, hits: &[bool], cycles: u64) -> Part
    requires room { geometry.now.platform.sets ≤ most_sets }
    requires count { length hits.now ≡ (graph_of graph.now).size }
    requires hits { CountsSureHits (graph_of graph.now)
        (accesses geometry.now.platform (places_of graph.now).address)
        (λ y. slice_index_or hits.now y false) }
    ensures bound { result.bound ≡ cycles }
    ensures evicting { IsSetOf result.evicting (IsEcb (graph_of graph.now)
        (accesses geometry.now.platform (places_of graph.now).address)) }
    ensures useful { IsSetOf result.useful (IsUcb (graph_of graph.now)
        (accesses geometry.now.platform (places_of graph.now).address)) }
{
    let evicting = evicting::<WORDS>(graph, geometry);
    let useful = useful_of_hits::<WORDS>(graph, geometry, hits);
    evicting.words_law();
    useful.words_law();
    Part {
        bound: cycles,
        evicting,
        useful,
    }
}

/// The analysis of a task's code: the must analysis and the useful cache sets (Lee et al. 1998) at
/// each leader, the evicting and the useful cache sets of the task (Altmeyer, Davis and Maiza
/// 2012), and the least potentials with the misses that the must analysis leaves.
///
/// The errors are out of memory, and `TooLarge` with the byte address of the task's entry, exactly
/// if the bound exceeds 2^40. While it works, it allocates 4 kB for each leader and for each node
/// of a walk whose edges are still to be followed, some sets of cache sets for each node, and for
/// each leader its entry. Afterwards only the entries and 8 bytes for each node and region stay.
/// Time: the must analysis, the useful sets, the bound, and one pass over the cache sets of each
/// leader.
pub fn analyse(
    alloc: Global,
    graph: &Graph,
    nest: &Nest,
    platform: &Platform,
) -> Result<Analysis, BoundError>
    requires nest { IsNestOf graph.now nest.now }
    requires platform { IsPlatform platform.now }
    ensures exact { MatchResult result
        (λ a. IsAnalysis platform.now (task_graph graph.now nest.now) a)
        (λ e. HasNoAnalysis platform.now (task_graph graph.now nest.now) e) }
    ensures ranges { IfOk result KeepsRanges }
{
    match analyse_points(alloc, graph, nest, platform) {
        Ok(found) => Ok(found.analysis),
        Err(error) => Err(error),
    }
}

/// The analysis of a task's code, as `analyse` finds it, and the useful cache sets before each of
/// its nodes, 64 bytes for each. Errors, time and memory are those of `analyse`.
pub fn analyse_points(
    alloc: Global,
    graph: &Graph,
    nest: &Nest,
    platform: &Platform,
) -> Result<PointAnalysis, BoundError>
    requires nest { IsNestOf graph.now nest.now }
    requires platform { IsPlatform platform.now }
    ensures exact { MatchResult result
        (λ a. IsAnalysis platform.now (task_graph graph.now nest.now) a.analysis)
        (λ e. HasNoAnalysis platform.now (task_graph graph.now nest.now) e) }
    ensures useful { IfOk result (λ a.
        AreUseful (graph_of graph.now) (accesses platform.now (places_of graph.now).address)
        a.useful.items) }
    ensures ranges { IfOk result (λ a. KeepsRanges a.analysis) }
{
    graph.graph_law();
    nest.size_law();
    let geometry = Geometry::new(platform);
    let Ok(parts) = sure_parts::<SETS, WORDS>(alloc, graph, &geometry) else {
        return Err(BoundError::Memory);
    };
    let Bound {
        cycles,
        nodes,
        loops,
    } = found_bound(alloc, graph, nest, platform, &parts.hits)?;
    let Ok(entries) = node_entries(alloc, graph, &geometry, &parts) else {
        return Err(BoundError::Memory);
    };
    let analysis = Analysis {
        part: found_part(graph, &geometry, &parts.hits, cycles),
        states: Items::new(entries.states),
        potentials: nodes,
        loops,
    };
    Ok(PointAnalysis {
        analysis,
        useful: entries.useful,
    })
}
