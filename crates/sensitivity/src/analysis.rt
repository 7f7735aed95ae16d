// The parts of the tasks: what does not depend on costs, and the bounds.
ghost use Rattle.std.specs.Prelude.{◌≡◌, List, ◌≤◌, length, IfOk, MatchOption};
ghost use Rattle.crpd_base.specs.Ranges.{IsPlatform, IsTaskSet};
ghost use Rattle.flat_graph.specs.CodeGraph.{graph_of, places_of};
ghost use Rattle.icache.specs.Accesses.{accesses};
ghost use Rattle.loop_regions.specs.CodeNest.{CodeNest, IsNestOf};
ghost use Rattle.loop_regions.specs.TaskGraphs.{task_graph, task_graph_at, AreTaskGraphs};
ghost use Rattle.exec_bound.specs.Costs.{greatest_bound};
ghost use Rattle.sensitivity.specs.Accepted.{HasCacheBlocks, IsLeastBound};
ghost use Rattle.sensitivity.specs.Inner.Found.{IsLarge, TellsHits, HaveCacheBlocks, HaveHits};
ghost use Rattle.sensitivity.specs.Inner.Found.{GivesBounds};

use crpd_base::{Items, Memory, Part, Platform, SETS, Task, TaskSet, WORDS};
use evict_sets::evicting;
use exec_bound::{BoundError, bound_by_hits};
use flat_graph::Graph;
use icache::Geometry;
use loop_regions::Nest;
use must_cache::sure_hits;
use std::alloc::Global;
use useful_sets::useful_of_hits;

/// The data of one task that do not depend on costs.
#[derive(Drop)]
struct TaskKnown {
    /// Its evicting and its useful cache sets. The bound is 0.
    part: Part,
    /// Which of its nodes are surely hits.
    hits: Items<bool>,
}

/// The data of all tasks that do not depend on costs.
#[derive(Drop)]
pub(crate) struct Known {
    /// The parts, without their bounds.
    pub(crate) parts: Vec<Part>,
    /// Which nodes of each task are surely hits.
    pub(crate) hits: Vec<Items<bool>>,
}

/// The parts of all tasks, or the first task whose bound exceeds 2^40 cycles.
#[derive(Drop)]
pub(crate) enum Bounded {
    Parts(Vec<Part>),
    TooLarge(Task),
}

/// The data of a task that do not depend on costs. Its must states are freed.
fn task_known(alloc: Global, platform: &Platform, graph: &Graph) -> Result<TaskKnown, Memory>
    requires platform { IsPlatform platform.now }
    ensures sets { IfOk result
        (λ known. (nest : CodeNest)
        → HasCacheBlocks platform.now (task_graph graph.now nest) known.part) }
    ensures hits { IfOk result
        (λ known. (nest : CodeNest)
        → TellsHits platform.now (task_graph graph.now nest) known.hits) }
{
    let geometry = Geometry::new(platform);
    let hits = sure_hits::<SETS, WORDS>(alloc, graph, &geometry)?;
    let useful = useful_of_hits::<WORDS>(graph, &geometry, &hits);
    let evicting = evicting::<WORDS>(graph, &geometry);
    evicting.words_law();
    useful.words_law();
    Ok(TaskKnown {
        part: Part {
            bound: 0,
            evicting,
            useful,
        },
        hits: Items::new(hits),
    })
}

/// The bound of a task, in cycles, given which of its nodes are surely hits; `None` if it exceeds
/// 2^40.
fn task_bound(
    alloc: Global,
    platform: &Platform,
    graph: &Graph,
    nest: &Nest,
    hits: &[bool],
) -> Result<Option<u64>, Memory>
    requires nest { IsNestOf graph.now nest.now }
    requires hits { TellsHits platform.now (task_graph graph.now nest.now) hits.now }
    ensures { IfOk result (λ found. MatchOption found
        (IsLarge platform.now (task_graph graph.now nest.now))
        (λ cycles. IsLeastBound platform.now (task_graph graph.now nest.now) cycles
        × (cycles ≤ greatest_bound))) }
{
    match bound_by_hits(alloc, graph, nest, platform, hits) {
        Ok(found) => Ok(Some(found.cycles)),
        Err(BoundError::TooLarge(_address)) => Ok(None),
        Err(BoundError::Memory) => Err(Memory),
    }
}

/// The data of all tasks that do not depend on costs. One task is analysed at a time.
pub(crate) fn all_known(alloc: Global, set: &TaskSet, graphs: &[Graph]) -> Result<Known, Memory>
    requires set { IsTaskSet set.now }
    requires tasks { length graphs.now ≡ length set.now.tasks }
    ensures sets { IfOk result
        (λ known. (nests : List CodeNest)
        → HaveCacheBlocks set.now (task_graph_at graphs.now nests) known.parts.items) }
    ensures hits { IfOk result
        (λ known. (nests : List CodeNest)
        → HaveHits set.now (task_graph_at graphs.now nests) known.hits.items) }
{
    let mut parts = Vec::new(alloc);
    let mut hits = Vec::new(alloc);
    for k in 0..graphs.len() {
        let known = task_known(alloc, &set.platform, &graphs[k])?;
        parts.push(known.part)?;
        hits.push(known.hits)?;
    }
    Ok(Known { parts, hits })
}

/// The parts with their bounds, or the first task whose bound is too large. `sets` has the parts
/// without bounds, and `hits` which nodes of each task are surely hits.
pub(crate) fn with_bounds(
    alloc: Global,
    set: &TaskSet,
    graphs: &[Graph],
    nests: &[Nest],
    sets: &[Part],
    hits: &[Items<bool>],
) -> Result<Bounded, Memory>
    requires set { IsTaskSet set.now }
    requires tasks { AreTaskGraphs set.now graphs.now nests.now }
    requires sets { HaveCacheBlocks set.now (task_graph_at graphs.now nests.now) sets.now }
    requires hits { HaveHits set.now (task_graph_at graphs.now nests.now) hits.now }
    ensures { IfOk result (λ found.
        GivesBounds set.now (task_graph_at graphs.now nests.now) found) }
{
    let mut parts = Vec::new(alloc);
    for k in 0..graphs.len() {
        let sure = hits[k].as_slice();
        let Some(cycles) = task_bound(alloc, &set.platform, &graphs[k], &nests[k], sure)? else {
            return Ok(Bounded::TooLarge(Task(k as u8)));
        };
        let known = sets[k];
        let part = Part {
            bound: cycles,
            ..known
        };
        parts.push(part)?;
    }
    Ok(Bounded::Parts(parts))
}
