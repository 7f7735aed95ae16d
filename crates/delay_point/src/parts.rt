// The parts of tasks, with sets that stand for the useful sets of their nodes.
ghost use Rattle.std.specs.Prelude.{◌≡◌, ℕ, ◌<◌, ◌≤◌, length, IfOk, MatchResult};
ghost use Rattle.crpd_base.specs.Limits.{longest_time};
ghost use Rattle.crpd_base.specs.Ranges.{IsPlatform, IsTaskSet};
ghost use Rattle.icache.specs.Accesses.{accesses};
ghost use Rattle.flat_graph.specs.CodeGraph.{graph_of, places_of};
ghost use Rattle.useful_sets.specs.Sets.{AreUseful, sets_at};
ghost use Rattle.crpd_base.specs.Sets.{has};
ghost use Rattle.loop_regions.specs.CodeNest.{IsNestOf};
ghost use Rattle.delay_count.specs.Gamma.{part_at};
ghost use Rattle.loop_regions.specs.TaskGraphs.{task_graph, task_graph_at, AreTaskGraphs};
ghost use Rattle.cert_build.specs.Analysis.{IsAnalysis};
ghost use Rattle.delay_point.specs.Inner.Standing.{IsTaskRefusal, IsPointPart, IsChosenPoint};
ghost use Rattle.delay_point.specs.Inner.Standing.{HasPoint, AreTaskPoints, HaveNoPointParts};
ghost use Rattle.delay_point.specs.Inner.Lists.{AreStored};
ghost use Rattle.delay_point.specs.declared.error.RefineError.{RefineError};
ghost use Rattle.delay_point.specs.declared.error.RefineError.TheVariants.{Memory};

use crate::error::RefineError;
use crate::standing::standing_sets;
use cert_build::{PointAnalysis, analyse_points};
use crpd_base::{Part, Platform, SetBits, Task, TaskSet, WORDS};
use exec_bound::BoundError;
use flat_graph::{Graph, graphs_law};
use loop_regions::Nest;
use persistent_blocks::persistent_part;
use std::alloc::Global;

/// The parts of tasks, by task.
#[derive(Drop)]
pub(crate) struct PointParts {
    /// The plain parts, by the analysis.
    pub(crate) parts: Vec<Part>,
    /// The same parts, but instead of the useful cache sets each has one set that stands for those
    /// of its nodes.
    pub(crate) points: Vec<Part>,
    /// The chosen parts: with persistent blocks where the bound is then smaller, otherwise plain.
    pub(crate) chosen: Vec<Part>,
    /// The same with such sets.
    pub(crate) chosen_points: Vec<Part>,
}

/// The part of one task, in two versions.
#[derive(Clone, Copy)]
struct PointPart {
    /// The part.
    part: Part,
    /// The same part with a set that stands for the useful cache sets of its nodes.
    point: Part,
}

/// The parts of one task.
#[derive(Clone, Copy)]
struct TaskPoints {
    /// The plain part.
    plain: PointPart,
    /// The chosen part.
    chosen: PointPart,
}

/// The part of a task in both versions, from the useful cache sets of its nodes and the parts of
/// the tasks above it.
fn with_standing(part: Part, higher: &[Part], useful: &[SetBits<WORDS>]) -> PointPart
    ensures part { result.part ≡ part }
    ensures point { HasPoint (length useful.now) (part_at higher.now) (length higher.now)
        result.part result.point (λ y. has (sets_at useful.now y)) }
{
    let point = Part {
        bound: part.bound,
        evicting: part.evicting,
        useful: standing_sets(higher, useful),
    };
    PointPart { part, point }
}

/// The analysis of a task with the useful cache sets of its nodes, or the task's place with the
/// reason of a refusal.
fn analyse_task(
    alloc: Global,
    graph: &Graph,
    nest: &Nest,
    platform: &Platform,
    task: Task,
) -> Result<PointAnalysis, RefineError>
    requires nest { IsNestOf graph.now nest.now }
    requires platform { IsPlatform platform.now }
    ensures exact { MatchResult result
        (λ a. IsAnalysis platform.now (task_graph graph.now nest.now) a.analysis)
        (λ e. IsTaskRefusal platform.now (task_graph graph.now nest.now) task.0 e) }
    ensures useful { IfOk result (λ a.
        AreUseful (graph_of graph.now) (accesses platform.now (places_of graph.now).address)
        a.useful.items) }
{
    match analyse_points(alloc, graph, nest, platform) {
        Ok(found) => Ok(found),
        Err(BoundError::Memory) => Err(RefineError::Memory),
        Err(BoundError::TooLarge(address)) => Err(RefineError::TooLarge { task, address }),
    }
}

/// The plain part of a task, from its analysis and the parts of the tasks above it.
fn plain_part(
    alloc: Global,
    graph: &Graph,
    nest: &Nest,
    platform: &Platform,
    task: Task,
    higher: &[Part],
) -> Result<PointPart, RefineError>
    requires nest { IsNestOf graph.now nest.now }
    requires platform { IsPlatform platform.now }
    ensures { MatchResult result
        (λ p. IsPointPart platform.now (task_graph graph.now nest.now) (part_at higher.now)
        (length higher.now) p.part p.point)
        (λ e. IsTaskRefusal platform.now (task_graph graph.now nest.now) task.0 e) }
{
    let PointAnalysis { analysis, useful } = analyse_task(alloc, graph, nest, platform, task)?;
    Ok(with_standing(analysis.part, higher, &useful))
}

/// The chosen part of a task: with persistent blocks, if its bound is then smaller, otherwise the
/// plain part. The only error is out of memory.
fn chosen_part(
    alloc: Global,
    graph: &Graph,
    nest: &Nest,
    platform: &Platform,
    plain: &PointPart,
    higher: &[Part],
) -> Result<PointPart, RefineError>
    requires nest { IsNestOf graph.now nest.now }
    requires platform { IsPlatform platform.now }
    requires bound { plain.now.part.bound ≤ longest_time }
    ensures { MatchResult result
        (λ p. IsChosenPoint platform.now (task_graph graph.now nest.now) (part_at higher.now)
        (length higher.now) plain.now.part plain.now.point p.part p.point)
        (λ (e : RefineError). e ≡ Memory) }
{
    let Ok(found) = persistent_part(alloc, graph, nest, platform) else {
        return Err(RefineError::Memory);
    };
    let Some(persistent) = found else {
        return Ok(*plain);
    };
    if persistent.part.bound < plain.part.bound {
        Ok(with_standing(persistent.part, higher, &persistent.useful))
    } else {
        Ok(*plain)
    }
}

/// The plain and the chosen part of a task, from the parts of the tasks above it. What the analyses
/// allocate is freed.
fn task_points(
    alloc: Global,
    graph: &Graph,
    nest: &Nest,
    platform: &Platform,
    task: Task,
    higher: &[Part],
) -> Result<TaskPoints, RefineError>
    requires nest { IsNestOf graph.now nest.now }
    requires platform { IsPlatform platform.now }
    ensures { MatchResult result
        (λ p. AreTaskPoints platform.now (task_graph graph.now nest.now) (part_at higher.now)
        (length higher.now) p.plain.part p.plain.point p.chosen.part p.chosen.point)
        (λ e. IsTaskRefusal platform.now (task_graph graph.now nest.now) task.0 e) }
{
    let plain = plain_part(alloc, graph, nest, platform, task, higher)?;
    let chosen = chosen_part(alloc, graph, nest, platform, &plain, higher)?;
    Ok(TaskPoints { plain, chosen })
}

/// The parts of all tasks, analysed in order. The refusals are out of memory, and `TooLarge` for
/// the first task whose bound exceeds 2^40 cycles.
pub(crate) fn point_parts(
    alloc: Global,
    set: &TaskSet,
    graphs: &[Graph],
    nests: &[Nest],
) -> Result<PointParts, RefineError>
    requires set { IsTaskSet set.now }
    requires tasks { AreTaskGraphs set.now graphs.now nests.now }
    ensures { MatchResult result
        (λ p. AreStored set.now (task_graph_at graphs.now nests.now) (length set.now.tasks) p)
        (λ e. HaveNoPointParts set.now (task_graph_at graphs.now nests.now) e) }
{
    graphs_law(graphs);
    let mut parts = Vec::new(alloc);
    let mut points = Vec::new(alloc);
    let mut chosen = Vec::new(alloc);
    let mut chosen_points = Vec::new(alloc);
    for k in 0..graphs.len() {
        let task = Task(k as u8);
        let found = task_points(alloc, &graphs[k], &nests[k], &set.platform, task, &parts)?;
        let TaskPoints {
            plain,
            chosen: least,
        } = found;
        parts.push(plain.part)?;
        points.push(plain.point)?;
        chosen.push(least.part)?;
        chosen_points.push(least.point)?;
    }
    Ok(PointParts {
        parts,
        points,
        chosen,
        chosen_points,
    })
}
