// The graphs of the tasks with the regions of their loops, reused from an old set if they are the
// same.
ghost use Rattle.std.specs.Prelude.{◌<◌, ℕ, length, None, Ok, slice_index_or, IfOk};
ghost use Rattle.flat_graph.specs.CodeGraph.{graph_at};
ghost use Rattle.loop_regions.specs.TaskGraphs.{AreTaskGraphs, nest_at};
ghost use Rattle.loop_regions.specs.CodeNest.{IsNestOf};
ghost use Rattle.task_shapes.specs.Graphs.{GraphAt, GraphsOf, RegionsAt, RegionsOf};
ghost use Rattle.task_shapes.specs.SameTask.{AreTaken};
ghost use Rattle.task_shapes.specs.Inner.SameTask.{AreSources, IsSource, IsTaken};
ghost use Rattle.task_shapes.specs.Shapes.{ShapesOf};
ghost use Rattle.task_shapes.specs.Steps.{GivesBy};

use crate::error::ShapeError;
use crate::graphs::task_graph;
use crate::input::Input;
use crate::regions::task_regions;
use crate::same_task::sources;
use crate::shaped::ShapedSet;
use crpd_base::{Items, Task};
use flat_graph::Graph;
use loop_regions::Nest;
use std::alloc::Global;

/// The graph of a task: a copy of that of its source, if it has one.
fn renewed_graph(
    alloc: Global,
    old: &ShapedSet,
    source: Option<usize>,
    input: &Input,
    task: Task,
) -> Result<Graph, ShapeError>
    requires task { task.0 < length input.now.set.tasks }
    requires source { IsSource old.now input.now task.0 source }
    ensures { GivesBy ShapeError.Memory (GraphAt input.now task.0) result }
{
    match source {
        Some(place) => {
            old.shaped_law();
            let graph = &old.graphs()[place];
            Ok(graph.copy(alloc)?)
        }
        None => task_graph(alloc, input, task),
    }
}

/// The graphs of all tasks, by priority: copies of those of their sources, if they have one.
fn renewed_graphs(
    alloc: Global,
    old: &ShapedSet,
    sources: &[Option<usize>],
    input: &Input,
) -> Result<Items<Graph>, ShapeError>
    requires { AreSources old.now input.now (length input.now.set.tasks) sources.now }
    ensures { GivesBy ShapeError.Memory (GraphsOf input.now) result }
{
    let mut graphs = Vec::new(alloc);
    for place in 0..input.task_count() {
        let task = Task(place as u8);
        let graph = match renewed_graph(alloc, old, sources[place], input, task) {
            Ok(graph) => graph,
            Err(error) => return Err(error),
        };
        graphs.push(graph)?;
    }
    Ok(Items::new(graphs))
}

/// The regions of a task's loops in its graph: a copy of those of its source, if it has one.
fn renewed_regions(
    alloc: Global,
    old: &ShapedSet,
    source: Option<usize>,
    input: &Input,
    graphs: &[Graph],
    task: Task,
) -> Result<Nest, ShapeError>
    requires task { task.0 < length input.now.set.tasks }
    requires source { IsSource old.now input.now task.0 source }
    requires graphs { GraphsOf input.now (Ok graphs.now) }
    ensures exact { GivesBy ShapeError.Memory (RegionsAt input.now graphs.now task.0) result }
    ensures shown { IfOk result (λ nest. IsNestOf (graph_at graphs.now task.0) nest) }
    ensures taken { IfOk result (IsTaken old.now.nests source) }
{
    match source {
        Some(place) => {
            old.shaped_law();
            let nest = &old.nests()[place];
            Ok(nest.copy(alloc)?)
        }
        None => task_regions(alloc, input, graphs, task),
    }
}

/// The regions of all tasks' loops, by priority: copies of those of their sources, if they have
/// one.
fn renewed_nests(
    alloc: Global,
    old: &ShapedSet,
    sources: &[Option<usize>],
    input: &Input,
    graphs: &[Graph],
) -> Result<Items<Nest>, ShapeError>
    requires sources { AreSources old.now input.now (length input.now.set.tasks) sources.now }
    requires graphs { GraphsOf input.now (Ok graphs.now) }
    ensures exact { GivesBy ShapeError.Memory (RegionsOf input.now graphs.now) result }
    ensures shown { IfOk result (AreTaskGraphs input.now.set graphs.now) }
    ensures taken { IfOk result (λ nests. (k : ℕ) → k < length input.now.set.tasks
        → IsTaken old.now.nests (slice_index_or sources.now k None) (nest_at nests k)) }
{
    let mut nests = Vec::new(alloc);
    for place in 0..input.task_count() {
        let task = Task(place as u8);
        let nest = match renewed_regions(alloc, old, sources[place], input, graphs, task) {
            Ok(nest) => nest,
            Err(error) => return Err(error),
        };
        nests.push(nest)?;
    }
    Ok(Items::new(nests))
}

/// A set with these graphs of all tasks and the regions of all tasks' loops: copies of those of
/// their sources, if they have one.
fn with_renewed_nests(
    alloc: Global,
    old: &ShapedSet,
    sources: &[Option<usize>],
    input: Input,
    graphs: Items<Graph>,
) -> Result<ShapedSet, ShapeError>
    requires sources { AreSources old.now input (length input.set.tasks) sources.now }
    requires graphs { GraphsOf input (Ok graphs) }
    ensures exact { GivesBy ShapeError.Memory (ShapesOf input) result }
    ensures taken { IfOk result (AreTaken old.now) }
{
    old.shaped_law();
    match renewed_nests(alloc, old, sources, &input, graphs.as_slice()) {
        Ok(nests) => {
            let shaped = ShapedSet::new(alloc, input, graphs, nests)?;
            Ok(shaped)
        }
        Err(error) => Err(error),
    }
}

/// A set with the graphs of all tasks and the regions of all tasks' loops, as `shape` returns it,
/// with the same errors. Those of tasks that are the same in an old set are copied.
///
/// Time: for each old task with the name of a new one, at most a look-up of a word of the code for
/// each node, and one pass over its stated loops with their ranges. For the same tasks, linear in
/// the nodes, the regions and, for each node, the regions that hold it. For the others, that of
/// building each graph and its regions.
pub fn renew(alloc: Global, old: &ShapedSet, input: Input) -> Result<ShapedSet, ShapeError>
    ensures exact { GivesBy ShapeError.Memory (ShapesOf input) result }
    ensures taken { IfOk result (AreTaken old.now) }
{
    let sources = sources(alloc, old, &input)?;
    match renewed_graphs(alloc, old, &sources, &input) {
        Ok(graphs) => with_renewed_nests(alloc, old, &sources, input, graphs),
        Err(error) => Err(error),
    }
}
