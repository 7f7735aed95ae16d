// The regions of the tasks' loops.
ghost use Rattle.std.specs.Prelude.{◌≡◌, ◌≢◌, ◌<◌, length, IfOk};
ghost use Rattle.loop_regions.specs.TaskGraphs.{AreTaskGraphs};
ghost use Rattle.flat_graph.specs.CodeGraph.{graph_at};
ghost use Rattle.loop_regions.specs.CodeNest.{IsNestOf};
ghost use Rattle.task_shapes.specs.Graphs.{RegionsAt, RegionsOf};
ghost use Rattle.task_shapes.specs.Steps.{GivesBy};

use crate::error::ShapeError;
use crate::input::Input;
use crpd_base::{Items, Task, Text};
use flat_graph::Graph;
use loop_regions::{LoopError, Nest, regions};
use std::alloc::Global;

/// Why a task's loops have no regions, with its name.
fn no_regions(alloc: Global, name: &str, error: LoopError) -> ShapeError
    ensures { result ≢ ShapeError.Memory
        → (error ≢ LoopError.Memory) × (result ≡ ShapeError.Loops name.now error) }
{
    match error {
        LoopError::Memory => ShapeError::Memory,
        error => match String::from_str(alloc, name) {
            Ok(name) => ShapeError::Loops {
                name: Text::new(name),
                error,
            },
            Err(_) => ShapeError::Memory,
        },
    }
}

/// The regions of a task's loops in its graph.
pub(crate) fn task_regions(
    alloc: Global,
    input: &Input,
    graphs: &[Graph],
    task: Task,
) -> Result<Nest, ShapeError>
    requires planned { task.0 < length input.now.set.tasks }
    requires has_graph { task.0 < length graphs.now }
    ensures exact { GivesBy ShapeError.Memory (RegionsAt input.now graphs.now task.0) result }
    ensures shown { IfOk result (λ nest. IsNestOf (graph_at graphs.now task.0) nest) }
{
    let graph = &graphs[usize::from(task.0)];
    match regions(alloc, graph, input.plan(task)) {
        Ok(nest) => Ok(nest),
        Err(error) => Err(no_regions(alloc, input.name(task), error)),
    }
}

/// The regions of all tasks' loops, by priority.
///
/// The error is that of the first task whose loops have no regions. Time: that of finding the
/// regions of each task.
pub(crate) fn all_regions(
    alloc: Global,
    input: &Input,
    graphs: &[Graph],
) -> Result<Items<Nest>, ShapeError>
    requires { length graphs.now ≡ length input.now.set.tasks }
    ensures exact { GivesBy ShapeError.Memory (RegionsOf input.now graphs.now) result }
    ensures shown { IfOk result (AreTaskGraphs input.now.set graphs.now) }
{
    let mut nests = Vec::new(alloc);
    for place in 0..input.task_count() {
        let nest = match task_regions(alloc, input, graphs, Task(place as u8)) {
            Ok(nest) => nest,
            Err(error) => return Err(error),
        };
        nests.push(nest)?;
    }
    Ok(Items::new(nests))
}
