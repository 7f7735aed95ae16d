// The graphs of the tasks.
ghost use Rattle.std.specs.Prelude.{◌≡◌, ◌≢◌, ◌<◌, length};
ghost use Rattle.task_shapes.specs.Graphs.{GraphAt, GraphsOf};
ghost use Rattle.task_shapes.specs.Steps.{GivesBy};

use crate::error::ShapeError;
use crate::input::Input;
use crpd_base::{Items, Task, Text};
use flat_graph::{Graph, GraphError, build};
use std::alloc::Global;

/// Why a task has no graph, with its name.
fn no_graph(alloc: Global, name: &str, error: GraphError) -> ShapeError
    ensures { result ≢ ShapeError.Memory
        → (error ≢ GraphError.Memory) × (result ≡ ShapeError.Graph name.now error) }
{
    match error {
        GraphError::Memory => ShapeError::Memory,
        error => match String::from_str(alloc, name) {
            Ok(name) => ShapeError::Graph {
                name: Text::new(name),
                error,
            },
            Err(_) => ShapeError::Memory,
        },
    }
}

/// The graph of a task.
pub(crate) fn task_graph(alloc: Global, input: &Input, task: Task) -> Result<Graph, ShapeError>
    requires { task.0 < length input.now.set.tasks }
    ensures { GivesBy ShapeError.Memory (GraphAt input.now task.0) result }
{
    input.input_law();
    match build(alloc, input.code(), task) {
        Ok(graph) => Ok(graph),
        Err(error) => Err(no_graph(alloc, input.name(task), error)),
    }
}

/// The flat graphs of all tasks, by priority, each of at most 16,384 nodes.
///
/// The error is that of the first task without one. Time: that of building each graph.
pub fn task_graphs(alloc: Global, input: &Input) -> Result<Items<Graph>, ShapeError>
    ensures { GivesBy ShapeError.Memory (GraphsOf input.now) result }
{
    let mut graphs = Vec::new(alloc);
    for place in 0..input.task_count() {
        let graph = match task_graph(alloc, input, Task(place as u8)) {
            Ok(graph) => graph,
            Err(error) => return Err(error),
        };
        graphs.push(graph)?;
    }
    Ok(Items::new(graphs))
}
