// The graphs of the tasks with the regions of their loops.
ghost use Rattle.std.specs.Prelude.{Ok};
ghost use Rattle.task_shapes.specs.Graphs.{GraphsOf};
ghost use Rattle.task_shapes.specs.Shapes.{ShapesOf};
ghost use Rattle.task_shapes.specs.Steps.{GivesBy};

use crate::error::ShapeError;
use crate::graphs::task_graphs;
use crate::input::Input;
use crate::regions::all_regions;
use crate::shaped::ShapedSet;
use crpd_base::Items;
use flat_graph::Graph;
use std::alloc::Global;

/// A set with these graphs of all tasks and the regions of all tasks' loops.
fn with_regions(alloc: Global, input: Input, graphs: Items<Graph>) -> Result<ShapedSet, ShapeError>
    requires { GraphsOf input (Ok graphs) }
    ensures { GivesBy ShapeError.Memory (ShapesOf input) result }
{
    match all_regions(alloc, &input, graphs.as_slice()) {
        Ok(nests) => {
            let shaped = ShapedSet::new(alloc, input, graphs, nests)?;
            Ok(shaped)
        }
        Err(error) => Err(error),
    }
}

/// A set with the graphs of all tasks and the regions of all tasks' loops.
///
/// The error is that of the first task without a graph or, if each has one, that of the first task
/// whose loops have no regions. Then the set is dropped. Time: that of building each graph and its
/// regions.
pub fn shape(alloc: Global, input: Input) -> Result<ShapedSet, ShapeError>
    ensures { GivesBy ShapeError.Memory (ShapesOf input) result }
{
    match task_graphs(alloc, &input) {
        Ok(graphs) => with_regions(alloc, input, graphs),
        Err(error) => Err(error),
    }
}
