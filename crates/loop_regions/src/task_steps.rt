// The laws on the steps of a task's jobs.
ghost use Rattle.std.specs.Prelude.{◌<◌, length};
ghost use Rattle.loop_regions.specs.TaskSteps.{IsGraphOfTask, IsNestOfTask, TaskPathLaw};
ghost use Rattle.loop_regions.specs.TaskSteps.{TaskPathEndLaw, TaskReturnLaw, TaskWalkLaw};
ghost use Rattle.loop_regions.specs.TaskSteps.{TaskWalkEndLaw};

use crate::nest::Nest;
use code_map::CodeMap;
use crpd_base::Task;
use flat_graph::{Graph, flat_graph_law};

/// A law on any list of steps of a task that starts at its entry. Each step is an instruction of
/// the code map, begins where the step before it ended, and goes where the instruction goes for
/// some registers.
///
/// While the watch by the task's plan is not broken and its bottom frame has not returned, the
/// calls under way and the addresses of all moments are a walk of the task's graph, and those of
/// the last moment are the walk's last node. If the job then completes, by an ECALL or by a return
/// of its bottom frame, the last node is a completing one. That return is the only step after which
/// no frame is left; it goes to 0xFFFFFFFC. In constant time.
pub fn path_law(code: &CodeMap, task: Task, graph: &Graph)
    requires task { task.0 < length code.now.plans }
    requires graph { IsGraphOfTask code.now task.0 graph.now }
    ensures walk { TaskPathLaw code.now task.0 graph.now }
    ensures answer { TaskPathEndLaw code.now task.0 graph.now }
    ensures ends { TaskReturnLaw code.now task.0 }
{
    code.words_law();
    flat_graph_law();
}

/// A law: with the nest of the plan's loops, the walk of `path_law` is a kept walk, and the open
/// loops of the watch's frames have the counts of the walk. In constant time.
pub fn walk_law(code: &CodeMap, task: Task, graph: &Graph, nest: &Nest)
    requires task { task.0 < length code.now.plans }
    requires graph { IsGraphOfTask code.now task.0 graph.now }
    requires nest { IsNestOfTask code.now task.0 graph.now nest.now }
    ensures walk { TaskWalkLaw code.now task.0 graph.now nest.now }
    ensures answer { TaskWalkEndLaw code.now task.0 graph.now nest.now }
{
    code.words_law();
    flat_graph_law();
}
