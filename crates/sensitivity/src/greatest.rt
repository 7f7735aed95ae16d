// The largest costs.
ghost use Rattle.std.specs.Prelude.{IfOk};
ghost use Rattle.crpd_base.specs.Ranges.{IsTaskSet};
ghost use Rattle.loop_regions.specs.TaskGraphs.{task_graph_at, AreTaskGraphs};
ghost use Rattle.sensitivity.specs.Costs.{with_switch, with_miss};
ghost use Rattle.sensitivity.specs.Slack.{IsSlack};

use crate::analysis::{Bounded, all_known, with_bounds};
use crate::cost::Cost;
use crate::laws::acceptance_law;
use crate::search::Search;
use crpd_base::{Memory, Slack, Stop, TaskSet};
use flat_graph::{Graph, graphs_law};
use loop_regions::Nest;
use std::alloc::Global;

/// The largest cost of a context switch, 0 to 65,535 cycles, with which the task set, otherwise
/// unchanged, is accepted: each task has an execution bound of at most 2^40 cycles and a window.
/// Each smaller cost is accepted, and each larger one rejected. Requires one graph and one nest for
/// each task.
///
/// The only error is out of memory. The execution bounds do not depend on this cost and are found
/// once. The windows are found for at most 17 costs. Allocates a byte for each node, a copy of the
/// set, and the memory for the analysis of one task at a time.
pub fn greatest_switch(
    alloc: Global,
    set: &TaskSet,
    graphs: &[Graph],
    nests: &[Nest],
) -> Result<Slack, Memory>
    requires set { IsTaskSet set.now }
    requires tasks { AreTaskGraphs set.now graphs.now nests.now }
    ensures { IfOk result (λ slack.
        IsSlack (with_switch set.now) (task_graph_at graphs.now nests.now) slack) }
{
    acceptance_law();
    graphs_law(graphs);
    let known = all_known(alloc, set, graphs)?;
    match with_bounds(alloc, set, graphs, nests, &known.parts, &known.hits)? {
        Bounded::TooLarge(task) => Ok(Slack {
            greatest: None,
            stop: Stop::Bound(task),
        }),
        Bounded::Parts(parts) => {
            let search = Search {
                set,
                graphs,
                nests,
                parts: &parts,
                hits: &known.hits,
                cost: Cost::Switch,
            };
            search.greatest(alloc)
        }
    }
}

/// The largest cost of a reload, 0 to 65,535 cycles, with which the task set, otherwise unchanged,
/// is accepted: each task has an execution bound of at most 2^40 cycles and a window. Each smaller
/// cost is accepted, and each larger one rejected. Requires one graph and one nest for each task.
///
/// The only error is out of memory. The evicting and useful cache sets and the sure hits do not
/// depend on this cost and are found once. The execution bounds and the windows are found for at
/// most 17 costs. Allocates a byte for each node, a copy of the set, and the memory for the
/// analysis of one task at a time.
pub fn greatest_miss(
    alloc: Global,
    set: &TaskSet,
    graphs: &[Graph],
    nests: &[Nest],
) -> Result<Slack, Memory>
    requires set { IsTaskSet set.now }
    requires tasks { AreTaskGraphs set.now graphs.now nests.now }
    ensures { IfOk result (λ slack.
        IsSlack (with_miss set.now) (task_graph_at graphs.now nests.now) slack) }
{
    let known = all_known(alloc, set, graphs)?;
    let search = Search {
        set,
        graphs,
        nests,
        parts: &known.parts,
        hits: &known.hits,
        cost: Cost::Miss,
    };
    search.greatest(alloc)
}
