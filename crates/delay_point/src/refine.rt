// The refined windows of a task set.
ghost use Rattle.std.specs.Prelude.{◌≡◌, length, MatchResult};
ghost use Rattle.crpd_base.specs.Ranges.{IsTaskSet};
ghost use Rattle.loop_regions.specs.TaskGraphs.{task_graph_at, AreTaskGraphs};
ghost use Rattle.delay_point.specs.Refined.{AreRefined};
ghost use Rattle.delay_point.specs.RefineErrors.{IsRefineError};

use crate::error::RefineError;
use crate::parts::point_parts;
use crate::windows::refined_windows;
use crpd_base::{MOST_TASKS, RefinedTask, TaskSet, times_law};
use evict_sets::write_longest;
use flat_graph::Graph;
use loop_regions::Nest;
use std::alloc::Global;

/// The refined windows of a task set with these graphs and regions, one of each for each task, in
/// priority order. For each task: the smallest of its windows by five methods; the execution bound
/// of its part for the method; the response; and the first method that gives the window. There is
/// at most one such list, and the set is safe with its responses.
///
/// The methods are the two multiset delays of Altmeyer, Davis and Maiza (2012), and the delay by
/// program point, which counts the useful cache sets of one node of a preempted task instead of
/// those of all; and the first and the last of these with the chosen parts of all tasks: with
/// persistent blocks where the bound is then smaller. The first refusal that applies is given:
/// `Memory`; `TooLarge` for the first task whose execution bound exceeds 2^40; `Unschedulable` for
/// the first task without a window. Time: two analyses of each task, one after the other, at most
/// two passes over its nodes for each higher task, and the windows.
pub fn refined(
    alloc: Global,
    set: &TaskSet,
    graphs: &[Graph],
    nests: &[Nest],
) -> Result<Vec<RefinedTask>, RefineError>
    requires set { IsTaskSet set.now }
    requires tasks { AreTaskGraphs set.now graphs.now nests.now }
    ensures exact { MatchResult result
        (λ tasks. AreRefined set.now (task_graph_at graphs.now nests.now) tasks.items)
        (λ e. IsRefineError set.now (task_graph_at graphs.now nests.now) e) }
{
    times_law(set);
    let mut longest = [0; MOST_TASKS];
    write_longest(set, graphs, &mut longest);
    let found = point_parts(alloc, set, graphs, nests)?;
    refined_windows(alloc, set, &found, &longest)
}
