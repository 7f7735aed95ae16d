// The search for the largest accepted cost.
ghost use Rattle.std.specs.Prelude.{◌≡◌, ◌≤◌, IfOk};
ghost use Rattle.crpd_base.specs.Limits.{most_cost};
ghost use Rattle.crpd_base.specs.Ranges.{IsTaskSet};
ghost use Rattle.loop_regions.specs.TaskGraphs.{task_graph_at, AreTaskGraphs};
ghost use Rattle.sensitivity.specs.Inner.Found.{ListsParts, AreKnown, IsAcceptedOrStops, with_cost};
ghost use Rattle.sensitivity.specs.Slack.{IsSlack};

use crate::analysis::{Bounded, with_bounds};
use crate::cost::{Cost, platform_with};
use crate::laws::acceptance_law;
use crpd_base::{Items, MOST_COST, MOST_TASKS, Memory, Part, Slack, Stop, TaskSet, copy_set};
use evict_sets::write_longest;
use flat_graph::{Graph, graphs_law};
use loop_regions::Nest;
use response::{WindowError, windows};
use std::alloc::Global;

/// Where a set with these parts stops, `None` if each task has a window.
fn stop_of(
    alloc: Global,
    set: &TaskSet,
    graphs: &[Graph],
    nests: &[Nest],
    parts: &[Part],
) -> Result<Option<Stop>, Memory>
    requires set { IsTaskSet set.now }
    requires tasks { AreTaskGraphs set.now graphs.now nests.now }
    requires parts { ListsParts set.now (task_graph_at graphs.now nests.now) parts.now }
    ensures { IfOk result (λ stop.
        IsAcceptedOrStops set.now (task_graph_at graphs.now nests.now) stop) }
{
    let mut longest = [0; MOST_TASKS];
    write_longest(set, graphs, &mut longest);
    match windows(alloc, set, parts, &longest) {
        Ok(_choices) => Ok(None),
        Err(WindowError::Unschedulable(task)) => Ok(Some(Stop::Window(task))),
        Err(WindowError::Memory) => Err(Memory),
    }
}

/// A task set with its graphs, its parts as far as they do not depend on the cost that varies,
/// which nodes of each task are surely hits, and that cost.
#[derive(Clone, Copy)]
pub(crate) struct Search<'a> {
    pub(crate) set: &'a TaskSet,
    pub(crate) graphs: &'a [Graph],
    pub(crate) nests: &'a [Nest],
    pub(crate) parts: &'a [Part],
    pub(crate) hits: &'a [Items<bool>],
    pub(crate) cost: Cost,
}

impl Search<'_> {
    /// Where the set with a different cost stops, `None` if it is accepted. `trial` is a copy of
    /// the set, and gets that cost.
    fn stop_at(
        &self,
        alloc: Global,
        trial: &mut TaskSet,
        cycles: u32,
    ) -> Result<Option<Stop>, Memory>
        requires set { IsTaskSet self.now.set.now }
        requires tasks { AreTaskGraphs self.now.set.now self.now.graphs.now self.now.nests.now }
        requires known { AreKnown self.now.cost self.now.set.now
            (task_graph_at self.now.graphs.now self.now.nests.now) self.now.parts.now
            self.now.hits.now }
        requires trial { trial.old.tasks ≡ self.now.set.now.tasks }
        requires cycles { cycles ≤ most_cost }
        ensures trial { trial.new.tasks ≡ trial.old.tasks }
        ensures judged { IfOk result
            (λ stop. IsAcceptedOrStops (with_cost self.now.cost self.now.set.now cycles)
            (task_graph_at self.now.graphs.now self.now.nests.now) stop) }
    {
        trial.platform = platform_with(self.set, self.cost, cycles);
        match self.cost {
            Cost::Switch => stop_of(alloc, trial, self.graphs, self.nests, self.parts),
            Cost::Miss => {
                let (graphs, nests) = (self.graphs, self.nests);
                match with_bounds(alloc, trial, graphs, nests, self.parts, self.hits)? {
                    Bounded::TooLarge(task) => Ok(Some(Stop::Bound(task))),
                    Bounded::Parts(parts) => stop_of(alloc, trial, graphs, nests, &parts),
                }
            }
        }
    }

    /// The largest accepted cost, by binary search: what is rejected stays rejected at larger
    /// costs.
    pub(crate) fn greatest(&self, alloc: Global) -> Result<Slack, Memory>
        requires set { IsTaskSet self.now.set.now }
        requires tasks { AreTaskGraphs self.now.set.now self.now.graphs.now self.now.nests.now }
        requires known { AreKnown self.now.cost self.now.set.now
            (task_graph_at self.now.graphs.now self.now.nests.now) self.now.parts.now
            self.now.hits.now }
        ensures { IfOk result (λ slack.
            IsSlack (with_cost self.now.cost self.now.set.now)
            (task_graph_at self.now.graphs.now self.now.nests.now) slack) }
    {
        acceptance_law();
        graphs_law(self.graphs);
        let mut trial = copy_set(alloc, self.set)?;
        let Some(mut stop) = self.stop_at(alloc, &mut trial, MOST_COST)? else {
            return Ok(Slack {
                greatest: Some(MOST_COST),
                stop: Stop::Limit,
            });
        };
        let (mut low, mut high) = (0, MOST_COST);
        while low < high {
            let middle = (low + high) / 2;
            match self.stop_at(alloc, &mut trial, middle)? {
                None => low = middle + 1,
                Some(found) => {
                    high = middle;
                    stop = found;
                }
            }
        }
        Ok(Slack {
            greatest: high.checked_sub(1),
            stop,
        })
    }
}
