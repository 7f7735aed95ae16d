// The clauses of one task's graph, in order.
ghost use Rattle.std.specs.Prelude.{◌≡◌, ◌↔◌, ◌<◌, ◌≤◌, length};
ghost use Rattle.crpd_base.specs.Ranges.{IsPlatform};
ghost use Rattle.flat_graph.specs.CodeGraph.{graph_of};
ghost use Rattle.loop_regions.specs.CodeNest.{CodeNest, IsNestOf};
ghost use Rattle.evict_sets.specs.ListedPart.{listed_of};
ghost use Rattle.evict_sets.specs.Listing.{CountsHits, HasLowSets, IsEntryIndex, IsListing};
ghost use Rattle.evict_sets.specs.Listing.{IsChainOrder, counted, node_accesses};
ghost use Rattle.loop_regions.specs.TaskGraphs.{task_graph};
ghost use Rattle.cert_check.specs.Inner.JudgedPotentials.{HasAllPotentials};
ghost use Rattle.cert_check.specs.Verdict.{GraphHolds};
ghost use Rattle.cert_check.specs.Inner.FirstFailing.{IsRangeJudged};

use crate::lists::{are_nodes, lists_leaders};
use crate::outcome::Clause;
use crate::paid::Paid;
use crate::states::judge_states;
use crate::useful::{judge_sets, judge_useful};
use crpd_base::{MOST_NODES, Platform, TaskPart};
use evict_sets::Listing;
use flat_graph::Graph;
use loop_regions::Nest;

/// The first failure of clause 2, what is listed, as an error.
fn list_failure(listing: &Listing<'_>, nest: &Nest) -> Result<(), Clause>
    requires index { IsEntryIndex listing.now.part.now.states (length listing.now.graph.now.nodes)
        listing.now.places.now }
    ensures { IsRangeJudged
        (GraphHolds listing.now.platform.now (task_graph listing.now.graph.now nest.now)
        listing.now.part.now) 2 2 result }
{
    let size = listing.graph.len();
    let regions = nest.len();
    let part = listing.part;
    let states = part.states.as_slice();
    let potentials = part.potentials.as_slice();
    let loops = part.loops.as_slice();
    if !are_nodes(states, size) || !lists_leaders(listing) {
        return Err(Clause::Leaders);
    }
    if potentials.len() != size as usize {
        return Err(Clause::NodePotentials);
    }
    if loops.len() != regions as usize {
        return Err(Clause::LoopPotentials);
    }
    Ok(())
}

/// The first failure of the states and sets, as an error, given which nodes are counted as hits.
fn state_failure(listing: &Listing<'_>, order: &[u32], hits: &[bool]) -> Result<(), Clause>
    requires case { IsListing listing.now.platform.now listing.now.graph.now listing.now.part.now
        listing.now.places.now }
    requires order { IsChainOrder (graph_of listing.now.graph.now)
        (listed_of listing.now.part.now) order.now }
    requires count { length hits.now ≡ (graph_of listing.now.graph.now).size }
    requires hits { CountsHits (graph_of listing.now.graph.now)
        (node_accesses listing.now.platform.now listing.now.graph.now)
        (listed_of listing.now.part.now) (counted hits.now) }
    ensures { (nest : CodeNest)
        → IsRangeJudged
        (GraphHolds listing.now.platform.now (task_graph listing.now.graph.now nest)
        listing.now.part.now) 3 5 result }
{
    if let Some(node) = judge_states(listing, order) {
        return Err(Clause::States(node));
    }
    if let Some(node) = judge_useful(listing, order, hits) {
        return Err(Clause::UsefulSets(node));
    }
    if let Some(node) = judge_sets(listing, order, hits) {
        return Err(Clause::TaskSets(node));
    }
    Ok(())
}

/// The first failure of the clauses of a task's graph, as an error. Time: the nodes and the listed
/// states, and each edge with the listed state that it leads to and with the regions that it leaves
/// plus one, each searched for among the regions round its target.
pub(crate) fn graph_failure(
    platform: &Platform,
    graph: &Graph,
    nest: &Nest,
    part: &TaskPart,
) -> Result<(), Clause>
    requires platform { IsPlatform platform.now }
    requires nest { IsNestOf graph.now nest.now }
    requires sets { HasLowSets part.now }
    ensures { IsRangeJudged (GraphHolds platform.now (task_graph graph.now nest.now) part.now)
        2 7 result }
{
    graph.graph_law();
    let size = graph.len() as usize;
    let table = &mut [None; MOST_NODES];
    let places = &mut table[..size];
    let listing = Listing::new(platform, graph, part, places);
    list_failure(&listing, nest)?;
    let mut numbers = [0; MOST_NODES];
    let mut flags = [false; MOST_NODES];
    let order = &mut numbers[..size];
    let hits = &mut flags[..size];
    listing.write_hits(order, hits);
    state_failure(&listing, order, hits)?;
    let paid = Paid {
        platform,
        graph,
        nest,
        part,
        hits,
    };
    paid.potential_failure()
}

impl Paid<'_> {
    /// The first failure of the potentials and of the bound, as an error.
    fn potential_failure(&self) -> Result<(), Clause>
        requires paid { HasAllPotentials self.now.graph.now self.now.nest.now self.now.part.now
            self.now.hits.now }
        requires hits { CountsHits (graph_of self.now.graph.now)
            (node_accesses self.now.platform.now self.now.graph.now) (listed_of self.now.part.now)
            (counted self.now.hits.now) }
        ensures { IsRangeJudged
            (GraphHolds self.now.platform.now (task_graph self.now.graph.now self.now.nest.now)
            self.now.part.now) 6 7 result }
    {
        if let Some(node) = self.judge_potentials() {
            return Err(Clause::Inequalities(node));
        }
        if !self.bound_holds() {
            return Err(Clause::Bound);
        }
        Ok(())
    }
}
