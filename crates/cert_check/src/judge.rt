// The checker.
ghost use Rattle.std.specs.Prelude.{◌≡◌, ◌<◌, ◌≤◌, ℕ, length};
ghost use Rattle.crpd_base.specs.Ranges.{IsTaskSet};
ghost use Rattle.delay_count.specs.Demand.{HasLongest};
ghost use Rattle.cert_check.specs.declared.outcome.Clause.{Clause};
ghost use Rattle.cert_check.specs.Verdict.{ClauseHolds, IsJudged};
ghost use Rattle.loop_regions.specs.TaskGraphs.{task_graph_at, AreTaskGraphs};
ghost use Rattle.cert_check.specs.Ranges.{IsCertificateInRange};
ghost use Rattle.cert_check.specs.FirstFailing.{answer_of};
ghost use Rattle.cert_check.specs.Inner.FirstFailing.{IsRangeJudged};
ghost use Rattle.evict_sets.specs.Longest.{AreLongest};

use crate::graphs::graph_failure;
use crate::outcome::{Clause, Verdict};
use crate::times::{name_failure, time_failure};
use crpd_base::{Certificate, MOST_TASKS, Task, TaskSet, times_law};
use delay_count::growth_law;
use evict_sets::write_longest;
use flat_graph::Graph;
use loop_regions::Nest;

/// The first failure of a task whose higher tasks have none, as an error.
fn task_failure(
    set: &TaskSet,
    graphs: &[Graph],
    nests: &[Nest],
    certificate: &Certificate,
    longest: &[u64],
    i: usize,
) -> Result<(), Clause>
    requires set { IsTaskSet set.now }
    requires tasks { AreTaskGraphs set.now graphs.now nests.now }
    requires certificate { IsCertificateInRange certificate.now }
    requires longest { AreLongest set.now graphs.now longest.now }
    requires range { HasLongest set.now longest.now }
    requires task { i < length set.now.tasks }
    requires higher { (j : ℕ) (k : Clause) → j < i
        → ClauseHolds set.now (task_graph_at graphs.now nests.now) certificate.now j k }
    ensures { IsRangeJudged
        (ClauseHolds set.now (task_graph_at graphs.now nests.now) certificate.now i) 1 9 result }
{
    growth_law();
    times_law(set);
    name_failure(set, certificate, i)?;
    let part = &certificate.tasks[i];
    let (graph, nest) = (&graphs[i], &nests[i]);
    graph_failure(&set.platform, graph, nest, part)?;
    time_failure(set, certificate, longest, i)
}

/// Whether a certificate holds for a task set, given one graph and one nest of regions for each
/// task: yes, or the first clause that fails, by task, then by clause, then by place. The clauses
/// are those of `ClauseHolds`: 1 platform and names, 2 the listed numbers, 3 states, 4 useful sets,
/// 5 the task's sets, 6 potentials, 7 the bound, 8 the window, 9 the response. In clauses 3 to 6
/// the place is the node.
///
/// The listed states may be in any order. Of two entries for a node, or for a cache set, the first
/// counts. Requires listed cache sets below 512, and windows of at most 2^40 cycles. Time: the
/// nodes, each edge with the regions that it leaves and the listed state that it leads to, and the
/// demands. Takes some 350 kB of the stack; allocates no memory. Altmeyer, Davis and Maiza 2012
/// (demand of a window); Lee et al. 1998 (useful cache blocks).
pub fn verdict(
    set: &TaskSet,
    graphs: &[Graph],
    nests: &[Nest],
    certificate: &Certificate,
) -> Verdict
    requires set { IsTaskSet set.now }
    requires tasks { AreTaskGraphs set.now graphs.now nests.now }
    requires certificate { IsCertificateInRange certificate.now }
    ensures { IsJudged set.now (task_graph_at graphs.now nests.now) certificate.now
        (answer_of result) }
{
    let mut longest = [0; MOST_TASKS];
    write_longest(set, graphs, &mut longest);
    for i in 0..set.tasks.len() {
        if let Err(clause) = task_failure(set, graphs, nests, certificate, &longest, i) {
            return Verdict::No {
                task: Task(i as u8),
                clause: clause.number(),
                place: clause.place(),
            };
        }
    }
    Verdict::Yes
}
