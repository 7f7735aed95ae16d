// The certificate with the plain union delays.
ghost use Rattle.std.specs.Prelude.{◌≡◌, ◌≤◌, length, IfOk, MatchResult};
ghost use Rattle.crpd_base.specs.Limits.{most_entries};
ghost use Rattle.crpd_base.specs.Ranges.{IsTaskSet};
ghost use Rattle.crpd_base.specs.declared.data.Certificate.{Certificate};
ghost use Rattle.loop_regions.specs.TaskGraphs.{task_graph_at, AreTaskGraphs};
ghost use Rattle.cert_check.specs.Verdict.{IsJudged, Yes};
ghost use Rattle.crpd_base.specs.CertificateRanges.{IsCertificate};
ghost use Rattle.cert_model.specs.Reading.{entries};
ghost use Rattle.delay_classic.specs.Classic.{IsClassic, HasBest};
ghost use Rattle.delay_classic.specs.ClassicErrors.{IsClassicError};

use crate::laws::certificate_law;
use crate::windows::classic_windows;
use cert_build::{BuildError as ClassicError, analyse_all, assemble, parts_of};
use crpd_base::{Certificate, MOST_TASKS, TaskSet, times_law};
use evict_sets::write_longest;
use flat_graph::{Graph, graphs_law};
use loop_regions::Nest;
use std::alloc::Global;

/// The certificate with the plain union delays of a task set, given one graph and one nest of
/// regions for each task. It has the analysis of each task's code, and the windows, methods and
/// responses by the plain UCB-union and ECB-union delays. If there is one, there is also the
/// analysis' certificate, and none of its windows is longer. There is exactly one, and the checker
/// accepts it.
///
/// The errors, of which the first that applies is returned: out of memory; `TooLarge` for the first
/// task whose execution bound exceeds 2^40 cycles, with the byte address of its entry;
/// `TooManyEntries` with the number of state entries, if it exceeds 4,000,000; `Unschedulable` for
/// the first task without a window. Time: that of the analyses and of the windows. Memory: that of
/// `analyse_all`.
pub fn classic(
    alloc: Global,
    set: &TaskSet,
    graphs: &[Graph],
    nests: &[Nest],
) -> Result<Certificate, ClassicError>
    requires set { IsTaskSet set.now }
    requires tasks { AreTaskGraphs set.now graphs.now nests.now }
    ensures exact { MatchResult result
        (λ c. IsClassic set.now (task_graph_at graphs.now nests.now) c)
        (λ e. IsClassicError set.now (task_graph_at graphs.now nests.now) e) }
    ensures few { IfOk result (λ c. entries c.tasks ≤ most_entries) }
    ensures ranges { IfOk result IsCertificate }
    ensures judged { IfOk result
        (λ c. IsJudged set.now (task_graph_at graphs.now nests.now) c Yes) }
    ensures one { IfOk result
        (λ c. (d : Certificate) → IsClassic set.now (task_graph_at graphs.now nests.now) d
        → d ≡ c) }
    ensures best { IfOk result (λ c. HasBest set.now (task_graph_at graphs.now nests.now) c) }
{
    certificate_law();
    times_law(set);
    graphs_law(graphs);
    let analyses = analyse_all(alloc, set, graphs, nests)?;
    let mut longest = [0; MOST_TASKS];
    write_longest(set, graphs, &mut longest);
    let parts = parts_of(alloc, &analyses)?;
    let choices = classic_windows(alloc, set, &parts, &longest)?;
    let certificate = assemble(alloc, set, analyses, &choices)?;
    Ok(certificate)
}
