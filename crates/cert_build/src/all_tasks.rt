// The certificate of a task set.
ghost use Rattle.std.specs.Prelude.{◌≡◌, ◌≤◌, IfOk, MatchResult};
ghost use Rattle.crpd_base.specs.Limits.{most_entries};
ghost use Rattle.crpd_base.specs.Ranges.{IsTaskSet};
ghost use Rattle.crpd_base.specs.declared.data.Certificate.{Certificate};
ghost use Rattle.crpd_base.specs.Ranges.{IsPlatform};
ghost use Rattle.loop_regions.specs.CodeNest.{IsNestOf};
ghost use Rattle.loop_regions.specs.TaskGraphs.{task_graph, task_graph_at, AreTaskGraphs};
ghost use Rattle.cert_check.specs.Verdict.{IsJudged, Yes};
ghost use Rattle.cert_model.specs.Reading.{entries};
ghost use Rattle.crpd_base.specs.CertificateRanges.{IsCertificate};
ghost use Rattle.cert_build.specs.Best.{IsBest};
ghost use Rattle.cert_build.specs.declared.one_task.Analysis.{Analysis};
ghost use Rattle.cert_build.specs.Analysis.{IsAnalysis, KeepsRanges};
ghost use Rattle.cert_build.specs.Assembly.{AreAnalysed};
ghost use Rattle.cert_build.specs.Certify.{HaveNoAnalyses, IsBuildError, IsTaskError};

use crate::completed::complete;
use crate::error::BuildError;
use crate::one_task::{Analysis, analyse};
use crpd_base::{Certificate, MOST_ENTRIES, Platform, Task, TaskSet, task_entries};
use exec_bound::BoundError;
use flat_graph::{Graph, graphs_law};
use loop_regions::Nest;
use std::alloc::Global;

/// The analysis of a task, as `analyse` returns it, with the task in the error: `TooLarge` if its
/// bound exceeds 2^40 cycles, with the byte address of its entry, or out of memory.
pub fn analyse_task(
    alloc: Global,
    graph: &Graph,
    nest: &Nest,
    platform: &Platform,
    task: Task,
) -> Result<Analysis, BuildError>
    requires nest { IsNestOf graph.now nest.now }
    requires platform { IsPlatform platform.now }
    ensures exact { MatchResult result
        (λ a. IsAnalysis platform.now (task_graph graph.now nest.now) a)
        (λ e. IsTaskError platform.now (task_graph graph.now nest.now) task.0 e) }
    ensures ranges { IfOk result KeepsRanges }
{
    match analyse(alloc, graph, nest, platform) {
        Ok(analysis) => Ok(analysis),
        Err(BoundError::Memory) => Err(BuildError::Memory),
        Err(BoundError::TooLarge(address)) => Err(BuildError::TooLarge { task, address }),
    }
}

/// The analyses of all tasks, in sequence, if they have at most 4,000,000 state entries. Once they
/// have more, the entries of the remaining tasks are counted but not stored.
///
/// The errors are out of memory; then `TooLarge` for the first task whose bound exceeds 2^40
/// cycles, with the byte address of its entry; then `TooManyEntries` with the number of state
/// entries, if it exceeds 4,000,000. Time: that of the analyses. One task is analysed at a time,
/// with the memory of `analyse`. Of the others only the entries and potentials stay in memory.
pub fn analyse_all(
    alloc: Global,
    set: &TaskSet,
    graphs: &[Graph],
    nests: &[Nest],
) -> Result<Vec<Analysis>, BuildError>
    requires set { IsTaskSet set.now }
    requires tasks { AreTaskGraphs set.now graphs.now nests.now }
    ensures { MatchResult result
        (λ all. AreAnalysed set.now (task_graph_at graphs.now nests.now) all.items)
        (λ e. HaveNoAnalyses set.now (task_graph_at graphs.now nests.now) e) }
{
    graphs_law(graphs);
    let mut kept = Vec::new(alloc);
    let mut found = 0;
    for k in 0..graphs.len() {
        let task = Task(k as u8);
        let analysis = analyse_task(alloc, &graphs[k], &nests[k], &set.platform, task)?;
        found += task_entries(analysis.states.as_slice());
        let few = found <= MOST_ENTRIES;
        if few {
            kept.push(analysis)?;
        }
    }
    let too_many = found > MOST_ENTRIES;
    if too_many {
        return Err(BuildError::TooManyEntries(found));
    }
    Ok(kept)
}

/// The certificate of the analysis: for each task its execution bound, the evicting and the useful
/// cache sets, the entries of all leaders, the least potentials, and the smaller of its windows by
/// the two methods. There is exactly one, and the checker accepts it. Requires a graph and its
/// regions for each task.
///
/// The errors are out of memory; then `TooLarge` for the first task whose bound exceeds 2^40
/// cycles, with the byte address of its entry; then `TooManyEntries` with the number of state
/// entries, if it exceeds 4,000,000; then `Unschedulable` for the first task without a window.
/// Time: that of `analyse_all` and of the windows. Memory: that of `analyse_all`. What
/// `write_certificate` writes of it is read back unchanged.
pub fn certify(
    alloc: Global,
    set: &TaskSet,
    graphs: &[Graph],
    nests: &[Nest],
) -> Result<Certificate, BuildError>
    requires set { IsTaskSet set.now }
    requires tasks { AreTaskGraphs set.now graphs.now nests.now }
    ensures exact { MatchResult result
        (λ c. IsBest set.now (task_graph_at graphs.now nests.now) c)
        (λ e. IsBuildError set.now (task_graph_at graphs.now nests.now) e) }
    ensures few { IfOk result (λ c. entries c.tasks ≤ most_entries) }
    ensures ranges { IfOk result IsCertificate }
    ensures judged { IfOk result
        (λ c. IsJudged set.now (task_graph_at graphs.now nests.now) c Yes) }
    ensures one { IfOk result
        (λ c. (d : Certificate) → IsBest set.now (task_graph_at graphs.now nests.now) d → d ≡ c) }
{
    graphs_law(graphs);
    let analyses = analyse_all(alloc, set, graphs, nests)?;
    let certificate = complete(alloc, set, graphs, analyses)?;
    Ok(certificate)
}
