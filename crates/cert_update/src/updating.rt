// The updated certificate of a task set.
ghost use Rattle.std.specs.Prelude.{◌≡◌, ◌<◌, ◌≤◌, ℕ, length, IfOk, MatchResult, sum_by};
ghost use Rattle.crpd_base.specs.Limits.{most_entries};
ghost use Rattle.crpd_base.specs.Ranges.{IsTaskSet};
ghost use Rattle.crpd_base.specs.declared.data.Certificate.{Certificate};
ghost use Rattle.loop_regions.specs.TaskGraphs.{task_graph_at, AreTaskGraphs};
ghost use Rattle.cert_check.specs.Verdict.{IsJudged, Yes};
ghost use Rattle.crpd_base.specs.CertificateRanges.{IsCertificate};
ghost use Rattle.cert_build.specs.Best.{IsBest};
ghost use Rattle.cert_build.specs.Assembly.{analysis_at, entries_of};
ghost use Rattle.cert_build.specs.Certify.{IsCompleted};
ghost use Rattle.cert_update.specs.Laws.{side, HasCodes};
ghost use Rattle.cert_update.specs.Update.{IsUpdate};
ghost use Rattle.cert_update.specs.Answer.{IsUpdated, IsUpdateError};
ghost use Rattle.cert_update.specs.Inner.Coded.{coded_side};
ghost use Rattle.cert_update.specs.Inner.Parts.{AreNewParts};

use crate::analysed::without_source;
use crate::answer::Updated;
use crate::coded::{Change, CodedSet};
use crate::parts::new_parts;
use crate::sources::sources;
use cert_build::{Analysis, BuildError as UpdateError, complete};
use crpd_base::{Certificate, Items, TaskSet};
use flat_graph::{Graph, graphs_law};
use loop_regions::Nest;
use std::alloc::Global;

/// The certificate of the new set with these parts and their smallest windows.
fn completed(
    alloc: Global,
    change: &Change,
    parts: Vec<Analysis>,
) -> Result<Certificate, UpdateError>
    requires range { IsTaskSet change.now.new.set.now }
    requires shown { AreTaskGraphs change.now.new.set.now change.now.new.graphs.now
        change.now.new.nests.now }
    requires parts { AreNewParts (coded_side change.now.old) change.now.certificate.now
        (coded_side change.now.new) (length change.now.new.set.now.tasks) parts.items }
    requires few { sum_by entries_of parts.items ≤ most_entries }
    ensures { MatchResult result
        (λ c. IsCompleted change.now.new.set.now (coded_side change.now.new).graphs
        (analysis_at parts.items) c)
        (λ e. IsUpdateError (coded_side change.now.old) change.now.certificate.now
        (coded_side change.now.new) e) }
{
    Ok(complete(alloc, change.new.set, change.new.graphs, parts)?)
}

/// The certificate of a task set, made from an accepted one of an older set. A task is unchanged if
/// the old set has one of its name whose graph has the same nodes and instructions and the same
/// regions, on a platform that is the same except for `switch` and `switching`. What the old
/// certificate lists of its code is reused. Every other task is analysed, and all windows are the
/// smallest ones with these parts. The checker accepts the update, and there is exactly one.
///
/// The errors are out of memory; then `TooLarge` for the first analysed task whose bound exceeds
/// 2^40 cycles, with the byte address of its entry; then `TooManyEntries` with the number of state
/// entries, if it exceeds 4,000,000; then `Unschedulable` for the first task without a window.
/// Time: linear in the nodes and regions of both sides and in what is copied, plus the analyses of
/// the changed tasks, one at a time, and the windows.
pub fn update(
    alloc: Global,
    old: &TaskSet,
    old_graphs: &[Graph],
    old_nests: &[Nest],
    certificate: &Certificate,
    set: &TaskSet,
    graphs: &[Graph],
    nests: &[Nest],
) -> Result<Updated, UpdateError>
    requires old { IsTaskSet old.now }
    requires old_tasks { AreTaskGraphs old.now old_graphs.now old_nests.now }
    requires certificate { IsCertificate certificate.now }
    requires judged { IsJudged old.now (task_graph_at old_graphs.now old_nests.now)
        certificate.now Yes }
    requires set { IsTaskSet set.now }
    requires tasks { AreTaskGraphs set.now graphs.now nests.now }
    ensures exact { MatchResult result
        (λ u. IsUpdated (side old.now old_graphs.now old_nests.now) certificate.now
        (side set.now graphs.now nests.now) u)
        (λ e. IsUpdateError (side old.now old_graphs.now old_nests.now) certificate.now
        (side set.now graphs.now nests.now) e) }
    ensures judged { IfOk result
        (λ u. IsJudged set.now (task_graph_at graphs.now nests.now) u.certificate Yes) }
    ensures best { IfOk result
        (λ u. IsBest old.now (task_graph_at old_graphs.now old_nests.now) certificate.now →
        IsBest set.now (task_graph_at graphs.now nests.now) u.certificate) }
    ensures one { IfOk result (λ u. (d : Certificate) →
        IsUpdate (side old.now old_graphs.now old_nests.now) certificate.now
        (side set.now graphs.now nests.now) d → d ≡ u.certificate) }
    ensures ranges { IfOk result (λ u. IsCertificate u.certificate) }
{
    graphs_law(old_graphs);
    graphs_law(graphs);
    let change = Change {
        old: CodedSet {
            set: old,
            graphs: old_graphs,
            nests: old_nests,
        },
        certificate,
        new: CodedSet { set, graphs, nests },
    };
    let sources = sources(alloc, &change.old, &change.new)?;
    let parts = new_parts(alloc, &change, &sources)?;
    let analysed = without_source(alloc, &sources)?;
    let certificate = completed(alloc, &change, parts)?;
    Ok(Updated {
        certificate,
        analysed: Items::new(analysed),
    })
}
