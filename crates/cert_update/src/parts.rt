// The new part of each task: the reused one, or the result of the analysis.
ghost use Rattle.std.specs.Prelude.{◌≡◌, ◌<◌, ◌≤◌, ℕ, None, length, slice_index_or, sum_by, All};
ghost use Rattle.std.specs.Prelude.{IfOk, MatchResult};
ghost use Rattle.crpd_base.specs.Limits.{most_entries};
ghost use Rattle.crpd_base.specs.Ranges.{IsTaskSet};
ghost use Rattle.loop_regions.specs.TaskGraphs.{AreTaskGraphs};
ghost use Rattle.crpd_base.specs.CertificateRanges.{IsCertificate};
ghost use Rattle.cert_build.specs.Assembly.{entries_of};
ghost use Rattle.cert_update.specs.Laws.{HasCodes};
ghost use Rattle.cert_update.specs.Inner.Coded.{coded_side};
ghost use Rattle.cert_update.specs.Inner.Sources.{IsSourceTask, AreSourceTasks};
ghost use Rattle.cert_update.specs.Inner.Parts.{IsNewPart, AreNewParts, IsPartError};
ghost use Rattle.cert_update.specs.Answer.{IsUpdateError};

use crate::coded::Change;
use crate::kept::copy_analysis;
use cert_build::{Analysis, BuildError as UpdateError, analyse_task};
use crpd_base::{MOST_ENTRIES, Task, task_entries};
use std::alloc::Global;

/// The new part of a task: that of the old certificate if the task has a source, otherwise the
/// result of the analysis.
fn part(
    alloc: Global,
    change: &Change,
    source: Option<usize>,
    task: Task,
) -> Result<Analysis, UpdateError>
    requires source { IsSourceTask (coded_side change.now.old) (coded_side change.now.new)
        task.0 source }
    requires tasks { length change.now.certificate.now.tasks ≡ length change.now.old.set.now.tasks }
    requires certificate { IsCertificate change.now.certificate.now }
    requires range { IsTaskSet change.now.new.set.now }
    requires new { AreTaskGraphs change.now.new.set.now change.now.new.graphs.now
        change.now.new.nests.now }
    requires task { task.0 < length change.now.new.set.now.tasks }
    ensures { MatchResult result
        (λ a. IsNewPart (coded_side change.now.old) change.now.certificate.now
        (coded_side change.now.new) task.0 a)
        (λ e. IsPartError (coded_side change.now.old) (coded_side change.now.new) task.0 e) }
{
    if let Some(k) = source {
        return Ok(copy_analysis(alloc, &change.certificate.tasks[k])?);
    }
    let code = change.new.code(task.0 as usize);
    analyse_task(alloc, code.graph, code.nest, code.platform, task)
}

/// The new parts of all tasks, if their state entries are not too many. Once they are, the entries
/// of the remaining tasks are counted but not stored.
pub(crate) fn new_parts(
    alloc: Global,
    change: &Change,
    sources: &[Option<usize>],
) -> Result<Vec<Analysis>, UpdateError>
    requires sources { AreSourceTasks (coded_side change.now.old) (coded_side change.now.new)
        (length change.now.new.set.now.tasks) sources.now }
    requires tasks { length change.now.certificate.now.tasks ≡ length change.now.old.set.now.tasks }
    requires certificate { IsCertificate change.now.certificate.now }
    requires codes { HasCodes change.now.new.set.now change.now.new.graphs.now
        change.now.new.nests.now }
    requires shown { AreTaskGraphs change.now.new.set.now change.now.new.graphs.now
        change.now.new.nests.now }
    ensures parts { MatchResult result
        (λ all. AreNewParts (coded_side change.now.old) change.now.certificate.now
        (coded_side change.now.new) (length change.now.new.set.now.tasks) all.items)
        (λ e. IsUpdateError (coded_side change.now.old) change.now.certificate.now
        (coded_side change.now.new) e) }
    ensures few { IfOk result (λ all. sum_by entries_of all.items ≤ most_entries) }
{
    let mut parts = Vec::new(alloc);
    let mut found = 0;
    for i in 0..sources.len() {
        let part = part(alloc, change, sources[i], Task(i as u8))?;
        found += task_entries(part.states.as_slice());
        if found <= MOST_ENTRIES {
            parts.push(part)?;
        }
    }
    let too_many = found > MOST_ENTRIES;
    if too_many {
        return Err(UpdateError::TooManyEntries(found));
    }
    Ok(parts)
}
