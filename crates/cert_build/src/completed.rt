// The windows of analysed tasks, and their certificate.
ghost use Rattle.std.specs.Prelude.{◌≡◌, ℕ, ◌+◌, ◌<◌, ◌≤◌, ◌^◌, List, length, map, slice_index};
ghost use Rattle.std.specs.Prelude.{IfOk, MatchResult};
ghost use Rattle.crpd_base.specs.Ranges.{IsTaskSet};
ghost use Rattle.loop_regions.specs.CodeNest.{CodeNest};
ghost use Rattle.response.specs.declared.choice.Choice.{Choice};
ghost use Rattle.response.specs.Windows.{AreAllChoices};
ghost use Rattle.loop_regions.specs.TaskGraphs.{task_graph_at};
ghost use Rattle.cert_build.specs.Analysis.{part_with};
ghost use Rattle.cert_build.specs.Certify.{IsCompleted, HasNoWindows};
ghost use Rattle.cert_build.specs.Assembly.{analysis_at, AreAssembled, HaveResponses, IsAssembled};

use crate::one_task::Analysis;
use crpd_base::{
    Certificate, Items, MOST_TASKS, Part, TaskPart, TaskSet, TaskSpec, Text, times_law,
};
use evict_sets::write_longest;
use flat_graph::Graph;
use response::{Choice, WindowError, windows};
use std::alloc::{AllocError, Global};

/// The parts of these analyses, which are the input of the windows. Linear in the analyses. The
/// only error is out of memory.
pub fn parts_of(alloc: Global, analyses: &[Analysis]) -> Result<Vec<Part>, AllocError>
    ensures { IfOk result (λ parts. parts.items ≡ map (λ (a : Analysis). a.part) analyses.now) }
{
    analyses.iter().map(|analysis| analysis.part).collect(alloc)
}

/// A task's part of a certificate.
fn task_part(
    alloc: Global,
    task: &TaskSpec,
    analysis: Analysis,
    choice: Choice,
) -> Result<TaskPart, AllocError>
    requires { choice.window + task.now.jitter < 2 ^ 64 }
    ensures { IfOk result (λ t.
        t ≡ part_with analysis task.now.name choice.method choice.window
        (choice.window + task.now.jitter)) }
{
    let name = String::from_str(alloc, task.name.as_str())?;
    Ok(TaskPart {
        name: Text::new(name),
        part: analysis.part,
        states: analysis.states,
        potentials: analysis.potentials,
        loops: analysis.loops,
        method: choice.method,
        window: choice.window,
        response: choice.window + task.jitter,
    })
}

/// The parts of all tasks.
fn task_parts(
    alloc: Global,
    set: &TaskSet,
    analyses: Vec<Analysis>,
    choices: &[Choice],
) -> Result<Vec<TaskPart>, AllocError>
    requires analyses { length analyses.items ≡ length set.now.tasks }
    requires choices { length choices.now ≡ length set.now.tasks }
    requires times { HaveResponses set.now choices.now }
    ensures { IfOk result (λ parts.
        AreAssembled set.now (analysis_at analyses.items) choices.now (length set.now.tasks)
        parts.items) }
{
    let tasks = set.tasks.as_slice();
    let mut parts = Vec::with_capacity(alloc, tasks.len())?;
    for analysis in analyses {
        let k = parts.len();
        parts.push(task_part(alloc, &tasks[k], analysis, choices[k])?)?;
    }
    Ok(parts)
}

/// The certificate of a task set with these analyses and choices, one of each for each task. Each
/// task's part has its analysis, the method and the window of its choice, and as response the
/// window plus the task's jitter, which must be below 2^64. Linear in the tasks; the analyses are
/// moved. The only error is out of memory.
pub fn assemble(
    alloc: Global,
    set: &TaskSet,
    analyses: Vec<Analysis>,
    choices: &[Choice],
) -> Result<Certificate, AllocError>
    requires analyses { length analyses.items ≡ length set.now.tasks }
    requires choices { length choices.now ≡ length set.now.tasks }
    requires times { HaveResponses set.now choices.now }
    ensures { IfOk result (λ c. IsAssembled set.now analyses.items choices.now c) }
{
    let tasks = task_parts(alloc, set, analyses, choices)?;
    Ok(Certificate {
        platform: set.platform,
        tasks: Items::new(tasks),
    })
}

/// The certificate of a task set with these analyses, one for each task. Each task's part has its
/// analysis, and the smaller of its windows by the two methods, as `windows` of `response` finds
/// them. It is the same for any regions of the graphs.
///
/// The errors are out of memory, and `Unschedulable` exactly for the first task without a window.
/// Requires one graph for each task. Time: the windows and one pass over the nodes. Allocates each
/// task's name, part and choice; the analyses are moved.
pub fn complete(
    alloc: Global,
    set: &TaskSet,
    graphs: &[Graph],
    analyses: Vec<Analysis>,
) -> Result<Certificate, WindowError>
    requires set { IsTaskSet set.now }
    requires graphs { length graphs.now ≡ length set.now.tasks }
    requires analyses { length analyses.items ≡ length set.now.tasks }
    ensures { (nests : List CodeNest) → MatchResult result
        (λ c. IsCompleted set.now (task_graph_at graphs.now nests) (analysis_at analyses.items) c)
        (λ e. HasNoWindows set.now (task_graph_at graphs.now nests)
        (analysis_at analyses.items) e) }
{
    times_law(set);
    let mut longest = [0; MOST_TASKS];
    write_longest(set, graphs, &mut longest);
    let Ok(parts) = parts_of(alloc, &analyses) else {
        return Err(WindowError::Memory);
    };
    let choices = windows(alloc, set, &parts, &longest)?;
    let Ok(certificate) = assemble(alloc, set, analyses, &choices) else {
        return Err(WindowError::Memory);
    };
    Ok(certificate)
}
