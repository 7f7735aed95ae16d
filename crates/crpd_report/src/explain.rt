// The text of an account.
ghost use Rattle.std.specs.Prelude.{◌≡◌, ◌+◌, ◌<◌, [], ◌∷◌, ◌++◌, codes, length, map, string_bytes};
ghost use Rattle.std.specs.Prelude.{IfOk};
ghost use Rattle.std.specs.Fmt.{decimal};
ghost use Rattle.crpd_base.specs.Ranges.{IsTaskSet};
ghost use Rattle.crpd_base.specs.declared.data.TaskPart.{TaskPart};
ghost use Rattle.preempt_machine.specs.Safe.{NamesTasks};
ghost use Rattle.crpd_report.specs.Explain as spec;
ghost use Rattle.crpd_report.specs.Explain.{HasWindowOfEach};

use crate::simulate::run_line;
use crpd_base::{Certificate, JobId, Memory, Part, Script, Task, TaskPart, TaskSet, task_name};
use delay_count::charged_delays;
use run_account::{Account, Entry};
use script_reader::legal;
use std::alloc::{AllocError, Global};

/// Appends a job, by its task's name and its number.
fn add_job_name(text: &mut String, set: &TaskSet, job: JobId) -> Result<(), AllocError>
    ensures { IfOk result (λ _.
        string_bytes text.new ≡ string_bytes text.old ++ spec.job_name set.now job) }
{
    let name = task_name(set, job.task);
    let number = job.number;
    write!(text, "{name} {number}")
}

/// Appends the first part of a reload's line: the miss.
fn add_miss(text: &mut String, set: &TaskSet, reload: &Entry) -> Result<(), AllocError>
    ensures { IfOk result (λ _.
        string_bytes text.new ≡ string_bytes text.old ++ spec.miss_text set.now reload.now) }
{
    let number = reload.set;
    let time = reload.time;
    text.push_str("reload ")?;
    add_job_name(text, set, reload.job)?;
    write!(text, " set {number} cycle {time}")
}

/// Appends the second part of a reload's line: its cause.
fn add_cause(text: &mut String, set: &TaskSet, reload: &Entry) -> Result<(), AllocError>
    ensures { IfOk result (λ _.
        string_bytes text.new ≡ string_bytes text.old ++ spec.cause_text set.now reload.now) }
{
    text.push_str("evictor ")?;
    add_job_name(text, set, reload.evictor)?;
    text.push_str(" preemptor ")?;
    add_job_name(text, set, reload.preemptor)
}

/// Appends the line of a reload.
fn add_reload(text: &mut String, set: &TaskSet, reload: &Entry) -> Result<(), AllocError>
    ensures { IfOk result (λ _.
        string_bytes text.new ≡ string_bytes text.old ++ spec.reload_line set.now reload.now) }
{
    add_miss(text, set, reload)?;
    text.push_str(" ")?;
    add_cause(text, set, reload)?;
    text.push_str("\n")
}

/// Appends a line for each reload.
#[tactic(auto, unfolding(crate::specs::Explain::reload_lines))]
fn add_reloads(text: &mut String, set: &TaskSet, reloads: &[Entry]) -> Result<(), AllocError>
    ensures { IfOk result (λ _.
        string_bytes text.new ≡ string_bytes text.old ++ spec.reload_lines set.now reloads.now) }
{
    for reload in reloads {
        add_reload(text, set, reload)?;
    }
    Ok(())
}

/// The parts that a certificate states, by task.
fn parts_of(alloc: Global, tasks: &[TaskPart]) -> Result<Vec<Part>, AllocError>
    ensures { IfOk result (λ parts. parts.items ≡ map (λ (t : TaskPart). t.part) tasks.now) }
{
    tasks.iter().map(|task| task.part).collect(alloc)
}

/// The windows that a certificate states, by task, in cycles.
fn windows_of(alloc: Global, tasks: &[TaskPart]) -> Result<Vec<u64>, AllocError>
    ensures { IfOk result (λ windows. windows.items ≡ map (λ (t : TaskPart). t.window) tasks.now) }
{
    tasks.iter().map(|task| task.window).collect(alloc)
}

/// Appends the line of the delays that are charged to a task of this name.
fn add_delay(text: &mut String, name: &str, delay: u128) -> Result<(), AllocError>
    ensures { IfOk result (λ _.
        string_bytes text.new ≡ string_bytes text.old
        ++ (codes "delay " ++ name.now ++ codes " " ++ decimal delay ++ 10 ∷ [])) }
{
    write!(text, "delay {name} {delay}\n")
}

/// Appends a line for each task of the set, with the delays that the certificate charges to it.
fn add_delays(
    alloc: Global,
    text: &mut String,
    set: &TaskSet,
    certificate: &Certificate,
) -> Result<(), AllocError>
    requires set { IsTaskSet set.now }
    requires certificate { HasWindowOfEach set.now certificate.now }
    ensures { IfOk result (λ _.
        string_bytes text.new ≡ string_bytes text.old ++ spec.delay_lines set.now certificate.now) }
{
    let tasks = certificate.tasks.as_slice();
    let parts = parts_of(alloc, tasks)?;
    let windows = windows_of(alloc, tasks)?;
    for place in 0..tasks.len() {
        let part = &tasks[place];
        let task = Task(place as u8);
        let delay = charged_delays(set, &parts, &windows, task, part.method, part.window);
        add_delay(text, task_name(set, task), delay)?;
    }
    Ok(())
}

fn lines(
    alloc: Global,
    set: &TaskSet,
    certificate: &Certificate,
    script: &Script,
    account: &Account,
) -> Result<String, AllocError>
    requires set { IsTaskSet set.now }
    requires certificate { HasWindowOfEach set.now certificate.now }
    requires script { NamesTasks set.now script.now.jobs }
    ensures { IfOk result (λ text.
        string_bytes text ≡ spec.explain_text set.now certificate.now script.now account.now) }
{
    let mut text = String::new(alloc);
    add_reloads(&mut text, set, account.entries.as_slice())?;
    add_delays(alloc, &mut text, set, certificate)?;
    let line = run_line(legal(set, script), account.kept);
    text.push_str(line)?;
    Ok(text)
}

/// The text of an account. For each of its reloads, in order, a line with the job that misses, the
/// cache set, the cycle of the fetch, the job that evicted the block and the job that preempted,
/// each job by its task's name and its number. Then for each task of the set a line `delay NAME D`:
/// the certificate charges D cycles of delay to the task's window for the evictions by all higher
/// tasks, by the certificate's method. At the end the line of the run.
///
/// The certificate has one task for each task of the set, whose window plus the task's jitter is at
/// most the deadline, and the script's jobs are of the set's tasks. `Memory` is the only error.
/// Linear in the text and in the tasks' delays, plus the test of legality.
pub fn explain_text(
    alloc: Global,
    set: &TaskSet,
    certificate: &Certificate,
    script: &Script,
    account: &Account,
) -> Result<Vec<u8>, Memory>
    requires set { IsTaskSet set.now }
    requires certificate { HasWindowOfEach set.now certificate.now }
    requires script { NamesTasks set.now script.now.jobs }
    ensures { IfOk result (λ text.
        text.items ≡ spec.explain_text set.now certificate.now script.now account.now) }
{
    match lines(alloc, set, certificate, script, account) {
        Ok(text) => Ok(text.into_bytes()),
        Err(_) => Err(Memory),
    }
}
