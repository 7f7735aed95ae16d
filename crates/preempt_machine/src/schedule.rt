// The jobs of a run, and which of them has the core.
ghost use Rattle.std.specs.Prelude.{◌≡◌, ℕ, ◌+◌, ◌<◌, ◌≤◌, ◌^◌, ◌↔◌, ◌++◌, ◌∷◌, [], true, map};
ghost use Rattle.std.specs.Prelude.{length, replicate, All, IfOk, IfSome, IsTrue, is_ok};
ghost use Rattle.std.specs.Prelude.{if◌then◌else◌};
ghost use Rattle.rv_core.specs.Memory.{Memory as Bytes};
ghost use Rattle.icache.specs.Cache.{Cache};
ghost use Rattle.flow_watch.specs.Watch.{is_unbroken};
ghost use Rattle.preempt_machine.specs.Machine.{System, job_at, new_job, number_in_script};
ghost use Rattle.preempt_machine.specs.Machine.{start_machine};
ghost use Rattle.preempt_machine.specs.Step.{candidate, keeps_core, turn_of};
ghost use Rattle.preempt_machine.specs.Safe.{system_of, NamesTasks};
ghost use Rattle.preempt_machine.specs.Running.{HasPlan};
ghost use Rattle.preempt_machine.specs.Inner.KeptFlag.{kept_at};
ghost use Rattle.preempt_machine.specs.Schedule.{completion, script_line};
ghost use Rattle.preempt_machine.specs.Inner.Queue.{due_place, IsReleaseOrder};
ghost use Rattle.preempt_machine.specs.Inner.Schedule.{script_lines, machine_by, owner_keeps};
ghost use Rattle.preempt_machine.specs.Inner.Schedule.{HasToldEnd, HasToldReleases, IsHead};
ghost use Rattle.preempt_machine.specs.Inner.Schedule.{IsOwner, IsScheduled, HasTaskHeads};
ghost use Rattle.preempt_machine.specs.Inner.Schedule.{HasPassed};

use crate::jobs::Job;
use crate::queue::Queue;
use crate::{Completion, End};
use code_map::CodeMap;
use crpd_base::{JobId, Memory, Script, ScriptJob, Switching, TaskSet};
use std::alloc::Global;

/// The jobs of a run, the order in which they take the core, and the owner of the core. The cache
/// and the data memory of the run are not part of it. Its calls require that order, completions and
/// owner belong to the jobs, as `new` makes them.
#[derive(Drop)]
pub struct Schedule {
    /// The number of steps made.
    pub steps: u64,
    /// The owner's place in the script, or `None` before the first turn of a job.
    pub owner: Option<usize>,
    /// The switch cycles that the owner has left.
    pub switch_left: u32,
    /// The jobs, in the order of the script.
    pub jobs: Vec<Job>,
    /// Their completions, in the order of the script.
    pub completions: Vec<Completion>,
    /// The order in which they take the core.
    pub queue: Queue,
}

/// Adds an item at the end of a list. Out of memory is the only error; the list is then unchanged.
/// In constant time if the list has room left, otherwise in time and memory linear in the list.
pub fn push<T: Drop>(list: &mut Vec<T>, item: T) -> Result<(), Memory>
    ensures { list.new.items
        ≡ (if is_ok result then list.old.items ++ item ∷ [] else list.old.items) }
{
    match list.push(item) {
        Ok(()) => Ok(()),
        Err(_) => Err(Memory),
    }
}

/// The jobs of a script before their first steps, in its order. The code map has a plan for each
/// job's task. Out of memory is the only error. Linear in the jobs, each with its watch.
fn start_jobs(alloc: Global, code: &CodeMap, lines: &[ScriptJob]) -> Result<Vec<Job>, Memory>
    requires { (x : ℕ) → x < length lines.now
        → (script_line lines.now x).task.0 < length code.now.plans }
    ensures jobs { IfOk result
        (λ jobs. (sys : System) → sys.plans ≡ code.now.plans
        → jobs.items ≡ map (new_job sys) lines.now) }
    ensures plans { IfOk result
        (λ jobs. (x : ℕ) → x < length jobs.items → HasPlan code.now.plans (job_at jobs.items x)) }
{
    let mut jobs = Vec::new(alloc);
    for line in lines {
        let job = Job::start(alloc, *line, code.plan(line.task))?;
        push(&mut jobs, job)?;
    }
    Ok(jobs)
}

/// A list of `count` zeros.
fn zeros(alloc: Global, count: usize) -> Result<Vec<u32>, Memory>
    ensures { IfOk result (λ zeros. zeros.items ≡ replicate count 0) }
{
    Ok(vec![in alloc; 0u32; count]?)
}

/// The jobs of a script by task and number, in its order, none of them released. The jobs' tasks
/// are below the given number. Out of memory is the only error. Linear in the jobs and in the
/// tasks.
fn start_completions(
    alloc: Global,
    lines: &[ScriptJob],
    tasks: usize,
) -> Result<Vec<Completion>, Memory>
    requires few { length lines.now < 2 ^ 32 }
    requires tasks { (x : ℕ) → x < length lines.now → (script_line lines.now x).task.0 < tasks }
    ensures long { IfOk result (λ cs. length cs.items ≡ length lines.now) }
    ensures each { IfOk result
        (λ cs. (x : ℕ) → x < length lines.now → completion cs.items x ≡ record {
          job = record {
            task = (script_line lines.now x).task;
            number = number_in_script lines.now (script_line lines.now x).task.0 x;
          };
          «end» = End.Unreleased;
        }) }
{
    let mut counts = zeros(alloc, tasks)?;
    let mut completions = Vec::new(alloc);
    for line in lines {
        let task = usize::from(line.task.0);
        let job = JobId {
            task: line.task,
            number: counts[task],
        };
        let end = End::Unreleased;
        push(&mut completions, Completion { job, end })?;
        counts[task] += 1;
    }
    Ok(completions)
}

impl Schedule {
    /// The jobs of a script before its first step, none of them released, and no owner.
    ///
    /// The code map has a plan for each task of the set, and the script has fewer than 2^32 jobs,
    /// all of the set's tasks. Out of memory is the only error. Time is n log n in the jobs, and
    /// linear in the tasks and in the watches: one for each job, with 17 counts of 4 bytes for each
    /// stated loop of its task. Memory is linear in all of these.
    pub fn new(
        alloc: Global,
        code: &CodeMap,
        set: &TaskSet,
        script: &Script,
    ) -> Result<Self, Memory>
        requires plans { length code.now.plans ≡ length set.now.tasks }
        requires tasks { NamesTasks set.now script.now.jobs }
        requires jobs { length script.now.jobs < 2 ^ 32 }
        ensures started { IfOk result
            (λ s. (cache : Cache) (memory : Bytes)
            → machine_by cache memory s
            ≡ start_machine (system_of set.now code.now) cache memory script.now.jobs) }
        ensures scheduled { IfOk result
            (λ s. (sets : ℕ) (cache : Cache) (memory : Bytes) → sets ≤ length cache
            → IsScheduled sets cache memory s) }
        ensures plans { IfOk result
            (λ s. (x : ℕ) → x < length s.jobs.items
            → HasPlan code.now.plans (job_at s.jobs.items x)) }
    {
        let lines = script.jobs.as_slice();
        let tasks = set.tasks.len();
        let jobs = start_jobs(alloc, code, lines)?;
        let completions = start_completions(alloc, lines, tasks)?;
        let queue = Queue::new(alloc, lines, tasks)?;
        Ok(Schedule {
            steps: 0,
            owner: None,
            switch_left: 0,
            jobs,
            completions,
            queue,
        })
    }

    /// Whether a job keeps the core until its instruction ends.
    fn keeps_core(&self, switching: Switching, place: usize) -> bool
        requires { place < length self.now.jobs.items }
        ensures { result ≡ keeps_core switching self.now.steps (job_at self.now.jobs.items place) }
    {
        let job = &self.jobs[place];
        switching == Switching::Instruction && job.is_ready(self.steps) && job.left() > 0
    }

    /// Whether the owner keeps the core until its instruction ends.
    pub fn owner_keeps(&self, switching: Switching) -> bool
        requires { (o : ℕ) → self.now.owner ≡ Some o → o < length self.now.jobs.items }
        ensures { result ≡ owner_keeps switching self.now.steps self.now.jobs.items self.now.owner }
    {
        match self.owner {
            Some(owner) => self.keeps_core(switching, owner),
            None => false,
        }
    }

    /// Whether the watch of the owner is not broken, if there is an owner.
    pub(crate) fn owner_is_kept(&self) -> bool
        requires { (o : ℕ) → self.now.owner ≡ Some o → o < length self.now.jobs.items }
        ensures { result ≡ kept_at self.now.jobs.items self.now.owner }
    {
        match self.owner {
            Some(owner) => !self.jobs[owner].watch().broken(),
            None => true,
        }
    }

    /// The place of the job that takes this cycle, or `None` if no job is ready. It does not depend
    /// on the cache and the data memory. The job is the first of its task that is open. Linear in
    /// the tasks.
    pub fn candidate(&self, switching: Switching) -> Option<usize>
        requires due { IsReleaseOrder (script_lines self.now.jobs.items) self.now.queue.due.items }
        requires waiting { HasTaskHeads (script_lines self.now.jobs.items) self.now.queue.due.items
            self.now.queue.heads.items self.now.jobs.items }
        requires owner { (o : ℕ) → self.now.owner ≡ Some o
            → IsOwner self.now.jobs.items self.now.queue.due.items self.now.queue.heads.items o }
        ensures is { (sys : System) (cache : Cache) (memory : Bytes)
            → sys.platform.switching ≡ switching
            → result ≡ candidate sys (machine_by cache memory self.now) }
        ensures head { IfSome result
            (IsHead self.now.jobs.items self.now.queue.due.items self.now.queue.heads.items) }
    {
        if self.owner_keeps(switching) {
            self.owner
        } else {
            self.queue.first(self.steps)
        }
    }

    /// The switch cycles that a job has left: those recorded if it is the owner, otherwise those of
    /// a whole switch.
    pub fn switch_cycles(&self, whole: u32, place: usize) -> u32
        ensures { (sys : System) (cache : Cache) (memory : Bytes) → sys.platform.switch ≡ whole
            → result ≡ (turn_of sys (machine_by cache memory self.now) place).switch_left }
    {
        match self.owner {
            Some(owner) if owner == place => self.switch_left,
            _ => whole,
        }
    }

    /// Records the jobs that are released in this cycle as open. Linear in these; it takes no
    /// memory.
    pub fn tell_releases(&mut self)
        requires { (p : ℕ) → p < length self.old.queue.due.items
            → due_place self.old.queue.due.items p < length self.old.completions.items }
        ensures { HasToldReleases self.old self.new }
    {
        self.queue
            .release(self.completions.as_mut_slice(), self.steps);
    }

    /// The cycle passes: records the jobs that it releases as open, and counts the cycle.
    pub(crate) fn pass(&mut self)
        requires places { (p : ℕ) → p < length self.old.queue.due.items
            → due_place self.old.queue.due.items p < length self.old.completions.items }
        requires later { self.old.steps + 1 < 2 ^ 64 }
        ensures { HasPassed self.old self.new }
    {
        self.tell_releases();
        self.steps += 1;
    }

    /// Records the standing of a job after its turn. The job was the first of its task that was
    /// open.
    pub fn tell_end(&mut self, place: usize)
        requires head { IsHead self.old.jobs.items self.old.queue.due.items
            self.old.queue.heads.items place }
        requires task { (job_at self.old.jobs.items place).line.task.0
            < length self.old.queue.heads.items }
        requires later { length self.old.queue.later.items ≡ length self.old.queue.due.items }
        requires completions { length self.old.completions.items ≡ length self.old.jobs.items }
        ensures { HasToldEnd self.old self.new place }
    {
        let job = &self.jobs[place];
        let end = job.end();
        let over = end != End::Open;
        if over {
            self.queue.finish(job.task());
            self.completions[place].end = end;
        }
    }

    /// Whether no job's watch is broken. Linear in the jobs; it takes no memory.
    pub fn are_kept(&self) -> bool
        ensures { IsTrue result ↔ All (λ job. is_unbroken job.watch ≡ true) self.now.jobs.items }
    {
        for job in &self.jobs {
            if job.watch().broken() {
                return false;
            }
        }
        true
    }
}
