// The machine, as the layers above run it.
ghost use Rattle.std.specs.Prelude.{◌≡◌, ℕ, ◌<◌, length};
ghost use Rattle.preempt_machine.specs.Schedule.{completion};

use crate::decoded::Decoded;
use crate::jobs::Core;
use crate::parts::Parts;
use crate::schedule::Schedule;
use crate::start::{start_cache, start_memory};
use crate::{Completion, Fetch};
use code_map::CodeMap;
use crpd_base::{JobId, Memory, SETS, Script, TaskSet};
use flow_watch::Watch;
use icache::{Cache, Geometry};
use rv_core::DataMemory;
use std::alloc::Global;
use std::marker::Model;

/// A machine that runs the jobs of a script on one core with one instruction cache. The ready job
/// of the highest task takes each cycle. If switches wait for the end of an instruction, the owner
/// ends its instruction first.
///
/// Contracts see the machine as its platform, its state and the fetch of the last step made. Times
/// are cycles from the run's start.
#[derive(Drop)]
pub struct Machine {
    parts: Parts,
    kept: bool,
}

impl Model for Machine {
    ghost use Rattle.preempt_machine.specs.Running.{Running};

    ghost Value = { Running };

    ghost use Rattle.preempt_machine.specs.Inner.Parts.{running_of};
    ghost use Rattle.preempt_machine.specs.Inner.KeptFlag.{IsFlagged};

    ghost view = { λ m. running_of m.parts };

    ghost invariant = { λ m. IsFlagged m.parts m.kept };
}

/// The place of a job. Linear in the jobs.
fn place_of(completions: &[Completion], job: JobId) -> usize
    requires { (x : ℕ) × (x < length completions.now) × ((completion completions.now x).job ≡ job) }
    ensures below { result < length completions.now }
    ensures job { (completion completions.now result).job ≡ job }
{
    for place in 0..completions.len() {
        if completions[place].job == job {
            return place;
        }
    }
    unreachable!()
}

impl Machine {
    ghost use Rattle.std.specs.Prelude.{◌≡◌, ◌≢◌, ℕ, ◌+◌, ◌-◌, ◌<◌, ◌≤◌, ◌^◌, length, map, All};
    ghost use Rattle.std.specs.Prelude.{IsTrue, ◌↔◌, Some, None, option_map, IfOk, OnOk, OnErr};
    ghost use Rattle.crpd_base.specs.Limits.{most_sets};
    ghost use Rattle.preempt_machine.specs.Safe.{completions, IsKept, NamesTasks};
    ghost use Rattle.preempt_machine.specs.Starts.{start_cache, start_memory};
    ghost use Rattle.preempt_machine.specs.Running.{completion_at, job_id, start_of};
    ghost use Rattle.preempt_machine.specs.Running.{running_after_step, running_after_steps};
    ghost use Rattle.preempt_machine.specs.Running.{system_by, GivesStore, HasPlans, IsJobAt};
    ghost use Rattle.preempt_machine.specs.Running.{StopsAtStore};
    ghost use Rattle.preempt_machine.specs.Machine.{job_at};
    ghost use Rattle.preempt_machine.specs.Schedule.{completion};
    ghost use Rattle.preempt_machine.specs.Inner.Parts.{HasMade};

    /// The machine at the start of a run of a script, from any cache and data memory: no owner, and
    /// no job released. It allocates all memory that steps use, except for the data memory.
    ///
    /// The code map has a plan for each task of the set, the script has fewer than 2^32 jobs, all
    /// of the set's tasks, and the cache has room for the platform's sets. Out of memory is the
    /// only error; then the data memory is dropped. Time and memory are those of `Schedule::new`,
    /// and of a table of 2,048 decoded words.
    pub fn new(
        alloc: Global,
        code: &CodeMap,
        set: &TaskSet,
        script: &Script,
        cache: Cache<SETS>,
        memory: DataMemory,
    ) -> Result<Self, Memory>
        requires line { 0 < set.now.platform.line }
        requires sets { 0 < set.now.platform.sets }
        requires few { set.now.platform.sets ≤ 65536 }
        requires room { set.now.platform.sets ≤ length cache }
        requires plans { length code.now.plans ≡ length set.now.tasks }
        requires tasks { NamesTasks set.now script.now.jobs }
        requires jobs { length script.now.jobs < 2 ^ 32 }
        ensures started { IfOk result
            (λ m. m ≡ start_of set.now code.now cache memory script.now.jobs) }
        ensures plans { IfOk result (λ m. HasPlans code.now m.state) }
    {
        let schedule = Schedule::new(alloc, code, set, script)?;
        let decoded = Decoded::new(alloc)?;
        let geometry = Geometry::new(&set.platform);
        let kept = schedule.are_kept();
        let parts = Parts {
            core: Core {
                geometry,
                cache,
                memory,
                decoded,
            },
            schedule,
            fetch: None,
        };
        Ok(Machine { parts, kept })
    }

    /// The machine at the start of a script, from the script's cache and the bytes of the files.
    ///
    /// It requires of set, code map and script what `new` requires. Out of memory is the only
    /// error. Time and memory are those of `start_memory`, `start_cache` and `new`.
    pub fn load(
        alloc: Global,
        code: &CodeMap,
        set: &TaskSet,
        script: &Script,
    ) -> Result<Self, Memory>
        requires line { 0 < set.now.platform.line }
        requires sets { 0 < set.now.platform.sets }
        requires few { set.now.platform.sets ≤ most_sets }
        requires plans { length code.now.plans ≡ length set.now.tasks }
        requires tasks { NamesTasks set.now script.now.jobs }
        requires jobs { length script.now.jobs < 2 ^ 32 }
        ensures started { IfOk result
            (λ m. m ≡ start_of set.now code.now (start_cache set.now.platform script.now.cache)
            (start_memory code.now.images) script.now.jobs) }
        ensures plans { IfOk result (λ m. HasPlans code.now m.state) }
    {
        let memory = start_memory(alloc, code)?;
        let cache = start_cache(set, script);
        Machine::new(alloc, code, set, script, cache, memory)
    }

    /// One step of a job, or the steps up to the next release if no job is ready, none of them at
    /// `cycle` or later. After an error all is as before.
    fn advance(&mut self, code: &CodeMap, cycle: u64) -> Result<(), Memory>
        requires before { self.old.state.time < cycle }
        requires plans { HasPlans code.now self.old.state }
        ensures ok { OnOk result (HasMade code.now cycle self.old self.new) }
        ensures plans { HasPlans code.now self.new.state }
        ensures err { OnErr result (self.new ≡ self.old) }
        ensures only { OnErr result
            (GivesStore (system_by self.old.platform code.now) self.old.state) }
    {
        self.parts.advance(code, cycle)?;
        self.kept = self.kept && self.parts.schedule.owner_is_kept();
        Ok(())
    }

    /// One step: the next cycle. Fewer than 2^64 - 1 steps were made, and each job's task has a
    /// plan with as many stated loops as at the start.
    ///
    /// `Memory` is possible only if the step gives a store its effect, and then all is as before.
    /// The time is that of one instruction, linear in the tasks and in the jobs that this cycle
    /// releases.
    pub fn cycle(&mut self, code: &CodeMap) -> Result<(), Memory>
        requires later { self.old.state.time + 1 < 2 ^ 64 }
        requires plans { HasPlans code.now self.old.state }
        ensures ok { OnOk result (self.new ≡ running_after_step code.now self.old) }
        ensures plans { HasPlans code.now self.new.state }
        ensures err { OnErr result (self.new ≡ self.old) }
        ensures only { OnErr result
            (GivesStore (system_by self.old.platform code.now) self.old.state) }
    {
        self.advance(code, self.steps() + 1)
    }

    /// Makes the steps before a cycle, none if that many were made already. Each job's task has a
    /// plan with as many stated loops as at the start.
    ///
    /// After `Memory` the machine has made some of these steps, and the next one gives a store its
    /// effect. If no job is ready the machine skips to the next release. So the time is that of
    /// `cycle` for each cycle in which a job is ready, and linear in the tasks for each stretch of
    /// cycles in which none is.
    pub fn run_until(&mut self, code: &CodeMap, cycle: u64) -> Result<(), Memory>
        requires plans { HasPlans code.now self.old.state }
        ensures ok { OnOk result
            (self.new ≡ running_after_steps (cycle - self.old.state.time) code.now self.old) }
        ensures plans { HasPlans code.now self.new.state }
        ensures err { OnErr result
            (StopsAtStore code.now (cycle - self.old.state.time) self.old self.new) }
    {
        while self.steps() < cycle {
            self.advance(code, cycle)?;
        }
        Ok(())
    }

    /// The number of steps made.
    pub fn steps(&self) -> u64
        ensures { result ≡ self.now.state.time }
    {
        self.parts.schedule.steps
    }

    /// The completions of the jobs, in the order of the script.
    pub fn completions(&self) -> &[Completion]
        ensures ends { map (λ c. c.«end») result.now ≡ completions self.now.state }
        ensures long { length result.now ≡ length self.now.state.jobs }
        ensures each { (x : ℕ) → x < length self.now.state.jobs
            → completion result.now x ≡ completion_at self.now.state x }
    {
        self.parts.schedule.completions.as_slice()
    }

    /// Whether no watch is broken.
    pub fn kept(&self) -> bool
        ensures { IsTrue result ↔ IsKept self.now.state }
    {
        self.kept
    }

    /// The owner of the core, or `None` before the first turn of a job.
    pub fn owner(&self) -> Option<JobId>
        ensures { result ≡ option_map (job_id self.now.state) self.now.state.owner }
    {
        match self.parts.schedule.owner {
            Some(place) => Some(self.parts.schedule.completions[place].job),
            None => None,
        }
    }

    /// The place in the script of the owner of the core, or `None` before the first turn of a job.
    pub fn owner_place(&self) -> Option<usize>
        ensures { result ≡ self.now.state.owner }
    {
        self.parts.schedule.owner
    }

    /// The place of a job in the script.
    fn place(&self, job: JobId) -> usize
        requires { (x : ℕ) × IsJobAt self.now.state job x }
        ensures below { result < length self.now.state.jobs }
        ensures is { (x : ℕ) → IsJobAt self.now.state job x → result ≡ x }
    {
        place_of(self.parts.schedule.completions.as_slice(), job)
    }

    /// The pc of a job of the script. Linear in the jobs.
    pub fn pc(&self, job: JobId) -> u32
        requires { (x : ℕ) × IsJobAt self.now.state job x }
        ensures { (x : ℕ) → IsJobAt self.now.state job x
            → result ≡ (job_at self.now.state.jobs x).pc }
    {
        let place = self.place(job);
        self.parts.schedule.jobs[place].pc()
    }

    /// The watch of a job of the script. Linear in the jobs.
    pub fn watch(&self, job: JobId) -> &Watch
        requires { (x : ℕ) × IsJobAt self.now.state job x }
        ensures { (x : ℕ) → IsJobAt self.now.state job x
            → result.now ≡ (job_at self.now.state.jobs x).watch }
    {
        let place = self.place(job);
        self.parts.schedule.jobs[place].watch()
    }

    /// The fetch of the last step made, or `None` if it made none.
    pub fn last_fetch(&self) -> Option<Fetch>
        ensures { result ≡ self.now.fetch }
    {
        self.parts.fetch
    }
}
