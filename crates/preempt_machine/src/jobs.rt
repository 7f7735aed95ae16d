// The jobs, and what a job does while it has the core.
ghost use Rattle.std.specs.Prelude.{◌≡◌, ℕ, suc, ◌+◌, ◌<◌, ◌≤◌, ◌^◌, ◌⊎◌, ◌∷◌, ◌==◌, if◌then◌else◌};
ghost use Rattle.std.specs.Prelude.{not, replicate, length, Some, None, IfSome, IfOk, IsOk, OnOk};
ghost use Rattle.std.specs.Prelude.{OnErr};
ghost use Rattle.crpd_base.specs.declared.data.Platform.{Platform};
ghost use Rattle.rv_decode.specs.Address.{end_address};
ghost use Rattle.rv_decode.specs.Range.{HasFieldsInRange};
ghost use Rattle.rv_core.specs.Effect.{IsStore, next_pc};
ghost use Rattle.icache.specs.Cache.{Cache as Blocks};
ghost use Rattle.flow_watch.specs.Iterations.{HasIterations};
ghost use Rattle.flow_watch.specs.Watch.{step as watch_step};
ghost use Rattle.preempt_machine.specs.Machine.{System, Open, Faulted, Answered, ins_at, new_job};
ghost use Rattle.preempt_machine.specs.Machine.{plan_of};
ghost use Rattle.preempt_machine.specs.Step.{turn_after_execution, fetch_cost, turn_after_fetch};
ghost use Rattle.preempt_machine.specs.Step.{goes_to_next, is_open, is_ready, turn_after_effect};
ghost use Rattle.preempt_machine.specs.Step.{turn_after_cycle};
ghost use Rattle.preempt_machine.specs.Running.{access_by, system_by, HasPlan, IsStoreNow};
ghost use Rattle.preempt_machine.specs.Jobs.{end_of_standing, turn_by};
ghost use Rattle.preempt_machine.specs.Inner.Jobs.{found_by};

use crate::End;
use crate::decoded::Decoded;
use code_map::CodeMap;
use crpd_base::{Memory, SETS, ScriptJob, Task, TaskPlan};
use flow_watch::Watch;
use icache::{Access, Cache, Geometry};
use rv_core::{DataMemory, Next, Regs, carry_out, next_pc};
use rv_decode::{Ins, cost};
use std::alloc::Global;
use std::marker::Model;

/// The address at which a job ends.
const END: u32 = 0xFFFF_FFFC;

/// The standing of a job.
#[derive(Clone, Copy)]
enum Standing {
    Open,
    Answered(u64),
    Faulted,
}

/// A job of the script: its line, its registers and pc, the cycles left of the instruction under
/// way (0 if none is), its watch, and its standing: open, completed at a time, or faulted.
#[derive(Drop)]
pub struct Job {
    line: ScriptJob,
    registers: Regs,
    pc: u32,
    left: u64,
    watch: Watch,
    standing: Standing,
}

/// The core's cache, the data memory, and the table of decoded words.
#[derive(Drop)]
pub(crate) struct Core {
    pub(crate) geometry: Geometry,
    pub(crate) cache: Cache<SETS>,
    pub(crate) memory: DataMemory,
    pub(crate) decoded: Decoded,
}

impl Model for Job {
    ghost use Rattle.preempt_machine.specs.Machine.{Job as Job_of};

    ghost Value = { Job_of };

    ghost use Rattle.preempt_machine.specs.Inner.Jobs.{job_of, HasBottomFrame};

    ghost view = { job_of };

    ghost invariant = { HasBottomFrame };
}

/// The registers of a job at its start: x1 is the address at which it ends, x2 the stack, x3 the
/// global pointer.
fn start_registers(plan: &TaskPlan) -> Regs
    ensures { result ≡ 0 ∷ end_address ∷ plan.now.stack ∷ plan.now.global ∷ replicate 28 0 }
{
    let mut registers = Regs::new();
    registers.put(1, END);
    registers.put(2, plan.stack);
    registers.put(3, plan.global);
    registers
}

/// Whether a job continues at an address other than the one after its instruction. A branch or a
/// jump to the address after its own is not taken, nor are ECALL and EBREAK.
#[inline(always)]
pub fn is_taken(next: Next, pc: u32) -> bool
    ensures { result ≡ not (goes_to_next next pc) }
{
    match next {
        Next::Goto(to) => to != pc.wrapping_add(4),
        Next::Answer | Next::Fault => false,
    }
}

impl Job {
    /// A job before its first step: at its task's entry, with the registers of a start. Out of
    /// memory is the only error. Time and memory are those of the watch.
    pub fn start(alloc: Global, line: ScriptJob, plan: &TaskPlan) -> Result<Self, Memory>
        ensures is { IfOk result
            (λ job. (sys : System) → plan_of sys line.task.0 ≡ plan.now → job ≡ new_job sys line) }
        ensures line { IfOk result (λ job. job.line ≡ line) }
        ensures turns { IfOk result (λ job. HasIterations (length plan.now.loops) job.watch) }
    {
        Ok(Job {
            line,
            registers: start_registers(plan),
            pc: plan.entry,
            left: 0,
            watch: Watch::start(alloc, plan)?,
            standing: Standing::Open,
        })
    }

    /// Its task.
    pub fn task(&self) -> Task
        ensures { result ≡ self.now.line.task }
    {
        self.line.task
    }

    /// The address of the instruction that is under way or comes next.
    pub fn pc(&self) -> u32
        ensures { result ≡ self.now.pc }
    {
        self.pc
    }

    /// The watch over its control flow.
    pub fn watch(&self) -> &Watch
        ensures { result.now ≡ self.now.watch }
    {
        &self.watch
    }

    /// The cycles left of the instruction under way, or 0 if none is.
    pub fn left(&self) -> u64
        ensures { result ≡ self.now.left }
    {
        self.left
    }

    /// Whether it has neither completed nor faulted.
    pub fn is_open(&self) -> bool
        ensures { result ≡ is_open self.now.standing }
    {
        matches!(self.standing, Standing::Open)
    }

    /// Whether it is open and was released at `now` or before.
    #[tactic(auto, unfolding(crate::specs::Step::is_ready))]
    pub fn is_ready(&self, now: u64) -> bool
        ensures { result ≡ is_ready now self.now }
    {
        matches!(self.standing, Standing::Open) && self.line.release <= now
    }

    /// Its standing as a completion gives it, if it has been released.
    pub fn end(&self) -> End
        ensures { result ≡ end_of_standing self.now.standing }
    {
        match self.standing {
            Standing::Open => End::Open,
            Standing::Answered(time) => End::Answered(time),
            Standing::Faulted => End::Faulted,
        }
    }

    /// What comes after an instruction at its pc. The instruction's fields are in range.
    #[inline(always)]
    pub fn next(&self, ins: &Ins) -> Next
        requires { HasFieldsInRange ins.now }
        ensures { result ≡ next_pc ins.now self.now.pc self.now.registers }
    {
        next_pc(ins, self.pc, &self.registers)
    }

    /// Sets the cycles left of the instruction under way.
    pub fn set_left(&mut self, left: u64)
        ensures { self.new ≡ record self.old { left = left } }
    {
        self.left = left;
    }

    /// It faults.
    pub fn fault(&mut self)
        ensures { self.new ≡ record self.old { standing = Faulted } }
    {
        self.standing = Standing::Faulted;
    }

    fn answer(&mut self, time: u64)
        ensures { self.new ≡ record self.old { left = 0; standing = Answered time } }
    {
        self.left = 0;
        self.standing = Standing::Answered(time);
    }

    /// The job is at an address from a time on, with no instruction under way. At the address at
    /// which jobs end, it completes then.
    fn reach(&mut self, to: u32, time: u64)
        ensures { self.new ≡ record self.old {
          pc = to;
          left = 0;
          standing = if to == end_address then Answered time else self.old.standing;
        } }
    {
        self.pc = to;
        self.left = 0;
        if to == END {
            self.standing = Standing::Answered(time);
        }
    }

    /// Continues at an address, after the effect of its instruction, which ends at a time.
    fn arrive(
        &mut self,
        memory: &mut DataMemory,
        plan: &TaskPlan,
        ins: &Ins,
        to: u32,
        time: u64,
    ) -> Result<(), Memory>
        requires in_range { HasFieldsInRange ins.now }
        requires turns { HasIterations (length plan.now.loops) self.old.watch }
        requires open { self.old.standing ≡ Open }
        ensures ok { OnOk result
            ((sys : System) (cache : Blocks) (k n : ℕ) → suc n ≡ time
            → plan_of sys self.old.line.task.0 ≡ plan.now
            → turn_by cache memory.new k self.new
            ≡ turn_after_effect sys n ins.now (turn_by cache memory.old k self.old)
            (Next.Goto to)) }
        ensures turns { OnOk result (HasIterations (length plan.now.loops) self.new.watch) }
        ensures err { OnErr result ((self.new ≡ self.old) × (memory.new ≡ memory.old)) }
        ensures only { IsStore ins.now ⊎ IsOk result }
    {
        carry_out(ins, self.pc, &mut self.registers, memory)?;
        let from = self.pc;
        self.reach(to, time);
        self.watch.step(plan, from, ins, to);
        Ok(())
    }

    /// The effect of its instruction, which ends at `time`, and after which it continues at `to`.
    /// The job is open, and the fields are in range. Its watch stays unchanged, so the caller has
    /// to know that a step of the watch changes nothing. After an error all is as before. Only a
    /// store can run out of memory. The time is that of the effect.
    #[inline(always)]
    pub fn go_on(
        &mut self,
        memory: &mut DataMemory,
        ins: &Ins,
        to: u32,
        time: u64,
    ) -> Result<(), Memory>
        requires in_range { HasFieldsInRange ins.now }
        requires open { self.old.standing ≡ Open }
        ensures ok { OnOk result
            ((sys : System) (cache : Blocks) (k n : ℕ) → suc n ≡ time
            → watch_step (plan_of sys self.old.line.task.0) self.old.watch self.old.pc ins.now to
            ≡ self.old.watch → turn_by cache memory.new k self.new
            ≡ turn_after_effect sys n ins.now (turn_by cache memory.old k self.old)
            (Next.Goto to)) }
        ensures watch { self.new.watch ≡ self.old.watch }
        ensures err { OnErr result ((self.new ≡ self.old) × (memory.new ≡ memory.old)) }
        ensures only { IsStore ins.now ⊎ IsOk result }
    {
        carry_out(ins, self.pc, &mut self.registers, memory)?;
        self.reach(to, time);
        Ok(())
    }

    /// The effect of its instruction, which ends at `time`, and after which the job completes,
    /// faults or continues, as `next` says. The job is open, the fields are in range, and the plan
    /// has as many stated loops as the one at the start. After an error all is as before. Only a
    /// store can run out of memory. The time is that of the effect and of a step of the watch.
    pub fn finish(
        &mut self,
        memory: &mut DataMemory,
        plan: &TaskPlan,
        ins: &Ins,
        next: Next,
        time: u64,
    ) -> Result<(), Memory>
        requires in_range { HasFieldsInRange ins.now }
        requires turns { HasIterations (length plan.now.loops) self.old.watch }
        requires open { self.old.standing ≡ Open }
        ensures ok { OnOk result
            ((sys : System) (cache : Blocks) (k n : ℕ) → suc n ≡ time
            → plan_of sys self.old.line.task.0 ≡ plan.now
            → turn_by cache memory.new k self.new
            ≡ turn_after_effect sys n ins.now (turn_by cache memory.old k self.old) next) }
        ensures turns { OnOk result (HasIterations (length plan.now.loops) self.new.watch) }
        ensures err { OnErr result ((self.new ≡ self.old) × (memory.new ≡ memory.old)) }
        ensures only { IsStore ins.now ⊎ IsOk result }
    {
        match next {
            Next::Goto(to) => return self.arrive(memory, plan, ins, to, time),
            Next::Answer => self.answer(time),
            Next::Fault => {
                self.set_left(0);
                self.fault();
            }
        }
        Ok(())
    }

    /// One cycle of the job's instruction, of which `left` cycles remain.
    fn work(
        &mut self,
        memory: &mut DataMemory,
        plan: &TaskPlan,
        ins: &Ins,
        left: u64,
        now: u64,
    ) -> Result<(), Memory>
        requires in_range { HasFieldsInRange ins.now }
        requires turns { HasIterations (length plan.now.loops) self.old.watch }
        requires open { self.old.standing ≡ Open }
        requires later { now + 1 < 2 ^ 64 }
        ensures ok { OnOk result
            ((sys : System) (cache : Blocks) (k : ℕ) → plan_of sys self.old.line.task.0 ≡ plan.now
            → turn_by cache memory.new k self.new
            ≡ turn_after_cycle sys now ins.now
            (turn_by cache memory.old k (record self.old { left = left }))) }
        ensures turns { OnOk result (HasIterations (length plan.now.loops) self.new.watch) }
        ensures err { OnErr result ((self.new ≡ self.old) × (memory.new ≡ memory.old)) }
        ensures store { OnErr result (IsStore ins.now) }
        ensures last { OnErr result (left ≤ 1) }
    {
        if left > 1 {
            self.set_left(left - 1);
            return Ok(());
        }
        self.finish(memory, plan, ins, self.next(ins), now + 1)
    }
}

/// The instruction at an address, or `None` if a fetch there faults.
#[tactic(auto, unfolding(crate::specs::Machine::ins_at))]
fn instruction(decoded: &mut Decoded, code: &CodeMap, address: u32) -> Option<Ins>
    ensures is { (platform : Platform) → result ≡ ins_at (system_by platform code.now) address }
    ensures in_range { IfSome result HasFieldsInRange }
{
    match decoded.meaning(code.word(address)?, address) {
        Some(Ins::Ebreak) => None,
        found => found,
    }
}

impl Core {
    /// The cycles of an instruction that a job fetches now.
    fn cost(&self, job: &Job, ins: &Ins) -> u64
        requires in_range { HasFieldsInRange ins.now }
        requires room { self.now.geometry.platform.sets ≤ length self.now.cache }
        ensures { (sys : System) (k : ℕ) → sys.platform ≡ self.now.geometry.platform
            → result ≡ fetch_cost sys ins.now (turn_by self.now.cache self.now.memory k job.now) }
    {
        let block = self.geometry.block(job.pc());
        let missed = match self.cache.holds(self.geometry.set(block)) {
            Some(held) => held != block,
            None => true,
        };
        let taken = is_taken(job.next(ins), job.pc());
        cost(&self.geometry.platform, ins, missed, taken)
    }

    /// One cycle of a job's instruction. If none is under way it is fetched, and the result is what
    /// the fetch found. After an error all is as before.
    fn execute(
        &mut self,
        job: &mut Job,
        plan: &TaskPlan,
        ins: &Ins,
        now: u64,
    ) -> Result<Option<Access>, Memory>
        requires in_range { HasFieldsInRange ins.now }
        requires turns { HasIterations (length plan.now.loops) job.old.watch }
        requires open { job.old.standing ≡ Open }
        requires later { now + 1 < 2 ^ 64 }
        requires room { self.old.geometry.platform.sets ≤ length self.old.cache }
        ensures ok { OnOk result
            ((sys : System) (k : ℕ) → sys.platform ≡ self.old.geometry.platform
            → plan_of sys job.old.line.task.0 ≡ plan.now
            → turn_by self.new.cache self.new.memory k job.new
            ≡ turn_after_cycle sys now ins.now
            (turn_after_fetch sys ins.now (turn_by self.old.cache self.old.memory k job.old))) }
        ensures found { IfOk result
            (λ found. found ≡ (if job.old.left == 0
            then Some (access_by self.old.geometry.platform self.old.cache job.old.pc) else None)) }
        ensures turns { OnOk result (HasIterations (length plan.now.loops) job.new.watch) }
        ensures geometry { self.new.geometry ≡ self.old.geometry }
        ensures err { OnErr result ((job.new ≡ job.old) × (self.new ≡ self.old)) }
        ensures store { OnErr result (IsStore ins.now) }
        ensures last { OnErr result
            ((sys : System) (k : ℕ) → sys.platform ≡ self.old.geometry.platform
            → (turn_after_fetch sys ins.now
            (turn_by self.old.cache self.old.memory k job.old)).job.left ≤ 1) }
    {
        let left = job.left();
        if left > 0 {
            job.work(&mut self.memory, plan, ins, left, now)?;
            return Ok(None);
        }
        let block = self.geometry.block(job.pc());
        let cycles = self.cost(job, ins);
        job.work(&mut self.memory, plan, ins, cycles, now)?;
        Ok(Some(self.cache.access(&self.geometry, block)))
    }

    /// One cycle of a job that has the core and no switch cycle left. Gives what a fetch found, if
    /// it made one. The job faults if no instruction can be fetched. After an error all is as
    /// before.
    pub(crate) fn advance(
        &mut self,
        job: &mut Job,
        code: &CodeMap,
        now: u64,
    ) -> Result<Option<Access>, Memory>
        requires plan { HasPlan code.now.plans job.old }
        requires open { job.old.standing ≡ Open }
        requires later { now + 1 < 2 ^ 64 }
        requires room { self.old.geometry.platform.sets ≤ length self.old.cache }
        ensures ok { OnOk result (let sys = system_by self.old.geometry.platform code.now in
            turn_by self.new.cache self.new.memory 0 job.new
            ≡ turn_after_execution sys now (turn_by self.old.cache self.old.memory 0 job.old)
            (ins_at sys job.old.pc)) }
        ensures found { IfOk result
            (λ found. found ≡ found_by (system_by self.old.geometry.platform code.now)
            (turn_by self.old.cache self.old.memory 0 job.old)) }
        ensures plan { OnOk result (HasPlan code.now.plans job.new) }
        ensures geometry { self.new.geometry ≡ self.old.geometry }
        ensures err { OnErr result ((job.new ≡ job.old) × (self.new ≡ self.old)) }
        ensures store { OnErr result
            (IsStoreNow (system_by self.old.geometry.platform code.now)
            (turn_by self.old.cache self.old.memory 0 job.old)) }
    {
        match instruction(&mut self.decoded, code, job.pc()) {
            Some(ins) => self.execute(job, code.plan(job.task()), &ins, now),
            None => {
                job.fault();
                Ok(None)
            }
        }
    }
}
