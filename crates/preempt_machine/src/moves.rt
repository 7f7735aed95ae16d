// The core, and how it executes a job.
ghost use Rattle.std.specs.Prelude.{◌≡◌, ◌↔◌, ℕ, suc, ◌+◌, ◌-◌, ◌^◌, ◌<◌, ◌≤◌, not, true, length};
ghost use Rattle.std.specs.Prelude.{Some, is_some, IfOk, IfSome, IsTrue, MatchBool, OnOk};
ghost use Rattle.rv_decode.specs.Range.{HasFieldsInRange};
ghost use Rattle.rv_core.specs.Effect.{next_pc};
ghost use Rattle.icache.specs.Cache.{cache_after_access, block_of, is_hit, set_of};
ghost use Rattle.flow_watch.specs.Iterations.{HasIterations};
ghost use Rattle.flow_watch.specs.Quiet.{AreAmong, AreQuiet, IsArrival};
ghost use Rattle.flow_watch.specs.Watch.{is_unbroken};
ghost use Rattle.preempt_machine.specs.Machine.{System, Open, Faulted, ins_at, plan_of};
ghost use Rattle.preempt_machine.specs.Observed.{IsObservation};
ghost use Rattle.preempt_machine.specs.Step.{fetch_cost, turn_after_fetch, turn_after_effect};
ghost use Rattle.preempt_machine.specs.Running.{system_by, HasPlan};
ghost use Rattle.preempt_machine.specs.Jobs.{turn_by};
ghost use Rattle.preempt_machine.specs.Inner.Addresses.{AreCosts, AreDecodedAddresses};
ghost use Rattle.preempt_machine.specs.Inner.Moves.{AreTurnsAt, HasMoved, IsTurnAt};

use crate::addresses::{AddressTable, AtAddress};
use crate::jobs::{Job, is_taken};
use crate::observer::{Observation, Observer};
use code_map::CodeMap;
use crpd_base::{Memory, SETS, TaskPlan};
use flow_watch::Addresses;
use icache::{Access, Cache, Geometry};
use rv_core::{DataMemory, Next};
use rv_decode::Ins;

/// The core's cache, the data memory, the table of decoded instructions, and whether no watch is
/// broken.
#[derive(Drop)]
pub(crate) struct FastCore {
    pub(crate) geometry: Geometry,
    pub(crate) cache: Cache<SETS>,
    pub(crate) memory: DataMemory,
    pub(crate) decoded: AddressTable,
    pub(crate) kept: bool,
}

/// What a job is dispatched with: the code map, its task's plan, its place in the script, and the
/// time up to which it may keep the core.
#[derive(Clone, Copy)]
pub(crate) struct Dispatch<'a> {
    pub(crate) code: &'a CodeMap,
    pub(crate) plan: &'a TaskPlan,
    pub(crate) place: usize,
    pub(crate) until: u64,
}

/// An instruction that a job executes: what is known of its address, the instruction, and where the
/// job continues after it.
#[derive(Clone, Copy)]
struct Execution<'a> {
    found: &'a AtAddress,
    ins: &'a Ins,
    next: Next,
}

/// Whether an address is in a range.
fn is_within(range: Addresses, at: u32) -> bool
    ensures { IsTrue result → AreAmong range at }
{
    range.from <= at && at < range.until
}

/// A range of addresses at which the job's watch does not change.
fn quiet_of(job: &Job, plan: &TaskPlan) -> Addresses
    requires { HasIterations (length plan.now.loops) job.now.watch }
    ensures { AreQuiet plan.now job.now.watch result }
{
    job.watch().quiet(plan, job.pc())
}

/// Whether more cycles are left than there are from `now` to `until`.
fn outlasts(left: u64, now: u64, until: u64) -> bool
    requires { now < until }
    ensures { MatchBool result (until - now < left) (left ≤ until - now) }
{
    left > until - now
}

/// Whether no watch is broken after a job's arrival, if `kept` says whether no watch of another job
/// is.
fn is_still_kept(kept: bool, job: &Job) -> bool
    ensures { IsTrue result ↔ (IsTrue kept × (is_unbroken job.now.watch ≡ true)) }
{
    kept && !job.watch().broken()
}

/// A job faults, which takes one cycle. Gives the time after it.
fn fault(job: &mut Job, now: u64) -> u64
    requires { now + 1 < 2 ^ 64 }
    ensures job { job.new ≡ record job.old { standing = Faulted } }
    ensures time { result ≡ now + 1 }
{
    job.fault();
    now + 1
}

impl FastCore {
    /// Accesses a block in its cache set. Gives whether the access misses.
    #[inline(always)]
    fn misses(&mut self, block: u32, set: u16) -> bool
        requires room { self.old.geometry.platform.sets ≤ length self.old.cache }
        requires set { set ≡ set_of self.old.geometry.platform block }
        ensures missed { result ≡ not (is_hit self.old.geometry.platform self.old.cache block) }
        ensures cache { self.new.cache
            ≡ cache_after_access self.old.geometry.platform self.old.cache block }
        ensures memory { self.new.memory ≡ self.old.memory }
        ensures geometry { self.new.geometry ≡ self.old.geometry }
        ensures decoded { self.new.decoded ≡ self.old.decoded }
        ensures kept { self.new.kept ≡ self.old.kept }
    {
        self.cache.access_at(set, block) == Access::Miss
    }

    /// Fetches the instruction that the job at a place executes, and passes the fetch to the
    /// observer. Gives the instruction's cycles.
    #[inline(always)]
    fn fetch<O: Observer>(
        &mut self,
        job: &Job,
        execution: Execution<'_>,
        place: usize,
        now: u64,
        observer: &mut O,
    ) -> Result<u64, Memory>
        requires costs { IfSome execution.found.now.meaning
            (AreCosts self.old.geometry.platform execution.found.now.costs) }
        requires next { IfSome execution.found.now.meaning
            (λ ins. execution.next ≡ next_pc ins job.now.pc job.now.registers) }
        requires room { self.old.geometry.platform.sets ≤ length self.old.cache }
        requires block { execution.found.now.block
            ≡ block_of self.old.geometry.platform job.now.pc }
        requires set { execution.found.now.set
            ≡ set_of self.old.geometry.platform execution.found.now.block }
        requires before { O.has_observed observer.old now }
        requires is { IsObservation (O.start (O.observed observer.old))
            (record {
              place = place;
              address = execution.found.now.address;
              set = execution.found.now.set;
              missed =
                  not (is_hit self.old.geometry.platform self.old.cache
                  execution.found.now.block);
              time = now;
              kept = self.old.kept;
            }) }
        ensures cost { IfOk result (λ cycles. (sys : System) (k : ℕ) (ins : Ins)
            → sys.platform ≡ self.old.geometry.platform
            → execution.entry.found.now.meaning ≡ Some ins
            → cycles ≡ fetch_cost sys ins (turn_by self.old.cache self.old.memory k job.now)) }
        ensures cache { self.new.cache
            ≡ cache_after_access self.old.geometry.platform self.old.cache
            (block_of self.old.geometry.platform job.now.pc) }
        ensures memory { self.new.memory ≡ self.old.memory }
        ensures geometry { self.new.geometry ≡ self.old.geometry }
        ensures decoded { self.new.decoded ≡ self.old.decoded }
        ensures kept { self.new.kept ≡ self.old.kept }
        ensures same { OnOk result (O.observed observer.new ≡ O.observed observer.old) }
        ensures after { OnOk result (O.has_observed observer.new (now + 1)) }
    {
        let found = execution.found;
        let missed = self.misses(found.block, found.set);
        observer.observe(Observation {
            place,
            address: found.address,
            set: found.set,
            missed,
            time: now,
            kept: self.kept,
        })?;
        Ok(
            found
                .costs
                .cycles(missed, is_taken(execution.next, job.pc())),
        )
    }

    /// Fetches the instruction of the job at a place, if none is under way, and passes the fetch
    /// to the observer.
    #[inline(always)]
    fn begin<O: Observer>(
        &mut self,
        job: &mut Job,
        execution: Execution<'_>,
        place: usize,
        now: u64,
        observer: &mut O,
    ) -> Result<(), Memory>
        requires costs { IfSome execution.found.now.meaning
            (AreCosts self.old.geometry.platform execution.found.now.costs) }
        requires next { IfSome execution.found.now.meaning
            (λ ins. execution.next ≡ next_pc ins job.old.pc job.old.registers) }
        requires room { self.old.geometry.platform.sets ≤ length self.old.cache }
        requires block { execution.found.now.block
            ≡ block_of self.old.geometry.platform job.old.pc }
        requires set { execution.found.now.set
            ≡ set_of self.old.geometry.platform execution.found.now.block }
        requires address { execution.found.now.address ≡ job.old.pc }
        requires instruction { is_some
            (ins_at (O.start (O.observed observer.old)).system job.old.pc) ≡ true }
        requires flagged { IsTrue self.old.kept → is_unbroken job.old.watch ≡ true }
        requires platform { (O.start (O.observed observer.old)).system.platform
            ≡ self.old.geometry.platform }
        requires before { O.has_observed observer.old now }
        requires turn { IsTurnAt (O.start (O.observed observer.old)) place now
            (turn_by self.old.cache self.old.memory 0 job.old) self.old.kept }
        ensures fetched { OnOk result
            ((sys : System) (k : ℕ) (ins : Ins)
            → sys.platform ≡ self.old.geometry.platform
            → execution.entry.found.now.meaning ≡ Some ins
            → turn_by self.new.cache self.new.memory k job.new
            ≡ turn_after_fetch sys ins (turn_by self.old.cache self.old.memory k job.old)) }
        ensures job { job.new ≡ record job.old { left = job.new.left } }
        ensures geometry { self.new.geometry ≡ self.old.geometry }
        ensures decoded { self.new.decoded ≡ self.old.decoded }
        ensures kept { self.new.kept ≡ self.old.kept }
        ensures same { OnOk result (O.observed observer.new ≡ O.observed observer.old) }
        ensures after { OnOk result (O.has_observed observer.new (now + 1)) }
    {
        if job.left() > 0 {
            return Ok(());
        }
        let cycles = self.fetch(job, execution, place, now, observer)?;
        job.set_left(cycles);
        Ok(())
    }

    /// The effect of a job's instruction that ends at `time`. If the job continues in the quiet
    /// range of addresses, the watch is not stepped. Otherwise it is, and a new quiet range is
    /// computed.
    #[inline(always)]
    fn finish(
        &mut self,
        job: &mut Job,
        plan: &TaskPlan,
        execution: Execution<'_>,
        time: u64,
        quiet: &mut Addresses,
    ) -> Result<(), Memory>
        requires in_range { HasFieldsInRange execution.ins.now }
        requires stays { IsTrue execution.found.now.stays → IsArrival execution.ins.now }
        requires turns { HasIterations (length plan.now.loops) job.old.watch }
        requires open { job.old.standing ≡ Open }
        requires quiet { AreQuiet plan.now job.old.watch quiet.old }
        requires flagged { IsTrue self.old.kept → is_unbroken job.old.watch ≡ true }
        ensures ok { OnOk result
            ((sys : System) (k n : ℕ) → suc n ≡ time → plan_of sys job.old.line.task.0 ≡ plan.now
            → turn_by self.new.cache self.new.memory k job.new
            ≡ turn_after_effect sys n execution.entry.ins.now
            (turn_by self.old.cache self.old.memory k job.old) execution.entry.next) }
        ensures turns { OnOk result (HasIterations (length plan.now.loops) job.new.watch) }
        ensures quiet { OnOk result (AreQuiet plan.now job.new.watch quiet.new) }
        ensures geometry { self.new.geometry ≡ self.old.geometry }
        ensures decoded { self.new.decoded ≡ self.old.decoded }
        ensures kept { OnOk result
            (IsTrue self.new.kept ↔ (IsTrue self.old.kept × (is_unbroken job.new.watch ≡ true))) }
    {
        if let Next::Goto(to) = execution.next
            && execution.found.stays
            && is_within(*quiet, to)
        {
            return job.go_on(&mut self.memory, execution.ins, to, time);
        }
        job.finish(&mut self.memory, plan, execution.ins, execution.next, time)?;
        *quiet = quiet_of(job, plan);
        self.kept = is_still_kept(self.kept, job);
        Ok(())
    }

    /// One move of a job: the remaining cycles of its instruction, but none at the end of its
    /// dispatch or later. Tells the observer a fetch. Gives the time after the move.
    ///
    /// The job faults if no instruction can be fetched, which takes one cycle. An arrival at an
    /// address in the quiet range leaves the job's watch unchanged.
    #[inline(always)]
    fn advance<O: Observer>(
        &mut self,
        job: &mut Job,
        dispatch: Dispatch<'_>,
        now: u64,
        quiet: &mut Addresses,
        observer: &mut O,
    ) -> Result<u64, Memory>
        requires before { now < dispatch.until }
        requires room { self.old.geometry.platform.sets ≤ length self.old.cache }
        requires decoded { AreDecodedAddresses self.old.geometry.platform dispatch.code.now
            self.old.decoded.places.items }
        requires plan { plan_of (system_by self.old.geometry.platform dispatch.code.now)
            job.old.line.task.0 ≡ dispatch.plan.now }
        requires turns { HasIterations (length dispatch.plan.now.loops) job.old.watch }
        requires open { job.old.standing ≡ Open }
        requires quiet { AreQuiet dispatch.plan.now job.old.watch quiet.old }
        requires flagged { IsTrue self.old.kept → is_unbroken job.old.watch ≡ true }
        requires system { (O.start (O.observed observer.old)).system
            ≡ system_by self.old.geometry.platform dispatch.code.now }
        requires before_now { O.has_observed observer.old now }
        requires turns_at { AreTurnsAt (O.start (O.observed observer.old)) dispatch.place now
            dispatch.until (turn_by self.old.cache self.old.memory 0 job.old) self.old.kept }
        ensures moved { IfOk result
            (λ time. HasMoved (system_by self.old.geometry.platform dispatch.entry.code.now)
            now time (turn_by self.old.cache self.old.memory 0 job.old)
            (turn_by self.new.cache self.new.memory 0 job.new)) }
        ensures later { IfOk result (λ time. now < time) }
        ensures within { IfOk result (λ time. time ≤ dispatch.entry.until) }
        ensures turns { OnOk result
            (HasIterations (length dispatch.entry.plan.now.loops) job.new.watch) }
        ensures quiet { OnOk result (AreQuiet dispatch.entry.plan.now job.new.watch quiet.new) }
        ensures geometry { OnOk result (self.new.geometry ≡ self.old.geometry) }
        ensures decoded { OnOk result
            (AreDecodedAddresses self.old.geometry.platform dispatch.entry.code.now
            self.new.decoded.places.items) }
        ensures kept { OnOk result
            (IsTrue self.new.kept ↔ (IsTrue self.old.kept × (is_unbroken job.new.watch ≡ true))) }
        ensures same { OnOk result (O.observed observer.new ≡ O.observed observer.old) }
        ensures after { IfOk result (λ time. O.has_observed observer.new time) }
    {
        let found = self.decoded.find(dispatch.code, &self.geometry, job.pc());
        let Some(ins) = found.meaning else {
            return Ok(fault(job, now));
        };
        let next = job.next(&ins);
        let execution = Execution {
            found: &found,
            ins: &ins,
            next,
        };
        self.begin(job, execution, dispatch.place, now, observer)?;
        let left = job.left();
        if outlasts(left, now, dispatch.until) {
            job.set_left(left - (dispatch.until - now));
            return Ok(dispatch.until);
        }
        let time = now + left.max(1);
        self.finish(job, dispatch.plan, execution, time, quiet)?;
        Ok(time)
    }

    /// Moves a job that has the core and no switch cycle left, up to the end of its dispatch or
    /// until it completes or faults. Tells the observer its fetches. Gives the time after them.
    pub(crate) fn run<O: Observer>(
        &mut self,
        job: &mut Job,
        dispatch: Dispatch<'_>,
        from: u64,
        observer: &mut O,
    ) -> Result<u64, Memory>
        requires before { from < dispatch.until }
        requires room { self.old.geometry.platform.sets ≤ length self.old.cache }
        requires decoded { AreDecodedAddresses self.old.geometry.platform dispatch.code.now
            self.old.decoded.places.items }
        requires plan { HasPlan dispatch.code.now.plans job.old }
        requires own_plan { plan_of (system_by self.old.geometry.platform dispatch.code.now)
            job.old.line.task.0 ≡ dispatch.plan.now }
        requires open { job.old.standing ≡ Open }
        requires flagged { IsTrue self.old.kept → is_unbroken job.old.watch ≡ true }
        requires system { (O.start (O.observed observer.old)).system
            ≡ system_by self.old.geometry.platform dispatch.code.now }
        requires before_from { O.has_observed observer.old from }
        requires turns_at { AreTurnsAt (O.start (O.observed observer.old)) dispatch.place from
            dispatch.until (turn_by self.old.cache self.old.memory 0 job.old) self.old.kept }
        ensures moved { IfOk result
            (λ time. HasMoved (system_by self.old.geometry.platform dispatch.entry.code.now)
            from time (turn_by self.old.cache self.old.memory 0 job.old)
            (turn_by self.new.cache self.new.memory 0 job.new)) }
        ensures later { IfOk result (λ time. from < time) }
        ensures within { IfOk result (λ time. time ≤ dispatch.entry.until) }
        ensures plan { OnOk result (HasPlan dispatch.entry.code.now.plans job.new) }
        ensures geometry { OnOk result (self.new.geometry ≡ self.old.geometry) }
        ensures decoded { OnOk result
            (AreDecodedAddresses self.old.geometry.platform dispatch.entry.code.now
            self.new.decoded.places.items) }
        ensures kept { OnOk result
            (IsTrue self.new.kept ↔ (IsTrue self.old.kept × (is_unbroken job.new.watch ≡ true))) }
        ensures same { OnOk result (O.observed observer.new ≡ O.observed observer.old) }
        ensures after { IfOk result (λ time. O.has_observed observer.new time) }
    {
        let mut now = from;
        let mut quiet = quiet_of(job, dispatch.plan);
        while now < dispatch.until && job.is_open() {
            now = self.advance(job, dispatch, now, &mut quiet, observer)?;
        }
        Ok(now)
    }
}
