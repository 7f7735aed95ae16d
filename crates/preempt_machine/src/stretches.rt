// The machine's parts, and its moves.
ghost use Rattle.std.specs.Prelude.{◌≡◌, ◌↔◌, ℕ, ◌+◌, ◌<◌, ◌≤◌, true, length, Some, None, IsTrue};
ghost use Rattle.std.specs.Prelude.{OnOk};
ghost use Rattle.flow_watch.specs.Watch.{is_unbroken};
ghost use Rattle.preempt_machine.specs.Machine.{Open, job_at};
ghost use Rattle.preempt_machine.specs.Step.{Start, candidate, fetch_at, turn_of};
ghost use Rattle.preempt_machine.specs.Running.{system_by, HasPlan};
ghost use Rattle.preempt_machine.specs.Inner.Schedule.{owner_keeps, IsHead, NoneIsReady};
ghost use Rattle.preempt_machine.specs.Inner.Addresses.{AreDecodedAddresses};
ghost use Rattle.preempt_machine.specs.Inner.Moves.{AreTurnsAt};
ghost use Rattle.preempt_machine.specs.Inner.Stretches.{fast_machine_of, HasTakenTurns, RunsAs};

use crate::moves::{Dispatch, FastCore};
use crate::observer::Observer;
use crate::schedule::Schedule;
use code_map::CodeMap;
use crpd_base::Memory;

/// The core and the schedule: together the state of a machine.
#[derive(Drop)]
pub(crate) struct FastParts {
    pub(crate) core: FastCore,
    pub(crate) schedule: Schedule,
}

impl FastParts {
    /// A time up to which the candidate stays the same if no job is released: the end of the
    /// instruction under way, if the owner keeps the core until then, otherwise `until`.
    fn reach(&self, place: usize, until: u64) -> u64
        requires below { place < length self.now.schedule.jobs.items }
        requires owner { (o : ℕ) → self.now.schedule.owner ≡ Some o
            → o < length self.now.schedule.jobs.items }
        requires before { self.now.schedule.steps < until }
        ensures later { self.now.schedule.steps < result }
        ensures within { result ≤ until }
        ensures keeps { owner_keeps self.now.core.geometry.platform.switching
            self.now.schedule.steps self.now.schedule.jobs.items self.now.schedule.owner ≡ true
            → self.now.schedule.owner ≡ Some place
            → result ≤ self.now.schedule.steps + (job_at self.now.schedule.jobs.items place).left }
    {
        let left = self.schedule.jobs[place].left();
        let keeps = self
            .schedule
            .owner_keeps(self.core.geometry.platform.switching);
        if keeps && 0 < left && left < until - self.schedule.steps {
            self.schedule.steps + left
        } else {
            until
        }
    }

    /// The turns of the job at a place, up to `until` or until it completes or faults: first its
    /// switch cycles, then its moves. Tells the observer its fetches.
    fn turn<O: Observer>(
        &mut self,
        code: &CodeMap,
        place: usize,
        until: u64,
        observer: &mut O,
    ) -> Result<(), Memory>
        requires room { self.old.core.geometry.platform.sets ≤ length self.old.core.cache }
        requires decoded { AreDecodedAddresses self.old.core.geometry.platform code.now
            self.old.core.decoded.places.items }
        requires plan { HasPlan code.now.plans (job_at self.old.schedule.jobs.items place) }
        requires below { place < length self.old.schedule.jobs.items }
        requires open { (job_at self.old.schedule.jobs.items place).standing ≡ Open }
        requires before { self.old.schedule.steps < until }
        requires flagged { IsTrue self.old.core.kept
            → is_unbroken (job_at self.old.schedule.jobs.items place).watch ≡ true }
        requires system { (O.start (O.observed observer.old)).system
            ≡ system_by self.old.core.geometry.platform code.now }
        requires before_steps { O.has_observed observer.old self.old.schedule.steps }
        requires turns_at { AreTurnsAt (O.start (O.observed observer.old)) place
            self.old.schedule.steps until
            (turn_of (system_by self.old.core.geometry.platform code.now)
            (fast_machine_of self.old) place) self.old.core.kept }
        ensures turned { OnOk result
            (HasTakenTurns (system_by self.old.core.geometry.platform code.now) until self.old
            self.new place) }
        ensures plan { OnOk result
            (HasPlan code.now.plans (job_at self.new.schedule.jobs.items place)) }
        ensures decoded { OnOk result
            (AreDecodedAddresses self.old.core.geometry.platform code.now
            self.new.core.decoded.places.items) }
        ensures kept { OnOk result
            (IsTrue self.new.core.kept ↔ (IsTrue self.old.core.kept
            × (is_unbroken (job_at self.new.schedule.jobs.items place).watch ≡ true))) }
        ensures same { OnOk result (O.observed observer.new ≡ O.observed observer.old) }
        ensures after { OnOk result (O.has_observed observer.new self.new.schedule.steps) }
    {
        let whole = self.core.geometry.platform.switch;
        let cycles = self.schedule.switch_cycles(whole, place);
        self.schedule.owner = Some(place);
        let rest = until - self.schedule.steps;
        if rest <= cycles as u64 {
            self.schedule.switch_left = cycles - rest as u32;
            self.schedule.steps = until;
            return Ok(());
        }
        self.schedule.switch_left = 0;
        let from = self.schedule.steps + cycles as u64;
        let job = &mut self.schedule.jobs[place];
        let plan = code.plan(job.task());
        let dispatch = Dispatch {
            code,
            plan,
            place,
            until,
        };
        self.schedule.steps = self.core.run(job, dispatch, from, observer)?;
        Ok(())
    }

    /// The steps up to the next release while no job is ready, none of them at `until` or later.
    fn idle(&mut self, code: &CodeMap, until: u64)
        requires idle { NoneIsReady self.old.schedule.steps self.old.schedule.jobs.items }
        requires before { self.old.schedule.steps < until }
        ensures runs { (s : Start) → RunsAs s code.now self.old → RunsAs s code.now self.new }
        ensures later { (s : Start) → RunsAs s code.now self.old
            → self.old.schedule.steps < self.new.schedule.steps }
        ensures within { self.new.schedule.steps ≤ until }
        ensures none { (s : Start) → RunsAs s code.now self.old → (n : ℕ)
            → self.old.schedule.steps ≤ n → n < self.new.schedule.steps → fetch_at s n ≡ None }
    {
        self.schedule.steps = self.schedule.queue.next_release(until);
    }

    /// The steps of the candidate up to the next release, or until it completes or faults, none of
    /// them at `until` or later. Tells the observer its fetches.
    fn take<O: Observer>(
        &mut self,
        code: &CodeMap,
        place: usize,
        until: u64,
        observer: &mut O,
    ) -> Result<(), Memory>
        requires runs { RunsAs (O.start (O.observed observer.old)) code.now self.old }
        requires candidate { candidate (system_by self.old.core.geometry.platform code.now)
            (fast_machine_of self.old) ≡ Some place }
        requires head { IsHead self.old.schedule.jobs.items self.old.schedule.queue.due.items
            self.old.schedule.queue.heads.items place }
        requires before { self.old.schedule.steps < until }
        requires reach { owner_keeps self.old.core.geometry.platform.switching
            self.old.schedule.steps self.old.schedule.jobs.items self.old.schedule.owner ≡ true
            → until ≤ self.old.schedule.steps + (job_at self.old.schedule.jobs.items place).left }
        requires before_steps { O.has_observed observer.old self.old.schedule.steps }
        ensures runs { OnOk result
            (RunsAs (O.start (O.observed observer.old)) code.now self.new) }
        ensures later { OnOk result (self.old.schedule.steps < self.new.schedule.steps) }
        ensures within { OnOk result (self.new.schedule.steps ≤ until) }
        ensures same { OnOk result (O.observed observer.new ≡ O.observed observer.old) }
        ensures after { OnOk result (O.has_observed observer.new self.new.schedule.steps) }
    {
        self.schedule.tell_releases();
        let until = self.schedule.queue.next_release(until);
        self.turn(code, place, until, observer)?;
        self.schedule.tell_end(place);
        Ok(())
    }

    /// The steps of the candidate while it surely stays the same, or the steps up to the next
    /// release if no job is ready. None of them is at `until` or later. Tells the observer their
    /// fetches.
    pub(crate) fn make_fast_steps<O: Observer>(
        &mut self,
        code: &CodeMap,
        until: u64,
        observer: &mut O,
    ) -> Result<(), Memory>
        requires runs { RunsAs (O.start (O.observed observer.old)) code.now self.old }
        requires before { self.old.schedule.steps < until }
        requires before_steps { O.has_observed observer.old self.old.schedule.steps }
        ensures runs { OnOk result
            (RunsAs (O.start (O.observed observer.old)) code.now self.new) }
        ensures later { OnOk result (self.old.schedule.steps < self.new.schedule.steps) }
        ensures within { OnOk result (self.new.schedule.steps ≤ until) }
        ensures same { OnOk result (O.observed observer.new ≡ O.observed observer.old) }
        ensures after { OnOk result (O.has_observed observer.new self.new.schedule.steps) }
    {
        let switching = self.core.geometry.platform.switching;
        match self.schedule.candidate(switching) {
            Some(place) => {
                let reach = self.reach(place, until);
                self.take(code, place, reach, observer)
            }
            None => {
                self.idle(code, until);
                Ok(())
            }
        }
    }
}
