// The machine's parts, and its step.
ghost use Rattle.std.specs.Prelude.{◌≡◌, ℕ, ◌+◌, ◌<◌, ◌^◌, length, Some, None, option_map, OnOk};
ghost use Rattle.std.specs.Prelude.{OnErr};
ghost use Rattle.code_map.specs.Words.{Code};
ghost use Rattle.preempt_machine.specs.Machine.{System, Open, job_at};
ghost use Rattle.preempt_machine.specs.Step.{candidate, turn_of};
ghost use Rattle.preempt_machine.specs.Running.{system_by, GivesStore, HasPlan, HasPlans};
ghost use Rattle.preempt_machine.specs.Running.{IsStoreNow};
ghost use Rattle.preempt_machine.specs.Inner.KeptFlag.{ChangesOwner};
ghost use Rattle.preempt_machine.specs.Inner.Schedule.{IsHead, NoneIsReady};
ghost use Rattle.preempt_machine.specs.Inner.Parts.{machine_of, running_of, HasMade, HasStepped};
ghost use Rattle.preempt_machine.specs.Inner.Parts.{HasTurned, IsMachine, HasSameState};

use crate::Fetch;
use crate::jobs::Core;
use crate::schedule::Schedule;
use code_map::CodeMap;
use crpd_base::{JobId, Memory};
use icache::Access;

/// The core, the schedule and the last fetch: together the state of a machine.
#[derive(Drop)]
pub(crate) struct Parts {
    pub(crate) core: Core,
    pub(crate) schedule: Schedule,
    pub(crate) fetch: Option<Fetch>,
}

/// The fetch of a job at an address, if one was made.
fn fetch_of(job: JobId, address: u32, found: Option<Access>) -> Option<Fetch>
    ensures { result ≡ option_map
        (λ access. record { job = job; address = address; access = access }) found }
{
    match found {
        Some(access) => Some(Fetch {
            job,
            address,
            access,
        }),
        None => None,
    }
}

impl Parts {
    /// Uses one of the switch cycles that a job has left.
    fn switch(&mut self, place: usize, left: u32)
        requires candidate { place < length self.old.schedule.jobs.items }
        requires left { 0 < left }
        ensures turned { (sys : System)
            → (turn_of sys (machine_of self.old) place).switch_left ≡ left
            → HasTurned sys self.old self.new place }
        ensures jobs { self.new.schedule.jobs.items ≡ self.old.schedule.jobs.items }
    {
        self.schedule.owner = Some(place);
        self.schedule.switch_left = left - 1;
        self.fetch = None;
    }

    /// A cycle of a job that has no switch cycle left. After an error all is as before.
    fn work(&mut self, code: &CodeMap, place: usize) -> Result<(), Memory>
        requires machine { IsMachine self.old }
        requires plan { HasPlan code.now.plans (job_at self.old.schedule.jobs.items place) }
        requires below { place < length self.old.schedule.jobs.items }
        requires open { (job_at self.old.schedule.jobs.items place).standing ≡ Open }
        requires switched { (turn_of (system_by self.old.core.geometry.platform code.now)
            (machine_of self.old) place).switch_left ≡ 0 }
        requires later { self.old.schedule.steps + 1 < 2 ^ 64 }
        ensures ok { OnOk result
            (HasTurned (system_by self.old.core.geometry.platform code.now) self.old
            self.new place) }
        ensures plan { OnOk result
            (HasPlan code.now.plans (job_at self.new.schedule.jobs.items place)) }
        ensures err { OnErr result (HasSameState self.old self.new) }
        ensures only { OnErr result
            (IsStoreNow (system_by self.old.core.geometry.platform code.now)
            (turn_of (system_by self.old.core.geometry.platform code.now)
            (machine_of self.old) place)) }
    {
        let job = &mut self.schedule.jobs[place];
        let address = job.pc();
        let found = self.core.advance(job, code, self.schedule.steps)?;
        self.schedule.owner = Some(place);
        self.schedule.switch_left = 0;
        self.fetch = fetch_of(self.schedule.completions[place].job, address, found);
        Ok(())
    }

    /// A job's cycle on the core. After an error all is as before.
    fn turn(&mut self, code: &CodeMap, place: usize) -> Result<(), Memory>
        requires machine { IsMachine self.old }
        requires candidate { candidate (system_by self.old.core.geometry.platform code.now)
            (machine_of self.old) ≡ Some place }
        requires plans { HasPlans code.now (machine_of self.old) }
        requires later { self.old.schedule.steps + 1 < 2 ^ 64 }
        ensures ok { OnOk result
            (HasTurned (system_by self.old.core.geometry.platform code.now) self.old
            self.new place) }
        ensures plans { OnOk result (HasPlans code.now (machine_of self.new)) }
        ensures err { OnErr result (HasSameState self.old self.new) }
        ensures only { OnErr result
            (GivesStore (system_by self.old.core.geometry.platform code.now)
            (machine_of self.old)) }
    {
        let whole = self.core.geometry.platform.switch;
        let switch_left = self.schedule.switch_cycles(whole, place);
        if switch_left > 0 {
            self.switch(place, switch_left);
            return Ok(());
        }
        self.work(code, place)
    }

    /// The steps up to the next release while no job is ready, none of them at `until` or later.
    fn idle(&mut self, until: u64)
        requires machine { IsMachine self.old }
        requires idle { NoneIsReady self.old.schedule.steps self.old.schedule.jobs.items }
        requires before { self.old.schedule.steps < until }
        ensures made { (code : Code)
            → HasMade code until (running_of self.old) (running_of self.new) }
        ensures machine { IsMachine self.new }
        ensures jobs { self.new.schedule.jobs.items ≡ self.old.schedule.jobs.items }
    {
        self.fetch = None;
        self.schedule.steps = self.schedule.queue.next_release(until);
    }

    /// A step of a job. After an error all is as before.
    fn take(&mut self, code: &CodeMap, place: usize) -> Result<(), Memory>
        requires machine { IsMachine self.old }
        requires candidate { candidate (system_by self.old.core.geometry.platform code.now)
            (machine_of self.old) ≡ Some place }
        requires head { IsHead self.old.schedule.jobs.items self.old.schedule.queue.due.items
            self.old.schedule.queue.heads.items place }
        requires plans { HasPlans code.now (machine_of self.old) }
        requires later { self.old.schedule.steps + 1 < 2 ^ 64 }
        ensures ok { OnOk result
            (HasStepped (system_by self.old.core.geometry.platform code.now) self.old self.new) }
        ensures machine { OnOk result (IsMachine self.new) }
        ensures plans { OnOk result (HasPlans code.now (machine_of self.new)) }
        ensures err { OnErr result (HasSameState self.old self.new) }
        ensures only { OnErr result
            (GivesStore (system_by self.old.core.geometry.platform code.now)
            (machine_of self.old)) }
    {
        self.turn(code, place)?;
        self.schedule.pass();
        self.schedule.tell_end(place);
        Ok(())
    }

    /// One step of a job, or the steps up to the next release if no job is ready, none of them at
    /// `until` or later. After an error all is as before.
    pub(crate) fn advance(&mut self, code: &CodeMap, until: u64) -> Result<(), Memory>
        requires machine { IsMachine self.old }
        requires plans { HasPlans code.now (machine_of self.old) }
        requires before { self.old.schedule.steps < until }
        ensures ok { OnOk result
            (HasMade code.now until (running_of self.old) (running_of self.new)) }
        ensures machine { OnOk result (IsMachine self.new) }
        ensures plans { OnOk result (HasPlans code.now (machine_of self.new)) }
        ensures owner { OnOk result (ChangesOwner (machine_of self.old) (machine_of self.new)) }
        ensures err { OnErr result (HasSameState self.old self.new) }
        ensures only { OnErr result
            (GivesStore (system_by self.old.core.geometry.platform code.now)
            (machine_of self.old)) }
    {
        let switching = self.core.geometry.platform.switching;
        match self.schedule.candidate(switching) {
            Some(place) => self.take(code, place),
            None => {
                self.idle(until);
                Ok(())
            }
        }
    }
}
