// One interrupted run, cycle by cycle.
ghost use Rattle.std.specs.Prelude.{◌<◌, ◌^◌, length};
ghost use Rattle.preempt_machine.specs.Running.{HasPlans};
ghost use Rattle.preempt_machine.specs.Safe.{NamesTasks};

use crate::cases::{Case, INTERRUPTED};
use crate::loading::Loaded;
use crate::scripts::script_of;
use code_map::CodeMap;
use crpd_base::{JobId, Script, Task};
use icache::Access;
use preempt_machine::{End, Fetch, Machine};
use std::alloc::Global;
use std::process::Abort;

// What is observed after each cycle of a stretch, which ends when this number of cycles has been
// made: the owner, the pc of the low job and of the high one, the fetch of the cycle, and the
// standings of the two jobs.
#[derive(Clone, Copy)]
struct Stretch {
    until: u64,
    owner: JobId,
    pcs: [u32; 2],
    fetch: Option<Fetch>,
    ends: (End, End),
}

const LOW_JOB: JobId = JobId {
    task: Task(1),
    number: 0,
};

const HIGH_JOB: JobId = JobId {
    task: Task(0),
    number: 0,
};

static STRETCHES: [Stretch; 14] = [
    // the switch to the low job
    Stretch {
        until: 5,
        owner: LOW_JOB,
        pcs: [0x1000, 0x2000],
        fetch: None,
        ends: (End::Open, End::Unreleased),
    },
    // its first instruction: a miss and ten additional cycles, of which the last one is delayed
    Stretch {
        until: 6,
        owner: LOW_JOB,
        pcs: [0x1000, 0x2000],
        fetch: Some(Fetch {
            job: LOW_JOB,
            address: 0x1000,
            access: Access::Miss,
        }),
        ends: (End::Open, End::Unreleased),
    },
    Stretch {
        until: 15,
        owner: LOW_JOB,
        pcs: [0x1000, 0x2000],
        fetch: None,
        ends: (End::Open, End::Unreleased),
    },
    // the switch to the high job, its first instruction, and its second, a hit that completes the
    // job
    Stretch {
        until: 20,
        owner: HIGH_JOB,
        pcs: [0x1000, 0x2000],
        fetch: None,
        ends: (End::Open, End::Open),
    },
    Stretch {
        until: 21,
        owner: HIGH_JOB,
        pcs: [0x1000, 0x2000],
        fetch: Some(Fetch {
            job: HIGH_JOB,
            address: 0x2000,
            access: Access::Miss,
        }),
        ends: (End::Open, End::Open),
    },
    Stretch {
        until: 30,
        owner: HIGH_JOB,
        pcs: [0x1000, 0x2000],
        fetch: None,
        ends: (End::Open, End::Open),
    },
    Stretch {
        until: 31,
        owner: HIGH_JOB,
        pcs: [0x1000, 0x2004],
        fetch: None,
        ends: (End::Open, End::Open),
    },
    Stretch {
        until: 32,
        owner: HIGH_JOB,
        pcs: [0x1000, 0x2004],
        fetch: Some(Fetch {
            job: HIGH_JOB,
            address: 0x2004,
            access: Access::Hit,
        }),
        ends: (End::Open, End::Answered(32)),
    },
    // the switch back, and the remaining cycle, without a fetch
    Stretch {
        until: 37,
        owner: LOW_JOB,
        pcs: [0x1000, 0x2004],
        fetch: None,
        ends: (End::Open, End::Answered(32)),
    },
    Stretch {
        until: 38,
        owner: LOW_JOB,
        pcs: [0x1004, 0x2004],
        fetch: None,
        ends: (End::Open, End::Answered(32)),
    },
    // the second instruction: the high job evicted the block from the cache
    Stretch {
        until: 39,
        owner: LOW_JOB,
        pcs: [0x1004, 0x2004],
        fetch: Some(Fetch {
            job: LOW_JOB,
            address: 0x1004,
            access: Access::Miss,
        }),
        ends: (End::Open, End::Answered(32)),
    },
    Stretch {
        until: 48,
        owner: LOW_JOB,
        pcs: [0x1004, 0x2004],
        fetch: None,
        ends: (End::Open, End::Answered(32)),
    },
    Stretch {
        until: 49,
        owner: LOW_JOB,
        pcs: [0x1004, 0x2004],
        fetch: None,
        ends: (End::Answered(49), End::Answered(32)),
    },
    // no job is ready, and the owner stays
    Stretch {
        until: 55,
        owner: LOW_JOB,
        pcs: [0x1004, 0x2004],
        fetch: None,
        ends: (End::Answered(49), End::Answered(32)),
    },
];

// The pc of the job at a place of the script.
fn pc_at(machine: &Machine, place: usize) -> u32
    requires { place < length machine.now.state.jobs }
{
    let job = machine.completions()[place].job;
    machine.pc(job)
}

// Whether this is observed of the job at a place.
fn is_job_seen(machine: &Machine, place: usize, job: JobId, pc: u32, end: End) -> bool
    requires { place < length machine.now.state.jobs }
{
    let completion = &machine.completions()[place];
    completion.job == job && completion.end == end && pc_at(machine, place) == pc
}

// Whether this is observed of the two jobs.
fn are_jobs_seen(machine: &Machine, pcs: &[u32; 2], ends: &(End, End)) -> bool {
    machine.completions().len() == 2
        && is_job_seen(machine, 0, LOW_JOB, pcs[0], ends.0)
        && is_job_seen(machine, 1, HIGH_JOB, pcs[1], ends.1)
}

// Whether this is observed of the two jobs and of the last cycle.
fn is_seen(machine: &Machine, stretch: &Stretch) -> bool {
    machine.owner() == Some(stretch.owner)
        && machine.last_fetch() == stretch.fetch
        && are_jobs_seen(machine, &stretch.pcs, &stretch.ends)
}

// Makes the cycles of a stretch one by one, and compares after each.
fn pass(rt: &impl Abort, machine: &mut Machine, code: &CodeMap, stretch: &Stretch)
    requires { HasPlans code.now machine.old.state }
    ensures { HasPlans code.now machine.new.state }
{
    for step in machine.steps()..stretch.until {
        assert!(rt; machine.steps() == step);
        machine.cycle(code).expect(rt, "memory");
        assert!(rt;
            machine.steps() == step + 1 && is_seen(machine, stretch),
            "after {step}"
        );
    }
}

// Whether no cycle was made.
fn is_new(machine: &Machine) -> bool {
    machine.steps() == 0 && machine.owner().is_none() && machine.last_fetch().is_none()
}

// Makes the cycles of all stretches from the start on, in order.
fn pass_all(rt: &impl Abort, machine: &mut Machine, code: &CodeMap)
    requires { HasPlans code.now machine.old.state }
{
    assert!(rt; is_new(machine));
    for stretch in &STRETCHES {
        pass(rt, machine, code, stretch);
        assert!(rt; machine.steps() == stretch.until);
    }
}

// Makes the cycles of a script, and compares after each.
fn pass_script(rt: &impl Abort, alloc: Global, loaded: &Loaded, script: &Script)
    requires tasks { NamesTasks loaded.now.set script.now.jobs }
    requires jobs { length script.now.jobs < 2 ^ 32 }
{
    let code = &loaded.code;
    let mut machine = Machine::load(alloc, code, &loaded.set, script).expect(rt, "memory");
    pass_all(rt, &mut machine, code);
}

// Makes the cycles of the script of a case.
fn pass_loaded(rt: &impl Abort, alloc: Global, loaded: &Loaded, case: &Case) {
    let set = &loaded.set;
    let script = script_of(rt, alloc, set, case.cycles, case.blocks, case.jobs);
    pass_script(rt, alloc, loaded, &script);
}

fn pass_case(rt: &impl Abort, alloc: Global, case: &Case) {
    let loaded = case.load(rt, alloc);
    pass_loaded(rt, alloc, &loaded, case);
}

static CASE: Case<'static> = INTERRUPTED;

#[test]
fn interrupted_instruction(rt: HostRuntime) {
    pass_case(&rt, rt.alloc(), &CASE);
}
