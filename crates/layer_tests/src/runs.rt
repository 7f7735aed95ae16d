// Runs of scripts by both machines: the one that makes one cycle at a time, and `run_fast`.
ghost use Rattle.std.specs.Prelude.{◌<◌, ◌^◌, length};
ghost use Rattle.preempt_machine.specs.Safe.{NamesTasks};

use crate::cases::{BOTH, CASES, Case};
use crate::loading::Loaded;
use crate::scripts::script_of;
use crpd_base::{Script, Switching};
use preempt_fast::run_fast;
use preempt_machine::Machine;
use std::alloc::Global;
use std::process::Abort;

// The machine that made the cycles of a script, in two parts.
fn machine_after(rt: &impl Abort, alloc: Global, loaded: &Loaded, script: &Script) -> Box<Machine>
    requires tasks { NamesTasks loaded.now.set script.now.jobs }
    requires jobs { length script.now.jobs < 2 ^ 32 }
{
    let code = &loaded.code;
    let mut machine = Machine::load(alloc, code, &loaded.set, script).expect(rt, "memory");
    machine
        .run_until(code, script.cycles / 2)
        .expect(rt, "memory");
    machine.run_until(code, script.cycles).expect(rt, "memory");
    Box::new(alloc, machine).expect(rt, "memory")
}

// Runs a script by both machines, and compares its jobs' completions and whether all watches are
// kept.
fn compare_run(rt: &impl Abort, alloc: Global, loaded: &Loaded, script: &Script)
    requires tasks { NamesTasks loaded.now.set script.now.jobs }
    requires jobs { length script.now.jobs < 2 ^ 32 }
{
    let machine = machine_after(rt, alloc, loaded, script);
    let ended = run_fast(alloc, &loaded.code, &loaded.set, script).expect(rt, "memory");
    assert!(rt; ended.0.as_slice() == machine.completions() && ended.1 == machine.kept());
}

// Runs the script of a case.
fn compare_script(rt: &impl Abort, alloc: Global, loaded: &Loaded, case: &Case) {
    let set = &loaded.set;
    let script = script_of(rt, alloc, set, case.cycles, case.blocks, case.jobs);
    compare_run(rt, alloc, loaded, &script);
}

fn compare(rt: &impl Abort, alloc: Global, case: &Case) {
    let loaded = case.load(rt, alloc);
    compare_script(rt, alloc, &loaded, case);
}

#[test]
fn scripts(rt: HostRuntime) {
    for case in &CASES {
        compare(&rt, rt.alloc(), case);
    }
}

// The cycles of a switch, and where one may happen.
static SWITCHES: [(u32, Switching); 4] = [
    (5, Switching::Cycle),
    (5, Switching::Instruction),
    (0, Switching::Cycle),
    (0, Switching::Instruction),
];

static PAIR_RELEASED: Case<'static> = Case {
    cycles: 120,
    ..BOTH
};

// The high job is released in each cycle of the low job's switch and instructions, and again this
// number of cycles later.
fn compare_releases(rt: &impl Abort, alloc: Global, switches: (u32, Switching), later: u64)
    requires { later < 100 }
{
    let (switch, switching) = switches;
    for release in 0u64..50 {
        let again = release + later;
        let jobs = [(1, 0, 0), (0, release, release), (0, again, again)];
        let case = Case {
            switch,
            switching,
            jobs: &jobs,
            ..PAIR_RELEASED
        };
        compare(rt, alloc, &case);
    }
}

#[test]
fn releases(rt: HostRuntime) {
    for &switches in &SWITCHES {
        compare_releases(&rt, rt.alloc(), switches, 1);
        compare_releases(&rt, rt.alloc(), switches, 7);
    }
}
