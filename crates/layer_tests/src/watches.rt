// Watches over short lists of instructions.
ghost use Rattle.std.specs.Prelude.{length};
ghost use Rattle.flow_watch.specs.Iterations.{HasIterations};

use crpd_base::{Items, LoopAt, TaskPlan};
use flow_watch::{Addresses, Watch, stays_in_frame};
use rv_decode::Ins;
use std::alloc::Global;
use std::process::Abort;

// The address at which a job ends.
const END: u32 = 0xFFFF_FFFC;

const NEXT: Ins = Ins::Addi {
    rd: 0,
    rs1: 0,
    imm: 0,
};

const CALL: Ins = Ins::Jal { rd: 1, imm: 64 };

const RETURN: Ins = Ins::Jalr {
    rd: 0,
    rs1: 1,
    imm: 0,
};

// A stated loop with one range.
#[derive(Clone, Copy)]
struct Stated {
    head: u32,
    bound: u32,
    range: (u32, u32),
}

// A stated loop of a plan.
fn loop_of(rt: &impl Abort, alloc: Global, stated: &Stated) -> LoopAt {
    let mut ranges = Vec::new(alloc);
    ranges.push(stated.range).expect(rt, "memory");
    LoopAt {
        head: stated.head,
        bound: stated.bound,
        ranges: Items::new(ranges),
    }
}

// A plan with the entry 0x100.
fn plan(rt: &impl Abort, alloc: Global, loops: &[Stated]) -> TaskPlan {
    let mut list = Vec::new(alloc);
    for stated in loops {
        let stated = loop_of(rt, alloc, stated);
        list.push(stated).expect(rt, "memory");
    }
    TaskPlan {
        entry: 0x100,
        stack: 0,
        global: 0,
        loops: Items::new(list),
    }
}

// The watch after the steps, each an instruction and the address after it, up to the end of the
// job.
fn watch_after(rt: &impl Abort, alloc: Global, plan: &TaskPlan, steps: &[Step]) -> Watch
    ensures { HasIterations (length plan.now.loops) result }
{
    let mut watch = Watch::start(alloc, plan).expect(rt, "memory");
    let mut from = plan.entry;
    for step in steps {
        watch.step(plan, from, &step.0, step.1);
        if step.1 == END {
            break;
        }
        from = step.1;
    }
    watch
}

const ONCE: Stated = Stated {
    head: 0x100,
    bound: 1,
    range: (0x100, 0x110),
};

const TWICE: Stated = Stated {
    head: 0x100,
    bound: 2,
    range: (0x100, 0x110),
};

const THRICE: Stated = Stated {
    head: 0x100,
    bound: 3,
    range: (0x100, 0x120),
};

const NEVER: Stated = Stated {
    head: 0x100,
    bound: 0,
    range: (0, 0),
};
// Its range begins before its head.
const BEFORE: Stated = Stated {
    head: 0x108,
    bound: 1,
    range: (0x104, 0x10C),
};

// A jump and a link by x5, and jumps and links by a register.
const JUMP: Ins = Ins::Jal { rd: 0, imm: 64 };

const OTHER_LINK: Ins = Ins::Jal { rd: 5, imm: 64 };

const OTHER_RETURN: Ins = Ins::Jalr {
    rd: 0,
    rs1: 5,
    imm: 0,
};

const LATE_RETURN: Ins = Ins::Jalr {
    rd: 0,
    rs1: 1,
    imm: 4,
};

const LINKED_RETURN: Ins = Ins::Jalr {
    rd: 1,
    rs1: 1,
    imm: 0,
};

// An instruction with the address after it.
type Step = (Ins, u32);

const HEAD: Step = (NEXT, 0x100);

const CALLED: Step = (CALL, 0x200);

const BACK: Step = (RETURN, 0x104);

// Stated loops, steps, whether the watch is broken, and the calls under way.
type Followed = (&'static [Stated], &'static [Step], bool, &'static [u32]);

static FOLLOWED: [Followed; 28] = [
    // the entry is a first iteration of a loop of which it is the head
    (&[ONCE], &[], false, &[]),
    (&[ONCE], &[HEAD], true, &[]),
    (&[NEVER], &[], true, &[]),
    // a bound is reached, and exceeded by one
    (&[TWICE], &[HEAD], false, &[]),
    (&[TWICE], &[HEAD, HEAD], true, &[]),
    // a loop that is left is entered again; its range ends before its second address and begins
    // with its first
    (&[TWICE], &[HEAD, (NEXT, 0x10C), HEAD], true, &[]),
    (&[TWICE], &[HEAD, (NEXT, 0x110), HEAD, HEAD], false, &[]),
    (
        &[TWICE],
        &[HEAD, (NEXT, 0x110), HEAD, HEAD, HEAD],
        true,
        &[],
    ),
    (
        &[BEFORE],
        &[(NEXT, 0x108), (NEXT, 0x104), (NEXT, 0x108)],
        true,
        &[],
    ),
    (
        &[BEFORE],
        &[(NEXT, 0x108), (NEXT, 0x100), (NEXT, 0x108)],
        false,
        &[],
    ),
    // two loops with one HEAD, of which the smaller one is left
    (&[TWICE, THRICE], &[HEAD, (NEXT, 0x114), HEAD], false, &[]),
    (
        &[TWICE, THRICE],
        &[HEAD, (NEXT, 0x114), HEAD, HEAD],
        true,
        &[],
    ),
    // a CALLED, its return, and a return to another address
    (&[], &[CALLED], false, &[0x100]),
    (&[], &[CALLED, BACK], false, &[]),
    (&[], &[CALLED, (RETURN, 0x200)], true, &[]),
    (&[], &[CALLED, (RETURN, END)], true, &[]),
    // a call leaves the loop around it open
    (&[TWICE], &[CALLED, BACK, HEAD, CALLED, BACK], false, &[]),
    (
        &[TWICE],
        &[CALLED, BACK, HEAD, CALLED, BACK, HEAD],
        true,
        &[],
    ),
    // sixteen calls, and one more
    (
        &[],
        &[CALLED; 16],
        false,
        &[
            0x100, 0x200, 0x200, 0x200, 0x200, 0x200, 0x200, 0x200, 0x200, 0x200, 0x200, 0x200,
            0x200, 0x200, 0x200, 0x200,
        ],
    ),
    (&[], &[CALLED; 17], true, &[]),
    // different links and different indirect jumps; a broken watch stays broken
    (&[], &[(JUMP, 0x140)], false, &[]),
    (&[], &[(OTHER_LINK, 0x140)], true, &[]),
    (&[], &[(OTHER_RETURN, 0x104)], true, &[]),
    (&[], &[(LATE_RETURN, 0x104)], true, &[]),
    (
        &[],
        &[CALLED, (LINKED_RETURN, 0x104), HEAD, CALLED],
        true,
        &[],
    ),
    // the bottom frame returns to the end
    (&[], &[(RETURN, END)], false, &[]),
    (&[], &[(RETURN, 0x104)], true, &[]),
    (&[ONCE], &[(NEXT, END)], false, &[]),
];

fn compare_watch(rt: &impl Abort, alloc: Global, plan: &TaskPlan, row: &Followed) {
    let &(_, steps, broken, calls) = row;
    let watch = watch_after(rt, alloc, plan, steps);
    assert!(rt; watch.broken() == broken && watch.context() == calls);
}

fn compare_followed(rt: &impl Abort, alloc: Global, row: &Followed) {
    let plan = plan(rt, alloc, row.0);
    compare_watch(rt, alloc, &plan, row);
}

#[test]
fn follows(rt: HostRuntime) {
    for row in &FOLLOWED {
        compare_followed(&rt, rt.alloc(), row);
    }
}

// The quiet range of addresses around an address after steps, also without loops.
type Quiet = (&'static [Stated], &'static [Step], u32, (u32, u32));

static QUIET: [Quiet; 11] = [
    (&[], &[], 0x100, (0, u32::MAX)),
    // an open loop, from after its head to the end of its range
    (&[TWICE], &[], 0x100, (0x101, 0x110)),
    (&[TWICE], &[], 0x10C, (0x101, 0x110)),
    (&[TWICE], &[], 0x110, (0, 0)),
    // a loop that was left, and one in another frame
    (&[TWICE], &[(NEXT, 0x110)], 0x110, (0x101, u32::MAX)),
    (&[TWICE], &[CALLED], 0x200, (0x101, u32::MAX)),
    // before the head of a loop that is not open, and of one whose range begins before it
    (&[BEFORE], &[], 0x100, (0, 0x108)),
    (
        &[BEFORE],
        &[(NEXT, 0x108), (NEXT, 0x104)],
        0x104,
        (0x104, 0x108),
    ),
    // two open loops
    (&[TWICE, THRICE], &[], 0x104, (0x101, 0x110)),
    // a broken watch, and one whose bottom frame was popped
    (&[NEVER], &[], 0x100, (0, u32::MAX)),
    (&[TWICE], &[(RETURN, END)], END, (0, u32::MAX)),
];

fn compare_addresses(rt: &impl Abort, alloc: Global, plan: &TaskPlan, row: &Quiet) {
    let &(_, steps, near, (from, until)) = row;
    let watch = watch_after(rt, alloc, plan, steps);
    assert!(rt; watch.quiet(plan, near) == Addresses { from, until });
}

fn compare_quiet(rt: &impl Abort, alloc: Global, row: &Quiet) {
    let plan = plan(rt, alloc, row.0);
    compare_addresses(rt, alloc, &plan, row);
}

#[test]
fn quiet_addresses(rt: HostRuntime) {
    for row in &QUIET {
        compare_quiet(&rt, rt.alloc(), row);
    }
}

// Whether an instruction stays in its frame.
static STAY: [(Ins, bool); 6] = [
    (NEXT, true),
    (JUMP, true),
    (CALL, false),
    (RETURN, false),
    (OTHER_LINK, false),
    (OTHER_RETURN, false),
];

#[test]
fn frames_that_stay(rt: HostRuntime) {
    for (ins, stays) in &STAY {
        assert!(rt; stays_in_frame(ins) == *stays);
    }
}
