// The text of a generated input with late jobs, which the certifier's own generated inputs never
// have.
ghost use Rattle.preempt_machine.specs.Safe.{NamesTasks};

use crate::loading::{PLATFORM, Program, load, text_of};
use crate::programs::HIGH;
use crate::scripts::script_of;
use crate::sets::sets_of;
use cert_check::Verdict;
use crpd_base::{Certificate, Items, JobId, Method, Part, Script, Task, TaskPart, TaskSet};
use crpd_report::generate_text;
use preempt_machine::{Completion, End};
use std::alloc::Global;
use std::process::Abort;

static PROGRAMS: [Program<'static>; 1] = [Program { jitter: 5, ..HIGH }];

// Jobs by task, arrival and release.
static JOBS: [(u8, u64, u64); 7] = [
    (0, 0, 0),
    (0, 100, 103),
    (0, 200, 200),
    (0, 300, 300),
    (0, 400, 400),
    (0, 950, 950),
    (0, 1090, 1090),
];

const FIRST: JobId = JobId {
    task: Task(0),
    number: 0,
};

// Their completions.
static COMPLETIONS: [Completion; 7] = [
    Completion {
        job: FIRST,
        end: End::Answered(20),
    },
    Completion {
        job: JobId { number: 1, ..FIRST },
        end: End::Answered(151),
    },
    Completion {
        job: JobId { number: 2, ..FIRST },
        end: End::Answered(250),
    },
    Completion {
        job: JobId { number: 3, ..FIRST },
        end: End::Open,
    },
    Completion {
        job: JobId { number: 4, ..FIRST },
        end: End::Faulted,
    },
    Completion {
        job: JobId { number: 5, ..FIRST },
        end: End::Open,
    },
    Completion {
        job: JobId { number: 6, ..FIRST },
        end: End::Unreleased,
    },
];

// A certificate of the task with a response time of 50 cycles.
fn certificate(rt: &impl Abort, alloc: Global) -> Certificate {
    let part = TaskPart {
        name: text_of(rt, alloc, "high"),
        part: Part {
            bound: 10,
            evicting: sets_of(&[]),
            useful: sets_of(&[]),
        },
        states: Items::new(Vec::new(alloc)),
        potentials: Items::new(Vec::new(alloc)),
        loops: Items::new(Vec::new(alloc)),
        method: Method::Ucb,
        window: 15,
        response: 50,
    };
    let mut parts = Vec::new(alloc);
    parts.push(part).expect(rt, "memory");
    Certificate {
        platform: PLATFORM,
        tasks: Items::new(parts),
    }
}

// Compares the text of a generated input with the jobs of a script.
fn compare_text(
    rt: &impl Abort,
    alloc: Global,
    set: &TaskSet,
    certificate: &Certificate,
    script: &Script,
)
    requires { NamesTasks set.now script.now.jobs }
{
    let (yes, ends) = (&Verdict::Yes, &COMPLETIONS);
    match generate_text(alloc, 7, 120, set, certificate, yes, script, ends, true) {
        Ok(text) => assert!(rt; text.as_slice() == TEXT.as_bytes()),
        Err(_) => panic!(rt; "no memory"),
    }
}

fn compare_jobs(rt: &impl Abort, alloc: Global, set: &TaskSet, certificate: &Certificate) {
    let script = script_of(rt, alloc, set, 1000, &[], &JOBS);
    compare_text(rt, alloc, set, certificate, &script);
}

fn compare_set(rt: &impl Abort, alloc: Global, set: &TaskSet) {
    let certificate = certificate(rt, alloc);
    compare_jobs(rt, alloc, set, &certificate);
}

static TEXT: &str = "generated 7 tasks 16 nodes 120\nyes\n\
     high bound 10 window 15 response 50 method ucb\n\
     jobs 7 answered 3 late 4\nrun legal kept\n";

// A job that is not complete is late from its arrival plus its response on, and so is a job that
// completes later than that.
#[test]
fn late_jobs(rt: HostRuntime) {
    let loaded = load(&rt, rt.alloc(), &PLATFORM, &PROGRAMS);
    compare_set(&rt, rt.alloc(), &loaded.set);
}
