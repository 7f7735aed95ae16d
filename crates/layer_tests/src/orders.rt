// Certificates whose states are in an order that a text may not have, or have several entries for a
// node or for a cache set.
ghost use Rattle.std.specs.Prelude.{◌<◌, ◌↔◌, ℕ, All, IsTrue, length};
ghost use Rattle.crpd_base.specs.declared.data.NodeState.{NodeState};
ghost use Rattle.crpd_base.specs.declared.data.TaskPart.{TaskPart};
ghost use Rattle.loop_regions.specs.CodeNest.{IsNestOf};
ghost use Rattle.cert_check.specs.Ranges.{HasLowSets, IsCertificateInRange};

use crate::graphs::graph_and_nest;
use crate::loading::{Loaded, ONE, PLATFORM, Program, load, text_of};
use crate::ranges::is_set_of_one;
use crate::sets::sets_of;
use crate::words::LOOP;
use cert_check::{Verdict, verdict};
use crpd_base::{Certificate, Items, LONGEST_TIME, Method, NodeState, Part, TaskPart, TaskSet};
use flat_graph::Graph;
use loop_regions::Nest;
use std::alloc::Global;
use std::process::Abort;
use std::slice;

// What is listed at a node: its number, the blocks of cache sets, and the useful cache sets.
type Entry = (u32, &'static [(u16, u32)], &'static [u16]);

const FIRST: Entry = (0, &[], &[]);

const SECOND: Entry = (1, &[(0, 256)], &[0]);

// The task `one`, and what a certificate says of it, except for its states. Its evicting sets are
// the set 0, and so are its useful sets.
#[derive(Clone, Copy)]
struct Told {
    programs: &'static [Program<'static>; 1],
    bound: u64,
    potentials: &'static [u64],
    loops: &'static [u64],
    window: u64,
}

const ONE_TOLD: Told = Told {
    programs: &[ONE],
    bound: 12,
    potentials: &[12, 1],
    loops: &[],
    window: 17,
};

// A loop of its second and third word, of at most three iterations.
const LOOP_TOLD: Told = Told {
    programs: &[Program {
        words: &LOOP,
        loops: &[(0x1004, 3, (0x1004, 0x100C))],
        ..ONE
    }],
    bound: 24,
    potentials: &[24, 4, 3, 1],
    loops: &[13],
    window: 29,
};

// What a certificate says, its states in order, and the clause and the place of the verdict if that
// is no.
type Order = (Told, &'static [Entry], Option<(u8, u32)>);

static ORDERS: [Order; 9] = [
    (ONE_TOLD, &[SECOND, FIRST], None),
    (LOOP_TOLD, &[(3, &[(0, 256)], &[0]), SECOND, FIRST], None),
    (ONE_TOLD, &[SECOND], Some((2, 0))),
    // the first of two entries of a node counts
    (ONE_TOLD, &[FIRST, (0, &[(0, 256)], &[])], None),
    (ONE_TOLD, &[(0, &[(0, 256)], &[]), FIRST], Some((3, 0))),
    (ONE_TOLD, &[SECOND, FIRST, (1, &[(0, 256)], &[])], None),
    (
        ONE_TOLD,
        &[(1, &[(0, 256)], &[]), FIRST, SECOND],
        Some((4, 1)),
    ),
    // the first of two blocks of a cache set counts
    (ONE_TOLD, &[FIRST, (1, &[(0, 256), (0, 257)], &[0])], None),
    (
        ONE_TOLD,
        &[FIRST, (1, &[(0, 257), (0, 256)], &[0])],
        Some((3, 0)),
    ),
];

fn states_of(rt: &impl Abort, alloc: Global, entries: &[Entry]) -> Vec<NodeState> {
    let mut states = Vec::new(alloc);
    for (node, sure, useful) in entries {
        let sure = Vec::from_slice(alloc, sure).expect(rt, "memory");
        let state = NodeState {
            node: *node,
            sure: Items::new(sure),
            useful: sets_of(useful),
        };
        states.push(state).expect(rt, "memory");
    }
    states
}

fn numbers_of(rt: &impl Abort, alloc: Global, numbers: &[u64]) -> Items<u64> {
    Items::new(Vec::from_slice(alloc, numbers).expect(rt, "memory"))
}

fn part_of(rt: &impl Abort, alloc: Global, told: &Told, entries: &[Entry]) -> TaskPart {
    TaskPart {
        name: text_of(rt, alloc, "one"),
        part: Part {
            bound: told.bound,
            evicting: sets_of(&[0]),
            useful: sets_of(&[0]),
        },
        states: Items::new(states_of(rt, alloc, entries)),
        potentials: numbers_of(rt, alloc, told.potentials),
        loops: numbers_of(rt, alloc, told.loops),
        method: Method::Ucb,
        window: told.window,
        response: told.window,
    }
}

fn is_low(pair: &(u16, u32)) -> bool
    ensures { IsTrue result ↔ pair.now.0 < 512 }
{
    pair.0 < 512
}

fn is_low_state(state: &NodeState) -> bool
    ensures { IsTrue result ↔ All (λ (x : ℕ × ℕ). x.0 < 512) state.now.sure }
{
    state.sure.iter().all(is_low)
}

fn has_low_sets(part: &TaskPart) -> bool
    ensures { IsTrue result ↔ HasLowSets part.now }
{
    part.states.iter().all(is_low_state)
}

fn is_in_range(certificate: &Certificate) -> bool
    ensures { IsTrue result → IsCertificateInRange certificate.now }
{
    match certificate.tasks.as_slice() {
        [part] => has_low_sets(part) && part.window <= LONGEST_TIME,
        _ => false,
    }
}

// The certificate of one task.
fn certificate_of(rt: &impl Abort, alloc: Global, part: TaskPart) -> Certificate
    ensures { IsCertificateInRange result }
{
    let mut tasks = Vec::new(alloc);
    tasks.push(part).expect(rt, "memory");
    let certificate = Certificate {
        platform: PLATFORM,
        tasks: Items::new(tasks),
    };
    assert!(rt; is_in_range(&certificate));
    certificate
}

// The clause and the place if the verdict is no.
fn refused(verdict: Verdict) -> Option<(u8, u32)> {
    match verdict {
        Verdict::Yes => None,
        Verdict::No { clause, place, .. } => Some((clause, place)),
    }
}

// Compares the verdict on a certificate of a set of one task, with this graph and regions.
fn compare_verdict(
    rt: &impl Abort,
    set: &TaskSet,
    graph: &Graph,
    nest: &Nest,
    certificate: &Certificate,
    want: Option<(u8, u32)>,
)
    requires nest { IsNestOf graph.now nest.now }
    requires certificate { IsCertificateInRange certificate.now }
{
    assert!(rt; is_set_of_one(set));
    let (graphs, nests) = (slice::from_ref(graph), slice::from_ref(nest));
    assert!(rt; refused(verdict(set, graphs, nests, certificate)) == want);
}

// Compares the verdict on a certificate of what was loaded.
fn compare_loaded(
    rt: &impl Abort,
    alloc: Global,
    loaded: &Loaded,
    certificate: &Certificate,
    want: Option<(u8, u32)>,
)
    requires { IsCertificateInRange certificate.now }
{
    let of = graph_and_nest(rt, alloc, &loaded.code);
    compare_verdict(rt, &loaded.set, &of.0, &of.1, certificate, want);
}

// Compares the verdict on a certificate of one program.
fn compare_program(rt: &impl Abort, alloc: Global, order: &Order, certificate: &Certificate)
    requires { IsCertificateInRange certificate.now }
{
    let programs = order.0.programs;
    let loaded = load(rt, alloc, &PLATFORM, programs);
    compare_loaded(rt, alloc, &loaded, certificate, order.2);
}

fn compare_order(rt: &impl Abort, alloc: Global, order: &Order) {
    let part = part_of(rt, alloc, &order.0, order.1);
    let certificate = certificate_of(rt, alloc, part);
    compare_program(rt, alloc, order, &certificate);
}

#[test]
fn orders_of_states(rt: HostRuntime) {
    for order in &ORDERS {
        compare_order(&rt, rt.alloc(), order);
    }
}
