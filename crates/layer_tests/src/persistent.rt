// Bounds and useful cache sets of programs with loops whose blocks stay loaded, and bounds where
// edges have prices.
ghost use Rattle.std.specs.Prelude.{◌≡◌, ◌≤◌, ◌↔◌, All, IsTrue, length};
ghost use Rattle.crpd_base.specs.Ranges.{IsPlatform};
ghost use Rattle.exec_bound.specs.Costs.{greatest_bound};
ghost use Rattle.loop_regions.specs.CodeNest.{IsNestOf};

use crate::graphs::graph_and_nest;
use crate::loading::{Loaded, ONE, Program, Stated, load};
use crate::ranges::is_platform;
use crate::ways::{
    CALLED_LOOP, COSTS, LEAVES_BOTH, LOOP_IN_CALL, NEXT_TURN, Potentials, ROW, SMALL, TWO_EXITS,
    compare_bound,
};
use crate::words::{CALL_LOOP, ECALL, LOOP, NESTED, RET};
use crpd_base::{LONGEST_TIME, Platform};
use exec_bound::bound_with_prices;
use flat_graph::Graph;
use loop_regions::Nest;
use persistent_blocks::{PersistentPart, persistent_part};
use std::alloc::Global;
use std::process::Abort;
use std::slice;

// A loop over two lines of 16 bytes, of three iterations.
const TWO_LINES: [u32; 10] = [
    0x0030_0293, // addi x5,x0,3
    0x0000_0013, // addi x0,x0,0
    0x0000_0013, // addi x0,x0,0
    0x0000_0013, // addi x0,x0,0
    0x0000_0013, // addi x0,x0,0
    0x0000_0013, // addi x0,x0,0
    0x0000_0013, // addi x0,x0,0
    0xFFF2_8293, // addi x5,x5,-1
    0xFE02_98E3, // bne x5,x0,-16
    ECALL,
];

// A loop around a call of a function in the loop's last line and the next one.
const TWO_LINES_CALLED: [u32; 12] = [
    0x0020_0313, // addi x6,x0,2
    0x0000_0013, // addi x0,x0,0
    0x0000_0013, // addi x0,x0,0
    0x0180_00EF, // jal x1,24
    0xFFF3_0313, // addi x6,x6,-1
    0xFE03_1CE3, // bne x6,x0,-8
    ECALL,
    0x0000_0013, // addi x0,x0,0
    0x0000_0013, // addi x0,x0,0
    0x0000_0013, // addi x0,x0,0
    RET,
    RET,
];

// A bound, and the useful cache sets before each node, one bit for each.
type Part = (u64, &'static [u64]);

// Words, stated loops, and the persistent part with the costs of each of the two platforms.
type PartRow = (&'static [u32], &'static [Stated], Part, Part);

// Which nodes are hits, the prices of their edges, and the least potentials with both.
type Priced = (&'static [bool], &'static [u64], Potentials);

// Words, stated loops, and what holds with the costs of each of the two platforms.
type PricedRow = (&'static [u32], &'static [Stated], Priced, Priced);

// All tables are those that a plain program in a different language computes from the words. Here,
// loops behind each other, around calls, and at the first node.
static LOOP_PARTS: [PartRow; 6] = [
    (
        &TWO_LINES,
        &[(0x1010, 3, (0x1010, 0x1024))],
        (
            56,
            &[
                0b0000, 0b0001, 0b0001, 0b0001, 0b0110, 0b0110, 0b0110, 0b0110, 0b0110, 0b0100,
            ],
        ),
        (
            202,
            &[
                0b0000, 0b0001, 0b0000, 0b0010, 0b0010, 0b0011, 0b0010, 0b0010, 0b0010, 0b0001,
            ],
        ),
    ),
    (
        &LOOP,
        &[(0x1004, 3, (0x1004, 0x100C))],
        (24, &[0b0000, 0b0001, 0b0001, 0b0001]),
        (59, &[0b0000, 0b0011, 0b0011, 0b0010]),
    ),
    (
        &TWO_EXITS,
        &[(0x1004, 5, (0x1004, 0x1014))],
        (
            57,
            &[0b0000, 0b0011, 0b0011, 0b0011, 0b0011, 0b0010, 0b0010],
        ),
        (
            310,
            &[0b0000, 0b0010, 0b0010, 0b0010, 0b0010, 0b0000, 0b0000],
        ),
    ),
    (
        &ROW,
        &[(0x1000, 3, (0x1000, 0x1008)), (0x1008, 7, (0x1008, 0x1010))],
        (61, &[0b0001, 0b0001, 0b0001, 0b0001, 0b0000]),
        (123, &[0b0001, 0b0001, 0b0010, 0b0010, 0b0000]),
    ),
    (
        &CALL_LOOP,
        &[(0x1004, 2, (0x1004, 0x1010))],
        (42, &[0b0000, 0b0011, 0b0011, 0b0011, 0b0010, 0b0011]),
        (140, &[0b0000, 0b0001, 0b0001, 0b0011, 0b0000, 0b0001]),
    ),
    (
        &TWO_LINES_CALLED,
        &[(0x100C, 2, (0x100C, 0x1018))],
        (
            56,
            &[
                0b0000, 0b0001, 0b0001, 0b0111, 0b0111, 0b0111, 0b0010, 0b0111, 0b0111,
            ],
        ),
        (
            233,
            &[
                0b0000, 0b0001, 0b0000, 0b0000, 0b0000, 0b0001, 0b0000, 0b0000, 0b0000,
            ],
        ),
    ),
];

// Loops in loops and in functions.
static NEST_PARTS: [PartRow; 5] = [
    (
        &NESTED,
        &[(0x1000, 2, (0x1000, 0x100C)), (0x1004, 3, (0, 0))],
        (37, &[0b0001, 0b0001, 0b0001, 0b0001]),
        (80, &[0b0011, 0b0011, 0b0011, 0b0010]),
    ),
    (
        &LEAVES_BOTH,
        &[(0x1000, 3, (0x1000, 0x1010)), (0x1004, 4, (0x1004, 0x100C))],
        (92, &[0b0001, 0b0001, 0b0001, 0b0001, 0b0000, 0b0000]),
        (177, &[0b0011, 0b0011, 0b0011, 0b0011, 0b0000, 0b0000]),
    ),
    (
        &NEXT_TURN,
        &[(0x1000, 3, (0x1000, 0x1014)), (0x1004, 4, (0x1004, 0x1010))],
        (93, &[0b0011, 0b0011, 0b0011, 0b0011, 0b0011, 0b0010]),
        (250, &[0b0010, 0b0011, 0b0011, 0b0011, 0b0010, 0b0001]),
    ),
    (
        &CALLED_LOOP,
        &[(0x1010, 5, (0x1010, 0x1018))],
        (
            73,
            &[
                0b0000, 0b0011, 0b0001, 0b0011, 0b0011, 0b0011, 0b0011, 0b0011, 0b0011,
            ],
        ),
        (
            194,
            &[
                0b0000, 0b0010, 0b0000, 0b0001, 0b0001, 0b0000, 0b0011, 0b0011, 0b0010,
            ],
        ),
    ),
    (
        &LOOP_IN_CALL,
        &[(0x1000, 3, (0x1000, 0x1008)), (0x100C, 4, (0x100C, 0x1014))],
        (96, &[0b0011, 0b0011, 0b0001, 0b0011, 0b0011, 0b0011]),
        (301, &[0b0010, 0b0010, 0b0010, 0b0011, 0b0011, 0b0011]),
    ),
];

// With the prices of the blocks that edges bring.
static PRICED: [PricedRow; 3] = [
    (
        &TWO_LINES,
        &[(0x1010, 3, (0x1010, 0x1024))],
        (
            &[false, true, true, true, true, true, true, true, true, true],
            &[0, 0, 0, 0, 0, 0, 20, 0, 0, 0, 0, 0, 0, 0, 0, 0, 0, 0, 0, 0],
            (56, &[56, 45, 44, 43, 7, 6, 5, 4, 3, 1], &[22]),
        ),
        (
            &[
                false, true, false, true, false, true, true, true, false, true,
            ],
            &[0, 0, 0, 0, 0, 0, 17, 0, 0, 0, 0, 0, 0, 0, 0, 0, 0, 0, 0, 0],
            (202, &[202, 183, 181, 162, 47, 28, 26, 24, 22, 2], &[143]),
        ),
    ),
    (
        &CALLED_LOOP,
        &[(0x1010, 5, (0x1010, 0x1018))],
        (
            &[false, true, true, true, true, true, true, true, true],
            &[10, 0, 0, 0, 0, 0, 0, 0, 0, 0, 0, 0, 0, 0, 0, 0, 0, 0],
            (73, &[73, 27, 1, 4, 3, 30, 4, 3, 4], &[50, 24]),
        ),
        (
            &[false, false, false, true, true, false, true, true, true],
            &[17, 0, 17, 0, 0, 0, 0, 0, 0, 0, 0, 0, 0, 0, 0, 0, 0, 0],
            (194, &[194, 98, 19, 7, 5, 120, 7, 5, 24], &[155, 59]),
        ),
    ),
    (
        &LOOP_IN_CALL,
        &[(0x1000, 3, (0x1000, 0x1008)), (0x100C, 4, (0x100C, 0x1014))],
        (
            &[true, true, true, true, true, true],
            &[0, 0, 0, 0, 0, 0, 0, 0, 0, 0, 0, 0],
            (76, &[25, 3, 1, 4, 3, 6], &[76, 22]),
        ),
        (
            &[false, false, true, true, true, true],
            &[17, 0, 0, 0, 0, 0, 0, 0, 0, 0, 0, 0],
            (284, &[94, 22, 2, 7, 5, 27], &[284, 55]),
        ),
    ),
];

// The persistent part of a task.
fn part_of(
    rt: &impl Abort,
    alloc: Global,
    platform: &Platform,
    graph: &Graph,
    nest: &Nest,
) -> PersistentPart
    requires { IsNestOf graph.now nest.now }
{
    assert!(rt; is_platform(platform));
    persistent_part(alloc, graph, nest, platform)
        .expect(rt, "memory")
        .expect(rt, "a bound")
}

// Compares a bound, and the useful cache sets before each node.
fn compare_part(rt: &impl Abort, found: &PersistentPart, want: &Part) {
    assert!(rt; found.part.bound == want.0);
    assert!(rt; found.useful.len() == want.1.len());
    for (useful, mask) in found.useful.iter().zip(want.1) {
        assert!(rt; useful.word(0) == *mask);
    }
}

// Compares the useful cache sets of a task with those before its nodes.
fn compare_union(rt: &impl Abort, found: &PersistentPart) {
    let mut all = 0;
    for useful in &found.useful {
        all |= useful.word(0);
    }
    assert!(rt; found.part.useful.word(0) == all);
}

fn compare_graph(
    rt: &impl Abort,
    alloc: Global,
    platform: &Platform,
    graph: &Graph,
    nest: &Nest,
    want: &Part,
)
    requires { IsNestOf graph.now nest.now }
{
    let found = part_of(rt, alloc, platform, graph, nest);
    compare_part(rt, &found, want);
    compare_union(rt, &found);
}

fn compare_loaded(rt: &impl Abort, alloc: Global, loaded: &Loaded, want: &Part) {
    let of = graph_and_nest(rt, alloc, &loaded.code);
    compare_graph(rt, alloc, &loaded.set.platform, &of.0, &of.1, want);
}

fn compare_program(
    rt: &impl Abort,
    alloc: Global,
    platform: &Platform,
    program: &Program,
    want: &Part,
) {
    let loaded = load(rt, alloc, platform, slice::from_ref(program));
    compare_loaded(rt, alloc, &loaded, want);
}

fn compare_rows(rt: &impl Abort, alloc: Global, rows: &[PartRow]) {
    for &(words, loops, costs, small) in rows {
        let program = Program {
            words,
            loops,
            ..ONE
        };
        compare_program(rt, alloc, &COSTS, &program, &costs);
        compare_program(rt, alloc, &SMALL, &program, &small);
    }
}

#[test]
fn persistent_parts(rt: HostRuntime) {
    compare_rows(&rt, rt.alloc(), &LOOP_PARTS);
    compare_rows(&rt, rt.alloc(), &NEST_PARTS);
}

// Whether it is at most 2^40.
#[tactic(auto, unfolding(exec_bound::specs::Costs::greatest_bound))]
fn is_price(price: &u64) -> bool
    ensures { IsTrue result ↔ (price.now ≤ greatest_bound) }
{
    *price <= LONGEST_TIME
}

fn are_prices(prices: &[u64]) -> bool
    ensures { IsTrue result ↔ All (λ x. x ≤ greatest_bound) prices.now }
{
    prices.iter().all(is_price)
}

// Compares the potentials with these hits and prices.
fn compare_priced(
    rt: &impl Abort,
    alloc: Global,
    platform: &Platform,
    graph: &Graph,
    nest: &Nest,
    want: &Priced,
)
    requires { IsNestOf graph.now nest.now }
{
    let &(hits, prices, potentials) = want;
    assert!(rt; hits.len() == graph.len() as usize && are_prices(prices));
    let found = bound_with_prices(alloc, graph, nest, platform, hits, prices)
        .ok()
        .expect(rt, "a bound");
    compare_bound(rt, &found, &potentials);
}

fn compare_priced_program(
    rt: &impl Abort,
    alloc: Global,
    platform: &Platform,
    program: &Program,
    want: &Priced,
) {
    let loaded = load(rt, alloc, platform, slice::from_ref(program));
    let of = graph_and_nest(rt, alloc, &loaded.code);
    compare_priced(rt, alloc, platform, &of.0, &of.1, want);
}

#[test]
fn bounds_with_prices(rt: HostRuntime) {
    for &(words, loops, costs, small) in &PRICED {
        let program = Program {
            words,
            loops,
            ..ONE
        };
        compare_priced_program(&rt, rt.alloc(), &COSTS, &program, &costs);
        compare_priced_program(&rt, rt.alloc(), &SMALL, &program, &small);
    }
}
