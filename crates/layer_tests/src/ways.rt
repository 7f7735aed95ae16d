// The bounds of programs with several paths are their least potentials.
ghost use Rattle.std.specs.Prelude.{◌<◌, ◌≤◌};
ghost use Rattle.icache.specs.Accesses.{accesses};
ghost use Rattle.flat_graph.specs.CodeGraph as code_graph;
ghost use Rattle.flat_graph.specs.CodeGraph.{places_of};
ghost use Rattle.loop_regions.specs.CodeNest.{IsNestOf};
ghost use Rattle.must_cache.specs.States.{AreSure};

use crate::graphs::graph_and_nest;
use crate::loading::{Loaded, ONE, PLATFORM, Program, Stated, load};
use crate::words::{CALL_LOOP, CALLS, ECALL, LOOP, NESTED, RET};
use crpd_base::{Platform, Switching};
use exec_bound::{Bound, bound};
use flat_graph::Graph;
use icache::Geometry;
use loop_regions::Nest;
use must_cache::{MustState, must};
use std::alloc::Global;
use std::process::Abort;
use std::slice;

// Three instructions in sequence.
const STRAIGHT: [u32; 3] = [
    0xFFF2_8293, // addi x5,x5,-1
    0x0273_02B3, // mul x5,x6,x7
    ECALL,
];

// A completion by a return.
const RETURN: [u32; 2] = [
    0xFFF2_8293, // addi x5,x5,-1
    RET,
];

// Two paths that join.
const DIAMOND: [u32; 5] = [
    0x0062_8663, // beq x5,x6,12
    0x0273_02B3, // mul x5,x6,x7
    0x0080_006F, // jal x0,8
    0xFFF2_8293, // addi x5,x5,-1
    ECALL,
];

// A loop with two exits.
pub(crate) const TWO_EXITS: [u32; 7] = [
    0xFFF2_8293, // addi x5,x5,-1
    0x0002_8863, // beq x5,x0,16
    0xFFF3_0313, // addi x6,x6,-1
    0x0003_0663, // beq x6,x0,12
    0xFF5F_F06F, // jal x0,-12
    0x0273_02B3, // mul x5,x6,x7
    ECALL,
];

// A loop with two paths that join.
const LOOPED_DIAMOND: [u32; 7] = [
    0xFFF2_8293, // addi x5,x5,-1
    0x0062_8663, // beq x5,x6,12
    0x0273_02B3, // mul x5,x6,x7
    0x0080_006F, // jal x0,8
    0xFFF2_8293, // addi x5,x5,-1
    0xFE02_98E3, // bne x5,x0,-16
    ECALL,
];

// Two loops in sequence.
pub(crate) const ROW: [u32; 5] = [
    0xFFF2_8293, // addi x5,x5,-1
    0xFE02_9EE3, // bne x5,x0,-4
    0xFFF2_8293, // addi x5,x5,-1
    0xFE02_9EE3, // bne x5,x0,-4
    ECALL,
];

// A loop in which the job completes.
const ANSWER_INSIDE: [u32; 4] = [
    0xFFF2_8293, // addi x5,x5,-1
    0x0002_8463, // beq x5,x0,8
    0xFFDF_F06F, // jal x0,-4
    ECALL,
];

// A loop around a loop that can leave both at once.
pub(crate) const LEAVES_BOTH: [u32; 6] = [
    0xFFF2_8293, // addi x5,x5,-1
    0x0002_8863, // beq x5,x0,16
    0xFE03_1EE3, // bne x6,x0,-4
    0xFE03_9AE3, // bne x7,x0,-12
    0xFFF2_8293, // addi x5,x5,-1
    ECALL,
];

// A loop around a loop that can continue with the outer loop's next iteration.
pub(crate) const NEXT_TURN: [u32; 6] = [
    0xFFF2_8293, // addi x5,x5,-1
    0xFFF2_8293, // addi x5,x5,-1
    0xFE02_8CE3, // beq x5,x0,-8
    0xFE03_1CE3, // bne x6,x0,-8
    0xFE03_98E3, // bne x7,x0,-16
    ECALL,
];

// A function with a loop, called twice.
pub(crate) const CALLED_LOOP: [u32; 7] = [
    0x0100_00EF, // jal x1,16
    0x00C0_00EF, // jal x1,12
    ECALL,
    0x0000_0013, // addi x0,x0,0
    0xFFF2_8293, // addi x5,x5,-1
    0xFE02_9EE3, // bne x5,x0,-4
    RET,
];

// A loop around a call of a function with a loop.
pub(crate) const LOOP_IN_CALL: [u32; 6] = [
    0x00C0_00EF, // jal x1,12
    0xFE03_1EE3, // bne x6,x0,-4
    ECALL,
    0xFFF2_8293, // addi x5,x5,-1
    0xFE02_9EE3, // bne x5,x0,-4
    RET,
];

// Three nested loops.
const THREE: [u32; 6] = [
    0xFFF2_8293, // addi x5,x5,-1
    0xFFF2_8293, // addi x5,x5,-1
    0x0002_9063, // bne x5,x0,0
    0xFE03_1CE3, // bne x6,x0,-8
    0xFE03_98E3, // bne x7,x0,-16
    ECALL,
];

// A multiplication costs 4 additional cycles.
pub(crate) static COSTS: Platform = Platform { mul: 4, ..PLATFORM };

// Two cache sets with lines of two words, and costs that are all different.
pub(crate) static SMALL: Platform = Platform {
    line: 8,
    sets: 2,
    hit: 2,
    miss: 17,
    memory: 5,
    taken: 3,
    switch: 0,
    mul: 11,
    div: 23,
    switching: Switching::Cycle,
};

// A bound, and the potentials of the nodes and of the regions.
pub(crate) type Potentials = (u64, &'static [u64], &'static [u64]);

// Words, stated loops, and the least potentials with the costs of each of the two platforms.
type Way = (&'static [u32], &'static [Stated], Potentials, Potentials);

// The potentials of all tables are those that a plain program in a different language computes from
// the words by a slow fixpoint. Here, words without a loop.
static STRAIGHT_WAYS: [Way; 4] = [
    (
        &STRAIGHT,
        &[],
        (17, &[17, 6, 1], &[]),
        (51, &[51, 32, 19], &[]),
    ),
    (&RETURN, &[], (14, &[14, 3], &[]), (24, &[24, 5], &[])),
    (
        &DIAMOND,
        &[],
        (30, &[30, 19, 14, 12, 11], &[]),
        (73, &[73, 54, 41, 38, 19], &[]),
    ),
    (
        &CALLS,
        &[],
        (45, &[45, 34, 30, 14, 8, 4, 3, 27, 11], &[]),
        (145, &[145, 126, 119, 75, 31, 7, 5, 97, 53], &[]),
    ),
];

// Loops with one exit and with several.
static LOOP_WAYS: [Way; 4] = [
    (
        &LOOP,
        &[(0x1004, 3, (0x1004, 0x100C))],
        (24, &[24, 4, 3, 1], &[13]),
        (93, &[93, 24, 22, 2], &[74]),
    ),
    (
        &TWO_EXITS,
        &[(0x1004, 5, (0x1004, 0x1014))],
        (117, &[117, 16, 15, 14, 13, 26, 11], &[106]),
        (378, &[378, 62, 43, 24, 22, 49, 19], &[359]),
    ),
    (
        &LOOPED_DIAMOND,
        &[(0x1004, 4, (0x1004, 0x1018))],
        (120, &[120, 27, 21, 16, 24, 13, 1], &[109]),
        (342, &[342, 76, 57, 27, 41, 22, 19], &[323]),
    ),
    (
        &ANSWER_INSIDE,
        &[(0x1004, 6, (0x1004, 0x1010))],
        (35, &[35, 4, 3, 1], &[24]),
        (163, &[163, 24, 22, 19], &[144]),
    ),
];

// Loops in sequence, and loops with calls.
static CALL_WAYS: [Way; 4] = [
    (
        &ROW,
        &[(0x1000, 3, (0x1000, 0x1008)), (0x1008, 7, (0x1008, 0x1010))],
        (81, &[14, 3, 4, 3, 11], &[81, 39]),
        (259, &[24, 5, 24, 5, 19], &[259, 187]),
    ),
    (
        &CALL_LOOP,
        &[(0x1004, 2, (0x1004, 0x1010))],
        (52, &[52, 20, 4, 3, 1, 17], &[41]),
        (140, &[140, 51, 24, 5, 19, 46], &[121]),
    ),
    (
        &CALLED_LOOP,
        &[(0x1010, 5, (0x1010, 0x1018))],
        (113, &[113, 27, 1, 14, 3, 30, 4, 3, 4], &[100, 24]),
        (330, &[330, 166, 19, 24, 5, 188, 24, 5, 24], &[308, 144]),
    ),
    (
        &LOOP_IN_CALL,
        &[(0x1000, 3, (0x1000, 0x1008)), (0x100C, 4, (0x100C, 0x1014))],
        (226, &[75, 3, 1, 14, 13, 6], &[226, 62]),
        (641, &[213, 22, 2, 41, 22, 27], &[641, 191]),
    ),
];

// Nested loops.
static NEST_WAYS: [Way; 4] = [
    (
        &NESTED,
        &[(0x1000, 2, (0x1000, 0x100C)), (0x1004, 3, (0, 0))],
        (47, &[23, 3, 3, 1], &[47, 12]),
        (114, &[56, 5, 22, 2], &[114, 37]),
    ),
    (
        &LEAVES_BOTH,
        &[(0x1000, 3, (0x1000, 0x1010)), (0x1004, 4, (0x1004, 0x100C))],
        (112, &[30, 4, 3, 3, 22, 11], &[112, 19]),
        (398, &[120, 24, 22, 5, 38, 19], &[398, 101]),
    ),
    (
        &NEXT_TURN,
        &[(0x1000, 3, (0x1000, 0x1014)), (0x1004, 4, (0x1004, 0x1010))],
        (133, &[44, 5, 4, 3, 13, 1], &[133, 33]),
        (437, &[145, 26, 24, 5, 22, 2], &[437, 126]),
    ),
    (
        &THREE,
        &[
            (0x1000, 2, (0x1000, 0x1014)),
            (0x1004, 3, (0x1004, 0x1010)),
            (0x1008, 1_000, (0, 0)),
        ],
        (18_073, &[9036, 3004, 3, 3, 13, 1], &[18_073, 9025, 3003]),
        (
            132_126,
            &[66_062, 22_007, 22, 5, 22, 2],
            &[132_126, 66_043, 22_005],
        ),
    ),
];

// The must states, with room for 512 cache sets.
fn states_of(
    rt: &impl Abort,
    alloc: Global,
    platform: &Platform,
    graph: &Graph,
) -> Vec<MustState<512>>
    requires line { 0 < platform.now.line }
    requires sets { 0 < platform.now.sets }
    requires room { platform.now.sets ≤ 512 }
    ensures { AreSure (code_graph.graph_of graph.now)
        (accesses platform.now (places_of graph.now).address) result.items }
{
    must::<512>(alloc, graph, &Geometry::new(platform)).expect(rt, "memory")
}

// The bound of a graph.
fn bound_of(
    rt: &impl Abort,
    alloc: Global,
    platform: &Platform,
    graph: &Graph,
    nest: &Nest,
) -> Bound
    requires line { 0 < platform.now.line }
    requires sets { 0 < platform.now.sets }
    requires room { platform.now.sets ≤ 512 }
    requires nest { IsNestOf graph.now nest.now }
{
    let states = states_of(rt, alloc, platform, graph);
    bound(alloc, graph, nest, platform, &states)
        .ok()
        .expect(rt, "a bound")
}

// Compares a bound and all its potentials.
pub(crate) fn compare_bound(rt: &impl Abort, found: &Bound, want: &Potentials) {
    let (cycles, nodes, loops) = *want;
    assert!(rt; found.cycles == cycles);
    assert!(rt; found.nodes.as_slice() == nodes && found.loops.as_slice() == loops);
}

// Compares the bound of a graph.
fn compare_graph(
    rt: &impl Abort,
    alloc: Global,
    platform: &Platform,
    graph: &Graph,
    nest: &Nest,
    want: &Potentials,
)
    requires line { 0 < platform.now.line }
    requires sets { 0 < platform.now.sets }
    requires room { platform.now.sets ≤ 512 }
    requires nest { IsNestOf graph.now nest.now }
{
    let found = bound_of(rt, alloc, platform, graph, nest);
    compare_bound(rt, &found, want);
}

// Compares the bound of what was loaded.
fn compare_loaded(rt: &impl Abort, alloc: Global, loaded: &Loaded, want: &Potentials) {
    let of = graph_and_nest(rt, alloc, &loaded.code);
    compare_graph(rt, alloc, &loaded.set.platform, &of.0, &of.1, want);
}

// Compares the bound of a program.
fn compare_way(
    rt: &impl Abort,
    alloc: Global,
    platform: &Platform,
    program: &Program,
    want: &Potentials,
) {
    let loaded = load(rt, alloc, platform, slice::from_ref(program));
    compare_loaded(rt, alloc, &loaded, want);
}

// Compares the bounds of a program with the costs of both platforms.
fn compare_row(rt: &impl Abort, alloc: Global, way: &Way) {
    let &(words, loops, costs, small) = way;
    let program = Program {
        words,
        loops,
        ..ONE
    };
    compare_way(rt, alloc, &COSTS, &program, &costs);
    compare_way(rt, alloc, &SMALL, &program, &small);
}

// Compares the bounds of each program of a table.
fn compare_rows(rt: &impl Abort, alloc: Global, ways: &[Way]) {
    for way in ways {
        compare_row(rt, alloc, way);
    }
}

#[test]
fn bounds_are_least_potentials(rt: HostRuntime) {
    compare_rows(&rt, rt.alloc(), &STRAIGHT_WAYS);
    compare_rows(&rt, rt.alloc(), &LOOP_WAYS);
    compare_rows(&rt, rt.alloc(), &CALL_WAYS);
    compare_rows(&rt, rt.alloc(), &NEST_WAYS);
}
