// The nodes of small programs: the address and the successors of each, what the cache surely holds
// before it, and which of that is useful.
ghost use Rattle.std.specs.Prelude.{◌<◌, length};
ghost use Rattle.flat_graph.specs.CodeGraph as code_graph;

use crate::graphs::graph_of;
use crate::loading::{Loaded, ONE, PLATFORM, Program, load};
use crate::words::{BACK, CALLS, LINES, LOOP, TWO_WORDS};
use code_map::CodeMap;
use crpd_base::{NodeId, Platform, SetBits, Task};
use flat_graph::Graph;
use icache::Geometry;
use must_cache::{MustState, must};
use std::alloc::Global;
use std::process::Abort;
use std::slice;
use useful_sets::useful;

const EIGHT_SETS: Platform = Platform {
    sets: 8,
    ..PLATFORM
};

// A node: the calls under way, its address, whether it is a leader, its successors, the blocks that
// the cache sets surely hold, from the first set on, with 0 if none is known, and the useful sets
// as bits.
type Row = (
    &'static [u32],
    u32,
    bool,
    &'static [u32],
    &'static [u32],
    u64,
);

// The successor of a node at this place.
fn successor(graph: &Graph, id: NodeId, place: u8) -> Option<u32>
    requires node { id.0 < (code_graph.graph_of graph.now).size }
    requires place { place < 2 }
{
    match graph.succ(id, place) {
        Some(next) => Some(next.0),
        None => None,
    }
}

// Whether a node has the address of the row, is found by it, and has the row's successors.
fn is_place(graph: &Graph, id: NodeId, row: &Row) -> bool
    requires { id.0 < (code_graph.graph_of graph.now).size }
{
    let &(calls, address, leads, next, _, _) = row;
    graph.context(id) == calls
        && graph.node(id).address == address
        && graph.leader(id) == leads
        && graph.find(calls, address) == Some(id)
        && successor(graph, id, 0) == next.first().copied()
        && successor(graph, id, 1) == next.get(1).copied()
}

// The block of a row that a cache set surely holds, if one is known.
fn known(held: &[u32], set: u16) -> Option<u32> {
    match held.get(set as usize) {
        Some(&block) if block != 0 => Some(block),
        _ => None,
    }
}

// Whether a state surely holds these blocks, from the first set on, and no others.
fn holds(state: &MustState<8>, held: &[u32]) -> bool {
    for set in 0..8u16 {
        if state.at(set) != known(held, set) {
            return false;
        }
    }
    true
}

// Whether these are the nodes of a graph, with their states and useful sets.
fn are_nodes(graph: &Graph, states: &[MustState<8>], useful: &[SetBits<1>], rows: &[Row]) -> bool {
    let count = graph.len() as usize;
    if rows.len() != count || states.len() != count || useful.len() != count {
        return false;
    }
    for (number, row) in rows.iter().enumerate() {
        let place = is_place(graph, NodeId(number as u32), row);
        if !place || !holds(&states[number], row.4) || useful[number].word(0) != row.5 {
            return false;
        }
    }
    true
}

// Whether no node is found for calls and addresses that no node has.
fn finds_no_others(graph: &Graph) -> bool {
    graph.find(&[], 1).is_none() && graph.find(&[1], 0x1000).is_none()
}

// Compares the nodes of a graph.
fn compare_nodes(rt: &impl Abort, alloc: Global, graph: &Graph, rows: &[Row]) {
    let geometry = Geometry::new(&EIGHT_SETS);
    let states = must::<8>(alloc, graph, &geometry).expect(rt, "memory");
    let useful = useful::<8, 1>(alloc, graph, &geometry, &states).expect(rt, "memory");
    assert!(rt; finds_no_others(graph));
    assert!(rt; are_nodes(graph, &states, &useful, rows));
}

// What is loaded from these words at an address.
fn loaded_of(rt: &impl Abort, alloc: Global, start: u32, words: &[u32]) -> Box<Loaded> {
    let program = Program {
        start,
        words,
        ..ONE
    };
    load(rt, alloc, &PLATFORM, slice::from_ref(&program))
}

// Compares the nodes of the graph of the code.
fn compare_code(rt: &impl Abort, alloc: Global, code: &CodeMap, rows: &[Row])
    requires { 0 < length code.now.plans }
{
    let graph = graph_of(rt, alloc, code);
    compare_nodes(rt, alloc, &graph, rows);
}

// Compares the nodes of the graph of words.
fn compare_flow(rt: &impl Abort, alloc: Global, flow: &Flow) {
    let &(start, words, rows) = flow;
    let loaded = loaded_of(rt, alloc, start, words);
    compare_code(rt, alloc, &loaded.code, rows);
}

// `beq x0,x0,16`, one path by `jal x0,4` and the other by `jal x0,-8` in the next line, to one
// `ecall`.
const MEETING: [u32; 5] = [
    0x0000_0863, // beq x0,x0,16
    0x0040_006F, // jal x0,4
    0x0000_0073, // ecall
    0,
    0xFF9F_F06F, // jal x0,-8
];

// 128 bytes ahead by `jal x0,128`, to a line in the same set, and back to `ecall` by `jal x0,-124`.
const SAME_SET: [u32; 33] = [
    0x0800_006F, // jal x0,128
    0x0000_0073, // ecall
    0,
    0,
    0,
    0,
    0,
    0,
    0,
    0,
    0,
    0,
    0,
    0,
    0,
    0,
    0,
    0,
    0,
    0,
    0,
    0,
    0,
    0,
    0,
    0,
    0,
    0,
    0,
    0,
    0,
    0,
    0xF85F_F06F, // jal x0,-124
];

// The address of the first word, the words, and their nodes.
type Flow = (u32, &'static [u32], &'static [Row]);

// Programs in one line.
static SHORT_FLOWS: [Flow; 2] = [
    (
        0x1000,
        &TWO_WORDS,
        &[
            (&[], 0x1000, true, &[1], &[], 0b0),
            (&[], 0x1004, false, &[], &[0x100], 0b1),
        ],
    ),
    (
        0x1000,
        &LOOP,
        &[
            (&[], 0x1000, true, &[1], &[], 0b0),
            (&[], 0x1004, true, &[2], &[0x100], 0b1),
            (&[], 0x1008, false, &[3, 1], &[0x100], 0b1),
            (&[], 0x100C, true, &[], &[0x100], 0b1),
        ],
    ),
];

// Programs in several lines.
static LINE_FLOWS: [Flow; 3] = [
    (
        0x3010,
        &LINES,
        &[
            (&[], 0x3010, true, &[1], &[], 0b0),
            (&[], 0x3020, false, &[2], &[0, 0x301], 0b0),
            (&[], 0x3030, false, &[3], &[0, 0x301, 0x302], 0b0),
            (&[], 0x3040, false, &[], &[0, 0x301, 0x302, 0x303], 0b0),
        ],
    ),
    (
        0x2010,
        &BACK,
        &[
            (&[], 0x2010, true, &[2], &[], 0b0),
            (&[], 0x2014, false, &[3], &[0, 0x201, 0x202], 0b110),
            (&[], 0x2020, false, &[1], &[0, 0x201], 0b10),
            (&[], 0x2024, false, &[], &[0, 0x201, 0x202], 0b100),
        ],
    ),
    (
        0x1030,
        &BACK,
        &[
            (&[], 0x1030, true, &[2], &[], 0b0),
            (&[], 0x1034, false, &[3], &[0, 0, 0, 0x103, 0x104], 0b11000),
            (&[], 0x1040, false, &[1], &[0, 0, 0, 0x103], 0b1000),
            (&[], 0x1044, false, &[], &[0, 0, 0, 0x103, 0x104], 0b10000),
        ],
    ),
];

// Calls.
static CALL_FLOWS: [Flow; 1] = [(
    0x1000,
    &CALLS,
    &[
        (&[], 0x1000, true, &[1], &[], 0b0),
        (&[], 0x1004, false, &[2], &[0x100], 0b1),
        (&[], 0x1008, false, &[7], &[0x100], 0b1),
        (&[], 0x100C, false, &[8], &[0x100, 0x101], 0b11),
        (&[], 0x1010, false, &[5], &[0x100, 0x101], 0b10),
        (&[], 0x1014, false, &[6], &[0x100, 0x101], 0b10),
        (&[], 0x1018, false, &[], &[0x100, 0x101], 0b10),
        (&[0x1008], 0x101C, false, &[3], &[0x100], 0b1),
        (&[0x100C], 0x101C, false, &[4], &[0x100, 0x101], 0b10),
    ],
)];

// Jumps between lines.
static JUMP_FLOWS: [Flow; 2] = [
    (
        0x1000,
        &MEETING,
        &[
            (&[], 0x1000, true, &[1, 3], &[], 0b0),
            (&[], 0x1004, true, &[2], &[0x100], 0b1),
            (&[], 0x1008, true, &[], &[0x100], 0b1),
            (&[], 0x1010, true, &[2], &[0x100], 0b1),
        ],
    ),
    (
        0x1000,
        &SAME_SET,
        &[
            (&[], 0x1000, true, &[2], &[], 0b0),
            (&[], 0x1004, false, &[], &[0x108], 0b0),
            (&[], 0x1080, false, &[1], &[0x100], 0b0),
        ],
    ),
];

// Compares the nodes of each program of a table.
fn compare_flows(rt: &impl Abort, alloc: Global, flows: &[Flow]) {
    for flow in flows {
        compare_flow(rt, alloc, flow);
    }
}

#[test]
fn nodes_of_small_programs(rt: HostRuntime) {
    compare_flows(&rt, rt.alloc(), &SHORT_FLOWS);
    compare_flows(&rt, rt.alloc(), &LINE_FLOWS);
    compare_flows(&rt, rt.alloc(), &CALL_FLOWS);
    compare_flows(&rt, rt.alloc(), &JUMP_FLOWS);
}

// Addresses, the words there, whether they are the task's own, and the next address of such a word.
static WORDS: [(u32, Option<u32>, bool, Option<u32>); 7] = [
    (0, None, false, Some(0x1000)),
    (0x1000, Some(0x0010_0293), true, Some(0x1000)), // addi x5,x0,1
    (0x1001, None, false, Some(0x1004)),
    (0x1004, Some(0x0000_0073), true, Some(0x1004)), // ecall
    (0x1005, None, false, None),
    (0x1008, None, false, None),
    (0xFFFF_FFF9, None, false, None),
];

// Whether the code has these words.
fn has_words(code: &CodeMap) -> bool
    requires { 0 < length code.now.images }
{
    for &(address, word, own, next) in &WORDS {
        if code.word(address) != word || code.own(Task(0), address) != own {
            return false;
        }
        if code.next_own(Task(0), address) != next {
            return false;
        }
    }
    true
}

#[test]
fn words_of_a_program(rt: HostRuntime) {
    let loaded = loaded_of(&rt, rt.alloc(), 0x1000, &TWO_WORDS);
    assert!(rt; loaded.code.images().len() == 1);
    assert!(rt; has_words(&loaded.code));
}
