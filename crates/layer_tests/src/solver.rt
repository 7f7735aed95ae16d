// Facts of small graphs, along the edges and against them, and the number of visits to nodes.
// Against the edges the fact before a node is what holds after it.
ghost use Rattle.std.specs.Prelude.{◌≡◌, ℕ, ◌<◌, Option, length, slice_index_or};
ghost use Rattle.dataflow.specs.Variable.{common_value, first_unknown, known_after};
ghost use Rattle.dataflow.specs.Variable.{one_if_unknown};
ghost use Rattle.dataflow.specs.VariableLaws.{both_joins, known_distributes, unknown_bounded};
ghost use Rattle.dataflow.specs.declared.variable.Use.{Use};
ghost use Rattle.std.proofs.Common.{refl};

use dataflow::{Against, Domain, EdgeList, Known, Live, Use, solve};
use std::alloc::Global;
use std::cell::Cell;
use std::process::Abort;

// The graph of these edges, with a node for each use.
fn graph_of<'a>(rt: &impl Abort, uses: &[Use], edges: &'a [(u32, u32)]) -> EdgeList<'a>
    ensures { result.nodes ≡ length uses.now }
{
    assert!(rt; uses.len() <= NODES);
    EdgeList::new(uses.len() as u32, edges).expect(rt, "ends that are nodes")
}

// What each node of a small graph does, the graph's edges, what is known at each node, and, if
// given here, whether each node is live.
#[derive(Clone, Copy)]
struct Case {
    uses: &'static [Use],
    edges: &'static [(u32, u32)],
    known: &'static [Option<Option<u32>>],
    live: Option<&'static [Option<bool>]>,
}

const DIAMOND: [(u32, u32); 5] = [(0, 1), (0, 2), (1, 3), (2, 3), (3, 4)];

const LOOP: [(u32, u32); 5] = [(0, 1), (1, 2), (2, 1), (1, 3), (4, 3)];

static CASES: [Case; 7] = [
    // a chain
    Case {
        uses: &[Use::Neither, Use::Writes(7), Use::Reads, Use::Neither],
        edges: &[(2, 3), (1, 2), (0, 1)],
        known: &[Some(None), Some(None), Some(Some(7)), Some(Some(7))],
        live: Some(&[Some(false), Some(true), Some(false), Some(false)]),
    },
    // a diamond whose sides write the same number, and one whose sides write different numbers
    Case {
        uses: &[
            Use::Neither,
            Use::Writes(7),
            Use::Writes(7),
            Use::Reads,
            Use::Neither,
        ],
        edges: &DIAMOND,
        known: &[
            Some(None),
            Some(None),
            Some(None),
            Some(Some(7)),
            Some(Some(7)),
        ],
        live: None,
    },
    Case {
        uses: &[
            Use::Reads,
            Use::Writes(7),
            Use::Writes(8),
            Use::Neither,
            Use::Reads,
        ],
        edges: &DIAMOND,
        known: &[Some(None), Some(None), Some(None), Some(None), Some(None)],
        live: None,
    },
    // a diamond with one side that writes
    Case {
        uses: &[
            Use::Neither,
            Use::Writes(7),
            Use::Neither,
            Use::Neither,
            Use::Reads,
        ],
        edges: &DIAMOND,
        known: &[Some(None), Some(None), Some(None), Some(None), Some(None)],
        live: Some(&[Some(true), Some(true), Some(true), Some(true), Some(false)]),
    },
    // a loop that writes, and a node that no path reaches
    Case {
        uses: &[
            Use::Writes(7),
            Use::Neither,
            Use::Writes(8),
            Use::Reads,
            Use::Writes(9),
        ],
        edges: &LOOP,
        known: &[Some(None), Some(None), Some(None), Some(None), None],
        live: Some(&[Some(true), Some(true), Some(true), Some(false), Some(true)]),
    },
    Case {
        uses: &[
            Use::Writes(7),
            Use::Neither,
            Use::Writes(7),
            Use::Reads,
            Use::Writes(9),
        ],
        edges: &LOOP,
        known: &[
            Some(None),
            Some(Some(7)),
            Some(Some(7)),
            Some(Some(7)),
            None,
        ],
        live: None,
    },
    // no nodes
    Case {
        uses: &[],
        edges: &[],
        known: &[],
        live: None,
    },
];

fn compare_known(rt: &impl Abort, alloc: Global, graph: &EdgeList, case: &Case)
    requires { graph.now.nodes ≡ length case.now.uses.now }
{
    let got = solve(alloc, graph, &Known { uses: case.uses }).expect(rt, "memory");
    assert!(rt; got.as_slice() == case.known);
}

fn compare_live(rt: &impl Abort, alloc: Global, graph: &EdgeList, case: &Case)
    requires { graph.now.nodes ≡ length case.now.uses.now }
{
    if let Some(want) = case.live {
        let live = Live { uses: case.uses };
        let got = solve(alloc, &Against::new(graph), &live).expect(rt, "memory");
        assert!(rt; got.as_slice() == want);
    }
}

fn compare_case(rt: &impl Abort, alloc: Global, case: &Case) {
    let graph = graph_of(rt, case.uses, case.edges);
    compare_known(rt, alloc, &graph, case);
    compare_live(rt, alloc, &graph, case);
}

#[test]
fn facts_of_small_graphs(rt: HostRuntime) {
    for case in &CASES {
        compare_case(&rt, rt.alloc(), case);
    }
}

#[test]
fn ends_that_are_no_nodes(rt: HostRuntime) {
    assert!(rt; EdgeList::new(2, &[(0, 2)]).is_none());
    assert!(rt; EdgeList::new(2, &[(2, 0)]).is_none());
}

// Known, with a count of its transfers.
#[derive(Drop)]
struct Counted<'a> {
    uses: &'a [Use],
    visits: &'a Cell<u32>,
}

impl Domain for Counted<'_> {
    type Fact = Option<u32>;

    ghost Value = { Option ℕ };

    ghost view = { λ known. known };

    ghost joined = { common_value };

    ghost passed = { λ d n known. known_after (slice_index_or d.uses.now n Use.Neither) known };

    ghost crossed = { λ d m n v. v };

    ghost begins = { λ d n. first_unknown n };

    ghost height = { λ d known. one_if_unknown known };

    ghost tallest = { λ d. 1 };

    ghost is_own = { λ d n. n < length d.uses.now };

    fn start(&self, node: u32) -> Option<Option<u32>> {
        Known { uses: self.uses }.start(node)
    }

    fn join(&self, a: &mut Option<u32>, b: &Option<u32>) -> bool {
        Known { uses: self.uses }.join(a, b)
    }

    fn transfer(&self, node: u32, known: &mut Option<u32>) {
        self.visits.set(self.visits.get().wrapping_add(1));
        Known { uses: self.uses }.transfer(node, known)
    }

    fn cross(&self, _source: u32, _target: u32, _known: &mut Option<u32>) {}

    ghost joins = { both_joins };

    ghost distributes = { λ d n a b.
        known_distributes (slice_index_or d.uses.now n Use.Neither) a b };

    ghost crosses = { λ d m n a b. refl };

    ghost bounded = { λ d v. unknown_bounded v };
}

// The number of nodes of the largest graph here.
const NODES: usize = 1000;

// That many nodes, of which each third one writes its number.
fn thirds() -> [Use; NODES] {
    let mut uses = [Use::Neither; NODES];
    for i in 0..NODES {
        if i % 3 == 0 {
            uses[i] = Use::Writes(i as u32);
        }
    }
    uses
}

// Edges between the nodes in a special order, from each but the last two to the next two, the last
// edge first.
fn edges_onward() -> [(u32, u32); 1996] {
    let mut edges = [(0, 0); 1996];
    for i in 0..998u32 {
        let from = i * 7 % 1000;
        let place = 2 * (997 - i as usize);
        edges[place + 1] = (from, (i + 1) * 7 % 1000);
        edges[place] = (from, (i + 2) * 7 % 1000);
    }
    edges
}

// In a graph without cycles each node is visited once, for all numbers of nodes and edges.
#[test]
fn each_node_of_a_loop_free_graph_is_visited_once(rt: HostRuntime) {
    let (uses, edges) = (thirds(), edges_onward());
    let graph = graph_of(&rt, &uses, &edges);
    let visits = Cell::new(0);
    let counted = Counted {
        uses: &uses,
        visits: &visits,
    };
    let facts = solve(rt.alloc(), &graph, &counted).expect(&rt, "memory");
    assert!(rt; !facts.contains(&None));
    assert!(rt; visits.get() == 1000);
}
