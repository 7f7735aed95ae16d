// The costs of a graph's edges, and the longest cost of one instruction of a task.
ghost use Rattle.std.specs.Prelude.{◌≡◌, ℕ, ◌<◌, ◌≤◌, ◌^◌, false, if◌then◌else◌, length};
ghost use Rattle.crpd_base.specs.Ranges.{IsPlatform};
ghost use Rattle.rv_decode.specs.Cost.{cost};
ghost use Rattle.flat_graph.specs.CodeGraph.{graph_of, node_code};
ghost use Rattle.flat_graph.specs.EdgeCost.{edge_cost, end_cost};
ghost use Rattle.delay_count.specs.Demand.{HasLongest};
ghost use Rattle.evict_sets.specs.Longest.{longest_at_node, longest, AreLongest};
ghost use Rattle.flat_graph.specs.CodeGraph.{answers_of};
ghost use Rattle.evict_sets.specs.Inner.CostRange.{HasWordCosts};

use crpd_base::{NodeId, Platform, TaskSet};
use flat_graph::{Graph, Kind};
use rv_decode::{Ins, cost};

/// The costs of a platform are numbers of 32 bits.
fn costs_law(platform: &Platform)
    ensures { HasWordCosts platform.now }
{
    prove!(platform.hit <= u32::MAX);
    prove!(platform.miss <= u32::MAX);
    prove!(platform.memory <= u32::MAX);
    prove!(platform.taken <= u32::MAX);
    prove!(platform.mul <= u32::MAX);
    prove!(platform.div <= u32::MAX);
}

/// The cycles of an instruction.
fn cycles(platform: &Platform, ins: &Ins, miss: bool, taken: bool) -> u64
    ensures cost { result ≡ cost platform.now ins.now miss taken }
    ensures small { result < 2 ^ 34 }
{
    costs_law(platform);
    cost(platform, ins, miss, taken)
}

/// The cost of an edge in cycles, below 2^34, given whether its source counts as a hit. An edge to
/// any address except the next one is a change of flow. In constant time.
pub fn edge_cost(
    graph: &Graph,
    platform: &Platform,
    source: NodeId,
    target: NodeId,
    hit: bool,
) -> u64
    requires source { source.0 < (graph_of graph.now).size }
    requires target { target.0 < (graph_of graph.now).size }
    ensures cost { result ≡ edge_cost platform.now (node_code graph.now)
        (λ y. hit) source.0 target.0 }
    ensures small { result < 2 ^ 34 }
{
    let straight = u64::from(graph.address(source)) + 4;
    let taken = u64::from(graph.address(target)) != straight;
    cycles(platform, &graph.ins(source), !hit, taken)
}

/// The cost in cycles of a completing node's edge to the end, given whether the node counts as a
/// hit; 0 at other nodes. It includes a change of flow, except for an ECALL. In constant time.
pub fn end_cost(graph: &Graph, platform: &Platform, id: NodeId, hit: bool) -> u64
    requires { id.0 < (graph_of graph.now).size }
    ensures { result ≡ (if answers_of graph.now id.0
        then end_cost platform.now (node_code graph.now) (λ y. hit) id.0 else 0) }
{
    let node = graph.node(id);
    match node.kind {
        Kind::Answer => cost(platform, &node.ins, !hit, true),
        _ => 0,
    }
}

/// The largest cost of a node's edges, with a miss.
fn node_longest(graph: &Graph, platform: &Platform, id: NodeId) -> u64
    requires { id.0 < (graph_of graph.now).size }
    ensures { result ≡ longest_at_node platform.now (graph_of graph.now) (node_code graph.now)
        (answers_of graph.now) id.0 }
{
    let mut greatest = end_cost(graph, platform, id, false);
    for next in graph.successors(id) {
        greatest = edge_cost(graph, platform, id, next, false).max(greatest);
    }
    greatest
}

/// The longest cost in cycles of one instruction of a task: the largest cost of any edge of its
/// graph, those to the end included, if each fetch misses. One pass over the nodes. It takes no
/// memory.
pub fn longest(graph: &Graph, platform: &Platform) -> u64
    ensures { result ≡ longest platform.now (graph_of graph.now) (node_code graph.now)
        (answers_of graph.now) }
{
    let mut greatest = 0;
    for node in 0..graph.len() {
        greatest = node_longest(graph, platform, NodeId(node)).max(greatest);
    }
    greatest
}

/// A law: on a platform in its ranges, the longest cost of one instruction of a task is from 1 to
/// 2^18 cycles. In constant time.
pub fn longest_law(graph: &Graph, platform: &Platform)
    requires { IsPlatform platform.now }
    ensures some { 1 ≤ longest platform.now (graph_of graph.now) (node_code graph.now)
        (answers_of graph.now) }
    ensures small { longest platform.now (graph_of graph.now) (node_code graph.now)
        (answers_of graph.now) ≤ 2 ^ 18 }
{
    graph.graph_law();
}

/// The longest cost of one instruction of a task, 1 to 2^18 cycles.
fn longest_cost(graph: &Graph, platform: &Platform) -> u64
    requires { IsPlatform platform.now }
    ensures is { result ≡ longest platform.now (graph_of graph.now) (node_code graph.now)
        (answers_of graph.now) }
    ensures some { 1 ≤ result }
    ensures small { result ≤ 2 ^ 18 }
{
    longest_law(graph, platform);
    longest(graph, platform)
}

/// Writes the longest cost of one instruction of each task, from 1 to 2^18 cycles, at the task's
/// place in a list with at least as many places. There is one graph for each task. Linear in the
/// nodes of all graphs. It takes no memory.
pub fn write_longest(set: &TaskSet, graphs: &[Graph], longest: &mut [u64])
    requires platform { IsPlatform set.now.platform }
    requires graphs { length graphs.now ≡ length set.now.tasks }
    requires room { length set.now.tasks ≤ length longest.old }
    ensures each { AreLongest set.now graphs.now longest.new }
    ensures range { HasLongest set.now longest.new }
{
    for k in 0..graphs.len() {
        longest[k] = longest_cost(&graphs[k], &set.platform);
    }
}
