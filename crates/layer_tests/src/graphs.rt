// What is built from a task's code.
ghost use Rattle.std.specs.Prelude.{◌≡◌, ◌<◌, ◌↔◌, ◌&&◌, nat_le};
ghost use Rattle.std.specs.Prelude.{IsTrue, length};
ghost use Rattle.loop_regions.specs.CodeNest.{AreBounded, IsNestOf};

use code_map::CodeMap;
use crpd_base::{LoopAt, Task, TaskPlan};
use flat_graph::{Graph, build};
use loop_regions::{Nest, regions};
use std::alloc::Global;
use std::process::Abort;

fn is_bounded(l: &LoopAt) -> bool
    ensures { result ≡ (nat_le 1 l.now.bound && nat_le l.now.bound 1000000) }
{
    1 <= l.bound && l.bound <= 1_000_000
}

fn are_bounded(loops: &[LoopAt]) -> bool
    ensures { IsTrue result ↔ AreBounded loops.now }
{
    loops.iter().all(is_bounded)
}

// The graph of the first task.
pub(crate) fn graph_of(rt: &impl Abort, alloc: Global, code: &CodeMap) -> Graph
    requires { 0 < length code.now.plans }
{
    build(alloc, code, Task(0)).ok().expect(rt, "a graph")
}

// The regions of a plan's loops.
fn nest_of(rt: &impl Abort, alloc: Global, graph: &Graph, plan: &TaskPlan) -> Nest
    ensures { IsNestOf graph.now result }
{
    assert!(rt; are_bounded(plan.loops.as_slice()));
    let Ok(nest) = regions(alloc, graph, plan) else {
        panic!(rt; "no regions");
    };
    nest
}

// The graph of the first task, and its regions.
pub(crate) fn graph_and_nest(rt: &impl Abort, alloc: Global, code: &CodeMap) -> Box<(Graph, Nest)>
    requires { 0 < length code.now.plans }
    ensures { IsNestOf result.value.0 result.value.1 }
{
    let graph = graph_of(rt, alloc, code);
    let nest = nest_of(rt, alloc, &graph, code.plan(Task(0)));
    Box::new(alloc, (graph, nest)).expect(rt, "memory")
}
