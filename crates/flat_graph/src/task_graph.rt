// The flat graph of a task from the code.
ghost use Rattle.std.specs.Prelude.{◌≡◌, ◌≤◌, ◌<◌, ℕ, Bool, Some, IfOk, IfErr, IfSome, length};
ghost use Rattle.std.specs.Prelude.{slice_get, map};
ghost use Rattle.code_map.specs.Words.{word_at};
ghost use Rattle.rv_decode.specs.Flow.{flows};
ghost use Rattle.crpd_base.specs.Limits.{most_nodes};
ghost use Rattle.flat_graph.specs.Inner.GraphParts.{AreStoredNodes, AreKeptNodes};
ghost use Rattle.flat_graph.specs.Inner.Leaders.{is_leading};
ghost use Rattle.flat_graph.specs.Inner.Ordered.{AreOrdered, AreRanks, IsEntryAt};
ghost use Rattle.flat_graph.specs.Inner.Points.{points_of};
ghost use Rattle.flat_graph.specs.CodeGraph.{IsCodeGraph};
ghost use Rattle.flat_graph.specs.GraphErrors.{IsGraphError};

use crate::bodies::{bodies, ranks};
use crate::error::GraphError;
use crate::graph::{Graph, NodeBody, StoredNode};
use crate::leaders::{Mark, all_marks, is_leader};
use crate::reach::{Ordered, reach};
use code_map::CodeMap;
use crpd_base::{Items, MOST_NODES, Task};
use std::alloc::{AllocError, Global};

/// The nodes of the points, with their bodies; their marks show which are leaders.
fn stored_nodes(
    alloc: Global,
    ordered: &Ordered,
    bodies: &[NodeBody],
    marks: &[Mark],
) -> Result<Vec<StoredNode>, AllocError>
    requires bodies { length bodies.now ≡ length ordered.now.points.items }
    requires marks { length marks.now ≡ length ordered.now.points.items }
    ensures count { IfOk result (λ v. length v.items ≡ length ordered.now.points.items) }
    ensures stored_nodes { IfOk result
        (λ v. AreStoredNodes (points_of ordered.now.points.items) bodies.now
        (map is_leading marks.now) v.items) }
{
    let mut stored_nodes = Vec::with_capacity(alloc, ordered.points.len())?;
    for place in 0..ordered.points.len() {
        let found = ordered.points[place];
        let body = bodies[place];
        stored_nodes.push(StoredNode {
            context: found.point.context,
            address: found.point.address,
            ins: body.ins,
            next: body.next,
            leader: is_leader(marks[place]),
        })?;
    }
    Ok(stored_nodes)
}

/// The flat graph of a task: the nodes that are reached from its entry, with the calls under way,
/// in the order of numbering, each with its instruction and its successors (RISC-V unprivileged
/// manual: JAL, JALR and the return-address register x1 of the standard calling convention). An
/// `Err` is `TooManyNodes` if more than 16,384 nodes are reached, including those with errors.
/// Otherwise it is the error of the first node that has one, checked in the order `Misaligned`,
/// `OutsideCode`, `Undecodable`, `Breakpoint`, `IndirectJump`, `OtherLink`, `Recursive`, `TooDeep`.
/// Addresses are in bytes. `Memory` may replace any result. Time is n log n in the nodes. Lists of
/// at most 16 calls are compared at calls, at returns and when the nodes are sorted; the word of a
/// node is looked up and decoded once, in time logarithmic in the segments of the code. In addition
/// to the graph, each node is stored four times more while it is built.
pub fn build(alloc: Global, code: &CodeMap, task: Task) -> Result<Graph, GraphError>
    requires { task.0 < length code.now.plans }
    ensures graph { IfOk result
        (λ g. IfSome (slice_get code.now.plans task.0)
        (λ p. IsCodeGraph (word_at code.now.images) p.entry g)) }
    ensures few { IfOk result (λ g. length g.nodes ≤ most_nodes) }
    ensures refused { IfErr result
        (λ e. IfSome (slice_get code.now.plans task.0)
        (λ p. IsGraphError (flows (word_at code.now.images)) p.entry e)) }
{
    graph_from(alloc, code, code.plan(task).entry)
}

/// The nodes of points in the order of numbering; or the error of the first node that has one.
fn nodes_from(
    alloc: Global,
    code: &CodeMap,
    entry: u32,
    ordered: &Ordered,
    ranks: &[u32],
    first: u32,
) -> Result<Vec<StoredNode>, GraphError>
    requires few { length ordered.now.points.items ≤ most_nodes }
    requires ordered { AreOrdered (word_at code.now.images) entry ordered.now }
    requires count { length ranks.now ≡ length ordered.now.points.items }
    requires ranks { AreRanks ordered.now.points.items ranks.now }
    requires first { IsEntryAt entry ordered.now first }
    ensures kept { IfOk result
        (λ nodes. AreKeptNodes (word_at code.now.images) entry ordered.now.lists.items first
        nodes.items) }
    ensures refused { IfErr result (IsGraphError (flows (word_at code.now.images)) entry) }
{
    code.words_law();
    let bodies = bodies(alloc, code, entry, ordered, ranks)?;
    let marks = all_marks(alloc, &bodies, first)?;
    let nodes = stored_nodes(alloc, ordered, &bodies, &marks)?;
    Ok(nodes)
}

/// The flat graph of the code from an entry.
fn graph_from(alloc: Global, code: &CodeMap, entry: u32) -> Result<Graph, GraphError>
    ensures graph { IfOk result (IsCodeGraph (word_at code.now.images) entry) }
    ensures few { IfOk result (λ g. length g.nodes ≤ most_nodes) }
    ensures refused { IfErr result (IsGraphError (flows (word_at code.now.images)) entry) }
{
    let ordered = reach(alloc, code, entry, MOST_NODES)?;
    let ranks = ranks(alloc, &ordered)?;
    let first = ranks[0];
    let nodes = nodes_from(alloc, code, entry, &ordered, &ranks, first)?;
    Ok(Graph {
        contexts: Items::new(ordered.lists),
        nodes: Items::new(nodes),
        first,
    })
}
