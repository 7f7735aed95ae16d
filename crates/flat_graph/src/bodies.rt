// The bodies of the nodes in the order of numbering.
ghost use Rattle.std.specs.Prelude.{◌≡◌, ◌≢◌, ◌≤◌, ◌<◌, ◌^◌, ◌⊎◌, ℕ, Some, None, IfOk, IfErr};
ghost use Rattle.std.specs.Prelude.{length, slice_get, slice_index_or, map, All};
ghost use Rattle.code_map.specs.Words.{word_at};
ghost use Rattle.rv_decode.specs.Flow.{flows};
ghost use Rattle.crpd_base.specs.Limits.{most_nodes};
ghost use Rattle.flat_graph.specs.FlatGraph.{error_of};
ghost use Rattle.flat_graph.specs.Inner.StoredGraph.{next_nodes};
ghost use Rattle.flat_graph.specs.Inner.Points.{point_node};
ghost use Rattle.flat_graph.specs.GraphErrors.{IsGraphError};
ghost use Rattle.flat_graph.specs.Inner.GraphParts.{IsBodyAt, IsErrorAt, AreNodeBodies};
ghost use Rattle.flat_graph.specs.Inner.GraphErrors.{IsNodeError};
ghost use Rattle.flat_graph.specs.Inner.Ordered.{AreOrdered, AreRanks, HaveOwnPlaces, nodes_of};

use crate::checks::check;
use crate::contexts::calls_of;
use crate::error::GraphError;
use crate::graph::{NextNodes, NodeBody};
use crate::points::ProgramPoint;
use crate::reach::Ordered;
use code_map::CodeMap;
use std::alloc::{AllocError, Global};

/// The numbers of nodes, by the places at which their points were found.
pub(crate) fn ranks(alloc: Global, ordered: &Ordered) -> Result<Vec<u32>, AllocError>
    requires few { length ordered.now.points.items ≤ most_nodes }
    requires below { All (λ p. p.place < length ordered.now.points.items) ordered.now.points.items }
    requires apart { HaveOwnPlaces ordered.now.points.items }
    ensures count { IfOk result (λ ranks. length ranks.items ≡ length ordered.now.points.items) }
    ensures ranks { IfOk result (λ ranks. AreRanks ordered.now.points.items ranks.items) }
{
    let mut ranks = vec![in alloc; 0; ordered.points.len()]?;
    for rank in 0..ordered.points.len() {
        let found = ordered.points[rank];
        ranks[found.place as usize] = rank as u32;
    }
    Ok(ranks)
}

/// The numbers of successors, from the places at which they were found.
fn renumbered(next: NextNodes, ranks: &[u32]) -> NextNodes
    requires { All (λ v. v < length ranks.now) (next_nodes next) }
    ensures { next_nodes result ≡ map (λ v. slice_index_or ranks.now v 0) (next_nodes next) }
{
    match next {
        NextNodes::Ends => NextNodes::Ends,
        NextNodes::To(only) => NextNodes::To(ranks[only as usize]),
        NextNodes::Either(first, second) => NextNodes::Either(
            ranks[first as usize],
            ranks[second as usize],
        ),
    }
}

/// The error of a node that has one.
fn error_at(code: &CodeMap, entry: u32, ordered: &Ordered, point: &ProgramPoint) -> GraphError
    requires { error_of (flows (word_at code.now.images)) entry
        (point_node ordered.now.lists.items point.now) ≢ None }
    ensures { IsNodeError (flows (word_at code.now.images)) entry
        (point_node ordered.now.lists.items point.now) result }
{
    let calls = calls_of(ordered.lists.as_slice(), point.context);
    match check(code, entry, calls, point.address) {
        Ok(_) => unreachable!(),
        Err(error) => error,
    }
}

/// The body of the node at a place, or the node's error.
fn node_body(
    code: &CodeMap,
    entry: u32,
    ordered: &Ordered,
    ranks: &[u32],
    place: usize,
) -> Result<NodeBody, GraphError>
    requires few { length ordered.now.points.items ≤ most_nodes }
    requires ordered { AreOrdered (word_at code.now.images) entry ordered.now }
    requires count { length ranks.now ≡ length ordered.now.points.items }
    requires ranks { AreRanks ordered.now.points.items ranks.now }
    requires there { place < length ordered.now.points.items }
    ensures body { IfOk result
        (IsBodyAt (word_at code.now.images) entry (nodes_of ordered.now) place) }
    ensures refused { IfErr result
        (IsErrorAt (flows (word_at code.now.images)) entry (nodes_of ordered.now) place) }
{
    let found = ordered.points[place];
    let body = ordered.bodies[found.place as usize];
    match body {
        Some(known) => {
            let next = renumbered(known.next, ranks);
            Ok(NodeBody {
                ins: known.ins,
                next,
            })
        }
        None => Err(error_at(code, entry, ordered, &found.point)),
    }
}

/// The bodies of the nodes in the order of numbering, or the error of the first node that has one.
pub(crate) fn bodies(
    alloc: Global,
    code: &CodeMap,
    entry: u32,
    ordered: &Ordered,
    ranks: &[u32],
) -> Result<Vec<NodeBody>, GraphError>
    requires few { length ordered.now.points.items ≤ most_nodes }
    requires ordered { AreOrdered (word_at code.now.images) entry ordered.now }
    requires count { length ranks.now ≡ length ordered.now.points.items }
    requires ranks { AreRanks ordered.now.points.items ranks.now }
    ensures bodies { IfOk result
        (λ v. AreNodeBodies (word_at code.now.images) entry (nodes_of ordered.now) v.items) }
    ensures count { IfOk result (λ v. length v.items ≡ length ordered.now.points.items) }
    ensures refused { IfErr result (IsGraphError (flows (word_at code.now.images)) entry) }
{
    let mut bodies = Vec::with_capacity(alloc, ordered.points.len())?;
    for place in 0..ordered.points.len() {
        bodies.push(node_body(code, entry, ordered, ranks, place)?)?;
    }
    Ok(bodies)
}
