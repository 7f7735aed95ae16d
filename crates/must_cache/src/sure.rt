// Which nodes are hits on all walks, and what leaders hold, from one walk to each node and the sets
// in which other walks differ; with what edges bring counted as loaded, or with nothing brought.
ghost use Rattle.std.specs.Prelude.{◌≡◌, ℕ, ◌<◌, ◌≤◌, ◌*◌, Some, IfOk, IsTrue, ◌↔◌, length, map};
ghost use Rattle.std.specs.Prelude.{slice_index_or, false};
ghost use Rattle.crpd_base.specs.Sets.{has};
ghost use Rattle.icache.specs.Accesses.{accesses};
ghost use Rattle.dataflow.specs.Problem.{fact_at};
ghost use Rattle.flat_graph.specs.Graph.{IsLeader};
ghost use Rattle.flat_graph.specs.CodeGraph.{graph_of, places_of};
ghost use Rattle.must_cache.specs.Marks.{sets_at};
ghost use Rattle.must_cache.specs.Sure.{Sure, CountsSureHits};
ghost use Rattle.must_cache.specs.Events.{events};
ghost use Rattle.must_cache.specs.Prepaid.{Prepaid, PrepaidLaw};
ghost use Rattle.must_cache.specs.FirstWalks.{AreSureParts, ArePrepaidParts, IsKept};
ghost use Rattle.must_cache.specs.Inner.GraphFacts.{AreGraphFacts, along};
ghost use Rattle.must_cache.specs.Inner.Marks.{Marks, either_marks, marks_after_access};
ghost use Rattle.must_cache.specs.Inner.Marks.{marks_across};

use crate::brings::{Brings, Nothing};
use crate::facts::{all_present, graph_facts};
use crate::first_walks::first_walks;
use crate::state::MustState;
use crate::unsure::Unsure;
use crpd_base::{Memory, NodeId, SetBits};
use flat_graph::Graph;
use icache::Geometry;
use std::alloc::{AllocError, Global};

/// Which nodes of a graph are hits on all walks, and what its leaders surely hold (read by
/// `sure_at`).
#[derive(Drop)]
pub struct SureParts<const S: usize, const W: usize> {
    /// For each node whose state is kept, the place of its state among `states`. The numbers of
    /// other nodes are not specified.
    pub places: Vec<Option<usize>>,
    /// What one walk leaves in the cache sets, to each node whose state is kept: to leaders, and to
    /// nodes from which an edge brings something.
    pub states: Vec<MustState<S>>,
    /// Whether each node is a hit on all walks.
    pub hits: Vec<bool>,
    /// The sets in which some walk to a node leaves something different from the chosen one.
    pub unsure: Vec<SetBits<W>>,
}

/// The sets in which some walk to a node leaves something different from the chosen one, from those
/// in which an edge to it does.
fn unsure_sets<B: Brings<S, W>, const S: usize, const W: usize>(
    alloc: Global,
    graph: &Graph,
    geometry: &Geometry,
    brings: &B,
    apart: &[SetBits<W>],
) -> Result<Vec<SetBits<W>>, Memory>
    requires few { 64 * W ≤ 65536 }
    requires room { geometry.now.platform.sets ≤ 64 * W }
    requires own { (n : ℕ) → n < (graph_of graph.now).size → B.is_own brings.now n }
    requires apart { length apart.now ≡ (graph_of graph.now).size }
    ensures count { IfOk result (λ sets. length sets.items ≡ (graph_of graph.now).size) }
    ensures least { IfOk result (λ sets. AreGraphFacts Marks (graph_of graph.now)
        (along either_marks
        (marks_after_access (accesses geometry.now.platform (places_of graph.now).address).set)
        (marks_across (B.brings brings.now)) (λ n. Some (λ s. has (sets_at apart.now n) s)) (graph_of graph.now))
        (fact_at (λ set s. has set s) (map Some sets.items))) }
{
    let domain = Unsure::<B, S, W> {
        graph,
        geometry,
        brings,
        apart,
    };
    let facts = graph_facts(alloc, graph, &domain)?;
    let unsure = all_present(alloc, &facts)?;
    Ok(unsure)
}

/// Whether a hit on one walk is one on all walks.
fn sure_one<const W: usize>(hit: bool, unsure: &SetBits<W>, set: u16) -> bool
    requires { set < 64 * W }
    ensures { IsTrue result ↔ (IsTrue hit × (has unsure.now set ≡ false)) }
{
    hit && !unsure.has(set)
}

/// Which hits on one walk are hits on all walks, from the sets in which other walks differ.
fn sure_ones<const W: usize>(
    alloc: Global,
    graph: &Graph,
    geometry: &Geometry,
    hits: &[bool],
    unsure: &[SetBits<W>],
) -> Result<Vec<bool>, AllocError>
    requires few { 64 * W ≤ 65536 }
    requires room { geometry.now.platform.sets ≤ 64 * W }
    requires hits { length hits.now ≡ (graph_of graph.now).size }
    requires unsure { length unsure.now ≡ (graph_of graph.now).size }
    ensures count { IfOk result (λ sure. length sure.items ≡ (graph_of graph.now).size) }
    ensures each { IfOk result (λ sure. (y : ℕ) → y < (graph_of graph.now).size →
        IsTrue (slice_index_or sure.items y false) ↔ (IsTrue (slice_index_or hits.now y false)
        × (has (sets_at unsure.now y)
        ((accesses geometry.now.platform (places_of graph.now).address).set y) ≡ false))) }
{
    let mut sure = Vec::with_capacity(alloc, hits.len())?;
    for node in 0..graph.len() {
        let set = geometry.set(geometry.block(graph.address(NodeId(node))));
        sure.push(sure_one(hits[node as usize], &unsure[node as usize], set))?;
    }
    Ok(sure)
}

/// Which nodes are prepaid hits, and what leaders and nodes from which an edge brings something
/// hold, prepaid: what edges bring is counted as loaded there. One walk is made to each node. Each
/// edge to a node of those that was reached before is compared once, and the sets in which it
/// differs are propagated along the edges.
///
/// The only error is out of memory. Allocates a state for each such node, of 8 bytes for each of S
/// sets, one for each node of a walk whose edges are still to be followed, and some three sets of
/// numbers for each node. A comparison passes over S sets. An edge is followed again whenever the
/// sets at its source have grown, each time over W words. An edge that brings something costs a
/// copy of a state.
pub fn prepaid_parts<B: Brings<S, W>, const S: usize, const W: usize>(
    alloc: Global,
    graph: &Graph,
    geometry: &Geometry,
    brings: &B,
) -> Result<SureParts<S, W>, Memory>
    requires room { geometry.now.platform.sets ≤ S }
    requires few { 64 * W ≤ 65536 }
    requires room_for_sets { S ≤ 64 * W }
    requires own { (n : ℕ) → n < (graph_of graph.now).size → B.is_own brings.now n }
    ensures { IfOk result (λ p.
        ArePrepaidParts (graph_of graph.now)
        (events (accesses geometry.now.platform (places_of graph.now).address)
        (B.brings brings.now) (B.at_start brings.now))
        p.places.items p.states.items p.hits.items p.unsure.items) }
{
    graph.graph_law();
    let walks = first_walks::<B, S, W>(alloc, graph, geometry, brings)?;
    let unsure = unsure_sets::<B, S, W>(alloc, graph, geometry, brings, &walks.apart)?;
    let hits = sure_ones(alloc, graph, geometry, &walks.hits, &unsure)?;
    Ok(SureParts {
        places: walks.met,
        states: walks.states,
        hits,
        unsure,
    })
}

/// Which nodes are hits on all walks, and what leaders surely hold: `prepaid_parts` where no edge
/// brings anything.
pub fn sure_parts<const S: usize, const W: usize>(
    alloc: Global,
    graph: &Graph,
    geometry: &Geometry,
) -> Result<SureParts<S, W>, Memory>
    requires room { geometry.now.platform.sets ≤ S }
    requires few { 64 * W ≤ 65536 }
    requires room_for_sets { S ≤ 64 * W }
    ensures { IfOk result (λ p.
        AreSureParts (graph_of graph.now)
        (accesses geometry.now.platform (places_of graph.now).address)
        p.places.items p.states.items p.hits.items p.unsure.items) }
{
    let parts = prepaid_parts::<Nothing, S, W>(alloc, graph, geometry, &Nothing)?;
    Ok(parts)
}

/// A law: where nothing is brought, Prepaid is Sure. In constant time.
pub fn prepaid_law()
    ensures { PrepaidLaw }
{}

/// The block that a cache set holds before a node whose state is kept, prepaid, `None` if none is
/// known: `parts` is what `prepaid_parts` returns for this graph, geometry and what edges bring. In
/// constant time.
pub fn prepaid_at<B: Brings<S, W>, const S: usize, const W: usize>(
    parts: &SureParts<S, W>,
    graph: &Graph,
    geometry: &Geometry,
    brings: &B,
    node: NodeId,
    set: u16,
) -> Option<u32>
    requires set { set < S }
    requires few { 64 * W ≤ 65536 }
    requires room_for_sets { S ≤ 64 * W }
    requires node { node.0 < (graph_of graph.now).size }
    requires kept { IsKept (graph_of graph.now) (B.brings brings.now) node.0 }
    requires parts { ArePrepaidParts (graph_of graph.now)
        (events (accesses geometry.now.platform (places_of graph.now).address)
        (B.brings brings.now) (B.at_start brings.now))
        parts.now.places.items parts.now.states.items parts.now.hits.items parts.now.unsure.items }
    ensures { (m : ℕ) → (result ≡ Some m)
        ↔ Prepaid (graph_of graph.now)
        (events (accesses geometry.now.platform (places_of graph.now).address)
        (B.brings brings.now) (B.at_start brings.now))
        node.0 set m }
{
    let place = node.0 as usize;
    let Some(state) = parts.places[place] else {
        unreachable!()
    };
    let marked = parts.unsure[place].has(set);
    let is_sure = !marked;
    if is_sure {
        parts.states[state].at(set)
    } else {
        None
    }
}

/// The block that a cache set surely holds before a leader, `None` if none is known. In constant
/// time.
pub fn sure_at<const S: usize, const W: usize>(
    parts: &SureParts<S, W>,
    graph: &Graph,
    geometry: &Geometry,
    leader: NodeId,
    set: u16,
) -> Option<u32>
    requires set { set < S }
    requires few { 64 * W ≤ 65536 }
    requires room_for_sets { S ≤ 64 * W }
    requires node { leader.0 < (graph_of graph.now).size }
    requires leader { IsLeader (graph_of graph.now) leader.0 }
    requires parts { AreSureParts (graph_of graph.now)
        (accesses geometry.now.platform (places_of graph.now).address)
        parts.now.places.items parts.now.states.items parts.now.hits.items parts.now.unsure.items }
    ensures { (m : ℕ) → (result ≡ Some m)
        ↔ Sure (graph_of graph.now) (accesses geometry.now.platform (places_of graph.now).address)
        leader.0 set m }
{
    prepaid_at(parts, graph, geometry, &Nothing, leader, set)
}

/// Which nodes are hits on all walks, by the nodes' numbers: their own cache set surely holds their
/// block. The only error is out of memory. Costs as `sure_parts`, of which only the hits stay.
pub fn sure_hits<const S: usize, const W: usize>(
    alloc: Global,
    graph: &Graph,
    geometry: &Geometry,
) -> Result<Vec<bool>, Memory>
    requires room { geometry.now.platform.sets ≤ S }
    requires few { 64 * W ≤ 65536 }
    requires room_for_sets { S ≤ 64 * W }
    ensures count { IfOk result (λ hits. length hits.items ≡ (graph_of graph.now).size) }
    ensures each { IfOk result (λ hits. CountsSureHits (graph_of graph.now)
        (accesses geometry.now.platform (places_of graph.now).address)
        (λ y. slice_index_or hits.items y false)) }
{
    let parts = sure_parts::<S, W>(alloc, graph, geometry)?;
    Ok(parts.hits)
}
