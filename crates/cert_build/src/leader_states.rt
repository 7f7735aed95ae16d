// The entries of a task's leaders.
ghost use Rattle.std.specs.Prelude.{◌≡◌, ◌<◌, ◌≤◌, ◌^◌, [], ◌∷◌, ◌++◌, IfOk, OnOk};
ghost use Rattle.crpd_base.specs.Limits.{most_sets};
ghost use Rattle.icache.specs.Accesses.{accesses};
ghost use Rattle.flat_graph.specs.Graph.{IsLeader};
ghost use Rattle.flat_graph.specs.CodeGraph.{graph_of, places_of};
ghost use Rattle.must_cache.specs.FirstWalks.{AreSureParts};
ghost use Rattle.useful_sets.specs.Sets.{AreUseful};
ghost use Rattle.cert_build.specs.Inner.Entries.{ListsSure, IsStateEntry, AreLeaderEntries};

use crpd_base::{Items, Memory, NodeId, NodeState, SETS, SetBits, WORDS};
use flat_graph::Graph;
use icache::Geometry;
use must_cache::{SureParts, sure_at};
use std::alloc::{AllocError, Global};
use useful_sets::useful_by_hits;

/// Adds a cache set with its block, a number of 32 bits.
fn push_pair(pairs: &mut Vec<(u16, u32)>, set: u16, block: u32) -> Result<(), AllocError>
    ensures pushed { OnOk result (pairs.new.items ≡ pairs.old.items ++ (set, block) ∷ []) }
    ensures bits { block < 2 ^ 32 }
{
    pairs.push((set, block))?;
    Ok(())
}

/// The blocks that the cache sets surely hold before a leader, each with its set, in ascending
/// order of sets.
fn known_blocks(
    alloc: Global,
    parts: &SureParts<SETS, WORDS>,
    graph: &Graph,
    geometry: &Geometry,
    leader: NodeId,
) -> Result<Vec<(u16, u32)>, AllocError>
    requires sets { geometry.now.platform.sets ≤ most_sets }
    requires node { leader.0 < (graph_of graph.now).size }
    requires leader { IsLeader (graph_of graph.now) leader.0 }
    requires parts { AreSureParts (graph_of graph.now)
        (accesses geometry.now.platform (places_of graph.now).address)
        parts.now.places.items parts.now.states.items parts.now.hits.items parts.now.unsure.items }
    ensures { IfOk result (λ pairs.
        ListsSure (graph_of graph.now)
        (accesses geometry.now.platform (places_of graph.now).address)
        leader.0 geometry.now.platform.sets pairs.items) }
{
    let mut pairs = Vec::new(alloc);
    for set in 0..geometry.platform.sets as u16 {
        if let Some(block) = sure_at(parts, graph, geometry, leader, set) {
            push_pair(&mut pairs, set, block)?;
        }
    }
    Ok(pairs)
}

/// The entry of a leader.
fn entry(
    alloc: Global,
    parts: &SureParts<SETS, WORDS>,
    graph: &Graph,
    geometry: &Geometry,
    leader: NodeId,
    useful: &SetBits<WORDS>,
) -> Result<NodeState, AllocError>
    requires sets { geometry.now.platform.sets ≤ most_sets }
    requires node { leader.0 < (graph_of graph.now).size }
    requires leader { IsLeader (graph_of graph.now) leader.0 }
    requires parts { AreSureParts (graph_of graph.now)
        (accesses geometry.now.platform (places_of graph.now).address)
        parts.now.places.items parts.now.states.items parts.now.hits.items parts.now.unsure.items }
    ensures { IfOk result (λ e.
        IsStateEntry (graph_of graph.now)
        (accesses geometry.now.platform (places_of graph.now).address)
        leader.0 useful.now geometry.now.platform.sets e) }
{
    useful.words_law();
    let sure = known_blocks(alloc, parts, graph, geometry, leader)?;
    Ok(NodeState {
        node: leader.0,
        sure: Items::new(sure),
        useful: *useful,
    })
}

/// The entries of all leaders, in ascending order of nodes: what surely is in the cache before
/// each, and these useful cache sets. One pass over the nodes, and over the cache sets of each
/// leader.
fn leader_states(
    alloc: Global,
    graph: &Graph,
    geometry: &Geometry,
    parts: &SureParts<SETS, WORDS>,
    useful: &[SetBits<WORDS>],
) -> Result<Vec<NodeState>, AllocError>
    requires some { 0 < geometry.now.platform.sets }
    requires few { geometry.now.platform.sets ≤ most_sets }
    requires parts { AreSureParts (graph_of graph.now)
        (accesses geometry.now.platform (places_of graph.now).address)
        parts.now.places.items parts.now.states.items parts.now.hits.items parts.now.unsure.items }
    requires useful { AreUseful (graph_of graph.now)
        (accesses geometry.now.platform (places_of graph.now).address) useful.now }
    ensures { IfOk result (λ states.
        AreLeaderEntries (graph_of graph.now)
        (accesses geometry.now.platform (places_of graph.now).address)
        (graph_of graph.now).size states.items) }
{
    graph.graph_law();
    let mut states = Vec::new(alloc);
    for node in 0..graph.len() {
        let leader = NodeId(node);
        if graph.leader(leader) {
            let sets = &useful[node as usize];
            states.push(entry(alloc, parts, graph, geometry, leader, sets)?)?;
        }
    }
    Ok(states)
}

/// The entries of all leaders, and the useful cache sets of all nodes.
#[derive(Drop)]
pub(crate) struct NodeEntries {
    /// The entries, in ascending order of nodes.
    pub(crate) states: Vec<NodeState>,
    /// The useful cache sets before each node, by node number.
    pub(crate) useful: Vec<SetBits<WORDS>>,
}

/// The entries of all leaders, in ascending order of nodes (what surely is in the cache before
/// each, and the useful cache sets), and these sets of all nodes.
pub(crate) fn node_entries(
    alloc: Global,
    graph: &Graph,
    geometry: &Geometry,
    parts: &SureParts<SETS, WORDS>,
) -> Result<NodeEntries, Memory>
    requires some { 0 < geometry.now.platform.sets }
    requires few { geometry.now.platform.sets ≤ most_sets }
    requires parts { AreSureParts (graph_of graph.now)
        (accesses geometry.now.platform (places_of graph.now).address)
        parts.now.places.items parts.now.states.items parts.now.hits.items parts.now.unsure.items }
    ensures states { IfOk result (λ e.
        AreLeaderEntries (graph_of graph.now)
        (accesses geometry.now.platform (places_of graph.now).address)
        (graph_of graph.now).size e.states.items) }
    ensures useful { IfOk result (λ e.
        AreUseful (graph_of graph.now)
        (accesses geometry.now.platform (places_of graph.now).address) e.useful.items) }
{
    let useful = useful_by_hits::<WORDS>(alloc, graph, geometry, &parts.hits)?;
    let states = leader_states(alloc, graph, geometry, parts, &useful)?;
    Ok(NodeEntries { states, useful })
}
