// The full states of nodes as the block of each cache set, and which nodes are counted as hits.
ghost use Rattle.std.specs.Prelude.{◌≡◌, ◌↔◌, ◌<◌, length, IfOk, IsTrue, IsFalse};
ghost use Rattle.crpd_base.specs.Limits.{most_sets};
ghost use Rattle.crpd_base.specs.Ranges.{IsPlatform};
ghost use Rattle.flat_graph.specs.CodeGraph.{graph_of};
ghost use Rattle.evict_sets.specs.Full.{IsHit};
ghost use Rattle.evict_sets.specs.CacheClauses.{ListsLeaders};
ghost use Rattle.evict_sets.specs.ListedPart.{listed_of};
ghost use Rattle.evict_sets.specs.Listing.{IsListing, IsChainOrder, IsStateAt, IsStateAfter};
ghost use Rattle.evict_sets.specs.Listing.{HasLowSets, CountsHits, node_accesses, counted};

use crate::blocks::{access, load};
use crate::listing::Listing;
use crpd_base::{MOST_NODES, Memory, NodeId, Platform, SETS, TaskPart};
use flat_graph::Graph;
use std::alloc::Global;

impl Listing<'_> {
    /// Computes the full state of a node, as the blocks of the 512 cache sets, from the state after
    /// the node before it in the order. An unlisted node's state is that state, unchanged. Time:
    /// the 512 sets and the node's entry.
    pub fn enter(&self, blocks: &mut [Option<u32>], node: NodeId)
        requires case { IsListing self.now.platform.now self.now.graph.now self.now.part.now
            self.now.places.now }
        requires node { node.0 < (graph_of self.now.graph.now).size }
        requires room { length blocks.old ≡ most_sets }
        requires follows { IsFalse ((listed_of self.now.part.now).is_listed node.0)
            → IsStateAt (graph_of self.now.graph.now)
            (node_accesses self.now.platform.now self.now.graph.now) (listed_of self.now.part.now)
            node.0 blocks.old }
        ensures { IsStateAt (graph_of self.now.graph.now)
            (node_accesses self.now.platform.now self.now.graph.now) (listed_of self.now.part.now)
            node.0 blocks.new }
    {
        if let Some(entry) = self.entry(node) {
            load(blocks, entry.sure.as_slice());
        }
    }

    /// Computes the state after a node from its full state, as the blocks of the 512 cache sets.
    /// Returns whether the node is counted as a hit. In constant time.
    pub fn leave(&self, blocks: &mut [Option<u32>], node: NodeId) -> bool
        requires case { IsListing self.now.platform.now self.now.graph.now self.now.part.now
            self.now.places.now }
        requires node { node.0 < (graph_of self.now.graph.now).size }
        requires room { length blocks.old ≡ most_sets }
        requires state { IsStateAt (graph_of self.now.graph.now)
            (node_accesses self.now.platform.now self.now.graph.now) (listed_of self.now.part.now)
            node.0 blocks.old }
        ensures hit { IsTrue result
            ↔ IsHit (graph_of self.now.graph.now)
            (node_accesses self.now.platform.now self.now.graph.now)
            (listed_of self.now.part.now) node.0 }
        ensures after { IsStateAfter (graph_of self.now.graph.now)
            (node_accesses self.now.platform.now self.now.graph.now) (listed_of self.now.part.now)
            node.0 blocks.new }
    {
        access(blocks, self.cache_set(node), self.block(node))
    }

    /// Marks the nodes that are counted as hits, along an order of the nodes.
    fn mark_hits(&self, order: &[u32], hits: &mut [bool])
        requires case { IsListing self.now.platform.now self.now.graph.now self.now.part.now
            self.now.places.now }
        requires order { IsChainOrder (graph_of self.now.graph.now)
            (listed_of self.now.part.now) order.now }
        requires count { length hits.old ≡ (graph_of self.now.graph.now).size }
        ensures count { length hits.new ≡ (graph_of self.now.graph.now).size }
        ensures hits { CountsHits (graph_of self.now.graph.now)
            (node_accesses self.now.platform.now self.now.graph.now) (listed_of self.now.part.now)
            (counted hits.new) }
    {
        let mut blocks = [None; SETS];
        for k in 0..order.len() {
            let node = NodeId(order[k]);
            self.enter(&mut blocks, node);
            hits[node.0 as usize] = self.leave(&mut blocks, node);
        }
    }

    /// Writes an order of the nodes in which each unlisted node directly follows the node that it
    /// continues, and which nodes are counted as hits: those whose full state gives the node's
    /// cache set the node's block. One pass over nodes and edges, and one along the order with the
    /// listed states. It takes no memory.
    pub fn write_hits(&self, order: &mut [u32], hits: &mut [bool])
        requires case { IsListing self.now.platform.now self.now.graph.now self.now.part.now
            self.now.places.now }
        requires nodes { length order.old ≡ (graph_of self.now.graph.now).size }
        requires count { length hits.old ≡ (graph_of self.now.graph.now).size }
        ensures order { IsChainOrder (graph_of self.now.graph.now)
            (listed_of self.now.part.now) order.new }
        ensures count { length hits.new ≡ (graph_of self.now.graph.now).size }
        ensures hits { CountsHits (graph_of self.now.graph.now)
            (node_accesses self.now.platform.now self.now.graph.now) (listed_of self.now.part.now)
            (counted hits.new) }
    {
        self.write_order(order);
        self.mark_hits(order, hits);
    }
}

/// Which nodes of a task's graph are counted as hits, a flag for each node: those whose full state,
/// from what the task's part of a certificate lists, gives the node's cache set the node's block.
/// Requires that the listed cache sets are below 512, and that every leader is listed.
///
/// One pass over nodes, edges and listed states. Allocates a flag for each node, and takes some 330
/// kB of the stack. The only error is out of memory.
pub fn hits(
    alloc: Global,
    platform: &Platform,
    graph: &Graph,
    part: &TaskPart,
) -> Result<Vec<bool>, Memory>
    requires platform { IsPlatform platform.now }
    requires sets { HasLowSets part.now }
    requires leaders { ListsLeaders (graph_of graph.now) (listed_of part.now) }
    ensures hits { IfOk result
        (λ hits. CountsHits (graph_of graph.now) (node_accesses platform.now graph.now)
        (listed_of part.now) (counted hits.items)) }
    ensures count { IfOk result (λ hits. length hits.items ≡ (graph_of graph.now).size) }
{
    graph.graph_law();
    let size = graph.len() as usize;
    let table = &mut [None; MOST_NODES];
    let places = &mut table[..size];
    let listing = Listing::new(platform, graph, part, places);
    let mut numbers = [0; MOST_NODES];
    let mut hits = flags(alloc, size)?;
    listing.write_hits(&mut numbers[..size], hits.as_mut_slice());
    Ok(hits)
}

/// This many flags, none of them set.
fn flags(alloc: Global, count: usize) -> Result<Vec<bool>, Memory>
    ensures { IfOk result (λ flags. length flags.items ≡ count) }
{
    Ok(vec![in alloc; false; count]?)
}
