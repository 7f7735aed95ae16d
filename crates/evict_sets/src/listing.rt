// A task's graph with what a certificate lists at its nodes.
ghost use Rattle.std.specs.Prelude.{◌≡◌, ◌↔◌, ◌<◌, ◌≤◌, Some, None, length, IsTrue, MatchOption};
ghost use Rattle.crpd_base.specs.Limits.{most_sets};
ghost use Rattle.crpd_base.specs.Ranges.{IsPlatform};
ghost use Rattle.flat_graph.specs.CodeGraph.{graph_of};
ghost use Rattle.evict_sets.specs.ListedPart.{state_entry_of, listed_of};
ghost use Rattle.evict_sets.specs.Listing.{IsEntryIndex, node_accesses};

use crate::places::index;
use crpd_base::{NodeId, NodeState, Platform, TaskPart};
use flat_graph::Graph;
use icache::Geometry;

/// A task's graph with the states that a certificate lists at its nodes.
#[derive(Clone, Copy)]
pub struct Listing<'a> {
    /// The platform, whose lines and sets give each node its block and cache set.
    pub platform: &'a Platform,
    /// The task's graph.
    pub graph: &'a Graph,
    /// The task's part of the certificate.
    pub part: &'a TaskPart,
    /// For each node, the place of its entry among the part's states, counted from 0, and `None`
    /// exactly if the node has no entry: what `new` writes.
    pub places: &'a [Option<usize>],
}

impl<'a> Listing<'a> {
    /// A task's graph with its part of a certificate. Overwrites the list of places, which has one
    /// for each node. One pass over nodes and states. It takes no memory.
    pub fn new(
        platform: &'a Platform,
        graph: &'a Graph,
        part: &'a TaskPart,
        places: &'a mut [Option<usize>],
    ) -> Self
        requires { length places.old ≡ length graph.now.nodes }
        ensures platform { result.platform.now ≡ platform.now }
        ensures graph { result.graph.now ≡ graph.now }
        ensures part { result.part.now ≡ part.now }
        ensures index { IsEntryIndex part.now.states (length graph.now.nodes) result.places.now }
    {
        index(part.states.as_slice(), places.len(), places);
        Listing {
            platform,
            graph,
            part,
            places,
        }
    }
}

impl Listing<'_> {
    /// The entry of a node, `None` if the node is not listed. In constant time.
    pub fn entry(&self, node: NodeId) -> Option<&NodeState>
        requires index { IsEntryIndex self.now.part.now.states (length self.now.graph.now.nodes)
            self.now.places.now }
        requires node { node.0 < (graph_of self.now.graph.now).size }
        ensures { MatchOption result
            (state_entry_of self.now.part.now.states node.0 ≡ None)
            (λ s. state_entry_of self.now.part.now.states node.0 ≡ Some s.now) }
    {
        let place = self.places[node.0 as usize]?;
        Some(&self.part.states[place])
    }

    /// Whether a node is listed. In constant time.
    pub fn is_listed(&self, node: NodeId) -> bool
        requires index { IsEntryIndex self.now.part.now.states (length self.now.graph.now.nodes)
            self.now.places.now }
        requires node { node.0 < (graph_of self.now.graph.now).size }
        ensures { result ≡ (listed_of self.now.part.now).is_listed node.0 }
    {
        self.entry(node).is_some()
    }

    /// The block of a node's instruction: its address divided by the bytes of a line. In constant
    /// time.
    pub fn block(&self, node: NodeId) -> u32
        requires platform { IsPlatform self.now.platform.now }
        requires node { node.0 < (graph_of self.now.graph.now).size }
        ensures { result ≡ (node_accesses self.now.platform.now self.now.graph.now).block node.0 }
    {
        Geometry::new(self.platform).block(self.graph.address(node))
    }

    /// The cache set of a node's block, below the platform's number of sets. In constant time.
    pub fn cache_set(&self, node: NodeId) -> u16
        requires platform { IsPlatform self.now.platform.now }
        requires node { node.0 < (graph_of self.now.graph.now).size }
        ensures set { result ≡ (node_accesses self.now.platform.now self.now.graph.now).set node.0 }
        ensures low { result < most_sets }
    {
        Geometry::new(self.platform).set(self.block(node))
    }
}
