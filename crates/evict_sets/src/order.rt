// An order of the nodes in which each unlisted node follows the node that it continues.
ghost use Rattle.std.specs.Prelude.{◌≡◌, ◌+◌, ◌<◌, ◌≤◌, ℕ, length, slice_index, IsTrue, IsFalse};
ghost use Rattle.std.specs.Prelude.{MatchOption};
ghost use Rattle.flat_graph.specs.Graph.{Edge};
ghost use Rattle.flat_graph.specs.CodeGraph.{graph_of};
ghost use Rattle.evict_sets.specs.ListedPart.{listed_of};
ghost use Rattle.evict_sets.specs.Listing.{IsListing, IsChainOrder};
ghost use Rattle.evict_sets.specs.Inner.OrderPrefix.{IsOrderPrefix, IsChainComplete};
ghost use Rattle.evict_sets.specs.Inner.OrderPrefix.{HasListedBelow};

use crate::listing::Listing;
use crpd_base::NodeId;

impl Listing<'_> {
    /// The unlisted node that continues a node, `None` if there is none.
    fn follower(&self, node: NodeId) -> Option<NodeId>
        requires case { IsListing self.now.platform.now self.now.graph.now self.now.part.now
            self.now.places.now }
        requires node { node.0 < (graph_of self.now.graph.now).size }
        ensures { MatchOption result
            ((v : ℕ) → Edge (graph_of self.now.graph.now) node.0 v
            → IsTrue ((listed_of self.now.part.now).is_listed v))
            (λ v. Edge (graph_of self.now.graph.now) node.0 v.0
            × IsFalse ((listed_of self.now.part.now).is_listed v.0)) }
    {
        self.graph
            .successors(node)
            .find(|next| !self.is_listed(*next))
    }

    /// Writes a listed node at place `start`, and after it the unlisted nodes that continue it.
    /// Returns the number of nodes written so far.
    fn write_chain(&self, order: &mut [u32], start: usize, node: NodeId) -> usize
        requires case { IsListing self.now.platform.now self.now.graph.now self.now.part.now
            self.now.places.now }
        requires node { node.0 < (graph_of self.now.graph.now).size }
        requires listed { IsTrue ((listed_of self.now.part.now).is_listed node.0) }
        requires size { length order.old ≡ (graph_of self.now.graph.now).size }
        requires line { IsOrderPrefix (graph_of self.now.graph.now) (listed_of self.now.part.now)
            order.old start }
        requires closed { IsChainComplete (graph_of self.now.graph.now)
            (listed_of self.now.part.now) order.old start }
        requires all { HasListedBelow (graph_of self.now.graph.now) (listed_of self.now.part.now)
            order.old start node.0 }
        ensures line { IsOrderPrefix (graph_of self.now.graph.now) (listed_of self.now.part.now)
            order.new result }
        ensures closed { IsChainComplete (graph_of self.now.graph.now) (listed_of self.now.part.now)
            order.new result }
        ensures all { HasListedBelow (graph_of self.now.graph.now) (listed_of self.now.part.now)
            order.new result (node.0 + 1) }
    {
        self.graph.graph_law();
        order[start] = node.0;
        let mut count = start + 1;
        let mut last = self.follower(node);
        while let Some(next) = last {
            order[count] = next.0;
            count += 1;
            last = self.follower(next);
        }
        count
    }

    /// Writes the numbers of the nodes, each once, in an order in which each unlisted node directly
    /// follows the node that it continues. One pass over nodes and edges. It takes no memory.
    pub(crate) fn write_order(&self, order: &mut [u32])
        requires case { IsListing self.now.platform.now self.now.graph.now self.now.part.now
            self.now.places.now }
        requires count { length order.old ≡ (graph_of self.now.graph.now).size }
        ensures { IsChainOrder (graph_of self.now.graph.now)
            (listed_of self.now.part.now) order.new }
    {
        self.graph.graph_law();
        let mut count = 0;
        for node in 0..self.graph.len() {
            if self.is_listed(NodeId(node)) {
                count = self.write_chain(order, count, NodeId(node));
            }
        }
    }
}
