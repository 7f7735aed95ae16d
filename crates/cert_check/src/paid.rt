// Clauses 6 and 7: the potentials.
ghost use Rattle.std.specs.Prelude.{◌≡◌, ◌↔◌, ◌<◌, ◌≤◌, ◌+◌, ◌*◌, ◌^◌, ℕ, All, IsTrue};
ghost use Rattle.flat_graph.specs.CodeGraph.{graph_of};
ghost use Rattle.loop_regions.specs.CodeNest.{nest_of};
ghost use Rattle.loop_regions.specs.Nest.{Item, IsItem, Leaves};
ghost use Rattle.loop_regions.specs.Potentials.{item_potential};
ghost use Rattle.cert_check.specs.ListedPotentials.{potentials_of};
ghost use Rattle.cert_check.specs.PotentialClauses.{PotentialsMeet, BoundMeets};
ghost use Rattle.cert_check.specs.Inner.JudgedNodes.{IsLeastFailing, counted};
ghost use Rattle.loop_regions.specs.Potentials.{costs_of};
ghost use Rattle.cert_check.specs.Inner.JudgedPotentials.{HasAllPotentials, EdgePaid};

use crate::least::at_most;
use crpd_base::{NodeId, Platform, TaskPart};
use evict_sets::{edge_cost, end_cost};
use flat_graph::Graph;
use loop_regions::{EdgeKind, Nest};

/// A task's graph and its regions, the potentials that the certificate lists for them, and the
/// nodes that are counted as hits.
#[derive(Clone, Copy)]
pub(crate) struct Paid<'a> {
    pub(crate) platform: &'a Platform,
    pub(crate) graph: &'a Graph,
    pub(crate) nest: &'a Nest,
    pub(crate) part: &'a TaskPart,
    pub(crate) hits: &'a [bool],
}

impl Paid<'_> {
    /// The potential of a node.
    fn at_node(&self, node: NodeId) -> u128
        requires paid { HasAllPotentials self.now.graph.now self.now.nest.now self.now.part.now
            self.now.hits.now }
        requires node { node.0 < (graph_of self.now.graph.now).size }
        ensures is { result ≡ (potentials_of self.now.part.now).node node.0 }
        ensures small { result < 2 ^ 64 }
    {
        u128::from(self.part.potentials[node.0 as usize])
    }

    /// The potential of a region.
    fn at_region(&self, region: u32) -> u128
        requires paid { HasAllPotentials self.now.graph.now self.now.nest.now self.now.part.now
            self.now.hits.now }
        requires region { region < (nest_of self.now.nest.now).size }
        ensures is { result ≡ (potentials_of self.now.part.now).loop region }
        ensures small { result < 2 ^ 64 }
    {
        u128::from(self.part.loops[region as usize])
    }

    /// The potential of a node's item: of the region that it heads, or its own.
    fn at_item(&self, node: NodeId) -> u128
        requires paid { HasAllPotentials self.now.graph.now self.now.nest.now self.now.part.now
            self.now.hits.now }
        requires node { node.0 < (graph_of self.now.graph.now).size }
        ensures is { (i : Item) → IsItem (nest_of self.now.nest.now) node.0 i
            → result ≡ item_potential (potentials_of self.now.part.now) i }
        ensures small { result < 2 ^ 64 }
    {
        match self.nest.headed_by(self.graph, node) {
            Some(region) => self.at_region(region),
            None => self.at_node(node),
        }
    }

    /// The cost of a region's iterations: its bound times the potential of its head.
    fn turns(&self, region: u32) -> u128
        requires paid { HasAllPotentials self.now.graph.now self.now.nest.now self.now.part.now
            self.now.hits.now }
        requires region { region < (nest_of self.now.nest.now).size }
        ensures is { result ≡ (nest_of self.now.nest.now).bound
            region * (potentials_of self.now.part.now).node
            ((nest_of self.now.nest.now).head region) }
        ensures small { result < 2 ^ 96 }
    {
        u128::from(self.nest.bound(region)) * self.at_node(self.nest.head(region))
    }

    /// Whether a region's potential covers its iterations.
    fn region_pays(&self, region: u32) -> bool
        requires paid { HasAllPotentials self.now.graph.now self.now.nest.now self.now.part.now
            self.now.hits.now }
        requires region { region < (nest_of self.now.nest.now).size }
        ensures { IsTrue result
            ↔ ((nest_of self.now.nest.now).bound region * (potentials_of self.now.part.now).node
            ((nest_of self.now.nest.now).head region)
            ≤ (potentials_of self.now.part.now).loop region) }
    {
        self.turns(region) <= self.at_region(region)
    }

    /// Whether the potential of each region that an edge leaves covers its iterations. Each of
    /// these regions, and the next one out, is searched for among those that hold the target.
    fn left_pay(&self, source: NodeId, target: NodeId) -> bool
        requires paid { HasAllPotentials self.now.graph.now self.now.nest.now self.now.part.now
            self.now.hits.now }
        requires source { source.0 < (graph_of self.now.graph.now).size }
        requires target { target.0 < (graph_of self.now.graph.now).size }
        ensures { IsTrue result ↔ ((r : ℕ) → Leaves (nest_of self.now.nest.now) source.0 target.0 r
            → (nest_of self.now.nest.now).bound r * (potentials_of self.now.part.now).node
            ((nest_of self.now.nest.now).head r) ≤ (potentials_of self.now.part.now).loop r) }
    {
        self.graph.graph_law();
        let mut round = self.nest.innermost(source);
        while let Some(region) = round {
            if self.nest.holds(region, target) {
                break;
            }
            if !self.region_pays(region) {
                return false;
            }
            round = self.nest.parent(region);
        }
        true
    }

    /// The cycles of an edge.
    fn edge_cost(&self, source: NodeId, target: NodeId) -> u128
        requires paid { HasAllPotentials self.now.graph.now self.now.nest.now self.now.part.now
            self.now.hits.now }
        requires source { source.0 < (graph_of self.now.graph.now).size }
        requires target { target.0 < (graph_of self.now.graph.now).size }
        ensures is { result
            ≡ (costs_of self.now.platform.now self.now.graph.now (counted self.now.hits.now)).edge
            source.0 target.0 }
        ensures small { result < 2 ^ 64 }
    {
        let hit = self.hits[source.0 as usize];
        u128::from(edge_cost(self.graph, self.platform, source, target, hit))
    }

    /// Whether a node's potential covers its edge to the end, if it is a completing one.
    fn end_pays(&self, node: NodeId) -> bool
        requires paid { HasAllPotentials self.now.graph.now self.now.nest.now self.now.part.now
            self.now.hits.now }
        requires node { node.0 < (graph_of self.now.graph.now).size }
        ensures { IsTrue result
            ↔ (IsTrue
            ((costs_of self.now.platform.now self.now.graph.now (counted self.now.hits.now)).answers
            node.0) → (costs_of self.now.platform.now self.now.graph.now
            (counted self.now.hits.now)).end node.0
            ≤ (potentials_of self.now.part.now).node node.0) }
    {
        let hit = self.hits[node.0 as usize];
        let cost = end_cost(self.graph, self.platform, node, hit);
        at_most(u128::from(cost), self.at_node(node))
    }

    /// Whether the potential of an edge's source covers the edge.
    fn source_pays(&self, source: NodeId, target: NodeId) -> bool
        requires paid { HasAllPotentials self.now.graph.now self.now.nest.now self.now.part.now
            self.now.hits.now }
        requires source { source.0 < (graph_of self.now.graph.now).size }
        requires target { target.0 < (graph_of self.now.graph.now).size }
        ensures { IsTrue result
            ↔ ((costs_of self.now.platform.now self.now.graph.now (counted self.now.hits.now)).edge
            source.0 target.0 ≤ (potentials_of self.now.part.now).node source.0) }
    {
        at_most(self.edge_cost(source, target), self.at_node(source))
    }

    /// Whether the potential of an edge's source covers the edge and the item that it leads to.
    fn inside_pays(&self, source: NodeId, target: NodeId) -> bool
        requires paid { HasAllPotentials self.now.graph.now self.now.nest.now self.now.part.now
            self.now.hits.now }
        requires source { source.0 < (graph_of self.now.graph.now).size }
        requires target { target.0 < (graph_of self.now.graph.now).size }
        ensures { IsTrue result ↔ ((i : Item) → IsItem (nest_of self.now.nest.now) target.0 i
            → (costs_of self.now.platform.now self.now.graph.now (counted self.now.hits.now)).edge
            source.0 target.0 + item_potential (potentials_of self.now.part.now) i
            ≤ (potentials_of self.now.part.now).node source.0) }
    {
        self.graph.graph_law();
        let cost = self.edge_cost(source, target) + self.at_item(target);
        at_most(cost, self.at_node(source))
    }

    /// Whether a region's potential covers its iterations and the item that an edge out of it leads
    /// to.
    fn exit_pays(&self, region: u32, target: NodeId) -> bool
        requires paid { HasAllPotentials self.now.graph.now self.now.nest.now self.now.part.now
            self.now.hits.now }
        requires region { region < (nest_of self.now.nest.now).size }
        requires target { target.0 < (graph_of self.now.graph.now).size }
        ensures { IsTrue result ↔ ((i : Item) → IsItem (nest_of self.now.nest.now) target.0 i
            → (nest_of self.now.nest.now).bound region * (potentials_of self.now.part.now).node
            ((nest_of self.now.nest.now).head region)
            + item_potential (potentials_of self.now.part.now) i
            ≤ (potentials_of self.now.part.now).loop region) }
    {
        let cost = self.turns(region) + self.at_item(target);
        at_most(cost, self.at_region(region))
    }

    /// Whether the potentials cover an edge, what comes after it, and the regions that it leaves.
    fn edge_pays(&self, source: NodeId, target: NodeId) -> bool
        requires paid { HasAllPotentials self.now.graph.now self.now.nest.now self.now.part.now
            self.now.hits.now }
        requires source { source.0 < (graph_of self.now.graph.now).size }
        requires target { target.0 < (graph_of self.now.graph.now).size }
        ensures { IsTrue result ↔ EdgePaid (nest_of self.now.nest.now)
            (costs_of self.now.platform.now self.now.graph.now (counted self.now.hits.now))
            (potentials_of self.now.part.now) source.0 target.0 }
    {
        self.graph.graph_law();
        if !self.source_pays(source, target) || !self.left_pay(source, target) {
            return false;
        }
        match self.nest.edge_kind(self.graph, source, target) {
            EdgeKind::Back => true,
            EdgeKind::Inside => self.inside_pays(source, target),
            EdgeKind::Exit(region) => self.exit_pays(region, target),
        }
    }

    /// Whether the potentials cover all edges of a node.
    fn edges_pay(&self, node: NodeId) -> bool
        requires paid { HasAllPotentials self.now.graph.now self.now.nest.now self.now.part.now
            self.now.hits.now }
        requires node { node.0 < (graph_of self.now.graph.now).size }
        ensures { IsTrue result ↔ All
            (EdgePaid (nest_of self.now.nest.now)
            (costs_of self.now.platform.now self.now.graph.now (counted self.now.hits.now))
            (potentials_of self.now.part.now) node.0) ((graph_of self.now.graph.now).next node.0) }
    {
        for next in self.graph.successors(node) {
            if !self.edge_pays(node, next) {
                return false;
            }
        }
        true
    }

    /// Whether the potential of the region that a node heads, if any, covers its iterations.
    fn head_pays(&self, node: NodeId) -> bool
        requires paid { HasAllPotentials self.now.graph.now self.now.nest.now self.now.part.now
            self.now.hits.now }
        requires node { node.0 < (graph_of self.now.graph.now).size }
        ensures { IsTrue result ↔ ((r : ℕ) → r < (nest_of self.now.nest.now).size
            → (nest_of self.now.nest.now).head r ≡ node.0
            → (nest_of self.now.nest.now).bound r * (potentials_of self.now.part.now).node node.0
            ≤ (potentials_of self.now.part.now).loop r) }
    {
        match self.nest.headed_by(self.graph, node) {
            Some(region) => self.region_pays(region),
            None => true,
        }
    }

    /// Whether clause 6 holds at a node.
    fn node_pays(&self, node: NodeId) -> bool
        requires paid { HasAllPotentials self.now.graph.now self.now.nest.now self.now.part.now
            self.now.hits.now }
        requires node { node.0 < (graph_of self.now.graph.now).size }
        ensures { IsTrue result ↔ PotentialsMeet (graph_of self.now.graph.now)
            (nest_of self.now.nest.now)
            (costs_of self.now.platform.now self.now.graph.now (counted self.now.hits.now))
            (potentials_of self.now.part.now) node.0 }
    {
        if !self.end_pays(node) || !self.edges_pay(node) {
            return false;
        }
        self.head_pays(node)
    }

    /// The smallest node at which clause 6 fails. Time: the nodes, and each edge with the regions
    /// that it leaves plus one, each searched for among the regions round its target.
    pub(crate) fn judge_potentials(&self) -> Option<u32>
        requires paid { HasAllPotentials self.now.graph.now self.now.nest.now self.now.part.now
            self.now.hits.now }
        ensures { IsLeastFailing
            (PotentialsMeet (graph_of self.now.graph.now) (nest_of self.now.nest.now)
            (costs_of self.now.platform.now self.now.graph.now (counted self.now.hits.now))
            (potentials_of self.now.part.now)) (graph_of self.now.graph.now).size result }
    {
        for node in 0..self.graph.len() {
            if !self.node_pays(NodeId(node)) {
                return Some(node);
            }
        }
        None
    }

    /// Whether clause 7 holds: the bound is at least the potential of the first node's item.
    pub(crate) fn bound_holds(&self) -> bool
        requires paid { HasAllPotentials self.now.graph.now self.now.nest.now self.now.part.now
            self.now.hits.now }
        ensures { IsTrue result ↔ BoundMeets (graph_of self.now.graph.now)
            (nest_of self.now.nest.now) (potentials_of self.now.part.now)
            self.now.part.now.part.bound }
    {
        self.graph.graph_law();
        let part = &self.part.part;
        at_most(self.at_item(self.graph.first()), u128::from(part.bound))
    }
}
