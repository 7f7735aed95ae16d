// The regions of a graph before they are known to be nested.
ghost use Rattle.loop_regions.specs.Inner.Heads.{nodes_of};
ghost use Rattle.loop_regions.specs.Inner.RegionLists.{AreRegionLists};

use crate::heads::{Head, heads};
use crate::holders::{Holders, includes};
use crate::holding::holders;
use crpd_base::{Items, LoopAt};
use flat_graph::Graph;
use std::alloc::{AllocError, Global};

/// The regions of stated loops, each with its head, and for each node the regions that hold it.
#[derive(Drop)]
pub(crate) struct Regions {
    pub(crate) heads: Items<Head>,
    pub(crate) holders: Items<Holders>,
    ghost sound: { AreRegionLists (nodes_of heads) holders },
}

impl Regions {
    ghost use Rattle.std.specs.Prelude.{◌≡◌, ◌<◌, length, IfOk};
    ghost use Rattle.flat_graph.specs.CodeGraph.{graph_of, places_of};
    ghost use Rattle.loop_regions.specs.Stated.{IsRegions};
    ghost use Rattle.loop_regions.specs.CodeNest.{has, row};
    ghost use Rattle.loop_regions.specs.Inner.FoundRegions.{nest_in, is_head};

    /// The regions of stated loops, one for each node at the head of a loop, numbered by these
    /// nodes. If two loops have one head, the region is that of the first.
    pub(crate) fn find(alloc: Global, graph: &Graph, loops: &[LoopAt]) -> Result<Self, AllocError>
        ensures nodes { IfOk result
            (λ regions. length regions.holders ≡ (graph_of graph.now).size) }
        ensures regions { IfOk result
            (λ regions. IsRegions (graph_of graph.now) (places_of graph.now) loops.now
            (nest_in regions)) }
    {
        graph.graph_law();
        let heads = heads(alloc, graph, loops)?;
        let holders = holders(alloc, graph, loops, &heads)?;
        Ok(Regions {
            heads: Items::new(heads),
            holders: Items::new(holders),
        })
    }

    /// How many regions there are.
    pub(crate) fn len(&self) -> u32
        ensures { result ≡ (nest_in self.now).size }
    {
        self.heads.len() as u32
    }

    /// How many nodes there are.
    pub(crate) fn nodes(&self) -> u32
        ensures { result ≡ length self.now.holders }
    {
        self.holders.len() as u32
    }

    /// The regions that hold a node.
    pub(crate) fn holders(&self, y: u32) -> &[u32]
        requires { y < length self.now.holders }
        ensures { result.now ≡ row self.now.holders y }
    {
        let holders = &self.holders[y as usize];
        holders.as_slice()
    }

    /// Whether a region holds a node. No region holds a number that is no node.
    pub(crate) fn holds(&self, r: u32, y: u32) -> bool
        ensures { result ≡ has (row self.now.holders y) r }
    {
        includes(self.holders.as_slice(), y, r)
    }

    /// Whether a node is the head of a region.
    pub(crate) fn is_head(&self, r: u32, y: u32) -> bool
        ensures { result ≡ is_head (nodes_of self.now.heads) y r }
    {
        let heads = self.heads.as_slice();
        (r as usize) < heads.len() && heads[r as usize].node == y
    }
}
