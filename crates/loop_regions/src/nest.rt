// The regions of a task's graph.
use crate::found::Regions;
use crate::heads::Head;
use crate::holders::Holders;
use crpd_base::{Items, NodeId};
use std::alloc::{AllocError, Global};
use std::marker::Model;

/// The regions of a task's graph: one for each stated loop in each context of its head, numbered
/// from 0 by their heads. A region holds the nodes of its context whose addresses the loop holds,
/// and those of the calls made there. Each is entered at its head only. Two regions are disjoint or
/// nested.
///
/// Contracts see it as the head and the bound of each region, and the regions that hold each node.
#[derive(Drop)]
pub struct Nest {
    heads: Items<Head>,
    holders: Items<Holders>,
    parents: Items<Option<u32>>,
    innermost: Items<Option<u32>>,
}

impl Model for Nest {
    ghost use Rattle.loop_regions.specs.CodeNest.{CodeNest};
    ghost use Rattle.loop_regions.specs.Inner.Heads.{nodes_of, bounds_of};

    ghost Value = { CodeNest };

    ghost use Rattle.loop_regions.specs.Inner.StoredNest.{IsStoredNest};

    ghost view = { λ n. record {
      heads = nodes_of n.heads;
      bounds = bounds_of n.heads;
      holders = n.holders;
    } };

    ghost invariant = { λ n.
        IsStoredNest (record {
          heads = nodes_of n.heads;
          bounds = bounds_of n.heads;
          holders = n.holders;
        }) n.parents n.innermost };
}

impl Nest {
    ghost use Rattle.std.specs.Prelude.{◌≡◌, ◌<◌, ◌≤◌, length, IfOk};
    ghost use Rattle.crpd_base.specs.Limits.{most_nodes};
    ghost use Rattle.loop_regions.specs.CodeNest.{nest_of, row};
    ghost use Rattle.loop_regions.specs.Inner.FoundRegions.{code_nest};
    ghost use Rattle.loop_regions.specs.Inner.StoredNest.{IsStoredNest};
    ghost use Rattle.loop_regions.specs.Levels.{IsLevel, IsParent};

    /// The nest of regions, with the parent of each region and the innermost region of each node.
    pub(crate) fn new(
        regions: Regions,
        parents: Vec<Option<u32>>,
        innermost: Vec<Option<u32>>,
    ) -> Self
        requires { IsStoredNest (code_nest regions) parents.items innermost.items }
        ensures { result ≡ code_nest regions }
    {
        let Regions { heads, holders } = regions;
        Nest {
            heads,
            holders,
            parents: Items::new(parents),
            innermost: Items::new(innermost),
        }
    }

    /// A copy of the nest. Linear in the regions, and in the nodes with the regions that hold each.
    /// The only error is out of memory.
    pub fn copy(&self, alloc: Global) -> Result<Nest, AllocError>
        ensures { IfOk result (λ nest. nest ≡ self.now) }
    {
        let heads = Vec::from_slice(alloc, self.heads.as_slice())?;
        let holders = Vec::from_clones(alloc, self.holders.as_slice())?;
        let parents = Vec::from_slice(alloc, self.parents.as_slice())?;
        let innermost = Vec::from_slice(alloc, self.innermost.as_slice())?;
        Ok(Nest {
            heads: Items::new(heads),
            holders: Items::new(holders),
            parents: Items::new(parents),
            innermost: Items::new(innermost),
        })
    }

    /// The number of regions: 0 to 16,384. In constant time.
    pub fn len(&self) -> u32
        ensures { result ≡ (nest_of self.now).size }
    {
        self.heads.len() as u32
    }

    /// A law: there are at most 16,384 regions. In constant time.
    pub fn size_law(&self)
        ensures { (nest_of self.now).size ≤ most_nodes }
    {
        let _ = &self.heads;
    }

    /// The head of a region: the node at which it is entered. In constant time.
    pub fn head(&self, r: u32) -> NodeId
        requires { r < (nest_of self.now).size }
        ensures { result.0 ≡ (nest_of self.now).head r }
    {
        NodeId(self.heads[r as usize].node)
    }

    /// How often a kept walk may be at a region's head between entering and leaving the region: the
    /// stated loop's bound, 1 to 1,000,000 if the plan's bounds are in that range. In constant
    /// time.
    pub fn bound(&self, r: u32) -> u32
        requires { r < (nest_of self.now).size }
        ensures { result ≡ (nest_of self.now).bound r }
    {
        self.heads[r as usize].bound
    }

    /// The innermost region round a region, `None` if there is none. In constant time.
    pub fn parent(&self, r: u32) -> Option<u32>
        requires { r < (nest_of self.now).size }
        ensures { IsParent (nest_of self.now) r result }
    {
        self.parents[r as usize]
    }

    /// Whether a region holds a node. Time: at most the number of regions that hold the node.
    pub fn holds(&self, r: u32, id: NodeId) -> bool
        requires { id.0 < length self.now.holders }
        ensures { result ≡ (nest_of self.now).holds r id.0 }
    {
        let holders = &self.holders[id.0 as usize];
        holders.has(r)
    }

    /// The regions that hold a node. In constant time.
    pub fn regions_round(&self, id: NodeId) -> &[u32]
        requires { id.0 < length self.now.holders }
        ensures { result.now ≡ row self.now.holders id.0 }
    {
        self.holders[id.0 as usize].as_slice()
    }

    /// The innermost region that holds a node, `None` if none does. In constant time.
    pub fn innermost(&self, id: NodeId) -> Option<u32>
        requires { id.0 < length self.now.holders }
        ensures { IsLevel (nest_of self.now) id.0 result }
    {
        self.innermost[id.0 as usize]
    }
}
