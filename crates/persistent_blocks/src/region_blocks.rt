// What the edges that enter regions bring: the persistent pairs of the region.
ghost use Rattle.std.specs.Prelude.{◌≡◌, ℕ, ◌<◌, Some, None, false, option_map, length};
ghost use Rattle.crpd_base.specs.Sets.{has};
ghost use Rattle.flat_graph.specs.CodeGraph.{graph_of};
ghost use Rattle.icache.specs.Cache.{held, is_block};
ghost use Rattle.loop_regions.specs.CodeNest.{nest_of};
ghost use Rattle.must_cache.specs.Events.{or_before, unless_brought};
ghost use Rattle.persistent_blocks.specs.Inner.Brought.{headed as head_of, entered, block_in};
ghost use Rattle.persistent_blocks.specs.Inner.Brought.{is_next as is_successor};
ghost use Rattle.persistent_blocks.specs.Inner.Brought.{region_brings, region_start};

use crpd_base::{NodeId, SETS, SetBits, WORDS};
use flat_graph::Graph;
use loop_regions::Nest;
use must_cache::{Brings, MustState};

/// The persistent pairs of a task's regions, which the edges bring that enter them.
#[derive(Drop)]
pub(crate) struct RegionBlocks<'a> {
    /// The task's graph.
    pub(crate) graph: &'a Graph,
    /// Its regions.
    pub(crate) nest: &'a Nest,
    /// For each node the region that it heads, if any.
    pub(crate) heads: Vec<Option<u32>>,
    /// For each region the blocks of its persistent pairs, by their cache sets.
    pub(crate) blocks: Vec<MustState<SETS>>,
    ghost nodes: { length nest.now.holders ≡ length graph.now.nodes },
}

/// Whether this is the node with a number.
fn is_node(found: Option<NodeId>, number: u32) -> bool
    ensures { result ≡ is_block (option_map (λ v. v.0) found) number }
{
    match found {
        Some(NodeId(node)) => node == number,
        None => false,
    }
}

impl RegionBlocks<'_> {
    /// The region that a node heads, if any.
    fn headed(&self, node: u32) -> Option<u32>
        ensures { result ≡ head_of self.now.heads.items node }
    {
        let place = node as usize;
        let is_listed = place < self.heads.len();
        if is_listed { self.heads[place] } else { None }
    }

    /// Whether a node is a successor of another.
    fn is_next(&self, source: u32, target: u32) -> bool
        requires { source < (graph_of self.now.graph.now).size }
        ensures { result ≡ is_successor (graph_of self.now.graph.now) source target }
    {
        let first = self.graph.succ(NodeId(source), 0);
        let second = self.graph.succ(NodeId(source), 1);
        is_node(first, target) || is_node(second, target)
    }

    /// The region that an edge enters, if any. Time: the regions that hold the source.
    fn entered(&self, source: u32, target: u32) -> Option<u32>
        requires { source < (graph_of self.now.graph.now).size }
        ensures { result ≡ entered (graph_of self.now.graph.now) (nest_of self.now.nest.now)
            self.now.heads.items source target }
    {
        if !self.is_next(source, target) {
            return None;
        }
        match self.headed(target) {
            Some(region) => {
                let inside = self.nest.holds(region, NodeId(source));
                if inside { None } else { Some(region) }
            }
            None => None,
        }
    }

    /// Whether the edge to a successor, if there is one, enters a region.
    fn enters(&self, source: u32, target: Option<NodeId>) -> bool
        requires { source < (graph_of self.now.graph.now).size }
        ensures { result ≡ false → (v : ℕ) → option_map (λ t. t.0) target ≡ Some v
            → entered (graph_of self.now.graph.now) (nest_of self.now.nest.now)
            self.now.heads.items source v ≡ None }
    {
        match target {
            Some(NodeId(node)) => match self.entered(source, node) {
                Some(_) => true,
                None => false,
            },
            None => false,
        }
    }

    /// Puts the persistent pairs of a region, if there is one, into the sets.
    fn put_pairs(&self, region: Option<u32>, state: &mut MustState<SETS>)
        ensures { (set : ℕ) → held state.new set
            ≡ or_before (block_in self.now.blocks.items region set) (held state.old set) }
    {
        match region {
            Some(number) => {
                let place = number as usize;
                if place < self.blocks.len() {
                    state.put_all(&self.blocks[place]);
                }
            }
            None => {}
        }
    }

    /// Removes the sets of the persistent pairs of a region, if there is one.
    fn unmark_pairs(&self, region: Option<u32>, sets: &mut SetBits<WORDS>)
        ensures { (set : ℕ) → has sets.new set
            ≡ unless_brought (block_in self.now.blocks.items region set) (has sets.old set) }
    {
        match region {
            Some(number) => {
                let place = number as usize;
                if place < self.blocks.len() {
                    self.blocks[place].unmark_known(sets);
                }
            }
            None => {}
        }
    }
}

impl Brings<SETS, WORDS> for RegionBlocks<'_> {
    ghost brings = { λ d. region_brings (graph_of d.graph.now) (nest_of d.nest.now) d.heads.items
        d.blocks.items };

    ghost at_start = { λ d. region_start (graph_of d.graph.now) d.heads.items d.blocks.items };

    ghost is_own = { λ d u. u < (graph_of d.graph.now).size };

    fn any(&self, source: u32, target: u32) -> bool {
        match self.entered(source, target) {
            Some(_) => true,
            None => false,
        }
    }

    fn any_from(&self, source: u32) -> bool {
        let first = self.graph.succ(NodeId(source), 0);
        let second = self.graph.succ(NodeId(source), 1);
        self.enters(source, first) || self.enters(source, second)
    }

    fn put(&self, source: u32, target: u32, state: &mut MustState<SETS>) {
        self.put_pairs(self.entered(source, target), state);
    }

    fn put_first(&self, state: &mut MustState<SETS>) {
        self.put_pairs(self.headed(self.graph.first().0), state);
    }

    fn unmark(&self, source: u32, target: u32, sets: &mut SetBits<WORDS>) {
        self.unmark_pairs(self.entered(source, target), sets);
    }
}
