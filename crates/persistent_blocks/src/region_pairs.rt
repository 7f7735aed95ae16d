// The persistent pairs of each region: the cache sets of which all its nodes access one block.
ghost use Rattle.std.specs.Prelude.{◌≡◌, ℕ, ◌<◌, ◌≤◌, Bool, false, if◌then◌else◌, None, IfOk, length};
ghost use Rattle.crpd_base.specs.Sets.{has};
ghost use Rattle.icache.specs.Accesses.{Accesses, accesses};
ghost use Rattle.icache.specs.Cache.{held};
ghost use Rattle.flat_graph.specs.CodeGraph.{places_of};
ghost use Rattle.loop_regions.specs.CodeNest.{nest_of, IsNestOf};
ghost use Rattle.must_cache.specs.States.{state_at};
ghost use Rattle.must_cache.specs.Marks.{sets_at};
ghost use Rattle.persistent_blocks.specs.Inner.Noted.{HasNoted, with_node, AreNoted, with_round};
ghost use Rattle.persistent_blocks.specs.Inner.Noted.{ArePersistentPairs};

use crpd_base::{NodeId, SETS, SetBits, WORDS};
use flat_graph::Graph;
use icache::Geometry;
use loop_regions::Nest;
use must_cache::MustState;
use std::alloc::{AllocError, Global};

/// Notes that a node of a region accesses a block: `first` has the first block of each set, `mixed`
/// the sets with another one.
fn note(first: &mut MustState<SETS>, mixed: &mut SetBits<WORDS>, set: u16, block: u32)
    requires { set < 512 }
    ensures { (a : Accesses) (noted : ℕ → Bool) (y : ℕ) → a.set y ≡ set → a.block y ≡ block
        → HasNoted a noted first.old mixed.old
        → HasNoted a (with_node noted y) first.new mixed.new }
{
    match first.at(set) {
        None => first.hold(set, block),
        Some(held) => {
            let is_other = held != block;
            if is_other {
                mixed.insert(set);
            }
        }
    }
}

/// Notes a node's block in the regions that hold it.
fn note_round(
    first: &mut [MustState<SETS>],
    mixed: &mut [SetBits<WORDS>],
    regions: &[u32],
    set: u16,
    block: u32,
)
    requires set { set < 512 }
    requires count { length mixed.old ≡ length first.old }
    ensures { (a : Accesses) (noted : ℕ → ℕ → Bool) (y : ℕ) → a.set y ≡ set → a.block y ≡ block
        → AreNoted a noted first.old mixed.old
        → AreNoted a (with_round noted regions.now y) first.new mixed.new }
{
    for r in regions {
        let region = *r as usize;
        let is_listed = region < first.len();
        if is_listed {
            note(&mut first[region], &mut mixed[region], set, block);
        }
    }
}

/// Notes the blocks of all nodes in the regions that hold them.
fn note_nodes(
    graph: &Graph,
    nest: &Nest,
    geometry: &Geometry,
    first: &mut [MustState<SETS>],
    mixed: &mut [SetBits<WORDS>],
)
    requires nest { IsNestOf graph.now nest.now }
    requires room { geometry.now.platform.sets ≤ 512 }
    requires count { length mixed.old ≡ length first.old }
    requires none { (r s : ℕ) → held (state_at first.old r) s ≡ None }
    requires apart { (r s : ℕ) → has (sets_at mixed.old r) s ≡ false }
    ensures { AreNoted (accesses geometry.now.platform (places_of graph.now).address)
        (nest_of nest.now).holds first.new mixed.new }
{
    for node in 0..graph.len() {
        let block = geometry.block(graph.address(NodeId(node)));
        let round = nest.regions_round(NodeId(node));
        note_round(first, mixed, round, geometry.set(block), block);
    }
}

/// Forgets the sets of which more than one block was noted.
fn forget_mixed(first: &mut [MustState<SETS>], mixed: &[SetBits<WORDS>])
    requires { length mixed.now ≡ length first.old }
    ensures { (r s : ℕ) → r < length first.old → held (state_at first.new r) s
        ≡ (if has (sets_at mixed.now r) s then None else held (state_at first.old r) s) }
{
    for r in 0..first.len() {
        first[r].forget(&mixed[r]);
    }
}

/// The persistent pairs of each region, as a state that holds their blocks. One pass over the nodes,
/// each with the regions that hold it, and one over the cache sets of each region. Allocates 4 kB for
/// each region.
pub(crate) fn region_pairs(
    alloc: Global,
    graph: &Graph,
    nest: &Nest,
    geometry: &Geometry,
) -> Result<Vec<MustState<SETS>>, AllocError>
    requires nest { IsNestOf graph.now nest.now }
    requires room { geometry.now.platform.sets ≤ 512 }
    ensures { IfOk result (λ pairs.
        ArePersistentPairs (accesses geometry.now.platform (places_of graph.now).address)
        (nest_of nest.now) pairs.items) }
{
    let regions = nest.len() as usize;
    let mut first = vec![in alloc; MustState::empty(); regions]?;
    let mut mixed = vec![in alloc; SetBits::new(); regions]?;
    note_nodes(graph, nest, geometry, &mut first, &mut mixed);
    forget_mixed(&mut first, &mixed);
    Ok(first)
}
