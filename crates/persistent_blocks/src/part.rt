// The part of a task where persistent blocks are paid for at the entry of their loop.
ghost use Rattle.std.specs.Prelude.{◌≡◌, ℕ, ◌<◌, ◌≤◌, IsTrue, false, MatchOption, IfOk, length};
ghost use Rattle.std.specs.Prelude.{slice_index_or};
ghost use Rattle.crpd_base.specs.Limits.{longest_time};
ghost use Rattle.crpd_base.specs.Ranges.{IsPlatform};
ghost use Rattle.crpd_base.specs.Sets.{IsSetOf, has};
ghost use Rattle.evict_sets.specs.Evicting.{IsEcb};
ghost use Rattle.evict_sets.specs.Listing.{counted};
ghost use Rattle.flat_graph.specs.CodeGraph.{graph_of, places_of};
ghost use Rattle.icache.specs.Accesses.{accesses};
ghost use Rattle.must_cache.specs.Marks.{sets_at};
ghost use Rattle.must_cache.specs.Prepaid.{CountsPrepaidHits, CountsPayments};
ghost use Rattle.loop_regions.specs.CodeNest.{IsNestOf, nest_of};
ghost use Rattle.loop_regions.specs.TaskGraphs.{task_graph};
ghost use Rattle.persistent_blocks.specs.Inner.Brought.{region_events};
ghost use Rattle.persistent_blocks.specs.Inner.Paid.{is_paid};
ghost use Rattle.persistent_blocks.specs.PersistentPart.{IsPersistentPart, IsPersistentBound};
ghost use Rattle.persistent_blocks.specs.PersistentPart.{IsPrepaidBound};
ghost use Rattle.persistent_blocks.specs.Regions.{AreRegionEvents};

use crate::payments_table::{PaymentsTable, payments, price, prices};
use crate::region_blocks::RegionBlocks;
use crate::region_heads::region_heads;
use crate::region_pairs::region_pairs;
use crpd_base::{Memory, Part, Platform, SETS, SetBits, WORDS};
use evict_sets::evicting;
use exec_bound::{BoundError, bound_with_prices};
use flat_graph::Graph;
use icache::Geometry;
use loop_regions::Nest;
use must_cache::{prepaid_parts, start_payments};
use std::alloc::Global;
use useful_sets::{sets_of_hits, useful_unpaid};

/// The persistent part of a task: its bound, and its evicting and useful cache sets, where
/// persistent blocks are paid for at the entry of their region.
#[derive(Drop)]
pub struct PersistentPart {
    /// The persistent bound in cycles, at most 2^41, the evicting cache sets, and those that are
    /// useful with persistence before some node.
    pub part: Part,
    /// The cache sets that are useful with persistence before each node, by node number.
    pub useful: Vec<SetBits<WORDS>>,
}

/// The evicting and the useful cache sets of a task, with a bound.
fn part_of(graph: &Graph, geometry: &Geometry, hits: &[bool], bound: u64) -> Part
    requires room { geometry.now.platform.sets ≤ 512 }
    requires count { length hits.now ≡ (graph_of graph.now).size }
    ensures bound { result.bound ≡ bound }
    ensures evicting { IsSetOf result.evicting (IsEcb (graph_of graph.now)
        (accesses geometry.now.platform (places_of graph.now).address)) }
    ensures useful { IsSetOf result.useful (λ s. (z : ℕ) × (z < (graph_of graph.now).size)
        × IsTrue (slice_index_or hits.now z false)
        × ((accesses geometry.now.platform (places_of graph.now).address).set z ≡ s)) }
{
    let evicting = evicting::<WORDS>(graph, geometry);
    let useful = sets_of_hits::<WORDS>(graph, geometry, hits);
    evicting.words_law();
    useful.words_law();
    Part {
        bound,
        evicting,
        useful,
    }
}

/// The bound with these hits, where the edges pay by this table and the start for what is brought
/// there, if it is at most 2^40 without what the start pays.
fn paid_bound(
    alloc: Global,
    geometry: &Geometry,
    brings: &RegionBlocks,
    hits: &[bool],
    table: &PaymentsTable,
) -> Result<Option<u64>, Memory>
    requires nest { IsNestOf brings.now.graph.now brings.now.nest.now }
    requires platform { IsPlatform geometry.now.platform }
    requires events { AreRegionEvents (graph_of brings.now.graph.now)
        (accesses geometry.now.platform (places_of brings.now.graph.now).address)
        (nest_of brings.now.nest.now)
        (region_events geometry.now.platform brings.now.graph.now brings.now.nest.now
        brings.now.heads.items brings.now.blocks.items) }
    requires count { length hits.now ≡ (graph_of brings.now.graph.now).size }
    requires hits { CountsPrepaidHits (graph_of brings.now.graph.now)
        (region_events geometry.now.platform brings.now.graph.now brings.now.nest.now
        brings.now.heads.items brings.now.blocks.items) (counted hits.now) }
    requires graph { table.now.graph.now ≡ brings.now.graph.now }
    requires edges { CountsPayments (graph_of brings.now.graph.now)
        (region_events geometry.now.platform brings.now.graph.now brings.now.nest.now
        brings.now.heads.items brings.now.blocks.items)
        (is_paid (graph_of brings.now.graph.now) table.now.sets.items) }
    ensures { IfOk result (λ found. MatchOption found
        ((bound : ℕ) × IsPrepaidBound geometry.now.platform
        (task_graph brings.now.graph.now brings.now.nest.now)
        (region_events geometry.now.platform brings.now.graph.now brings.now.nest.now
        brings.now.heads.items brings.now.blocks.items) bound
        × (longest_time < bound))
        (λ bound. IsPrepaidBound geometry.now.platform
        (task_graph brings.now.graph.now brings.now.nest.now)
        (region_events geometry.now.platform brings.now.graph.now brings.now.nest.now
        brings.now.heads.items brings.now.blocks.items) bound)) }
{
    let miss = geometry.platform.miss;
    let prices = prices(alloc, table, miss)?;
    let start = start_payments::<RegionBlocks, SETS, WORDS>(brings);
    let (graph, nest) = (brings.graph, brings.nest);
    graph.graph_law();
    match bound_with_prices(alloc, graph, nest, &geometry.platform, hits, &prices) {
        Ok(found) => {
            let bound = found.cycles + price(miss, &start);
            Ok(Some(bound))
        }
        Err(BoundError::TooLarge(_)) => Ok(None),
        Err(BoundError::Memory) => Err(Memory),
    }
}

/// The part of a task whose edges bring these blocks.
fn paid_part(
    alloc: Global,
    geometry: &Geometry,
    brings: &RegionBlocks,
) -> Result<Option<PersistentPart>, Memory>
    requires nest { IsNestOf brings.now.graph.now brings.now.nest.now }
    requires platform { IsPlatform geometry.now.platform }
    requires events { AreRegionEvents (graph_of brings.now.graph.now)
        (accesses geometry.now.platform (places_of brings.now.graph.now).address)
        (nest_of brings.now.nest.now)
        (region_events geometry.now.platform brings.now.graph.now brings.now.nest.now
        brings.now.heads.items brings.now.blocks.items) }
    ensures count { IfOk result (λ found. MatchOption found (Unit {0})
        (λ p. length p.useful.items ≡ length brings.now.graph.now.nodes)) }
    ensures exact { IfOk result (λ found. MatchOption found
        ((bound : ℕ) × IsPersistentBound geometry.now.platform
        (task_graph brings.now.graph.now brings.now.nest.now) bound × (longest_time < bound))
        (λ p. IsPersistentPart geometry.now.platform
        (task_graph brings.now.graph.now brings.now.nest.now) p.part
        (λ y. has (sets_at p.useful.items y)))) }
{
    let graph = brings.graph;
    let parts = prepaid_parts::<RegionBlocks, SETS, WORDS>(alloc, graph, geometry, brings)?;
    let hits = parts.hits.as_slice();
    let table = payments(alloc, geometry, brings, &parts)?;
    match paid_bound(alloc, geometry, brings, hits, &table)? {
        Some(cycles) => {
            let part = part_of(graph, geometry, hits, cycles);
            let useful = useful_unpaid::<PaymentsTable, WORDS>(
                alloc, graph, geometry, hits, &table,
            )?;
            Ok(Some(PersistentPart { part, useful }))
        }
        None => Ok(None),
    }
}

/// The persistent part of a task, `None` if its persistent bound exceeds 2^40 cycles. The only error
/// is out of memory.
///
/// Time: one pass over the nodes with the regions that hold each, a must analysis, a search for
/// useful sets, and one for potentials. Allocates 4 kB for each region, beside what these take.
pub fn persistent_part(
    alloc: Global,
    graph: &Graph,
    nest: &Nest,
    platform: &Platform,
) -> Result<Option<PersistentPart>, Memory>
    requires nest { IsNestOf graph.now nest.now }
    requires platform { IsPlatform platform.now }
    ensures count { IfOk result (λ found. MatchOption found (Unit {0})
        (λ p. length p.useful.items ≡ length graph.now.nodes)) }
    ensures exact { IfOk result (λ found. MatchOption found
        ((bound : ℕ) × IsPersistentBound platform.now (task_graph graph.now nest.now) bound
        × (longest_time < bound))
        (λ p. IsPersistentPart platform.now (task_graph graph.now nest.now) p.part
        (λ y. has (sets_at p.useful.items y)))) }
{
    graph.graph_law();
    let geometry = Geometry::new(platform);
    let heads = region_heads(alloc, graph, nest)?;
    let blocks = region_pairs(alloc, graph, nest, &geometry)?;
    let brings = RegionBlocks {
        graph,
        nest,
        heads,
        blocks,
    };
    paid_part(alloc, &geometry, &brings)
}
