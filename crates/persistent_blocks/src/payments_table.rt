// For which cache sets each edge pays, as a table with two entries for each node.
ghost use Rattle.std.specs.Prelude.{◌≡◌, ◌↔◌, ℕ, ◌*◌, ◌<◌, ◌≤◌, ◌^◌, All, false, if◌then◌else◌, IfOk};
ghost use Rattle.std.specs.Prelude.{Some, IsTrue, option_map, length, slice_get};
ghost use Rattle.crpd_base.specs.Limits.{most_cost};
ghost use Rattle.crpd_base.specs.Sets.{has};
ghost use Rattle.exec_bound.specs.Costs.{greatest_bound, price_place};
ghost use Rattle.flat_graph.specs.CodeGraph.{graph_of};
ghost use Rattle.must_cache.specs.FirstWalks.{ArePrepaidParts};
ghost use Rattle.must_cache.specs.Prepaid.{CountsPayments, Pays};
ghost use Rattle.persistent_blocks.specs.Inner.Brought.{region_events};
ghost use Rattle.persistent_blocks.specs.Inner.Paid.{is_paid, sets_in, ArePrices};

use crate::region_blocks::RegionBlocks;
use crpd_base::{NodeId, SETS, SetBits, WORDS};
use flat_graph::Graph;
use icache::Geometry;
use must_cache::{SureParts, edge_payments};
use std::alloc::{AllocError, Global};
use useful_sets::Payments;

/// For which cache sets the edges of a graph pay.
#[derive(Drop)]
pub(crate) struct PaymentsTable<'a> {
    /// The graph.
    pub(crate) graph: &'a Graph,
    /// The sets for the edge to each node's first successor, and for that to its second.
    pub(crate) sets: Vec<SetBits<WORDS>>,
    ghost count: { length sets.items ≡ 2 * length graph.now.nodes },
}

/// Which of a node's two entries is that of its edge to a node, by its first successor.
fn entry_of(first: Option<NodeId>, target: u32) -> usize
    ensures is { result ≡ price_place (option_map (λ v. v.0) first) target }
    ensures small { result < 2 }
{
    match first {
        Some(node) => { if target == node.0 { 0 } else { 1 } }
        None => 1,
    }
}

/// Whether a set has no number. Passes over its words.
fn is_empty(sets: &SetBits<WORDS>) -> bool
    ensures { IsTrue result → (t : ℕ) → has sets.now t ≡ false }
{
    sets.within_law();
    match SetBits::<WORDS>::new().first_missing(sets) {
        Some(_) => false,
        None => true,
    }
}

/// Removes the numbers of another set, one by one.
fn remove_each(sets: &mut SetBits<WORDS>, others: &SetBits<WORDS>)
    ensures { (t : ℕ) → has sets.new t ≡ (if has others.now t then false else has sets.old t) }
{
    others.within_law();
    for s in 0..SETS as u16 {
        let is_other = others.has(s);
        if is_other {
            sets.remove(s);
        }
    }
}

/// Removes the numbers of another set, most of which are empty.
fn remove_all(sets: &mut SetBits<WORDS>, others: &SetBits<WORDS>)
    ensures { (t : ℕ) → has sets.new t ≡ (if has others.now t then false else has sets.old t) }
{
    if !is_empty(others) {
        remove_each(sets, others);
    }
}

/// The loads of these sets in cycles.
pub(crate) fn price(miss: u32, sets: &SetBits<WORDS>) -> u64
    requires { miss ≤ most_cost }
    ensures is { result ≡ miss * sets_in sets.now }
    ensures small { result ≤ 2 ^ 25 }
{
    miss as u64 * sets.count() as u64
}

/// For which sets the edge to a successor pays, if there is one.
fn paid_to(
    geometry: &Geometry,
    brings: &RegionBlocks,
    parts: &SureParts<SETS, WORDS>,
    source: NodeId,
    target: Option<NodeId>,
) -> SetBits<WORDS>
    requires room { geometry.now.platform.sets ≤ 512 }
    requires source { source.0 < (graph_of brings.now.graph.now).size }
    requires target { (v : ℕ) → option_map (λ t. t.0) target ≡ Some v
        → v < (graph_of brings.now.graph.now).size }
    requires parts { ArePrepaidParts (graph_of brings.now.graph.now)
        (region_events geometry.now.platform brings.now.graph.now brings.now.nest.now
        brings.now.heads.items brings.now.blocks.items)
        parts.now.places.items parts.now.states.items parts.now.hits.items parts.now.unsure.items }
    ensures { (v s : ℕ) → option_map (λ t. t.0) target ≡ Some v
        → IsTrue (has result s) ↔ Pays (graph_of brings.now.graph.now)
        (region_events geometry.now.platform brings.now.graph.now brings.now.nest.now
        brings.now.heads.items brings.now.blocks.items) source.0 v s }
{
    match target {
        Some(node) => edge_payments(parts, brings.graph, geometry, brings, source, node),
        None => SetBits::new(),
    }
}

/// The table of a graph: for which sets its edges pay that bring these blocks. One pass over the
/// edges, with one over the sets for each edge that enters a region. Allocates 128 bytes for each
/// node.
pub(crate) fn payments<'a>(
    alloc: Global,
    geometry: &Geometry,
    brings: &RegionBlocks<'a>,
    parts: &SureParts<SETS, WORDS>,
) -> Result<PaymentsTable<'a>, AllocError>
    requires room { geometry.now.platform.sets ≤ 512 }
    requires parts { ArePrepaidParts (graph_of brings.now.graph.now)
        (region_events geometry.now.platform brings.now.graph.now brings.now.nest.now
        brings.now.heads.items brings.now.blocks.items)
        parts.now.places.items parts.now.states.items parts.now.hits.items parts.now.unsure.items }
    ensures graph { IfOk result (λ table. table.graph.now ≡ brings.now.graph.now) }
    ensures counts { IfOk result (λ table. CountsPayments (graph_of brings.now.graph.now)
        (region_events geometry.now.platform brings.now.graph.now brings.now.nest.now
        brings.now.heads.items brings.now.blocks.items)
        (is_paid (graph_of brings.now.graph.now) table.sets.items)) }
{
    let graph = brings.graph;
    graph.graph_law();
    let mut sets = Vec::with_capacity(alloc, 2 * graph.len() as usize)?;
    for node in 0..graph.len() {
        let id = NodeId(node);
        sets.push(paid_to(geometry, brings, parts, id, graph.succ(id, 0)))?;
        sets.push(paid_to(geometry, brings, parts, id, graph.succ(id, 1)))?;
    }
    Ok(PaymentsTable { graph, sets })
}

/// The prices of the edges in cycles, with two entries for each node as the table has.
pub(crate) fn prices(
    alloc: Global,
    table: &PaymentsTable,
    miss: u32,
) -> Result<Vec<u64>, AllocError>
    requires { miss ≤ most_cost }
    ensures are { IfOk result (λ prices. ArePrices miss table.now.sets.items prices.items) }
    ensures small { IfOk result (λ prices. All (λ x. x ≤ greatest_bound) prices.items) }
{
    let mut prices = Vec::with_capacity(alloc, table.sets.len())?;
    for sets in &table.sets {
        prices.push(price(miss, sets))?;
    }
    Ok(prices)
}

impl Payments<WORDS> for PaymentsTable<'_> {
    ghost pays = { λ d. is_paid (graph_of d.graph.now) d.sets.items };

    ghost is_own = { λ d u. u < (graph_of d.graph.now).size };

    fn cut(&self, source: u32, target: u32, sets: &mut SetBits<WORDS>) {
        let entry = entry_of(self.graph.succ(NodeId(source), 0), target);
        let place = 2 * source as usize + entry;
        remove_all(sets, &self.sets[place]);
    }
}
