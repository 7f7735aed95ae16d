// The sets whose next access is a hit, as a dataflow problem against the edges.
ghost use Rattle.std.specs.Prelude.{◌≡◌, ℕ, ◌<◌, ◌≤◌, ◌*◌, ◌==◌, if◌then◌else◌, Some, None, IfOk};
ghost use Rattle.std.specs.Prelude.{IsSome, IsTrue, length, slice_index_or, false};
ghost use Rattle.crpd_base.specs.Sets.{has};
ghost use Rattle.icache.specs.Accesses.{accesses};
ghost use Rattle.flat_graph.specs.CodeGraph.{graph_of, places_of};
ghost use Rattle.must_cache.specs.Sure.{CountsSureHits};
ghost use Rattle.must_cache.specs.States.{AreSure};
ghost use Rattle.useful_sets.specs.Sets.{AreUseful, sets_at};
ghost use Rattle.must_cache.specs.Inner.Marks.{Marks, either_marks, marks_below};
ghost use Rattle.must_cache.specs.Inner.MarkLaws.{either_joins, few_marked};
ghost use Rattle.useful_sets.specs.Unpaid.{AreUsefulUnpaid};
ghost use Rattle.useful_sets.specs.Inner.Reuse.{before_access, after_edge};
ghost use Rattle.useful_sets.specs.Inner.ReuseLaws.{before_distributes, edge_distributes};

use crate::payments::{NoPayments, Payments};
use crpd_base::{Memory, NodeId, SetBits};
use dataflow::{Against, Domain, EdgeList, solve};
use flat_graph::Graph;
use icache::Geometry;
use must_cache::{MustState, edges, hits_of_states};
use std::alloc::{AllocError, Global};

/// The sets whose next access after a node is a hit, on some path. In the flow, which is against
/// the edges, that is the fact before the node.
#[derive(Drop)]
struct NextHit<'a, P: Payments<W>, const W: usize> {
    graph: &'a Graph,
    geometry: &'a Geometry,
    hits: &'a [bool],
    payments: &'a P,
    ghost few: { 64 * W ≤ 65536 },
    ghost room: { geometry.now.platform.sets ≤ 64 * W },
    ghost all_hits: { length hits.now ≡ (graph_of graph.now).size },
}

impl<P: Payments<W>, const W: usize> Domain for NextHit<'_, P, W> {
    type Fact = SetBits<W>;

    ghost Value = { Marks };

    ghost view = { λ sets s. has sets s };

    ghost joined = { either_marks };

    ghost passed = { λ d n after.
        before_access (accesses d.geometry.now.platform (places_of d.graph.now).address)
        (λ y. slice_index_or d.hits.now y false) n after };

    ghost crossed = { λ d v u before. after_edge (P.pays d.payments.now) v u before };

    ghost begins = { λ d n. Some (λ s. false) };

    ghost height = { λ d x. marks_below x (64 * W) };

    ghost tallest = { λ d. 64 * W };

    ghost is_own = { λ d n. (n < (graph_of d.graph.now).size) × P.is_own d.payments.now n };

    fn start(&self, _node: u32) -> Option<SetBits<W>> {
        Some(SetBits::new())
    }

    fn join(&self, a: &mut SetBits<W>, b: &SetBits<W>) -> bool {
        b.within_law();
        match a.first_missing(b) {
            Some(_) => {
                a.union(b);
                true
            }
            None => false,
        }
    }

    fn transfer(&self, node: u32, sets: &mut SetBits<W>) {
        let address = self.graph.address(NodeId(node));
        let set = self.geometry.set(self.geometry.block(address));
        sets.put(set, self.hits[node as usize]);
    }

    fn cross(&self, target: u32, source: u32, sets: &mut SetBits<W>) {
        self.payments.cut(source, target, sets);
    }

    ghost joins = { either_joins };

    ghost distributes = { λ d n a b.
        before_distributes (accesses d.geometry.now.platform (places_of d.graph.now).address)
        (λ y. slice_index_or d.hits.now y false) n a b };

    ghost crosses = { λ d v u a b. edge_distributes (P.pays d.payments.now) v u a b };

    ghost bounded = { λ d v. few_marked v (64 * W) };
}

/// The sets before each node, from those after it, each of which is present.
fn all_before<P: Payments<W>, const W: usize>(
    alloc: Global,
    domain: &NextHit<P, W>,
    after: &[Option<SetBits<W>>],
) -> Result<Vec<SetBits<W>>, AllocError>
    requires own { (n : ℕ) → n < (graph_of domain.now.graph.now).size
        → P.is_own domain.now.payments.now n }
    requires count { length after.now ≡ (graph_of domain.now.graph.now).size }
    requires there { (n : ℕ) → n < length after.now → IsSome (slice_index_or after.now n None) }
    ensures count { IfOk result (λ before. length before.items ≡ length after.now) }
    ensures each { IfOk result
        (λ before. (n s : ℕ) (sets : _) → n < length after.now
        → slice_index_or after.now n None ≡ Some sets →
        has (sets_at before.items n) s ≡
        before_access
        (accesses domain.now.geometry.now.platform (places_of domain.now.graph.now).address)
        (λ y. slice_index_or domain.now.hits.now y false) n (has sets) s) }
{
    let mut before = Vec::with_capacity(alloc, after.len())?;
    for node in 0..domain.graph.len() {
        let mut sets = match after[node as usize] {
            Some(sets) => sets,
            None => unreachable!(),
        };
        domain.transfer(node, &mut sets);
        before.push(sets)?;
    }
    Ok(before)
}

/// The cache sets before each node, by the nodes' numbers, for which some path's next access is one
/// of these hits, with no edge before it that pays for the set. The only error is out of memory.
/// Costs as `useful`, and for each edge that is followed what `cut` costs.
pub fn useful_unpaid<P: Payments<W>, const W: usize>(
    alloc: Global,
    graph: &Graph,
    geometry: &Geometry,
    hits: &[bool],
    payments: &P,
) -> Result<Vec<SetBits<W>>, Memory>
    requires few { 64 * W ≤ 65536 }
    requires room { geometry.now.platform.sets ≤ 64 * W }
    requires count { length hits.now ≡ (graph_of graph.now).size }
    requires own { (n : ℕ) → n < (graph_of graph.now).size → P.is_own payments.now n }
    ensures { IfOk result (λ sets.
        AreUsefulUnpaid (graph_of graph.now)
        (accesses geometry.now.platform (places_of graph.now).address)
        (λ z. IsTrue (slice_index_or hits.now z false))
        (λ u v s. IsTrue (P.pays payments.now u v s)) sets.items) }
{
    let edges = edges(alloc, graph)?;
    let Some(flow) = EdgeList::new(graph.len(), &edges) else {
        unreachable!()
    };
    let domain = NextHit::<P, W> {
        graph,
        geometry,
        hits,
        payments,
    };
    let after = solve(alloc, &Against::new(&flow), &domain)?;
    let before = all_before(alloc, &domain, &after)?;
    Ok(before)
}

/// The useful cache sets before each node, by the nodes' numbers, given which nodes are hits by
/// Sure: `hits` is what `sure_hits` of `must_cache` returns for this graph and geometry. The only
/// error is out of memory. Costs as `useful`.
pub fn useful_by_hits<const W: usize>(
    alloc: Global,
    graph: &Graph,
    geometry: &Geometry,
    hits: &[bool],
) -> Result<Vec<SetBits<W>>, Memory>
    requires few { 64 * W ≤ 65536 }
    requires room { geometry.now.platform.sets ≤ 64 * W }
    requires count { length hits.now ≡ (graph_of graph.now).size }
    requires each { CountsSureHits (graph_of graph.now)
        (accesses geometry.now.platform (places_of graph.now).address)
        (λ y. slice_index_or hits.now y false) }
    ensures { IfOk result (λ sets.
        AreUseful (graph_of graph.now)
        (accesses geometry.now.platform (places_of graph.now).address) sets.items) }
{
    let sets = useful_unpaid::<NoPayments, W>(alloc, graph, geometry, hits, &NoPayments)?;
    Ok(sets)
}

/// The useful cache sets before each node, by the nodes' numbers. A set is useful if it surely
/// holds a block that some path from the node on accesses next in this set, at an access that is
/// surely a hit. `must` is what `must` of `must_cache` returns for this graph and geometry.
///
/// The only error is out of memory. Allocates two sets of numbers for each node, and a list of the
/// edges. An edge is followed once if the graph has no cycle, otherwise again whenever the sets at
/// its target have grown, each time over W words.
pub fn useful<const S: usize, const W: usize>(
    alloc: Global,
    graph: &Graph,
    geometry: &Geometry,
    must: &[MustState<S>],
) -> Result<Vec<SetBits<W>>, Memory>
    requires room { geometry.now.platform.sets ≤ S }
    requires few { 64 * W ≤ 65536 }
    requires room_for_sets { geometry.now.platform.sets ≤ 64 * W }
    requires sure { AreSure (graph_of graph.now)
        (accesses geometry.now.platform (places_of graph.now).address) must.now }
    ensures { IfOk result (λ sets.
        AreUseful (graph_of graph.now)
        (accesses geometry.now.platform (places_of graph.now).address) sets.items) }
{
    let hits = hits_of_states(alloc, graph, geometry, must)?;
    useful_by_hits(alloc, graph, geometry, &hits)
}
