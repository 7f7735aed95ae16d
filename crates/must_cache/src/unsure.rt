// Which sets do not surely hold what one walk leaves there, as a dataflow problem along the edges.
ghost use Rattle.std.specs.Prelude.{◌≡◌, ℕ, ◌<◌, ◌≤◌, ◌*◌, ◌==◌, if◌then◌else◌, Some, length};
ghost use Rattle.std.specs.Prelude.{false};
ghost use Rattle.crpd_base.specs.Sets.{has};
ghost use Rattle.icache.specs.Accesses.{accesses};
ghost use Rattle.flat_graph.specs.CodeGraph.{graph_of, places_of};
ghost use Rattle.must_cache.specs.Marks.{sets_at};
ghost use Rattle.must_cache.specs.Inner.Marks.{Marks, either_marks, marks_after_access};
ghost use Rattle.must_cache.specs.Inner.Marks.{marks_across, marks_below};
ghost use Rattle.must_cache.specs.Inner.MarkLaws.{either_joins, unmarked_distributes, few_marked};
ghost use Rattle.must_cache.specs.Inner.MarkLaws.{across_distributes};

use crate::brings::Brings;
use crpd_base::{NodeId, SetBits};
use dataflow::Domain;
use flat_graph::Graph;
use icache::Geometry;

/// The sets in which some walk to a node leaves something different from the chosen walk.
#[derive(Drop)]
pub(crate) struct Unsure<'a, B: Brings<S, W>, const S: usize, const W: usize> {
    pub(crate) graph: &'a Graph,
    pub(crate) geometry: &'a Geometry,
    pub(crate) brings: &'a B,
    pub(crate) apart: &'a [SetBits<W>],
    ghost few: { 64 * W ≤ 65536 },
    ghost room: { geometry.now.platform.sets ≤ 64 * W },
    ghost all_apart: { length apart.now ≡ (graph_of graph.now).size },
}

impl<B: Brings<S, W>, const S: usize, const W: usize> Domain for Unsure<'_, B, S, W> {
    type Fact = SetBits<W>;

    ghost Value = { Marks };

    ghost view = { λ sets s. has sets s };

    ghost joined = { either_marks };

    ghost passed = { λ d n before.
        marks_after_access (accesses d.geometry.now.platform (places_of d.graph.now).address).set n
        before };

    ghost crossed = { λ d u v after. marks_across (B.brings d.brings.now) u v after };

    ghost begins = { λ d n. Some (λ s. has (sets_at d.apart.now n) s) };

    ghost height = { λ d x. marks_below x (64 * W) };

    ghost tallest = { λ d. 64 * W };

    ghost is_own = { λ d n. (n < (graph_of d.graph.now).size) × B.is_own d.brings.now n };

    fn start(&self, node: u32) -> Option<SetBits<W>> {
        Some(self.apart[node as usize])
    }

    fn join(&self, a: &mut SetBits<W>, b: &SetBits<W>) -> bool {
        b.within_law();
        match a.first_missing(b) {
            Some(_) => {
                a.union(b);
                true
            }
            None => false,
        }
    }

    fn transfer(&self, node: u32, sets: &mut SetBits<W>) {
        let address = self.graph.address(NodeId(node));
        let set = self.geometry.set(self.geometry.block(address));
        sets.put(set, false);
    }

    fn cross(&self, source: u32, target: u32, sets: &mut SetBits<W>) {
        self.brings.unmark(source, target, sets);
    }

    ghost joins = { either_joins };

    ghost distributes = { λ d n a b.
        unmarked_distributes (accesses d.geometry.now.platform (places_of d.graph.now).address).set
        n a b };

    ghost crosses = { λ d u v a b. across_distributes (B.brings d.brings.now) u v a b };

    ghost bounded = { λ d v. few_marked v (64 * W) };
}
