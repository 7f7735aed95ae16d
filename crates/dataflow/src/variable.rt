// Two analyses of one variable that nodes read and write: one along the edges, one against them.
ghost use Rattle.std.specs.Prelude.{◌≡◌, ◌<◌, ◌||◌, ℕ, Option, Some, None, Bool, false, length};
ghost use Rattle.std.specs.Prelude.{slice_index_or};
ghost use Rattle.std.proofs.Common.{refl};
ghost use Rattle.dataflow.specs.Variable.{common_value, known_after, live_before, one_if_unknown};
ghost use Rattle.dataflow.specs.Variable.{one_if_live, first_unknown};
ghost use Rattle.dataflow.specs.declared.variable.Use.{Use};
ghost use Rattle.dataflow.specs.VariableLaws.{or_joins, live_distributes, both_joins};
ghost use Rattle.dataflow.specs.VariableLaws.{known_distributes, live_bounded, unknown_bounded};

use crate::problem::Domain;

/// What a node does with the variable.
#[derive(Clone, Copy)]
pub enum Use {
    /// It reads the variable.
    Reads,
    /// It writes this constant to the variable.
    Writes(u32),
    /// It does neither.
    Neither,
}

/// Whether the variable may be read before it is written, after a node. Flows against the edges, so
/// the fact before a node in the flow is that after the node in the graph.
#[derive(Clone, Copy)]
pub struct Live<'a> {
    /// What each node does, by its number. The domain's own nodes are the listed ones.
    pub uses: &'a [Use],
}

impl Domain for Live<'_> {
    type Fact = bool;

    ghost Value = { Bool };

    ghost view = { λ live. live };

    ghost joined = { λ a b. a || b };

    ghost passed = { λ d n live. live_before (slice_index_or d.uses.now n Use.Neither) live };

    ghost crossed = { λ d m n v. v };

    ghost begins = { λ d n. Some false };

    ghost height = { λ d live. one_if_live live };

    ghost tallest = { λ d. 1 };

    ghost is_own = { λ d n. n < length d.uses.now };

    fn start(&self, _node: u32) -> Option<bool> {
        Some(false)
    }

    fn join(&self, a: &mut bool, b: &bool) -> bool {
        if *b && !*a {
            *a = true;
            true
        } else {
            false
        }
    }

    fn transfer(&self, node: u32, live: &mut bool) {
        match self.uses[node as usize] {
            Use::Reads => *live = true,
            Use::Writes(_) => *live = false,
            Use::Neither => {}
        }
    }

    fn cross(&self, _source: u32, _target: u32, _fact: &mut bool) {}

    ghost joins = { or_joins };

    ghost distributes = { λ d n a b.
        live_distributes (slice_index_or d.uses.now n Use.Neither) a b };

    ghost crosses = { λ d m n a b. refl };

    ghost bounded = { λ d v. live_bounded v };
}

/// The constant that the variable surely holds before a node, if it is known. Paths begin at node
/// 0, where it is not known. Flows along the edges.
#[derive(Clone, Copy)]
pub struct Known<'a> {
    /// What each node does, by its number. The domain's own nodes are the listed ones.
    pub uses: &'a [Use],
}

impl Domain for Known<'_> {
    type Fact = Option<u32>;

    ghost Value = { Option ℕ };

    ghost view = { λ known. known };

    ghost joined = { common_value };

    ghost passed = { λ d n known. known_after (slice_index_or d.uses.now n Use.Neither) known };

    ghost crossed = { λ d m n v. v };

    ghost begins = { λ d n. first_unknown n };

    ghost height = { λ d known. one_if_unknown known };

    ghost tallest = { λ d. 1 };

    ghost is_own = { λ d n. n < length d.uses.now };

    fn start(&self, node: u32) -> Option<Option<u32>> {
        if node == 0 { Some(None) } else { None }
    }

    fn join(&self, a: &mut Option<u32>, b: &Option<u32>) -> bool {
        match (*a, *b) {
            (Some(j), Some(k)) if j == k => false,
            (Some(_), _) => {
                *a = None;
                true
            }
            (None, _) => false,
        }
    }

    fn transfer(&self, node: u32, known: &mut Option<u32>) {
        if let Use::Writes(constant) = self.uses[node as usize] {
            *known = Some(constant);
        }
    }

    fn cross(&self, _source: u32, _target: u32, _fact: &mut Option<u32>) {}

    ghost joins = { both_joins };

    ghost distributes = { λ d n a b.
        known_distributes (slice_index_or d.uses.now n Use.Neither) a b };

    ghost crosses = { λ d m n a b. refl };

    ghost bounded = { λ d v. unknown_bounded v };
}
