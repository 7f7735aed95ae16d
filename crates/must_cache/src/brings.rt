// What the edges of a graph bring into the cache sets.
ghost use Rattle.std.specs.Prelude.{◌≡◌, ℕ, ◌<◌, Option, None, false};
ghost use Rattle.std.proofs.Common.{refl};
ghost use Rattle.crpd_base.specs.Sets.{has};
ghost use Rattle.icache.specs.Cache.{held};
ghost use Rattle.must_cache.specs.Events.{or_before, unless_brought};
ghost use Rattle.must_cache.specs.Events.{brings_nothing, nothing_at_start};

use crate::state::MustState;
use crpd_base::SetBits;

/// What the edges of a graph bring into S cache sets, of which sets of numbers have W words: blocks
/// that are counted as loaded when the edge is passed, after the access of its source. No call
/// allocates memory.
pub trait Brings<const S: usize, const W: usize> {
    /// The block that the edge from one node to another brings into each set, if any.
    ghost brings: { Self → ℕ → ℕ → ℕ → Option ℕ };

    /// The block that is brought into each set before the first node, if any.
    ghost at_start: { Self → ℕ → Option ℕ };

    /// Which numbers are its nodes.
    ghost is_own: { Self → ℕ → Type 0 };

    /// Whether an edge may bring something. If not, it brings nothing.
    fn any(&self, source: u32, target: u32) -> bool
        requires source { is_own self.now source }
        requires target { is_own self.now target }
        ensures { result ≡ false → (set : ℕ) → brings self.now source target set ≡ None };

    /// Whether some edge from a node may bring something. If not, none does.
    fn any_from(&self, source: u32) -> bool
        requires { is_own self.now source }
        ensures { result ≡ false
            → (target set : ℕ) → brings self.now source target set ≡ None };

    /// Puts what an edge brings into the sets.
    fn put(&self, source: u32, target: u32, state: &mut MustState<S>)
        requires source { is_own self.now source }
        requires target { is_own self.now target }
        ensures { (set : ℕ) → held state.new set
            ≡ or_before (brings self.now source target set) (held state.old set) };

    /// Puts what is brought before the first node into the sets.
    fn put_first(&self, state: &mut MustState<S>)
        ensures { (set : ℕ) → held state.new set
            ≡ or_before (at_start self.now set) (held state.old set) };

    /// Removes the sets into which an edge brings a block.
    fn unmark(&self, source: u32, target: u32, sets: &mut SetBits<W>)
        requires source { is_own self.now source }
        requires target { is_own self.now target }
        ensures { (set : ℕ) → has sets.new set
            ≡ unless_brought (brings self.now source target set) (has sets.old set) };
}

/// No edge brings anything.
#[derive(Clone, Copy)]
pub struct Nothing;

impl<const S: usize, const W: usize> Brings<S, W> for Nothing {
    ghost brings = { λ n. brings_nothing };

    ghost at_start = { λ n. nothing_at_start };

    ghost is_own = { λ n u. Unit {0} };

    fn any(&self, _source: u32, _target: u32) -> bool {
        false
    }

    fn any_from(&self, _source: u32) -> bool {
        false
    }

    fn put(&self, _source: u32, _target: u32, _state: &mut MustState<S>) {}

    fn put_first(&self, _state: &mut MustState<S>) {}

    fn unmark(&self, _source: u32, _target: u32, _sets: &mut SetBits<W>) {}
}
