// Which edges pay for which cache sets.
ghost use Rattle.std.specs.Prelude.{◌≡◌, ℕ, Bool, false, if◌then◌else◌};
ghost use Rattle.crpd_base.specs.Sets.{has};

use crpd_base::SetBits;

/// The cache sets for which the edges of a graph pay, as sets of numbers of W words: for the next
/// load of the set. No call allocates memory.
pub trait Payments<const W: usize> {
    /// Whether the edge from one node to another pays for a set.
    ghost pays: { Self → ℕ → ℕ → ℕ → Bool };

    /// Which numbers are its nodes.
    ghost is_own: { Self → ℕ → Type 0 };

    /// Removes the sets for which an edge pays.
    fn cut(&self, source: u32, target: u32, sets: &mut SetBits<W>)
        requires source { is_own self.now source }
        requires target { is_own self.now target }
        ensures { (set : ℕ) → has sets.new set
            ≡ (if pays self.now source target set then false else has sets.old set) };
}

/// No edge pays for anything.
#[derive(Clone, Copy)]
pub struct NoPayments;

impl<const W: usize> Payments<W> for NoPayments {
    ghost pays = { λ n u v s. false };

    ghost is_own = { λ n u. Unit {0} };

    fn cut(&self, _source: u32, _target: u32, _sets: &mut SetBits<W>) {}
}
