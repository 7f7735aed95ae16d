// An observer of the fetches of a run.
ghost use Rattle.std.specs.Prelude.{◌≡◌, ℕ, suc, ◌+◌, None, OnOk};
ghost use Rattle.preempt_machine.specs.Step.{Start, fetch_at};
ghost use Rattle.preempt_machine.specs.Observed.{IsObservation};

use crpd_base::Memory;

/// A fetch of a run, as an observer receives it.
#[derive(Clone, Copy)]
pub struct Observation {
    /// The place in the script of the job that fetches.
    pub place: usize,
    /// The byte address of the instruction.
    pub address: u32,
    /// The cache set of its block.
    pub set: u16,
    /// Whether its block was not cached.
    pub missed: bool,
    /// The cycle, counted from the run's start.
    pub time: u64,
    /// Whether no watch is broken before that cycle.
    pub kept: bool,
}

/// An observer receives each fetch of a run, in the order of their times. It is not called for a
/// cycle without a fetch: by the law `passes` such a cycle leaves nothing to observe.
pub trait Observer {
    /// What the observer knows of the run that it observes.
    ghost Run: { Type 0 };

    /// What an observer knows of its run. It stays the same.
    ghost observed: { Self → Run };

    /// What a run starts from.
    ghost start: { Run → Start };

    /// The observer has observed the fetches of the first n steps of the run.
    ghost has_observed: { Self → ℕ → Type 0 };

    /// Observes a fetch of the run, after all earlier ones. Out of memory is the only error.
    fn observe(&mut self, seen: Observation) -> Result<(), Memory>
        requires before { has_observed self.old seen.time }
        requires is { IsObservation (start (observed self.old)) seen }
        ensures same { OnOk result (observed self.new ≡ observed self.old) }
        ensures after { OnOk result (has_observed self.new (seen.time + 1)) };

    /// A law: if a step has no fetch and the steps before it are observed, it is observed too.
    ghost passes: { (o : Self) (n : ℕ) → fetch_at (start (observed o)) n ≡ None → has_observed o n
        → has_observed o (suc n) };
}
