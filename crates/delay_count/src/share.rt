// What a delay counts of a task.
use crpd_base::SetBits;

/// What a delay counts of an affected task: how often its jobs may be preempted, and its useful
/// cache sets.
#[derive(Clone, Copy)]
pub struct Share<const W: usize> {
    /// How often its jobs may be preempted in the window, below 2^81.
    pub count: u128,
    /// Its useful cache sets.
    pub useful: SetBits<W>,
}
