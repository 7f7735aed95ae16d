// The nodes that wait to be visited.
ghost use Rattle.std.specs.Prelude.{◌≡◌, ℕ, ◌<◌, ◌≤◌, List, Bool, length, IfOk, MatchOption};
ghost use Rattle.std.specs.Prelude.{IsTrue, slice_index, slice_set, true, false};
ghost use Rattle.dataflow.specs.Inner.Search.{IsVisitOrder, waits};

use std::alloc::{AllocError, Global};
use std::marker::Model;

/// Waiting nodes, taken in turn by an order that may have a node more than once.
#[derive(Drop)]
pub(crate) struct Worklist {
    waiting: Vec<bool>,
    order: Vec<u32>,
    place: usize,
}

impl Model for Worklist {
    ghost Value = { List Bool };

    ghost view = { λ w. w.waiting.items };

    ghost invariant = { λ w. IsVisitOrder (length w.waiting.items) w.order.items
        × (w.place ≤ length w.order.items) };
}

/// The first place from `from` on and before `to` whose node waits.
fn first_waiting(order: &[u32], waiting: &[bool], from: usize, to: usize) -> Option<usize>
    requires order { IsVisitOrder (length waiting.now) order.now }
    requires from { from ≤ to }
    requires to { to ≤ length order.now }
    ensures { MatchOption result
        ((i : ℕ) → from ≤ i → i < to → waits waiting.now (slice_index order.now i) ≡ false)
        (λ i. (i < to) × (waits waiting.now (slice_index order.now i) ≡ true)) }
{
    for place in from..to {
        if waiting[order[place] as usize] {
            return Some(place);
        }
    }
    None
}

/// The next place whose node waits, from `place` on and, after the end, from the start.
fn next_waiting(order: &[u32], waiting: &[bool], place: usize) -> Option<usize>
    requires order { IsVisitOrder (length waiting.now) order.now }
    requires place { place ≤ length order.now }
    ensures { MatchOption result
        ((n : ℕ) → waits waiting.now n ≡ false)
        (λ i. (i < length order.now) × (waits waiting.now (slice_index order.now i) ≡ true)) }
{
    match first_waiting(order, waiting, place, order.len()) {
        Some(later) => Some(later),
        None => first_waiting(order, waiting, 0, place),
    }
}

impl Worklist {
    /// All nodes of the order wait.
    pub(crate) fn new(alloc: Global, order: Vec<u32>, nodes: usize) -> Result<Self, AllocError>
        requires { IsVisitOrder nodes order.items }
        ensures nodes { IfOk result (λ w. length w ≡ nodes) }
        ensures all { IfOk result (λ w. (n : ℕ) → n < nodes → waits w n ≡ true) }
    {
        Ok(Worklist {
            waiting: vec![in alloc; true; nodes]?,
            order,
            place: 0,
        })
    }

    /// Takes the next waiting node.
    pub(crate) fn take(&mut self) -> Option<u32>
        ensures { MatchOption result
            ((n : ℕ) → waits self.old n ≡ false)
            (λ n. (n < length self.old) × (waits self.old n ≡ true)
            × (self.new ≡ slice_set self.old n false)) }
    {
        let place = next_waiting(&self.order, &self.waiting, self.place)?;
        let node = self.order[place];
        self.waiting[node as usize] = false;
        self.place = place + 1;
        Some(node)
    }

    /// Adds a node to the waiting ones.
    pub(crate) fn add(&mut self, node: u32)
        requires { node < length self.old }
        ensures { self.new ≡ slice_set self.old node true }
    {
        self.waiting[node as usize] = true;
    }
}
