// Lists of calls under way, each numbered when it is first found, and stored at its number and as a
// key.
ghost use Rattle.std.specs.Prelude.{◌≡◌, ◌<◌, ◌≤◌, ◌+◌, ◌^◌, ◌++◌, ◌∷◌, Some, None, IfOk, OnOk};
ghost use Rattle.std.specs.Prelude.{length, slice_get, slice_index_or, []};
ghost use Rattle.std.specs.BTreeMap.{get};
ghost use Rattle.flat_graph.specs.Inner.NumberingOrder.{list_cmp};
ghost use Rattle.flat_graph.specs.Inner.Reach.{AreNumbered, ExtendsLists};

use crate::graph::Context;
use std::alloc::{AllocError, Global};
use std::collections::BTreeMap;

/// The lists of calls that were found, in order, and the number of each, which is its place.
#[derive(Drop)]
pub(crate) struct Contexts {
    pub(crate) lists: Vec<Context>,
    pub(crate) numbers: BTreeMap<Context, u32>,
}

impl Contexts {
    pub(crate) fn new(alloc: Global) -> Self
        ensures numbered { AreNumbered result.numbers result.lists.items }
        ensures none { result.lists.items ≡ [] }
    {
        Contexts {
            lists: Vec::new(alloc),
            numbers: BTreeMap::new(alloc),
        }
    }

    /// The number of a list of calls, which is added if it is new. Logarithmic in the number of
    /// lists.
    pub(crate) fn number(&mut self, calls: Context) -> Result<u32, AllocError>
        requires numbered { AreNumbered self.old.numbers self.old.lists.items }
        requires few { length self.old.lists.items < 2 ^ 32 }
        ensures numbered { OnOk result (AreNumbered self.new.numbers self.new.lists.items) }
        ensures number { IfOk result (λ n. slice_get self.new.lists.items n ≡ Some calls) }
        ensures more { OnOk result (ExtendsLists self.old.lists.items self.new.lists.items) }
        ensures count { OnOk result
            (length self.new.lists.items ≤ length self.old.lists.items + 1) }
    {
        match self.numbers.get(&calls) {
            Some(number) => Ok(*number),
            None => self.add(calls),
        }
    }

    /// Adds a list of calls that is new.
    fn add(&mut self, calls: Context) -> Result<u32, AllocError>
        requires numbered { AreNumbered self.old.numbers self.old.lists.items }
        requires few { length self.old.lists.items < 2 ^ 32 }
        requires unmet { get list_cmp self.old.numbers calls ≡ None }
        ensures numbered { OnOk result (AreNumbered self.new.numbers self.new.lists.items) }
        ensures lists { OnOk result (self.new.lists.items ≡ self.old.lists.items ++ calls ∷ []) }
        ensures number { IfOk result (λ n. n ≡ length self.old.lists.items) }
    {
        let number = self.lists.len() as u32;
        let same = calls.clone()?;
        self.numbers.insert(calls, number)?;
        self.lists.push(same)?;
        Ok(number)
    }
}

/// The calls with a number.
pub(crate) fn calls_of(lists: &[Context], number: u32) -> &[u32]
    ensures { result.now ≡ slice_index_or lists.now number [] }
{
    match lists.get(number as usize) {
        Some(context) => context.calls.as_slice(),
        None => &[],
    }
}
