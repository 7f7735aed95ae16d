// The symbols of a file by their names.
ghost use Rattle.std.specs.Prelude.{◌≡◌, List, ℕ, IfOk, IsTrue};
ghost use Rattle.std.specs.BTreeMap as tree;
ghost use Rattle.std.specs.Cmp.Lexicographic.{slice_cmp};
ghost use Rattle.std.specs.Ordering.{nat_cmp};
ghost use Rattle.code_map.specs.Values.{value_of};

use crpd_base::Symbol;
use std::alloc::{AllocError, Global};
use std::collections::BTreeMap;
use std::marker::Model;

/// The values of a file's symbols by name; of several with the same name the first counts. A
/// contract sees it as the symbols.
#[derive(Drop)]
pub(crate) struct Names<'a> {
    symbols: &'a [Symbol],
    values: BTreeMap<&'a [u8], u32>,
}

impl<'a> Model for Names<'a> {
    ghost use Rattle.std.specs.Prelude.{◌≡◌, List, ℕ};
    ghost use Rattle.std.specs.BTreeMap as tree;
    ghost use Rattle.std.specs.Cmp.Lexicographic.{slice_cmp};
    ghost use Rattle.std.specs.Ordering.{nat_cmp};
    ghost use Rattle.crpd_base.specs.declared.data.Symbol.{Symbol};
    ghost use Rattle.code_map.specs.Values.{value_of};

    ghost Value = { List Symbol };

    ghost view = { λ n. n.symbols.now };

    ghost invariant = { λ n. (name : List ℕ)
        → tree.get_by (λ k. slice_cmp nat_cmp name k.now) n.values ≡ value_of n.symbols.now name };
}

/// The value of the first symbol of each name; it is inserted last.
fn values(alloc: Global, symbols: &[Symbol]) -> Result<BTreeMap<&[u8], u32>, AllocError>
    ensures { IfOk result (λ m. (name : List ℕ)
        → tree.get_by (λ k. slice_cmp nat_cmp name k.now) m ≡ value_of symbols.now name) }
{
    let mut values = BTreeMap::new(alloc);
    for i in (0..symbols.len()).rev() {
        let symbol = &symbols[i];
        values.insert(symbol.name.as_slice(), symbol.value)?;
    }
    Ok(values)
}

/// True only if two lists of symbols are equal.
fn are_same(symbols: &[Symbol], others: &[Symbol]) -> bool
    ensures { IsTrue result → symbols.now ≡ others.now }
{
    if symbols.len() != others.len() {
        return false;
    }
    for i in 0..symbols.len() {
        let (symbol, other) = (&symbols[i], &others[i]);
        if symbol.value != other.value || symbol.name.as_slice() != other.name.as_slice() {
            return false;
        }
    }
    true
}

impl<'a> Names<'a> {
    pub(crate) fn new(alloc: Global, symbols: &'a [Symbol]) -> Result<Self, AllocError>
        ensures { IfOk result (λ n. n ≡ symbols.now) }
    {
        let values = values(alloc, symbols)?;
        Ok(Names { symbols, values })
    }

    /// True only if they are the names of these symbols.
    pub(crate) fn are_of(&self, symbols: &[Symbol]) -> bool
        ensures { IsTrue result → self.now ≡ symbols.now }
    {
        are_same(self.symbols, symbols)
    }

    /// The value of the first symbol of a name.
    pub(crate) fn value(&self, name: &[u8]) -> Option<u32>
        ensures { result ≡ value_of self.now name.now }
    {
        self.values.get(name).copied()
    }
}
