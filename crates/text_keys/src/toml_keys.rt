// The keys of a TOML table: each by its kind and range, with errors reported by the key's path.
ghost use Rattle.std.specs.Prelude.{◌≡◌, ◌≤◌, map, option_map, None, IfOk};
ghost use Rattle.toml.specs.Data.{get_member};
ghost use Rattle.toml.specs.View.{view, table_view};
ghost use Rattle.text_keys.specs.TomlKeys as spec;
ghost use Rattle.crpd_base.specs.Outcome.{Gives};

use crate::error::KeyError;
use crate::paths::key_path;
use crate::toml_kinds::whole;
use std::alloc::Global;
use toml::{Table, Value};

/// Whether a key is in a list.
fn is_listed(key: &str, keys: &[&str]) -> bool
    ensures { result ≡ spec.is_listed key.now (map (λ k. k.now) keys.now) }
{
    for k in keys {
        if key == *k {
            return true;
        }
    }
    false
}

/// The smaller of two texts by bytes.
fn lesser<'a>(least: Option<&'a str>, key: &'a str) -> Option<&'a str>
    ensures { option_map (λ k. k.now) result
        ≡ spec.lesser_key (option_map (λ k. k.now) least.entry) key.now }
{
    match least {
        Some(other) if key >= other => Some(other),
        _ => Some(key),
    }
}

/// The smallest key of a table, by bytes, that is not in a list.
fn least_unknown<'a>(table: &'a Table, keys: &[&str]) -> Option<&'a str>
    ensures { option_map (λ k. k.now) result
        ≡ spec.least_unknown (map (λ k. k.now) keys.now) None (table_view table.now) }
{
    let mut least: Option<&'a str> = None;
    for (key, _) in table {
        let key = key.as_str();
        if !is_listed(key, keys) {
            least = lesser(least, key);
        }
    }
    least
}

/// A table that is read, and the path of its keys. Except for `all_known`, a call takes at most the
/// time of one look-up, logarithmic in the table's keys, and of the path of a refusal. It takes
/// memory for the path of a refusal alone.
#[derive(Clone, Copy)]
pub struct Keys<'a> {
    /// The table.
    pub table: &'a Table,
    /// The text before each of its keys in a path: empty for the whole file, otherwise with a point
    /// at the end.
    pub path: &'a str,
}

impl<'a> Keys<'a> {
    /// The value at a key, None if it is absent. It takes no memory.
    pub fn get(&self, key: &str) -> Option<&'a Value>
        ensures { option_map (λ v. view v.now) result
            ≡ get_member key.now (table_view self.now.table.now) }
    {
        self.table.get(key)
    }

    /// The value at a required key, otherwise `Missing`.
    pub fn present(&self, alloc: Global, key: &str) -> Result<&'a Value, KeyError>
        ensures { Gives KeyError.Memory (λ v. view v.now) result
            (spec.value_at_key self.now.path.now key.now (table_view self.now.table.now)) }
    {
        match self.get(key) {
            Some(value) => Ok(value),
            None => Err(KeyError::Missing(key_path(alloc, self.path, key)?)),
        }
    }

    /// What was read from the value at a key, otherwise `BadValue`.
    pub fn good<T: Drop>(&self, alloc: Global, key: &str, read: Option<T>) -> Result<T, KeyError>
        ensures { Gives KeyError.Memory (λ x. x) result
            (spec.value_or_bad self.now.path.now key.now read) }
    {
        match read {
            Some(x) => Ok(x),
            None => Err(KeyError::BadValue(key_path(alloc, self.path, key)?)),
        }
    }

    /// Each key of the table is in the list, otherwise `UnknownKey`. Time is that of all pairs of a
    /// key and a listed one.
    #[tactic(auto, unfolding(crate::specs::TomlKeys::all_known))]
    pub fn all_known(&self, alloc: Global, keys: &[&str]) -> Result<(), KeyError>
        ensures { Gives KeyError.Memory (λ x. x) result
            (spec.all_known (map (λ k. k.now) keys.now) self.now.path.now
            (table_view self.now.table.now)) }
    {
        match least_unknown(self.table, keys) {
            None => Ok(()),
            Some(key) => Err(KeyError::UnknownKey(key_path(alloc, self.path, key)?)),
        }
    }

    /// A required whole number from `low` to `high`, otherwise `Missing` or `BadValue`.
    #[tactic(auto, unfolding(crate::specs::TomlKeys::required))]
    pub fn number(&self, alloc: Global, key: &str, low: u64, high: u64) -> Result<u64, KeyError>
        ensures is { Gives KeyError.Memory (λ x. x) result
            (spec.required (spec.whole low high) self.now.path.now key.now
            (table_view self.now.table.now)) }
        ensures bound { IfOk result (λ n. n ≤ high) }
    {
        let value = self.present(alloc, key)?;
        self.good(alloc, key, whole(value, low, high))
    }

    /// A required whole number from `low` to `high`, otherwise `Missing` or `BadValue`.
    pub fn small_number(
        &self,
        alloc: Global,
        key: &str,
        low: u32,
        high: u32,
    ) -> Result<u32, KeyError>
        ensures { Gives KeyError.Memory (λ x. x) result
            (spec.required (spec.whole low high) self.now.path.now key.now
            (table_view self.now.table.now)) }
    {
        let number = self.number(alloc, key, u64::from(low), u64::from(high))?;
        Ok(number as u32)
    }

    /// An optional number from `low` to `high`, otherwise `BadValue`; 0 if the key is absent.
    #[tactic(auto, unfolding(crate::specs::TomlKeys::optional))]
    pub fn number_or_zero(
        &self,
        alloc: Global,
        key: &str,
        low: u32,
        high: u32,
    ) -> Result<u32, KeyError>
        ensures { Gives KeyError.Memory (λ x. x) result
            (spec.optional 0 (spec.whole low high) self.now.path.now key.now
            (table_view self.now.table.now)) }
    {
        match self.get(key) {
            None => Ok(0),
            Some(value) => {
                let number = self.good(alloc, key, whole(value, u64::from(low), u64::from(high)))?;
                Ok(number as u32)
            }
        }
    }
}
