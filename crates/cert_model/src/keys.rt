//! The keys of an object: each is looked up, and an error is reported with its path.

ghost use Rattle.std.specs.Prelude.{◌≡◌, ◌≤◌, IfOk};
ghost use Rattle.serde_json.specs.View.{view, members_view};
ghost use Rattle.cert_model.specs.Keys as spec;
ghost use Rattle.crpd_base.specs.Outcome.{Gives};
ghost use Rattle.cert_model.specs.Kinds as kind;

use crate::error::CertError;
use crate::kinds::{Object, whole};
use serde_json::Value;
use std::alloc::Global;
use text_keys::key_path;

/// An object that is read, and the path of its keys. A call takes at most the time of one look-up,
/// logarithmic in the object's keys, and of the path of a refusal. It takes memory for the path of
/// a refusal alone.
#[derive(Clone, Copy)]
pub struct Keys<'a> {
    /// What the path of a refusal is allocated by.
    pub alloc: Global,
    /// The object.
    pub object: &'a Object,
    /// The text before each of its keys in a path: empty for the whole text, otherwise with a point
    /// at the end.
    pub path: &'a str,
}

impl<'a> Keys<'a> {
    /// The keys of an object, with the text before each of them in a path.
    pub fn new(alloc: Global, object: &'a Object, path: &'a str) -> Keys<'a>
        ensures object { result.object.now ≡ object.now }
        ensures path { result.path.now ≡ path.now }
    {
        Keys {
            alloc,
            object,
            path,
        }
    }

    /// The value at a required key, otherwise `Missing`.
    pub fn present(&self, key: &str) -> Result<&'a Value, CertError>
        ensures { Gives CertError.Memory (λ v. view v.now) result
            (spec.value_at_key self.now.path.now key.now
            (members_view self.now.object.now.entries)) }
    {
        match self.object.get(key) {
            Some(value) => Ok(value),
            None => Err(CertError::Missing(key_path(self.alloc, self.path, key)?)),
        }
    }

    /// What was read from the value at a key, otherwise `BadValue`.
    pub fn good<T: Drop>(&self, key: &str, read: Option<T>) -> Result<T, CertError>
        ensures { Gives CertError.Memory (λ x. x) result
            (spec.value_or_bad self.now.path.now key.now read) }
    {
        match read {
            Some(x) => Ok(x),
            None => Err(CertError::BadValue(key_path(self.alloc, self.path, key)?)),
        }
    }

    /// A number from `low` to `high`, otherwise `Missing` or `BadValue`.
    #[tactic(auto, unfolding(crate::specs::Keys::required))]
    pub fn number(&self, key: &str, low: u64, high: u64) -> Result<u64, CertError>
        ensures is { Gives CertError.Memory (λ x. x) result
            (spec.required (kind.whole low high) self.now.path.now key.now
            (members_view self.now.object.now.entries)) }
        ensures bound { IfOk result (λ n. n ≤ high) }
    {
        let value = self.present(key)?;
        self.good(key, whole(value, low, high))
    }

    /// A number from `low` to `high`, of 32 bits, otherwise `Missing` or `BadValue`.
    pub fn small_number(&self, key: &str, low: u32, high: u32) -> Result<u32, CertError>
        ensures { Gives CertError.Memory (λ x. x) result
            (spec.required (kind.whole low high) self.now.path.now key.now
            (members_view self.now.object.now.entries)) }
    {
        let number = self.number(key, u64::from(low), u64::from(high))?;
        Ok(number as u32)
    }
}
