//! The kinds of a task set's values.

ghost use Rattle.std.specs.Prelude.{◌≡◌, Option, IfOk};
ghost use Rattle.toml.specs.Data.{Data};
ghost use Rattle.toml.specs.View.{view, table_view};
ghost use Rattle.crpd_base.specs.Outcome.{Gives};
ghost use Rattle.text_keys.specs.TomlKeys as spec;

use crpd_base::{Switching, Text, is_file};
use std::alloc::{AllocError, Global};
use text_keys::{KeyError, Keys, line_length, switching_named, valid_name, whole};
use toml::Value;

/// A kind of value that a key of a task set may have.
pub trait Kind {
    /// What a value of this kind is read as.
    type Output: Drop;

    /// What a value means; None if it is of a different kind or outside its range.
    ghost meaning: { Data → Option Self.Output };

    /// Reads a value; None if it is not of the kind. At most linear in the value; running out of
    /// memory is the only error.
    fn read(alloc: Global, value: &Value) -> Result<Option<Self::Output>, AllocError>
        ensures { IfOk result (λ found. found ≡ meaning (view value.now)) };
}

/// What is read from the value at a required key: `Missing` if there is none, `BadValue` if it is
/// not of the kind.
#[tactic(auto, unfolding(text_keys::specs::TomlKeys::required))]
pub fn required<K: Kind>(alloc: Global, keys: &Keys, key: &str) -> Result<K::Output, KeyError>
    ensures { Gives KeyError.Memory (λ x. x) result
        (spec.required K.meaning keys.now.path.now key.now (table_view keys.now.table.now)) }
{
    let value = keys.present(alloc, key)?;
    keys.good(alloc, key, K::read(alloc, value)?)
}

/// What is read from the value at an optional key: a default if there is none, `BadValue` if it is
/// not of the kind.
#[tactic(auto, unfolding(text_keys::specs::TomlKeys::optional))]
pub fn optional<K: Kind>(
    alloc: Global,
    keys: &Keys,
    key: &str,
    default: K::Output,
) -> Result<K::Output, KeyError>
    ensures { Gives KeyError.Memory (λ x. x) result
        (spec.optional default K.meaning keys.now.path.now key.now
        (table_view keys.now.table.now)) }
{
    match keys.get(key) {
        None => Ok(default),
        Some(value) => keys.good(alloc, key, K::read(alloc, value)?),
    }
}

/// The length of a cache line in bytes: 4, 8, 16, 32 or 64.
pub struct LineBytes;

impl Kind for LineBytes {
    type Output = u32;

    ghost use Rattle.set_reader.specs.Kinds.{line_bytes};

    ghost meaning = { line_bytes };

    #[tactic(auto, unfolding(crate::specs::Kinds::line_bytes))]
    fn read(_alloc: Global, value: &Value) -> Result<Option<u32>, AllocError> {
        match whole(value, 4, 64) {
            Some(length) => Ok(line_length(length)),
            None => Ok(None),
        }
    }
}

/// Where a context switch may happen: `cycle` or `instruction`.
pub struct SwitchingPoint;

impl Kind for SwitchingPoint {
    type Output = Switching;

    ghost use Rattle.set_reader.specs.Kinds.{switching};

    ghost meaning = { switching };

    #[tactic(auto, unfolding(crate::specs::Kinds::switching))]
    fn read(_alloc: Global, value: &Value) -> Result<Option<Switching>, AllocError> {
        match value.as_str() {
            Some(text) => Ok(switching_named(text)),
            None => Ok(None),
        }
    }
}

/// A task's name, 1 to 32 bytes.
pub struct TaskName;

impl Kind for TaskName {
    type Output = Text;

    ghost use Rattle.set_reader.specs.Kinds.{name};

    ghost meaning = { name };

    #[tactic(auto, unfolding(crate::specs::Kinds::name))]
    fn read(alloc: Global, value: &Value) -> Result<Option<Text>, AllocError> {
        match valid_name(alloc, value.as_str())? {
            Some(name) => Ok(Some(Text::new(name))),
            None => Ok(None),
        }
    }
}

/// The name of a file, 1 to 255 bytes.
pub struct FileName;

impl Kind for FileName {
    type Output = Text;

    ghost use Rattle.set_reader.specs.Kinds.{file};

    ghost meaning = { file };

    #[tactic(auto, unfolding(crate::specs::Kinds::file))]
    fn read(alloc: Global, value: &Value) -> Result<Option<Text>, AllocError> {
        match value.as_str() {
            Some(text) if is_file(text) => Ok(Some(Text::new(String::from_str(alloc, text)?))),
            _ => Ok(None),
        }
    }
}
