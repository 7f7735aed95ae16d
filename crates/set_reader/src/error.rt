//! Why a task set was refused.

ghost use Rattle.std.specs.Prelude.{◌≡◌};
ghost use Rattle.set_reader.specs.declared.error.SetError.TheVariants.{Memory};

use crpd_base::Text;
use std::alloc::{AllocError, AllocFailed};
use text_keys::KeyError;
use thiserror::Error;

/// The first error in the text of a task set. A key is reported with its path, as `task.1.period`,
/// with places counted from 0.
#[derive(Debug, Drop, Error)]
pub enum SetError {
    /// There is no memory for the set or for the parsed text.
    #[error("out of memory")]
    Memory,
    /// The bytes are not TOML, or have lists and inline tables nested more than 80 deep, a key of
    /// more than 80 parts, or a number that does not fit in 64 bits.
    #[error("not TOML")]
    NotToml,
    /// A required key is absent.
    #[error("{0} is missing")]
    Missing(Text),
    /// A value is of a different kind or outside its range, there is no task, or a task has more
    /// than 64 loops.
    #[error("{0} has a bad value")]
    BadValue(Text),
    /// There are more than 32 tasks: their number.
    #[error("{0} tasks are too many")]
    TooManyTasks(u64),
    /// A task's name occurs earlier: the key of the first such name.
    #[error("{0} is the name of an earlier task")]
    SameName(Text),
    /// A deadline exceeds its period: the key of the deadline.
    #[error("{0} exceeds the period")]
    DeadlineAfterPeriod(Text),
    /// An unknown key.
    #[error("{0} is no key")]
    UnknownKey(Text),
}

impl From<AllocError> for SetError {
    ghost from_gives = { λ _ e. e ≡ Memory };

    fn from(_e: AllocError) -> SetError {
        SetError::Memory
    }
}

impl<T: Drop> From<AllocFailed<T>> for SetError {
    ghost from_gives = { λ _ e. e ≡ Memory };

    fn from(_e: AllocFailed<T>) -> SetError {
        SetError::Memory
    }
}

impl From<KeyError> for SetError {
    ghost use Rattle.std.specs.Prelude.{◌≡◌};
    ghost use Rattle.set_reader.specs.Reading.{set_error};

    ghost from_gives = { λ k e. e ≡ set_error k };

    fn from(e: KeyError) -> SetError {
        match e {
            KeyError::Memory => SetError::Memory,
            KeyError::Missing(key) => SetError::Missing(key),
            KeyError::BadValue(key) => SetError::BadValue(key),
            KeyError::UnknownKey(key) => SetError::UnknownKey(key),
        }
    }
}
