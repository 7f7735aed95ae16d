//! Why a script was refused.

ghost use Rattle.std.specs.Prelude.{◌≡◌, ◌≢◌};
ghost use Rattle.script_reader.specs.declared.error.ScriptError.TheVariants.{Memory, TooLong};

use crpd_base::Text;
use std::alloc::{AllocError, AllocFailed, Global};
use text_keys::KeyError;
use thiserror::Error;

/// The first error in the text of a script. A key is reported with its path, as `job.3.release`,
/// with places counted from 0.
#[derive(Debug, Drop, Error)]
pub enum ScriptError {
    /// There is no memory for the script or for the parsed text.
    #[error("out of memory")]
    Memory,
    /// The bytes are not TOML, or have lists and inline tables nested more than 80 deep, a key of
    /// more than 80 parts, or a number that does not fit in 64 bits.
    #[error("not TOML")]
    NotToml,
    /// A required key is absent.
    #[error("{0} is missing")]
    Missing(Text),
    /// A value is of a different kind or outside its range.
    #[error("{0} has a bad value")]
    BadValue(Text),
    /// A job's task is not in the set.
    #[error("{0} is no task of the set")]
    UnknownTask(Text),
    /// `cycles` is a whole number above 2^40, or there are more than 10,000 jobs: the key `cycles`
    /// or `job`.
    #[error("{0} is too long")]
    TooLong(Text),
    /// An unknown key.
    #[error("{0} is no key")]
    UnknownKey(Text),
}

impl ScriptError {
    /// The refusal of a key whose value is too long.
    pub(crate) fn too_long(alloc: Global, key: &str) -> ScriptError
        ensures { result ≢ Memory → result ≡ TooLong key.now }
    {
        match String::from_str(alloc, key) {
            Ok(key) => ScriptError::TooLong(Text::new(key)),
            Err(_) => ScriptError::Memory,
        }
    }
}

impl From<AllocError> for ScriptError {
    ghost from_gives = { λ _ e. e ≡ Memory };

    fn from(_e: AllocError) -> ScriptError {
        ScriptError::Memory
    }
}

impl<T: Drop> From<AllocFailed<T>> for ScriptError {
    ghost from_gives = { λ _ e. e ≡ Memory };

    fn from(_e: AllocFailed<T>) -> ScriptError {
        ScriptError::Memory
    }
}

impl From<KeyError> for ScriptError {
    ghost use Rattle.std.specs.Prelude.{◌≡◌};
    ghost use Rattle.script_reader.specs.Reading.{script_error};

    ghost from_gives = { λ k e. e ≡ script_error k };

    fn from(e: KeyError) -> ScriptError {
        match e {
            KeyError::Memory => ScriptError::Memory,
            KeyError::Missing(key) => ScriptError::Missing(key),
            KeyError::BadValue(key) => ScriptError::BadValue(key),
            KeyError::UnknownKey(key) => ScriptError::UnknownKey(key),
        }
    }
}
