//! Why the keys of a table could not be read.

ghost use Rattle.std.specs.Prelude.{◌≡◌};
ghost use Rattle.text_keys.specs.declared.error.KeyError.TheVariants.{Memory};

use crpd_base::Text;
use std::alloc::{AllocError, AllocFailed};

/// The error of a key, reported with its path.
#[derive(Drop)]
pub enum KeyError {
    /// There is no memory for what is read, or for the path.
    Memory,
    /// A required key is absent: its path.
    Missing(Text),
    /// The value is of a different kind or outside its range: the key's path.
    BadValue(Text),
    /// The first unknown key by bytes: its path.
    UnknownKey(Text),
}

impl From<AllocError> for KeyError {
    ghost from_gives = { λ _ e. e ≡ Memory };

    fn from(_e: AllocError) -> KeyError {
        KeyError::Memory
    }
}

impl<T: Drop> From<AllocFailed<T>> for KeyError {
    ghost from_gives = { λ _ e. e ≡ Memory };

    fn from(_e: AllocFailed<T>) -> KeyError {
        KeyError::Memory
    }
}
