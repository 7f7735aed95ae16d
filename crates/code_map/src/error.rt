//! Why a task set and its files give no code.

ghost use Rattle.std.specs.Prelude.{◌≡◌};
ghost use Rattle.code_map.specs.declared.error.MapError.TheVariants.{Memory};

use crpd_base::{Task, Text};
use std::alloc::{AllocError, AllocFailed};

/// The first error of a task set and its files.
#[derive(Drop)]
pub enum MapError {
    /// There is no memory for the code map.
    Memory,
    /// The lowest address at which two files have different code bytes.
    CodeConflict(u32),
    /// A place of the task whose symbol its file lacks, or that is at or past 2^32: the symbol,
    /// followed by `+` and the offset in decimal if the offset is not 0.
    UnknownSymbol(Task, Text),
    /// The task's entry, if there is no word at it.
    EntryOutside(Task, u32),
}

impl From<AllocError> for MapError {
    ghost from_gives = { λ _ e. e ≡ Memory };

    fn from(_e: AllocError) -> MapError {
        MapError::Memory
    }
}

impl<T: Drop> From<AllocFailed<T>> for MapError {
    ghost from_gives = { λ _ e. e ≡ Memory };

    fn from(_e: AllocFailed<T>) -> MapError {
        MapError::Memory
    }
}
