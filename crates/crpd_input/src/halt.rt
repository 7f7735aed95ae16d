// Why a command stops before it has its text.
ghost use Rattle.std.specs.Prelude.{◌≡◌};
ghost use Rattle.crpd_input.specs.declared.halt.Halt.TheVariants.{Memory};

use crate::refusal::Refusal;
use crpd_base::Memory as NoMemory;
use std::alloc::{AllocError, AllocFailed};

/// Why a command stops before it has its text: an input, or what results from it, is refused; out
/// of memory; or a call of the files failed, which they counted.
#[derive(Drop)]
pub enum Halt {
    /// An input, or what results from it, is refused, for this first reason.
    Refused(Refusal),
    /// Out of memory; this is possible at any place.
    Memory,
    /// A call of the files failed, and they counted it.
    Fault,
}

impl From<AllocError> for Halt {
    ghost from_gives = { λ _ e. e ≡ Memory };

    fn from(_e: AllocError) -> Halt {
        Halt::Memory
    }
}

impl<T: Drop> From<AllocFailed<T>> for Halt {
    ghost from_gives = { λ _ e. e ≡ Memory };

    fn from(_e: AllocFailed<T>) -> Halt {
        Halt::Memory
    }
}

impl From<NoMemory> for Halt {
    ghost from_gives = { λ _ e. e ≡ Memory };

    fn from(_e: NoMemory) -> Halt {
        Halt::Memory
    }
}
