// Why there are no refined windows.
ghost use Rattle.std.specs.Prelude.{◌≡◌};
ghost use Rattle.delay_point.specs.declared.error.RefineError.TheVariants.{Memory};

use crpd_base::Task;
use std::alloc::{AllocError, AllocFailed};

/// The reason why there are no refined windows: out of memory; the first task whose execution bound
/// exceeds 2^40 cycles, with the byte address of its entry; or the first task without a window. The
/// first of these that applies is given, in this order.
#[derive(Clone, Copy)]
pub enum RefineError {
    /// Out of memory, in an analysis or for the windows.
    Memory,
    /// This task's execution bound exceeds 2^40 cycles; the address is the byte address of its
    /// entry.
    TooLarge { task: Task, address: u32 },
    /// This task has no window by any of the methods.
    Unschedulable(Task),
}

impl From<AllocError> for RefineError {
    ghost from_gives = { λ _ e. e ≡ Memory };

    fn from(_e: AllocError) -> RefineError {
        RefineError::Memory
    }
}

impl<T: Drop> From<AllocFailed<T>> for RefineError {
    ghost from_gives = { λ _ e. e ≡ Memory };

    fn from(_e: AllocFailed<T>) -> RefineError {
        RefineError::Memory
    }
}
