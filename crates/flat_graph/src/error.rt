//! Why a task has no flat graph.

ghost use Rattle.std.specs.Prelude.{◌≡◌};
ghost use Rattle.flat_graph.specs.declared.error.GraphError.TheVariants.{Memory};

use std::alloc::{AllocError, AllocFailed};

/// Why a task has no flat graph. All but `Memory` have an address: that of the first node with an
/// error, in the order of numbering, and for `TooManyNodes` the task's entry.
#[derive(Clone, Copy)]
pub enum GraphError {
    /// There is no memory for the graph.
    Memory,
    /// More than 16,384 nodes are reached, including those with an error.
    TooManyNodes(u32),
    /// The address is not a multiple of 4.
    Misaligned(u32),
    /// The code map has no word there.
    OutsideCode(u32),
    /// The word fits no row of the instruction table.
    Undecodable(u32),
    /// An EBREAK.
    Breakpoint(u32),
    /// A JALR other than `jalr x0,0(x1)`.
    IndirectJump(u32),
    /// A JAL whose link register is neither x0 nor x1.
    OtherLink(u32),
    /// A call whose target is the task's entry, or the target of a call under way.
    Recursive(u32),
    /// A call with sixteen calls under way.
    TooDeep(u32),
}

impl From<AllocError> for GraphError {
    ghost from_gives = { λ _ e. e ≡ Memory };

    fn from(_e: AllocError) -> GraphError {
        GraphError::Memory
    }
}

impl<T: Drop> From<AllocFailed<T>> for GraphError {
    ghost from_gives = { λ _ e. e ≡ Memory };

    fn from(_e: AllocFailed<T>) -> GraphError {
        GraphError::Memory
    }
}
