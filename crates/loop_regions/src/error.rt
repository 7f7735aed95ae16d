// Why stated loops have no regions.
ghost use Rattle.std.specs.Prelude.{◌≡◌};
ghost use Rattle.loop_regions.specs.declared.error.LoopError.TheVariants.{Memory};

use std::alloc::AllocError;

/// The first fault of a task's stated loops, or out of memory. `SameHead` has the smallest such
/// head. The three after it have the byte address of the smallest node, in the order of numbering,
/// at which the fault is.
#[derive(Clone, Copy)]
pub enum LoopError {
    /// Out of memory.
    Memory,
    /// Two stated loops have this head.
    SameHead(u32),
    /// An edge from outside a region leads to a node of it that is not its head, or the first node
    /// is such a node.
    SecondEntry(u32),
    /// A node is in two regions of which neither holds the other.
    NotNested(u32),
    /// A node is on a cycle of edges none of which leads to the head of a region that holds its
    /// source.
    CycleWithoutBound(u32),
}

impl From<AllocError> for LoopError {
    ghost from_gives = { λ _ e. e ≡ Memory };

    fn from(_e: AllocError) -> LoopError {
        LoopError::Memory
    }
}
