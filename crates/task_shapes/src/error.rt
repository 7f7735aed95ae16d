// Why the tasks of a set have no graphs, or their loops no regions.
ghost use Rattle.std.specs.Prelude.{◌≡◌};
ghost use Rattle.task_shapes.specs.declared.error.ShapeError.TheVariants.{Memory};

use crpd_base::Text;
use flat_graph::GraphError;
use loop_regions::LoopError;
use std::alloc::{AllocError, AllocFailed};

/// Why a set has no shapes, or out of memory.
#[derive(Drop)]
pub enum ShapeError {
    /// Out of memory, at any time.
    Memory,
    /// The name of the first task without a graph, and the reason, which is not `Memory`.
    Graph { name: Text, error: GraphError },
    /// The name of the first task whose loops have no regions, and the reason, which is not
    /// `Memory`.
    Loops { name: Text, error: LoopError },
}

impl From<AllocError> for ShapeError {
    ghost from_gives = { λ _ e. e ≡ Memory };

    fn from(_e: AllocError) -> ShapeError {
        ShapeError::Memory
    }
}

impl<T: Drop> From<AllocFailed<T>> for ShapeError {
    ghost from_gives = { λ _ e. e ≡ Memory };

    fn from(_e: AllocFailed<T>) -> ShapeError {
        ShapeError::Memory
    }
}
