//! A task set with its code, the graphs of its tasks with the regions of their loops, and what two
//! sets have in common.
#![tactic(auto)]

ghost use Rattle.task_shapes.specs.ShapesEnds.{GraphsExist, ShapesExist};

mod error;
mod graphs;
mod input;
mod regions;
mod renewed;
mod same_task;
mod shaped;
mod shaping;

pub use error::ShapeError;
pub use graphs::task_graphs;
pub use input::Input;
pub use renewed::renew;
pub use shaped::ShapedSet;
pub use shaping::shape;

/// A law: it cannot be that a set with its code has neither graphs nor an error, nor that it has
/// neither shapes nor an error. In constant time.
pub fn shapes_exist()
    ensures graphs { GraphsExist }
    ensures shapes { ShapesExist }
{}
