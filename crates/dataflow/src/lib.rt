//! The least solution of a dataflow problem over a graph: at each node, the join over all paths.
#![tactic(auto)]

mod edges;
mod order;
mod outgoing;
mod problem;
mod solver;
mod variable;
mod worklist;

pub use edges::{Against, EdgeList};
pub use problem::{Domain, Flow, order_law};
pub use solver::solve;
pub use variable::{Known, Live, Use};
