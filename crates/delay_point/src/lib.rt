//! Delays by program point: a preempted job reloads at most what is useful at the one node where it
//! is preempted. The windows by the smallest of five methods, two of them with persistent blocks, and
//! the laws on these.
#![tactic(auto)]

mod error;
mod laws;
mod parts;
mod refine;
mod standing;
mod windows;

pub use error::RefineError;
pub use laws::{a_refinement_exists, chosen_law, parts_law, point_law, refined_law};
pub use refine::refined;
