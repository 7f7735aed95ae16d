//! Sustainability, as laws: what is schedulable stays so if its parameters become better. Each law
//! is a function that does nothing, in constant time; its contract is the statement.
#![tactic(auto)]

mod laws;

pub use laws::{
    shorter_windows, sustainable_acceptance, sustainable_changes, sustainable_loop_bounds,
    sustainable_refinement, sustainable_sets, sustainable_windows,
};
