//! The largest costs of a context switch and of a reload with which a task set is accepted.
#![tactic(auto)]

mod analysis;
mod cost;
mod greatest;
mod laws;
mod search;

pub use crpd_base::{Slack, Stop};
pub use greatest::{greatest_miss, greatest_switch};
pub use laws::{acceptance_law, certified_law, costs_law, slacks_exist};
