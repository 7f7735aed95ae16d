//! Counts of jobs, the two multiset delays, and the demand of a window. No call allocates memory.
#![tactic(auto)]

mod choice;
mod jobs;
mod laws;
mod rates;
mod share;
mod union;
mod window_demand;

pub use choice::{gamma_ecb, shared};
pub use laws::{growth_law, shares_law};
pub use rates::least_rate;
pub use share::Share;
pub use union::gamma_ucb;
pub use window_demand::{charged_delays, demand, evicted_up, higher_demand, own_demand};
