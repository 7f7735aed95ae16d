//! The texts that the certifier writes: of refusals, of verdicts, of refined windows, of a task
//! without a window, and of the commands `list`, `sets`, `simulate`, `explain`, `slack` and
//! `generate`.
#![tactic(auto)]

mod check;
mod explain;
mod generate;
mod list;
mod refine;
mod refusal;
mod sets;
mod simulate;
mod slack;
mod unscheduled;

pub use check::check_text;
pub use explain::explain_text;
pub use generate::{generate_text, late_law};
pub use list::list_text;
pub use refine::refined_text;
pub use refusal::refusal_text;
pub use sets::sets_text;
pub use simulate::simulate_text;
pub use slack::slack_text;
pub use unscheduled::unschedulable_text;
