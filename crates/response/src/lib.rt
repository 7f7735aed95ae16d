//! The smallest windows, in which the jobs of each task complete.
#![tactic(auto)]

ghost use Rattle.response.specs.WindowEnds.{WindowsExist};

mod bounds;
mod choice;
mod search;

pub use choice::{Choice, WindowError, smaller, windows};
pub use search::window;

/// A law: a set has windows of all tasks by a demand, or a first task without one. In constant
/// time.
pub fn windows_exist()
    ensures { WindowsExist }
{}
