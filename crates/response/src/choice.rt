// The window of each task, by the smaller of two methods.
ghost use Rattle.std.specs.Prelude.{◌≡◌, ℕ, ◌<◌, ◌≤◌, length, slice_index, MatchResult};
ghost use Rattle.std.specs.Prelude.{MatchOption};
ghost use Rattle.crpd_base.specs.Tasks.{HasTimes};
ghost use Rattle.delay_count.specs.Gamma.{part_at};
ghost use Rattle.delay_count.specs.Demand.{HasLongest, demand};
ghost use Rattle.response.specs.Windows.{smaller_of, AreAllChoices, IsWindowError};

use crate::search::window;
use crpd_base::{MOST_TASKS, Method, Part, Task, TaskSet};
use std::alloc::Global;

/// A window in cycles, and the method by which it was found.
#[derive(Clone, Copy)]
pub struct Choice {
    /// The most cycles from release to completion: 1 to the deadline less the jitter.
    pub window: u64,
    /// The method, UCB-union if both give this window.
    pub method: Method,
}

/// Why there are no windows.
#[derive(Clone, Copy)]
pub enum WindowError {
    /// Out of memory.
    Memory,
    /// The first task that has no window by either method.
    Unschedulable(Task),
}

/// The windows of all tasks, from the highest down: for each the smaller of the windows by the two
/// methods, the UCB-union one if they are equal. A window is the smallest number of cycles that the
/// task's demand does not exceed. With the task's jitter it is within the deadline (Altmeyer, Davis
/// and Maiza 2012).
///
/// Requires a part and the longest instruction, from 1 to 2^20 cycles, of each task.
/// `Unschedulable` names the first task that has no window by either method. The only other error
/// is out of memory, which only the choices take. The search continues from lower bounds by the
/// rates of the higher tasks. So it mostly takes few steps, even if these tasks leave almost
/// nothing. A step computes the demand of one window.
pub fn windows(
    alloc: Global,
    set: &TaskSet,
    parts: &[Part],
    longest: &[u64],
) -> Result<Vec<Choice>, WindowError>
    requires times { HasTimes set.now }
    requires parts { length parts.now ≡ length set.now.tasks }
    requires longest { HasLongest set.now longest.now }
    ensures { MatchResult result
        (λ choices. AreAllChoices set.now
        (demand set.now (part_at parts.now) (slice_index longest.now)) choices.items)
        (λ e. IsWindowError set.now (demand set.now (part_at parts.now) (slice_index longest.now))
        e) }
{
    let mut choices = Vec::new(alloc);
    let mut found = [0; MOST_TASKS];
    for i in 0..set.tasks.len() {
        let task = Task(i as u8);
        let ucb = window(set, parts, longest, &found, task, Method::Ucb);
        let ecb = window(set, parts, longest, &found, task, Method::Ecb);
        match smaller(ucb, ecb) {
            None => return Err(WindowError::Unschedulable(task)),
            Some(choice) => {
                found[i] = choice.window;
                if choices.push(choice).is_err() {
                    return Err(WindowError::Memory);
                }
            }
        }
    }
    Ok(choices)
}

/// The smaller window, by the UCB-union method if they are equal. In constant time.
pub fn smaller(ucb: Option<u64>, ecb: Option<u64>) -> Option<Choice>
    ensures { result ≡ smaller_of ucb ecb }
{
    match (ucb, ecb) {
        (None, None) => None,
        (Some(window), None) => Some(Choice {
            window,
            method: Method::Ucb,
        }),
        (None, Some(window)) => Some(Choice {
            window,
            method: Method::Ecb,
        }),
        (Some(first), Some(second)) => {
            let ucb_first = first <= second;
            if ucb_first {
                Some(Choice {
                    window: first,
                    method: Method::Ucb,
                })
            } else {
                Some(Choice {
                    window: second,
                    method: Method::Ecb,
                })
            }
        }
    }
}
