// The text of the largest accepted costs.
ghost use Rattle.std.specs.Prelude.{◌≡◌, ◌++◌, ◌∷◌, [], codes, string_bytes, IfOk};
ghost use Rattle.crpd_report.specs.Slack as spec;

use crpd_base::{Slack, Stop, TaskSet, task_name};
use std::alloc::{AllocError, Global};

/// Appends the kind of a cost, and the largest accepted one in decimal, or `none`.
fn add_cost(text: &mut String, kind: &str, greatest: Option<u32>) -> Result<(), AllocError>
    ensures { IfOk result (λ _. string_bytes text.new
        ≡ string_bytes text.old ++ kind.now ++ codes " " ++ spec.cost_text greatest ++ codes " ") }
{
    match greatest {
        None => write!(text, "{kind} none "),
        Some(cost) => write!(text, "{kind} {cost} "),
    }
}

/// Appends the reason why a cost is not larger, and ends the line.
fn add_stop(text: &mut String, set: &TaskSet, stop: Stop) -> Result<(), AllocError>
    ensures { IfOk result (λ _. string_bytes text.new
        ≡ string_bytes text.old ++ spec.stop_text set.now stop ++ 10 ∷ []) }
{
    match stop {
        Stop::Limit => text.push_str("limit\n"),
        Stop::Window(task) => {
            let name = task_name(set, task);
            write!(text, "window {name}\n")
        }
        Stop::Bound(task) => {
            let name = task_name(set, task);
            write!(text, "bound {name}\n")
        }
    }
}

/// Appends the line of a kind of cost.
fn add_line(text: &mut String, kind: &str, set: &TaskSet, slack: &Slack) -> Result<(), AllocError>
    ensures { IfOk result (λ _.
        string_bytes text.new ≡ string_bytes text.old
        ++ spec.slack_line kind.now set.now slack.now) }
{
    add_cost(text, kind, slack.greatest)?;
    add_stop(text, set, slack.stop)
}

/// The two lines of the largest accepted costs of a switch and of a reload: `switch` and `miss`,
/// each with the cost in decimal or `none`, and `limit`, or `window` or `bound` and the name of the
/// task that stops it. `Memory` is the only error. Linear in the names.
pub fn slack_text(
    alloc: Global,
    set: &TaskSet,
    by_switch: &Slack,
    by_miss: &Slack,
) -> Result<Vec<u8>, AllocError>
    ensures { IfOk result (λ text. text.items ≡ spec.slack_text set.now by_switch.now by_miss.now) }
{
    let mut text = String::new(alloc);
    add_line(&mut text, "switch", set, by_switch)?;
    add_line(&mut text, "miss", set, by_miss)?;
    Ok(text.into_bytes())
}
