// The text of refined windows.
ghost use Rattle.std.specs.Prelude.{◌≡◌, [], ◌∷◌, ◌++◌, codes, string_bytes, IfOk};
ghost use Rattle.crpd_report.specs.Refine as spec;

use crate::check::add_times;
use crpd_base::{Memory, PointMethod, RefinedTask, TaskSet};
use std::alloc::{AllocError, Global};

fn method_name(method: PointMethod) -> &'static str
    ensures { result.now ≡ spec.point_method_name method }
{
    match method {
        PointMethod::Ucb => "ucb",
        PointMethod::Ecb => "ecb",
        PointMethod::Point => "point",
        PointMethod::PersistentUcb => "persistent-ucb",
        PointMethod::PersistentPoint => "persistent-point",
    }
}

/// Appends the line of a task of this name, with its refined window.
fn add_task(text: &mut String, name: &str, task: &RefinedTask) -> Result<(), AllocError>
    ensures { IfOk result (λ _.
        string_bytes text.new ≡ string_bytes text.old
        ++ (name.now ++ codes " " ++ spec.refined_times task.now ++ 10 ∷ [])) }
{
    write!(text, "{name} ")?;
    let method = method_name(task.method);
    add_times(text, task.bound, task.window, task.response, method)
}

/// Appends the lines of all tasks.
fn add_tasks(text: &mut String, set: &TaskSet, tasks: &[RefinedTask]) -> Result<(), AllocError>
    ensures { IfOk result (λ _.
        string_bytes text.new ≡ string_bytes text.old ++ spec.refined_text set.now tasks.now) }
{
    text.push_str("yes\n")?;
    for (task, refined) in set.tasks.iter().zip(tasks) {
        add_task(text, task.name.as_str(), refined)?;
    }
    Ok(())
}

/// The text of refined windows: `yes`, and a line for each task of the set, with its name and the
/// result at its place: bound, window and response in cycles, and the method.
///
/// `Memory` is the only error. Linear in the text.
pub fn refined_text(alloc: Global, set: &TaskSet, tasks: &[RefinedTask]) -> Result<Vec<u8>, Memory>
    ensures { IfOk result (λ text. text.items ≡ spec.refined_text set.now tasks.now) }
{
    let mut text = String::new(alloc);
    match add_tasks(&mut text, set, tasks) {
        Ok(()) => Ok(text.into_bytes()),
        Err(_) => Err(Memory),
    }
}
