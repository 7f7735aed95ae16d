// The plans of tasks.
ghost use Rattle.std.specs.Prelude.{◌≡◌, ◌<◌, ◌≤◌, length, slice_index_or, IfOk, IsTrue, List};
ghost use Rattle.std.specs.Prelude.{vec_len};
ghost use Rattle.crpd_base.specs.declared.data.Symbol.{Symbol};
ghost use Rattle.crpd_base.specs.Outcome.{Gives};
ghost use Rattle.code_map.specs.Places as places;
ghost use Rattle.code_map.specs.Words.{word_at};

use crate::error::MapError;
use crate::files::Files;
use crate::places::{address_of, entry_of, loops_of};
use crate::symbols::Names;
use crpd_base::{Image, Items, Symbol, Task, TaskPlan, TaskSpec};
use std::alloc::Global;

/// The plan of a task, whose entry must have a word.
#[tactic(auto, unfolding(crate::specs::Places::plan_of))]
fn plan_of(
    alloc: Global,
    task: Task,
    spec: &TaskSpec,
    image: &Image,
    names: &Names,
    files: &Files,
) -> Result<TaskPlan, MapError>
    requires { names.now ≡ image.now.symbols }
    ensures { Gives MapError.Memory (λ x. x) result
        (places.plan_of (word_at files.now) task spec.now image.now) }
{
    let entry = entry_of(alloc, task, names, image, &spec.entry)?;
    let stack = address_of(alloc, task, names, &spec.stack)?;
    let global = address_of(alloc, task, names, &spec.global)?;
    let loops = loops_of(alloc, task, names, spec.loops.as_slice())?;
    if files.word(entry).is_none() {
        return Err(MapError::EntryOutside(task, entry));
    }
    Ok(TaskPlan {
        entry,
        stack,
        global,
        loops: Items::new(loops),
    })
}

/// The place of the names of these symbols among the known ones, or the number of known ones.
fn place_of(known: &[Names], symbols: &[Symbol]) -> usize
    ensures within { result ≤ length known.now }
    ensures is { (d : List Symbol) → result < length known.now
        → slice_index_or known.now result d ≡ symbols.now }
{
    for place in 0..known.len() {
        if known[place].are_of(symbols) {
            return place;
        }
    }
    known.len()
}

/// The plan of a task by the known names of its file's symbols. If they are not known yet, they are
/// added, so that they are made once for all tasks of a file.
fn plan_by<'a>(
    alloc: Global,
    known: &mut Vec<Names<'a>>,
    task: Task,
    spec: &TaskSpec,
    image: &'a Image,
    files: &Files,
) -> Result<TaskPlan, MapError>
    ensures { Gives MapError.Memory (λ x. x) result
        (places.plan_of (word_at files.now) task spec.now image.now) }
{
    let symbols = image.symbols.as_slice();
    let place = place_of(known, symbols);
    if place == known.len() {
        known.push(Names::new(alloc, symbols)?)?;
    }
    plan_of(alloc, task, spec, image, &known[place], files)
}

/// The plans of tasks, each with the file at its place.
pub(crate) fn plans_of(
    alloc: Global,
    tasks: &[TaskSpec],
    files: &Files,
) -> Result<Vec<TaskPlan>, MapError>
    requires one { length files.now ≡ length tasks.now }
    requires few { length tasks.now ≤ 256 }
    ensures is { Gives MapError.Memory (λ v. v.items) result
        (places.plans_of (word_at files.now) 0 tasks.now files.now) }
    ensures count { IfOk result (λ v. vec_len v ≡ length tasks.now) }
{
    let images = files.images();
    let mut known = Vec::new(alloc);
    let mut plans = Vec::new(alloc);
    for i in 0..tasks.len() {
        let (spec, image) = (&tasks[i], &images[i]);
        plans.push(plan_by(alloc, &mut known, Task(i as u8), spec, image, files)?)?;
    }
    Ok(plans)
}
