ghost use Rattle.std.specs.Prelude.{◌≡◌, ◌≢◌, ◌++◌, codes, nat_lt};
ghost use Rattle.toml.specs.View.{table_view};
ghost use Rattle.crpd_base.specs.Outcome.{Gives};
ghost use Rattle.text_keys.specs.TomlKeys.{all_known};
ghost use Rattle.set_reader.specs.Inner.Parts as part;
ghost use Rattle.set_reader.specs.Reading as spec;

use crate::error::SetError;
use crate::kinds::{FileName, TaskName, optional, required};
use crate::loops::loops_at;
use crate::places::{AnyPlace, EntryPlace};
use crpd_base::{Items, LONGEST_TIME, LoopSpec, Place, TaskSpec, Text};
use std::alloc::Global;
use text_keys::{KeyError, Keys, item_path, key_path};
use toml::Table;

const KEYS: [&str; 9] = [
    "name", "file", "entry", "period", "deadline", "jitter", "stack", "global", "loop",
];

#[tactic(auto, unfolding(crate::specs::Reading::task_keys))]
fn all_known(alloc: Global, keys: &Keys) -> Result<(), KeyError>
    ensures { Gives KeyError.Memory (λ x. x) result
        (all_known spec.task_keys keys.now.path.now (table_view keys.now.table.now)) }
{
    keys.all_known(alloc, &KEYS)
}

/// The load of a task: its times, its stack and global pointer, and its loops.
#[derive(Drop)]
struct Load {
    period: u64,
    deadline: u64,
    jitter: u64,
    stack: Place,
    global: Place,
    loops: Items<LoopSpec>,
}

#[tactic(auto, unfolding(crate::specs::Inner::Parts::load_at))]
fn load_at(alloc: Global, keys: &Keys) -> Result<Load, KeyError>
    ensures { Gives KeyError.Memory (λ x. x) result
        (part.load_at keys.now.path.now (table_view keys.now.table.now)) }
{
    Ok(Load {
        period: keys.number(alloc, "period", 1, LONGEST_TIME)?,
        deadline: keys.number(alloc, "deadline", 1, LONGEST_TIME)?,
        jitter: keys.number(alloc, "jitter", 0, LONGEST_TIME)?,
        stack: optional::<AnyPlace>(alloc, keys, "stack", Place::Number(0))?,
        global: optional::<AnyPlace>(alloc, keys, "global", Place::Number(0))?,
        loops: Items::new(loops_at(alloc, keys)?),
    })
}

/// The task that the keys state.
fn fields_at(alloc: Global, keys: &Keys) -> Result<TaskSpec, KeyError>
    ensures { Gives KeyError.Memory (λ x. x) result
        (spec.fields_at keys.now.path.now (table_view keys.now.table.now)) }
{
    all_known(alloc, keys)?;
    let name = required::<TaskName>(alloc, keys, "name")?;
    let file = required::<FileName>(alloc, keys, "file")?;
    let entry = optional::<EntryPlace>(alloc, keys, "entry", None)?;
    let load = load_at(alloc, keys)?;
    Ok(TaskSpec {
        name,
        file,
        entry,
        period: load.period,
        deadline: load.deadline,
        jitter: load.jitter,
        stack: load.stack,
        global: load.global,
        loops: load.loops,
    })
}

/// The refusal of a task whose deadline exceeds its period, by the path of its keys.
fn deadline_after_period(alloc: Global, path: &str) -> SetError
    ensures { result ≢ SetError.Memory
        → result ≡ SetError.DeadlineAfterPeriod (path.now ++ codes "deadline") }
{
    match key_path(alloc, path, "deadline") {
        Ok(key) => SetError::DeadlineAfterPeriod(key),
        Err(_) => SetError::Memory,
    }
}

/// Whether a deadline exceeds its period.
fn is_after_period(period: u64, deadline: u64) -> bool
    ensures { result ≡ nat_lt period deadline }
{
    deadline > period
}

/// The task that the keys with this path state; its deadline is within its period.
fn task_of(alloc: Global, path: &str, table: &Table) -> Result<TaskSpec, SetError>
    ensures { Gives SetError.Memory (λ x. x) result
        (part.task_of path.now (table_view table.now)) }
{
    let task = fields_at(alloc, &Keys { table, path })?;
    let exceeds = is_after_period(task.period, task.deadline);
    if exceeds {
        return Err(deadline_after_period(alloc, path));
    }
    Ok(task)
}

/// The task at a place of the list, counted from 0. The deadline is compared with the period after
/// all keys are read, including those of the loops. The first error is the refusal; `Memory` may
/// replace any result. Linear in the text of the keys.
#[tactic(auto, unfolding(crate::specs::Reading::task_at, crate::specs::Inner::Parts::task_of))]
pub fn task_at(alloc: Global, place: usize, table: &Table) -> Result<TaskSpec, SetError>
    ensures { Gives SetError.Memory (λ x. x) result (spec.task_at place (table_view table.now)) }
{
    let path = item_path(alloc, "", "task", place)?;
    task_of(alloc, path.as_str(), table)
}
