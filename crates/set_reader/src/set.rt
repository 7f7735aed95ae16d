ghost use Rattle.std.specs.Prelude.{◌≡◌, ◌≤◌, All, [], ◌++◌, codes, string_bytes, length, map};
ghost use Rattle.std.specs.Prelude.{nat_le, option_map, IfOk};
ghost use Rattle.toml.specs.Data.{as_table};
ghost use Rattle.toml.specs.View.{table_view};
ghost use Rattle.crpd_base.specs.Outcome.{Gives};
ghost use Rattle.text_keys.specs.Named.{only};
ghost use Rattle.text_keys.specs.Paths as path;
ghost use Rattle.text_keys.specs.Paths.{each};
ghost use Rattle.text_keys.specs.TomlKeys.{required};
ghost use Rattle.crpd_base.specs.Ranges.{IsTaskSet};
ghost use Rattle.set_reader.specs.Reading as spec;
ghost use Rattle.set_reader.specs.Reading.{reading};

use crate::error::SetError;
use crate::platform::platform_at;
use crate::task::task_at;
use crpd_base::{Items, MOST_TASKS, Platform, TaskSet, TaskSpec, Text};
use std::alloc::{AllocError, Global};
use text_keys::{KeyError, Keys, item_path, key_path, tables};
use toml::Table;

const KEYS: [&str; 2] = ["platform", "task"];

/// Whether a task has this name.
fn occurs(name: &str, tasks: &[TaskSpec]) -> bool
    ensures { result ≡ spec.occurs name.now tasks.now }
{
    for task in tasks {
        if name == task.name.as_str() {
            return true;
        }
    }
    false
}

/// The place of the first task whose name occurs earlier.
fn first_repeated(tasks: &[TaskSpec]) -> Option<usize>
    ensures { result ≡ spec.repeated_after [] tasks.now }
{
    for i in 0..tasks.len() {
        let task = &tasks[i];
        if occurs(task.name.as_str(), &tasks[..i]) {
            return Some(i);
        }
    }
    None
}

/// The key of the name of the task at a place.
fn name_key(alloc: Global, place: usize) -> Result<Text, AllocError>
    ensures { IfOk result (λ t. t ≡ path.item_path [] (codes "task") place ++ codes "name") }
{
    let path = item_path(alloc, "", "task", place)?;
    key_path(alloc, path.as_str(), "name")
}

/// The tasks, if their names differ.
#[tactic(auto, unfolding(crate::specs::Reading::distinct))]
fn distinct(alloc: Global, tasks: Vec<TaskSpec>) -> Result<Vec<TaskSpec>, SetError>
    ensures { Gives SetError.Memory (λ v. v.items) result (spec.distinct tasks.items) }
{
    match first_repeated(tasks.as_slice()) {
        None => Ok(tasks),
        Some(place) => Err(SetError::SameName(name_key(alloc, place)?)),
    }
}

/// The tasks of a list, in order.
#[tactic(auto, unfolding(text_keys::specs::Paths::each))]
fn each_task(alloc: Global, tables: &[&Table]) -> Result<Vec<TaskSpec>, SetError>
    ensures { Gives SetError.Memory (λ v. v.items) result
        (each spec.task_at 0 (map (λ t. table_view t.now) tables.now)) }
{
    let mut tasks = Vec::new(alloc);
    for (i, table) in tables.iter().enumerate() {
        tasks.push(task_at(alloc, i, table)?)?;
    }
    Ok(tasks)
}

/// The tables of a list, if there are any.
fn some<'a>(tables: Option<Vec<&'a Table>>) -> Option<Vec<&'a Table>>
    ensures { option_map (λ v. map (λ t. table_view t.now) v.items) result
        ≡ only (λ ts. nat_le 1 (length ts))
        (option_map (λ v. map (λ t. table_view t.now) v.items) tables.entry) }
{
    match tables {
        Some(tables) if !tables.is_empty() => Some(tables),
        _ => None,
    }
}

#[tactic(auto, using(text_keys::proofs::Seen::good_seen), unfolding(text_keys::specs::TomlKeys::required))]
fn task_list<'a>(alloc: Global, keys: &Keys<'a>) -> Result<Vec<&'a Table>, KeyError>
    ensures { Gives KeyError.Memory (λ v. map (λ t. table_view t.now) v.items) result
        (required spec.task_tables keys.now.path.now (codes "task")
        (table_view keys.now.table.now)) }
{
    let value = keys.present(alloc, "task")?;
    keys.good(alloc, "task", some(tables(alloc, value)?))
}

/// The tasks of a set.
#[tactic(auto, unfolding(crate::specs::Reading::tasks_at))]
fn tasks_at(alloc: Global, table: &Table) -> Result<Vec<TaskSpec>, SetError>
    ensures { Gives SetError.Memory (λ v. v.items) result (spec.tasks_at (table_view table.now)) }
{
    let tables = task_list(alloc, &Keys { table, path: "" })?;
    if tables.len() > MOST_TASKS {
        return Err(SetError::TooManyTasks(tables.len() as u64));
    }
    let tasks = each_task(alloc, tables.as_slice())?;
    distinct(alloc, tasks)
}

#[tactic(auto, using(text_keys::proofs::Seen::good_seen), unfolding(text_keys::specs::TomlKeys::required))]
fn platform_table<'a>(alloc: Global, keys: &Keys<'a>) -> Result<&'a Table, KeyError>
    ensures { Gives KeyError.Memory (λ t. table_view t.now) result
        (required as_table keys.now.path.now (codes "platform")
        (table_view keys.now.table.now)) }
{
    let value = keys.present(alloc, "platform")?;
    keys.good(alloc, "platform", value.as_table())
}

#[tactic(auto, unfolding(crate::specs::Reading::set_at, crate::specs::Reading::set_keys))]
fn set_at(alloc: Global, table: &Table) -> Result<TaskSet, SetError>
    ensures { Gives SetError.Memory (λ x. x) result (spec.set_at (table_view table.now)) }
{
    let keys = &Keys { table, path: "" };
    keys.all_known(alloc, &KEYS)?;
    let platform = platform_table(alloc, keys)?;
    let platform = platform_at(
        alloc,
        &Keys {
            table: platform,
            path: "platform.",
        },
    )?;
    let tasks = tasks_at(alloc, table)?;
    Ok(TaskSet {
        platform,
        tasks: Items::new(tasks),
    })
}

#[tactic(auto, using(crate::proofs::Texts::reading_of_text, crate::proofs::Texts::reading_of_bytes))]
fn set_of(alloc: Global, bytes: &[u8]) -> Result<TaskSet, SetError>
    ensures { Gives SetError.Memory (λ x. x) result (reading bytes.now) }
{
    let Ok(text) = std::str::from_utf8(bytes) else {
        return Err(SetError::NotToml);
    };
    match toml::table_from_str(alloc, text) {
        Ok(table) => set_at(alloc, &table),
        Err(e) if e.is_memory() => Err(SetError::Memory),
        Err(_) => Err(SetError::NotToml),
    }
}

/// Reads a task set from the TOML text in the bytes. The result and the first refusal are those of
/// `reading`: unknown keys of a table first, then its keys in order, the platform before the tasks,
/// equal names last. `Memory` may replace any result. Apart from the parse by `toml`, time and
/// memory are linear in the text.
pub fn read_set(alloc: Global, bytes: &[u8]) -> Result<TaskSet, SetError>
    ensures exact { Gives SetError.Memory (λ x. x) result (reading bytes.now) }

    // What callers need of a set: its ranges, and that each task has its own name.
    ensures ranges { IfOk result IsTaskSet }
{
    set_of(alloc, bytes)
}
