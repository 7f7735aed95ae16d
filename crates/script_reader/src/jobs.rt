ghost use Rattle.std.specs.Prelude.{◌≡◌, ◌++◌, [], codes, length, map, option_map, IfOk};
ghost use Rattle.std.specs.Prelude.{string_bytes};
ghost use Rattle.toml.specs.Data.{as_str, as_table};
ghost use Rattle.toml.specs.View.{view, table_view};
ghost use Rattle.crpd_base.specs.Outcome.{Gives};
ghost use Rattle.text_keys.specs.Paths.{each};
ghost use Rattle.text_keys.specs.TomlKeys.{all_known, required, optional, listed};
ghost use Rattle.script_reader.specs.Reading as spec;

use crate::error::ScriptError;
use crpd_base::{LONGEST_TIME, MOST_JOBS, ScriptJob, Task, TaskSet, place_of_name};
use std::alloc::{AllocError, Global};
use text_keys::{KeyError, Keys, item_path, key_path, tables};
use toml::Table;

const KEYS: [&str; 3] = ["task", "arrival", "release"];

#[tactic(auto, unfolding(crate::specs::Reading::job_keys))]
fn job_keys(alloc: Global, keys: &Keys) -> Result<(), KeyError>
    ensures { Gives KeyError.Memory (λ x. x) result
        (all_known spec.job_keys keys.now.path.now (table_view keys.now.table.now)) }
{
    keys.all_known(alloc, &KEYS)
}

/// The task with a name.
#[tactic(auto, unfolding(crate::specs::Reading::task_named))]
fn task_named(alloc: Global, path: &str, name: &str, set: &TaskSet) -> Result<Task, ScriptError>
    ensures { Gives ScriptError.Memory (λ t. t.0) result
        (spec.task_named path.now name.now set.now) }
{
    match place_of_name(set.tasks.as_slice(), name) {
        Some(i) if i < 256 => Ok(Task(i as u8)),
        _ => Err(ScriptError::UnknownTask(key_path(alloc, path, "task")?)),
    }
}

#[tactic(auto, using(text_keys::proofs::Seen::good_seen), unfolding(text_keys::specs::TomlKeys::required))]
fn name_at<'a>(alloc: Global, keys: &Keys<'a>) -> Result<&'a str, KeyError>
    ensures { Gives KeyError.Memory (λ s. s.now) result
        (required as_str keys.now.path.now (codes "task") (table_view keys.now.table.now)) }
{
    let value = keys.present(alloc, "task")?;
    keys.good(alloc, "task", value.as_str())
}

/// The job that the keys state.
#[tactic(auto, unfolding(crate::specs::Reading::job_at))]
fn job_at(alloc: Global, keys: &Keys, set: &TaskSet) -> Result<ScriptJob, ScriptError>
    ensures { Gives ScriptError.Memory (λ x. x) result
        (spec.job_at set.now keys.now.path.now (table_view keys.now.table.now)) }
{
    job_keys(alloc, keys)?;
    let name = name_at(alloc, keys)?;
    let task = task_named(alloc, keys.path, name, set)?;
    let arrival = keys.number(alloc, "arrival", 0, LONGEST_TIME)?;
    let release = keys.number(alloc, "release", 0, LONGEST_TIME)?;
    Ok(ScriptJob {
        task,
        arrival,
        release,
    })
}

/// The job at a place.
fn nth_job(
    alloc: Global,
    set: &TaskSet,
    place: usize,
    table: &Table,
) -> Result<ScriptJob, ScriptError>
    ensures { Gives ScriptError.Memory (λ x. x) result
        (spec.nth_job set.now place (table_view table.now)) }
{
    let path = item_path(alloc, "", "job", place)?;
    job_at(
        alloc,
        &Keys {
            table,
            path: path.as_str(),
        },
        set,
    )
}

/// The jobs of a list, in order.
#[tactic(auto, unfolding(text_keys::specs::Paths::each))]
fn each_job(alloc: Global, set: &TaskSet, tables: &[&Table]) -> Result<Vec<ScriptJob>, ScriptError>
    ensures { Gives ScriptError.Memory (λ v. v.items) result
        (each (spec.nth_job set.now) 0 (map (λ t. table_view t.now) tables.now)) }
{
    let mut jobs = Vec::new(alloc);
    for (i, table) in tables.iter().enumerate() {
        jobs.push(nth_job(alloc, set, i, table)?)?;
    }
    Ok(jobs)
}

#[tactic(auto, using(text_keys::proofs::Seen::good_seen), unfolding(text_keys::specs::TomlKeys::optional))]
fn job_list<'a>(alloc: Global, keys: &Keys<'a>) -> Result<Vec<&'a Table>, KeyError>
    ensures { Gives KeyError.Memory (λ v. map (λ t. table_view t.now) v.items) result
        (optional [] (listed as_table) keys.now.path.now (codes "job")
        (table_view keys.now.table.now)) }
{
    match keys.get("job") {
        None => Ok(Vec::new(alloc)),
        Some(value) => keys.good(alloc, "job", tables(alloc, value)?),
    }
}

/// The jobs of a script, in order: at most 10,000, otherwise `TooLong`; none if the key is absent.
/// The first error is the refusal; `Memory` may replace any result. Linear in the text of the keys;
/// each job's task is searched among the names of the set.
#[tactic(auto, unfolding(crate::specs::Reading::jobs_at))]
pub fn jobs_at(alloc: Global, table: &Table, set: &TaskSet) -> Result<Vec<ScriptJob>, ScriptError>
    ensures { Gives ScriptError.Memory (λ v. v.items) result
        (spec.jobs_at set.now (table_view table.now)) }
{
    let tables = job_list(alloc, &Keys { table, path: "" })?;
    if tables.len() > MOST_JOBS {
        return Err(ScriptError::too_long(alloc, "job"));
    }
    each_job(alloc, set, tables.as_slice())
}
