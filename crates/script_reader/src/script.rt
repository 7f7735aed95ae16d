ghost use Rattle.std.specs.Prelude.{◌≡◌, ◌<◌, ◌≤◌, All, [], codes, length, map, option_map, IfOk};
ghost use Rattle.crpd_base.specs.Limits.{most_jobs};
ghost use Rattle.toml.specs.View.{view, table_view};
ghost use Rattle.crpd_base.specs.Outcome.{Gives};
ghost use Rattle.text_keys.specs.TomlKeys.{all_known, optional, listed};
ghost use Rattle.script_reader.specs.Reading as spec;
ghost use Rattle.script_reader.specs.Reading.{reading};

use crate::error::ScriptError;
use crate::jobs::jobs_at;
use crpd_base::{Items, LONGEST_TIME, Script, TaskSet};
use std::alloc::{AllocError, Global};
use text_keys::{KeyError, Keys, whole};
use toml::{Table, Value};

const KEYS: [&str; 3] = ["cycles", "cache", "job"];

#[tactic(auto, unfolding(crate::specs::Reading::script_keys))]
fn script_keys(alloc: Global, keys: &Keys) -> Result<(), KeyError>
    ensures { Gives KeyError.Memory (λ x. x) result
        (all_known spec.script_keys keys.now.path.now (table_view keys.now.table.now)) }
{
    keys.all_known(alloc, &KEYS)
}

/// Whether a value is a whole number above a limit.
#[tactic(auto, unfolding(crate::specs::Reading::is_above))]
fn is_above(value: &Value, limit: u64) -> bool
    ensures { result ≡ spec.is_above limit (view value.now) }
{
    match value {
        Value::Integer(z) => match u64::try_from(*z) {
            Ok(n) => limit < n,
            Err(_) => false,
        },
        _ => false,
    }
}

/// The number of cycles to run.
#[tactic(auto, unfolding(crate::specs::Reading::cycles_at))]
fn cycles_at(alloc: Global, table: &Table) -> Result<u64, ScriptError>
    ensures { Gives ScriptError.Memory (λ x. x) result (spec.cycles_at (table_view table.now)) }
{
    let keys = &Keys { table, path: "" };
    let value = keys.present(alloc, "cycles")?;
    if is_above(value, LONGEST_TIME) {
        return Err(ScriptError::too_long(alloc, "cycles"));
    }
    Ok(keys.good(alloc, "cycles", whole(value, 1, LONGEST_TIME))?)
}

/// The numbers of blocks.
fn blocks(alloc: Global, value: &Value) -> Result<Option<Vec<u32>>, AllocError>
    ensures { IfOk result (λ found.
        option_map (λ v. v.items) found ≡ listed spec.block (view value.now)) }
{
    let Value::Array(values) = value else {
        return Ok(None);
    };
    let mut found = Vec::new(alloc);
    for value in values {
        let Some(block) = whole(value, 0, u64::from(u32::MAX)) else {
            return Ok(None);
        };
        found.push(block as u32)?;
    }
    Ok(Some(found))
}

#[tactic(auto, using(text_keys::proofs::Seen::good_seen), unfolding(text_keys::specs::TomlKeys::optional))]
fn cache_at(alloc: Global, keys: &Keys) -> Result<Vec<u32>, KeyError>
    ensures { Gives KeyError.Memory (λ v. v.items) result
        (optional [] (listed spec.block) keys.now.path.now (codes "cache")
        (table_view keys.now.table.now)) }
{
    match keys.get("cache") {
        None => Ok(Vec::new(alloc)),
        Some(value) => keys.good(alloc, "cache", blocks(alloc, value)?),
    }
}

#[tactic(auto, unfolding(crate::specs::Reading::script_at))]
fn script_at(alloc: Global, table: &Table, set: &TaskSet) -> Result<Script, ScriptError>
    ensures { Gives ScriptError.Memory (λ x. x) result
        (spec.script_at set.now (table_view table.now)) }
{
    let keys = &Keys { table, path: "" };
    script_keys(alloc, keys)?;
    Ok(Script {
        cycles: cycles_at(alloc, table)?,
        cache: Items::new(cache_at(alloc, keys)?),
        jobs: Items::new(jobs_at(alloc, table, set)?),
    })
}

#[tactic(auto, using(crate::proofs::Texts::reading_of_text, crate::proofs::Texts::reading_of_bytes))]
fn script_of(alloc: Global, bytes: &[u8], set: &TaskSet) -> Result<Script, ScriptError>
    ensures { Gives ScriptError.Memory (λ x. x) result (reading bytes.now set.now) }
{
    let Ok(text) = std::str::from_utf8(bytes) else {
        return Err(ScriptError::NotToml);
    };
    match toml::table_from_str(alloc, text) {
        Ok(table) => script_at(alloc, &table, set),
        Err(e) if e.is_memory() => Err(ScriptError::Memory),
        Err(_) => Err(ScriptError::NotToml),
    }
}

/// Reads a script for a task set from the TOML text in the bytes. The result and the first refusal
/// are those of `reading`: unknown keys of a table first, then cycles, cache, the count of jobs,
/// and each job's keys. `Memory` may replace any result. Apart from the parse by `toml`, time is
/// linear in the text, with a search among the tasks' names for each job, and memory is linear in
/// the text.
pub fn read_script(alloc: Global, bytes: &[u8], set: &TaskSet) -> Result<Script, ScriptError>
    ensures exact { Gives ScriptError.Memory (λ x. x) result (reading bytes.now set.now) }

    // What `legal` requires.
    ensures in_set { IfOk result (λ s. All (λ j. j.task.0 < length set.now.tasks) s.jobs) }
    ensures few { IfOk result (λ s. length s.jobs ≤ most_jobs) }
{
    script_of(alloc, bytes, set)
}
