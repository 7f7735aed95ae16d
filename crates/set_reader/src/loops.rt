ghost use Rattle.std.specs.Prelude.{◌≡◌, [], codes, map, option_map};
ghost use Rattle.toml.specs.View.{table_view};
ghost use Rattle.crpd_base.specs.Limits.{most_loops};
ghost use Rattle.crpd_base.specs.Outcome.{Gives};
ghost use Rattle.text_keys.specs.Paths.{each};
ghost use Rattle.text_keys.specs.TomlKeys.{optional, at_most};
ghost use Rattle.set_reader.specs.Reading as spec;

use crate::kinds::required;
use crate::places::{AnyPlace, CodeRanges};
use crpd_base::{LoopSpec, MOST_ITERATIONS, MOST_LOOPS};
use std::alloc::Global;
use text_keys::{KeyError, Keys, item_path, tables};
use toml::Table;

const KEYS: [&str; 3] = ["head", "bound", "range"];

/// A stated loop.
#[tactic(auto, unfolding(crate::specs::Reading::loop_at, crate::specs::Reading::loop_keys))]
fn loop_at(alloc: Global, keys: &Keys) -> Result<LoopSpec, KeyError>
    ensures { Gives KeyError.Memory (λ x. x) result
        (spec.loop_at keys.now.path.now (table_view keys.now.table.now)) }
{
    keys.all_known(alloc, &KEYS)?;
    Ok(LoopSpec {
        head: required::<AnyPlace>(alloc, keys, "head")?,
        bound: keys.small_number(alloc, "bound", 1, MOST_ITERATIONS)?,
        ranges: required::<CodeRanges>(alloc, keys, "range")?,
    })
}

/// The loop at a place of a task's list.
fn nth_loop(alloc: Global, path: &str, place: usize, table: &Table) -> Result<LoopSpec, KeyError>
    ensures { Gives KeyError.Memory (λ x. x) result
        (spec.nth_loop path.now place (table_view table.now)) }
{
    let path = item_path(alloc, path, "loop", place)?;
    loop_at(
        alloc,
        &Keys {
            table,
            path: path.as_str(),
        },
    )
}

/// The loops of a list, in order.
#[tactic(auto, unfolding(text_keys::specs::Paths::each))]
fn each_loop(alloc: Global, path: &str, tables: &[&Table]) -> Result<Vec<LoopSpec>, KeyError>
    ensures { Gives KeyError.Memory (λ v. v.items) result
        (each (spec.nth_loop path.now) 0 (map (λ t. table_view t.now) tables.now)) }
{
    let mut loops = Vec::new(alloc);
    for (i, table) in tables.iter().enumerate() {
        loops.push(nth_loop(alloc, path, i, table)?)?;
    }
    Ok(loops)
}

/// The tables of a list, if they are at most 64.
fn few<'a>(tables: Option<Vec<&'a Table>>) -> Option<Vec<&'a Table>>
    ensures { option_map (λ v. map (λ t. table_view t.now) v.items) result
        ≡ at_most most_loops (option_map (λ v. map (λ t. table_view t.now) v.items) tables.entry) }
{
    match tables {
        Some(tables) if tables.len() <= MOST_LOOPS => Some(tables),
        _ => None,
    }
}

#[tactic(auto, using(text_keys::proofs::Seen::good_seen), unfolding(text_keys::specs::TomlKeys::optional))]
fn loop_list<'a>(alloc: Global, keys: &Keys<'a>) -> Result<Vec<&'a Table>, KeyError>
    ensures { Gives KeyError.Memory (λ v. map (λ t. table_view t.now) v.items) result
        (optional [] spec.loop_tables keys.now.path.now (codes "loop")
        (table_view keys.now.table.now)) }
{
    match keys.get("loop") {
        None => Ok(Vec::new(alloc)),
        Some(value) => keys.good(alloc, "loop", few(tables(alloc, value)?)),
    }
}

/// The loops of a task, in order: at most 64, otherwise `BadValue`; none if the key is absent. The
/// first error is the refusal; `Memory` may replace any result. Linear in the text of the keys.
#[tactic(auto, unfolding(crate::specs::Reading::loops_at))]
pub fn loops_at(alloc: Global, keys: &Keys) -> Result<Vec<LoopSpec>, KeyError>
    ensures { Gives KeyError.Memory (λ v. v.items) result
        (spec.loops_at keys.now.path.now (table_view keys.now.table.now)) }
{
    let tables = loop_list(alloc, keys)?;
    each_loop(alloc, keys.path, tables.as_slice())
}
