// The kinds of values of a TOML table.
ghost use Rattle.std.specs.Prelude.{◌≡◌, ◌≤◌, map, option_map, IfOk, IfSome};
ghost use Rattle.toml.specs.Data.{as_table};
ghost use Rattle.toml.specs.View.{view, table_view};
ghost use Rattle.text_keys.specs.TomlKeys as spec;

use std::alloc::{AllocError, Global};
use toml::{Table, Value};

/// A whole number from `low` to `high`, None for any other value. In constant time; it takes no
/// memory.
pub fn whole(value: &Value, low: u64, high: u64) -> Option<u64>
    ensures is { result ≡ spec.whole low high (view value.now) }
    ensures bound { IfSome result (λ n. n ≤ high) }
{
    match value {
        Value::Integer(z) => match u64::try_from(*z) {
            Ok(n) if low <= n && n <= high => Some(n),
            _ => None,
        },
        _ => None,
    }
}

/// The tables of a list of tables alone, None for any other value. Linear in the list; running out
/// of memory is the only error.
pub fn tables<'a>(alloc: Global, value: &'a Value) -> Result<Option<Vec<&'a Table>>, AllocError>
    ensures { IfOk result (λ found. option_map (λ v. map (λ t. table_view t.now) v.items) found
        ≡ spec.listed as_table (view value.now)) }
{
    let Value::Array(values) = value else {
        return Ok(None);
    };
    let mut found = Vec::new(alloc);
    for value in values {
        let Value::Table(table) = value else {
            return Ok(None);
        };
        found.push(table)?;
    }
    Ok(Some(found))
}
