//! Numbers, texts and lists of a certificate.

ghost use Rattle.std.specs.Prelude.{◌≡◌, ◌≤◌, ◌<◌, map, option_map, string_bytes, IfOk, IfSome};
ghost use Rattle.std.specs.List.{list_all};
ghost use Rattle.serde_json.specs.View.{view, members_view};
ghost use Rattle.crpd_base.specs.Names.{is_between};
ghost use Rattle.cert_model.specs.Kinds as spec;

use crpd_base::{LONGEST_TIME, Method, Switching};
use serde_json::{Map, Value};
use std::alloc::{AllocError, Global};
use text_keys::{line_length, switching_named, valid_name};

/// The members of an object.
pub type Object = Map<String, Value>;

/// A number from `low` to `high`, None for any other value. In constant time.
pub fn whole(value: &Value, low: u64, high: u64) -> Option<u64>
    ensures is { result ≡ spec.whole low high (view value.now) }
    ensures bound { IfSome result (λ n. n ≤ high) }
{
    match value.as_u64() {
        Some(n) if low <= n && n <= high => Some(n),
        _ => None,
    }
}

/// A number of at least `low`, below a limit, None for any other value. In constant time.
pub fn below(value: &Value, low: u64, limit: u64) -> Option<u64>
    ensures is { result ≡ spec.below low limit (view value.now) }
    ensures bound { IfSome result (λ n. n < limit) }
{
    match value.as_u64() {
        Some(n) if low <= n && n < limit => Some(n),
        _ => None,
    }
}

/// The length of a cache line in bytes: 4, 8, 16, 32 or 64, None for any other value. In constant
/// time.
#[tactic(auto, unfolding(crate::specs::Kinds::line_bytes))]
pub fn line(value: &Value) -> Option<u32>
    ensures { result ≡ spec.line_bytes (view value.now) }
{
    line_length(value.as_u64()?)
}

/// Where a context switch may happen: `cycle` or `instruction`, None for any other value. In
/// constant time.
#[tactic(auto, unfolding(crate::specs::Kinds::switching))]
pub fn switching(value: &Value) -> Option<Switching>
    ensures { result ≡ spec.switching (view value.now) }
{
    switching_named(value.as_str()?)
}

/// The delay by which a window is computed: `ucb` or `ecb`, None for any other value. In constant
/// time.
#[tactic(auto, unfolding(crate::specs::Kinds::method))]
pub fn method(value: &Value) -> Option<Method>
    ensures { result ≡ spec.method (view value.now) }
{
    match value.as_str()? {
        "ucb" => Some(Method::Ucb),
        "ecb" => Some(Method::Ecb),
        _ => None,
    }
}

/// A task's name, 1 to 32 bytes, None for any other value. In constant time; running out of memory
/// is the only error.
#[tactic(auto, unfolding(crate::specs::Kinds::name))]
pub fn name(alloc: Global, value: &Value) -> Result<Option<String>, AllocError>
    ensures { IfOk result (λ s. option_map string_bytes s ≡ spec.name (view value.now)) }
{
    valid_name(alloc, value.as_str())
}

/// The numbers of a list of at most `most` numbers, each from 0 to 2^40; None for any other value.
/// Linear in the list; running out of memory is the only error.
#[tactic(auto, unfolding(crate::specs::Kinds::potentials))]
pub fn potentials(alloc: Global, most: u64, value: &Value) -> Result<Option<Vec<u64>>, AllocError>
    ensures { IfOk result (λ found.
        option_map (λ v. v.items) found ≡ spec.potentials most (view value.now)) }
{
    let Some(values) = value.as_array() else {
        return Ok(None);
    };
    let mut found = Vec::new(alloc);
    for value in values {
        let Some(number) = whole(value, 0, LONGEST_TIME) else {
            return Ok(None);
        };
        found.push(number)?;
    }
    let few = found.len() as u64 <= most;
    if few { Ok(Some(found)) } else { Ok(None) }
}

/// Whether a count is from 1 to `most`.
fn is_few(count: usize, most: u64) -> bool
    ensures { result ≡ is_between 1 most count }
{
    0 < count && count as u64 <= most
}

/// The objects of a list of 1 to `most` objects alone; None for any other value. Linear in the
/// list; running out of memory is the only error.
#[tactic(auto, unfolding(crate::specs::Kinds::objects))]
pub fn objects<'a>(
    alloc: Global,
    most: u64,
    value: &'a Value,
) -> Result<Option<Vec<&'a Object>>, AllocError>
    ensures { IfOk result (λ found.
        option_map (λ v. map (λ t. members_view t.now.entries) v.items) found
        ≡ spec.objects most (view value.now)) }
{
    let Some(values) = value.as_array() else {
        return Ok(None);
    };
    let mut found = Vec::new(alloc);
    for value in values {
        let Some(object) = value.as_object() else {
            return Ok(None);
        };
        found.push(object)?;
    }
    let few = is_few(found.len(), most);
    if few { Ok(Some(found)) } else { Ok(None) }
}
