//! Sets of cache sets, as lists of numbers.

ghost use Rattle.std.specs.Prelude.{◌≡◌, ◌≤◌, option_map};
ghost use Rattle.crpd_base.specs.Limits as limits;
ghost use Rattle.serde_json.specs.View.{view, items_view};
ghost use Rattle.cert_model.specs.Kinds as spec;

use crate::kinds::below;
use crpd_base::{SetBits, WORDS};
use serde_json::Value;

/// The set of the numbers, each above the one before and below a limit.
fn rising_set(limit: u64, values: &[Value]) -> Option<SetBits<WORDS>>
    requires { limit ≤ limits.most_sets }
    ensures { result ≡ option_map spec.words_of (spec.rising 0 limit (items_view values.now)) }
{
    let mut set = SetBits::new();
    let mut low = 0;
    for value in values {
        let number = below(value, low, limit)?;
        set.insert(number as u16);
        low = number + 1;
    }
    set.words_law();
    Some(set)
}

/// The set of a list's numbers, each above the one before and below a limit, which is at most 512;
/// None for any other value. Linear in the list; it takes no memory.
#[tactic(auto, unfolding(crate::specs::Kinds::set_numbers))]
pub fn set_numbers(limit: u64, value: &Value) -> Option<SetBits<WORDS>>
    requires { limit ≤ limits.most_sets }
    ensures { result ≡ spec.set_numbers limit (view value.now) }
{
    match value.as_array() {
        Some(values) => rising_set(limit, values.as_slice()),
        None => None,
    }
}
