// What texts and numbers mean in sets and certificates alike.
ghost use Rattle.std.specs.Prelude.{◌≡◌, option_map, string_bytes, IfOk, Some};
ghost use Rattle.crpd_base.specs.Names.{is_line_length, is_name};
ghost use Rattle.text_keys.specs.Named as spec;

use crpd_base::{Switching, is_name};
use std::alloc::{AllocError, Global};

/// The length of a cache line in bytes: 4, 8, 16, 32 or 64; None for any other number. In constant
/// time.
pub fn line_length(number: u64) -> Option<u32>
    ensures { result ≡ spec.only is_line_length (Some number) }
{
    if matches!(number, 4 | 8 | 16 | 32 | 64) {
        Some(number as u32)
    } else {
        None
    }
}

/// Where a context switch may happen: `cycle` or `instruction`; None for any other text. In
/// constant time.
pub fn switching_named(text: &str) -> Option<Switching>
    ensures { result ≡ spec.switching_named text.now }
{
    match text {
        "cycle" => Some(Switching::Cycle),
        "instruction" => Some(Switching::Instruction),
        _ => None,
    }
}

/// A copy of a task's name, 1 to 32 bytes; None for any other text, and for no text. In constant
/// time; running out of memory is the only error.
pub fn valid_name(alloc: Global, text: Option<&str>) -> Result<Option<String>, AllocError>
    ensures { IfOk result (λ s.
        option_map string_bytes s ≡ spec.only is_name (option_map (λ t. t.now) text.entry)) }
{
    match text {
        Some(text) if is_name(text) => Ok(Some(String::from_str(alloc, text)?)),
        _ => Ok(None),
    }
}
