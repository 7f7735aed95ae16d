// The text of an address or a word.
ghost use Rattle.std.specs.Prelude.{◌≡◌, string_bytes, IfOk};
ghost use Rattle.crpd_base.specs.Texts.{hexadecimal};

use crate::data::Memory;
use std::alloc::Global;

/// The text of an address or a word: 8 lower-case hexadecimal digits. `Memory` is the only error.
/// In constant time.
#[tactic(auto, using(crate::proofs::Hexadecimal::styled_hexadecimal))]
pub fn address_text(alloc: Global, address: u32) -> Result<String, Memory>
    ensures { IfOk result (λ text. string_bytes text ≡ hexadecimal address) }
{
    Ok(format!(in alloc; "{address:08x}")?)
}
