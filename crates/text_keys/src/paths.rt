// The paths of keys in a file, whatever its format.
ghost use Rattle.std.specs.Prelude.{◌≡◌, ◌++◌, string_bytes, IfOk};
ghost use Rattle.text_keys.specs.Paths as spec;

use crpd_base::Text;
use std::alloc::{AllocError, Global};

/// The path of a key: that of its table, followed by the key. Time and memory are linear in the
/// path; running out of memory is the only error.
pub fn key_path(alloc: Global, path: &str, key: &str) -> Result<Text, AllocError>
    ensures { IfOk result (λ t. t ≡ path.now ++ key.now) }
{
    let mut text = String::from_str(alloc, path)?;
    text.push_str(key)?;
    Ok(Text::new(text))
}

/// The path of the item at a place, counted from 0, in the list at a key, with a point at the end.
/// Time and memory are linear in the path; running out of memory is the only error.
pub fn item_path(alloc: Global, path: &str, key: &str, place: usize) -> Result<String, AllocError>
    ensures { IfOk result (λ s. string_bytes s ≡ spec.item_path path.now key.now place) }
{
    format!(in alloc; "{path}{key}.{place}.")
}
