// The line of a task that has no window.
ghost use Rattle.std.specs.Prelude.{◌≡◌, IfOk};
ghost use Rattle.crpd_report.specs.Texts as spec;

use crpd_base::Memory;
use std::alloc::Global;

/// The line of a task that has no window: `unschedulable`, a space and its name, with a line feed
/// at the end. `Memory` is the only error. Linear in the name.
pub fn unschedulable_text(alloc: Global, name: &str) -> Result<Vec<u8>, Memory>
    ensures { IfOk result (λ text. text.items ≡ spec.unschedulable_text name.now) }
{
    match format!(in alloc; "unschedulable {name}\n") {
        Ok(text) => Ok(text.into_bytes()),
        Err(_) => Err(Memory),
    }
}
