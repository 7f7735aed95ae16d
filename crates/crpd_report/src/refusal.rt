// The line of a refusal.
ghost use Rattle.std.specs.Prelude.{◌≡◌, IfOk};
ghost use Rattle.crpd_report.specs.Texts as spec;

use crpd_base::Memory;
use std::alloc::Global;

/// The line of a refusal: `refused`, its number in decimal, its name, its subject (a file or a
/// task) and its detail, separated by spaces, with a line feed at the end. The parts are written
/// unchanged. `Memory` is the only error. Linear in the line.
pub fn refusal_text(
    alloc: Global,
    number: u32,
    name: &str,
    subject: &str,
    detail: &str,
) -> Result<Vec<u8>, Memory>
    ensures { IfOk result (λ text.
        text.items ≡ spec.refusal_text number name.now subject.now detail.now) }
{
    match format!(in alloc; "refused {number} {name} {subject} {detail}\n") {
        Ok(text) => Ok(text.into_bytes()),
        Err(_) => Err(Memory),
    }
}
