// Refusals.
use crate::cause::Cause;
use crpd_base::Text;

/// A refusal: the cause, the file or task that is refused, and what is wrong there: a key, a
/// number, an address, a name, or `-`.
#[derive(Drop)]
pub struct Refusal {
    /// The cause, which has a number and a name.
    pub cause: Cause,
    /// The name of a file or of a task.
    pub subject: Text,
    /// What is wrong there, or `-`.
    pub detail: Text,
}
