// Refusals, as commands stop with them.
ghost use Rattle.std.specs.Prelude.{string_bytes};
ghost use Rattle.std.specs.Fmt.{decimal};
ghost use Rattle.crpd_base.specs.Texts.{hexadecimal};
ghost use Rattle.crpd_input.specs.Steps.{IsRefusal, plain_refusal, refusal};

use crate::cause::Cause;
use crate::halt::Halt;
use crate::refusal::Refusal;
use crpd_base::{Text, address_text};
use std::alloc::Global;

/// The refusal for this cause with a detail, or `Memory` if out of memory. Linear in the subject.
pub fn refuse(alloc: Global, cause: Cause, subject: &str, detail: Text) -> Halt
    ensures { IsRefusal (refusal cause subject.now detail) result }
{
    match String::from_str(alloc, subject) {
        Ok(subject) => Halt::Refused(Refusal {
            cause,
            subject: Text::new(subject),
            detail,
        }),
        Err(_) => Halt::Memory,
    }
}

/// The refusal for this cause without a detail, or `Memory` if out of memory. Linear in the
/// subject.
pub fn refuse_plainly(alloc: Global, cause: Cause, subject: &str) -> Halt
    ensures { IsRefusal (plain_refusal cause subject.now) result }
{
    match String::from_str(alloc, "-") {
        Ok(detail) => refuse(alloc, cause, subject, Text::new(detail)),
        Err(_) => Halt::Memory,
    }
}

/// The refusal for this cause with a name as its detail, or `Memory` if out of memory. Linear in
/// both texts.
pub fn refuse_name(alloc: Global, cause: Cause, subject: &str, name: &str) -> Halt
    ensures { IsRefusal (refusal cause subject.now name.now) result }
{
    match String::from_str(alloc, name) {
        Ok(detail) => refuse(alloc, cause, subject, Text::new(detail)),
        Err(_) => Halt::Memory,
    }
}

/// The refusal for this cause with a number in decimal as its detail, or `Memory` if out of memory.
/// Linear in the subject.
pub fn refuse_count(alloc: Global, cause: Cause, subject: &str, count: u64) -> Halt
    ensures { IsRefusal (refusal cause subject.now (decimal count)) result }
{
    match format!(in alloc; "{count}") {
        Ok(detail) => refuse(alloc, cause, subject, Text::new(detail)),
        Err(_) => Halt::Memory,
    }
}

/// The refusal for this cause with a byte address, in 8 hexadecimal digits, as its detail, or
/// `Memory` if out of memory. Linear in the subject.
pub fn refuse_address(alloc: Global, cause: Cause, subject: &str, address: u32) -> Halt
    ensures { IsRefusal (refusal cause subject.now (hexadecimal address)) result }
{
    match address_text(alloc, address) {
        Ok(detail) => refuse(alloc, cause, subject, Text::new(detail)),
        Err(_) => Halt::Memory,
    }
}
