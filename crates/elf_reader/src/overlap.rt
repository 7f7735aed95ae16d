// Segments that share an address. The address ranges so far are stored by their starts, so that a
// header is compared with one of them alone.
ghost use Rattle.std.specs.Prelude.{◌≡◌, ◌+◌, ◌<◌, ◌^◌, ℕ, [], ◌&&◌, ◌||◌, not, length, IfOk};
ghost use Rattle.std.specs.Prelude.{IfSome, OnOk};
ghost use Rattle.std.specs.List.{list_any};
ghost use Rattle.crpd_base.specs.Outcome.{nowhere, Gives};
ghost use Rattle.elf_reader.specs.Segments as spec;
ghost use Rattle.elf_reader.specs.Segments.{AreDisjointRanges, meets};
ghost use Rattle.elf_reader.specs.declared.error.ElfError.TheVariants.{SegmentsOverlap};

use crate::entries::ProgramHeader;
use crate::error::ElfError;
use crate::program::PT_LOAD;
use std::alloc::{AllocError, Global};
use std::collections::BTreeMap;

/// Where ranges of addresses end, by where they start.
type Ranges = BTreeMap<u64, u64>;

/// Whether the addresses from `from` up to `to` overlap one of the ranges.
fn is_met(ranges: &Ranges, from: u64, to: u64) -> bool
    requires some { from < to }
    requires apart { AreDisjointRanges ranges.now.entries }
    ensures { result ≡ list_any (meets from to) ranges.now.entries }
{
    match ranges.range(..to).next_back() {
        Some((_, end)) => from < *end,
        None => false,
    }
}

/// Adds the addresses of a header, if it is loaded and has any, unless they overlap a range.
/// Returns false if they do.
fn add(ranges: &mut Ranges, header: &ProgramHeader) -> Result<bool, AllocError>
    requires { AreDisjointRanges ranges.old.entries }
    ensures free { IfOk result
        (λ free.
        free ≡ not
        (spec.is_loaded header.now
        && list_any (meets header.now.p_vaddr (spec.header_end header.now)) ranges.old.entries)) }
    ensures apart { OnOk result (AreDisjointRanges ranges.new.entries) }
    ensures more { IfOk result
        (λ free. (from to : ℕ) → list_any (meets from to) ranges.new.entries
        ≡ (list_any (meets from to) ranges.old.entries
        || (free && spec.occupies from to header.now))) }
{
    let start = u64::from(header.p_vaddr);
    let end = start + u64::from(header.p_memsz);
    if header.p_type != PT_LOAD || start == end {
        return Ok(true);
    }
    if is_met(ranges, start, end) {
        return Ok(false);
    }
    ranges.insert(start, end)?;
    Ok(true)
}

/// The place of the first header that shares an address with an earlier one.
fn first_shared(alloc: Global, headers: &[ProgramHeader]) -> Result<Option<usize>, AllocError>
    ensures is { IfOk result (λ place. place ≡ spec.first_shared [] headers.now) }
    ensures within { IfOk result (λ place. IfSome place (λ i. i < length headers.now)) }
{
    let mut ranges = BTreeMap::new(alloc);
    for (place, header) in headers.iter().enumerate() {
        if !add(&mut ranges, header)? {
            return Ok(Some(place));
        }
    }
    Ok(None)
}

/// No two headers that are loaded share an address.
pub(crate) fn check_apart(alloc: Global, headers: &[ProgramHeader]) -> Result<(), ElfError>
    requires { length headers.now < 2 ^ 16 }
    ensures { Gives ElfError.Memory (λ x. x) result
        (nowhere SegmentsOverlap (spec.first_shared [] headers.now)) }
{
    match first_shared(alloc, headers)? {
        Some(place) => Err(ElfError::SegmentsOverlap(place as u32)),
        None => Ok(()),
    }
}
