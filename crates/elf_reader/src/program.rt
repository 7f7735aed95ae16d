// The program headers and the segments that they load.
ghost use Rattle.std.specs.Prelude.{◌≡◌, ◌+◌, ◌≤◌, ◌<◌, ◌^◌, false, length, map, filter, All};
ghost use Rattle.std.specs.Prelude.{position, None, IfOk, OnOk, ◌*◌, vec_len};
ghost use Rattle.std.specs.List.{list_any, range_with_len};
ghost use Rattle.crpd_base.specs.Outcome.{ensure, nowhere, Gives};
ghost use Rattle.elf_reader.specs.Fields as fields;
ghost use Rattle.elf_reader.specs.Reading as reading;
ghost use Rattle.elf_reader.specs.Segments as spec;
ghost use Rattle.elf_reader.specs.declared.error.ElfError.TheVariants.{NoCode, NotStatic};
ghost use Rattle.elf_reader.specs.declared.error.ElfError.TheVariants.{SegmentOutside};

use crate::entries::ProgramHeader;
use crate::error::ElfError;
use crate::fields::{E_PHENTSIZE, E_PHNUM, E_PHOFF, PROGRAM_HEADER, half, program_header, word};
use crpd_base::{Items, Segment, Shared};
use std::alloc::{AllocError, Global};

/// A segment that is loaded into memory.
pub(crate) const PT_LOAD: u32 = 1;

/// The tables of a dynamic linker.
const PT_DYNAMIC: u32 = 2;

/// The path of a dynamic linker.
const PT_INTERP: u32 = 3;

/// The number of addresses.
const ADDRESSES: u64 = 1 << 32;

/// The first `count` headers of the table at an offset of the file.
#[tactic(auto, using(crpd_base::proofs::Elements::map_range_more))]
fn table(
    alloc: Global,
    bytes: &[u8],
    start: usize,
    count: u16,
) -> Result<Vec<ProgramHeader>, AllocError>
    requires { start + PROGRAM_HEADER * count ≤ length bytes.now }
    ensures headers { IfOk result
        (λ hs. hs.items
        ≡ map (λ i. fields.program_header bytes.now (start + fields.program_header_bytes * i))
        (range_with_len 0 count)) }
    ensures count { IfOk result (λ hs. vec_len hs ≡ count) }
{
    let mut headers = Vec::with_capacity(alloc, usize::from(count))?;
    for i in 0..usize::from(count) {
        headers.push(program_header(bytes, start + PROGRAM_HEADER * i))?;
    }
    Ok(headers)
}

/// The program headers of the file.
#[tactic(auto, unfolding(crate::specs::Reading::program_headers))]
pub(crate) fn program_headers(alloc: Global, bytes: &[u8]) -> Result<Vec<ProgramHeader>, ElfError>
    requires { fields.file_header_bytes ≤ length bytes.now }
    ensures headers { Gives ElfError.Memory (λ hs. hs.items) result
        (reading.program_headers bytes.now) }
    ensures count { IfOk result (λ hs. vec_len hs < 2 ^ 16) }
{
    let start = word(bytes, E_PHOFF) as usize;
    let count = half(bytes, E_PHNUM);
    if count == 0 {
        return Ok(Vec::new(alloc));
    }
    let size = usize::from(half(bytes, E_PHENTSIZE));
    if size != PROGRAM_HEADER || start + PROGRAM_HEADER * usize::from(count) > bytes.len() {
        return Err(ElfError::HeaderOutside);
    }
    Ok(table(alloc, bytes, start, count)?)
}

fn is_dynamic(header: &ProgramHeader) -> bool
    ensures { result ≡ spec.is_dynamic header.now }
{
    header.p_type == PT_DYNAMIC || header.p_type == PT_INTERP
}

/// The place of the first header for dynamic linking.
fn first_dynamic(headers: &[ProgramHeader]) -> Option<usize>
    ensures { result ≡ position spec.is_dynamic headers.now }
{
    headers.iter().position(is_dynamic)
}

/// No header is for dynamic linking.
pub(crate) fn check_static(headers: &[ProgramHeader]) -> Result<(), ElfError>
    requires { length headers.now < 2 ^ 16 }
    ensures { Gives ElfError.Memory (λ x. x) result
        (nowhere NotStatic (position spec.is_dynamic headers.now)) }
{
    match first_dynamic(headers) {
        Some(place) => Err(ElfError::NotStatic(place as u32)),
        None => Ok(()),
    }
}

/// Whether a header's bytes are in a file of this length, fit in its addresses, and these are below
/// 2^32.
fn fits(len: usize, header: &ProgramHeader) -> bool
    ensures { result ≡ spec.lies_in_file len header.now }
{
    let stored = u64::from(header.p_offset) + u64::from(header.p_filesz);
    let end = u64::from(header.p_vaddr) + u64::from(header.p_memsz);
    stored <= len as u64 && header.p_filesz <= header.p_memsz && end <= ADDRESSES
}

/// Whether a header is loaded and does not fit.
fn is_outside(len: usize, header: &ProgramHeader) -> bool
    ensures { result ≡ spec.is_outside len header.now }
{
    header.p_type == PT_LOAD && !fits(len, header)
}

/// The place of the first header that is loaded and does not fit.
fn first_outside(headers: &[ProgramHeader], len: usize) -> Option<usize>
    ensures { result ≡ position (spec.is_outside len) headers.now }
{
    headers.iter().position(|h| is_outside(len, h))
}

/// Each header that is loaded fits the file and the addresses.
pub(crate) fn check_inside(headers: &[ProgramHeader], len: usize) -> Result<(), ElfError>
    requires { length headers.now < 2 ^ 16 }
    ensures is { Gives ElfError.Memory (λ x. x) result
        (nowhere SegmentOutside (position (spec.is_outside len) headers.now)) }
    ensures fit { OnOk result (position (spec.is_outside len) headers.now ≡ None) }
{
    match first_outside(headers, len) {
        Some(place) => Err(ElfError::SegmentOutside(place as u32)),
        None => Ok(()),
    }
}

fn is_executable(header: &ProgramHeader) -> bool
    ensures { result ≡ spec.is_executable header.now }
{
    header.p_flags % 2 == 1
}

/// Whether a header is loaded, executable and has bytes.
fn is_code(header: &ProgramHeader) -> bool
    ensures { result ≡ spec.is_code header.now }
{
    let executable = is_executable(header);
    header.p_type == PT_LOAD && executable && header.p_filesz > 0
}

/// Whether some header has code.
fn has_code(headers: &[ProgramHeader]) -> bool
    ensures { result ≡ list_any spec.is_code headers.now }
{
    headers.iter().any(is_code)
}

/// Some header has code.
pub(crate) fn check_code(headers: &[ProgramHeader]) -> Result<(), ElfError>
    ensures { Gives ElfError.Memory (λ x. x) result
        (ensure (list_any spec.is_code headers.now) NoCode) }
{
    if has_code(headers) {
        Ok(())
    } else {
        Err(ElfError::NoCode)
    }
}

/// The segment that a header loads.
fn segment(alloc: Global, bytes: &[u8], header: &ProgramHeader) -> Result<Segment, AllocError>
    requires { header.now.p_offset + header.now.p_filesz ≤ length bytes.now }
    ensures { IfOk result (λ s. s ≡ spec.segment bytes.now header.now) }
{
    let start = header.p_offset as usize;
    let end = start + header.p_filesz as usize;
    Ok(Segment {
        address: header.p_vaddr,
        size: u64::from(header.p_memsz),
        bytes: Items::new(Vec::from_slice(alloc, &bytes[start..end])?),
        executable: is_executable(header),
    })
}

/// The segments that the headers load, in order.
pub(crate) fn segments(
    alloc: Global,
    bytes: &[u8],
    headers: &[ProgramHeader],
) -> Result<Shared<Segment>, AllocError>
    requires { position (spec.is_outside (length bytes.now)) headers.now ≡ None }
    ensures { IfOk result (λ segments. segments ≡ spec.segments bytes.now headers.now) }
{
    let mut loaded = Vec::new(alloc);
    for header in headers {
        if header.p_type == PT_LOAD {
            loaded.push(segment(alloc, bytes, header)?)?;
        }
    }
    Shared::new(loaded)
}
