// The whole file.
ghost use Rattle.std.specs.Prelude.{◌≡◌, ◌==◌, ◌<◌, ◌≤◌, ◌&&◌, length, slice_index};
ghost use Rattle.std.specs.Prelude.{IfOk, OnOk};
ghost use Rattle.crpd_base.specs.Images.{IsImage};
ghost use Rattle.crpd_base.specs.Outcome.{Gives};
ghost use Rattle.elf_reader.specs.Reading as spec;

use crate::error::ElfError;
use crate::fields::{E_ENTRY, E_MACHINE, E_TYPE, FILE_HEADER, half, word};
use crate::overlap::check_apart;
use crate::program::{check_code, check_inside, check_static, program_headers, segments};
use crate::symbols::symbols;
use crpd_base::Image;
use std::alloc::Global;

/// 0x7F and the letters ELF.
const MAGIC: [u8; 4] = [0x7F, 0x45, 0x4C, 0x46];

// The offsets of the class, the data and the version after it.
const EI_CLASS: usize = 4;

const EI_DATA: usize = 5;

const EI_VERSION: usize = 6;

/// The class of files of 32 bits.
const ELFCLASS32: u8 = 1;

/// Little-endian order.
const ELFDATA2LSB: u8 = 1;

/// The only version.
const EV_CURRENT: u8 = 1;

/// An executable.
const ET_EXEC: u16 = 2;

/// RISC-V.
const EM_RISCV: u16 = 243;

fn is_elf32_little(bytes: &[u8]) -> bool
    requires { 6 < length bytes.now }
    ensures { result ≡ (slice_index bytes.now 4 == 1 && slice_index bytes.now 5 == 1
        && slice_index bytes.now 6 == 1) }
{
    let class = bytes[EI_CLASS];
    class == ELFCLASS32 && bytes[EI_DATA] == ELFDATA2LSB && bytes[EI_VERSION] == EV_CURRENT
}

/// The file begins with the header of a 32-bit, little-endian executable for RISC-V.
#[tactic(auto, unfolding(crate::specs::Reading::file_header))]
fn check_file_header(bytes: &[u8]) -> Result<(), ElfError>
    ensures header { Gives ElfError.Memory (λ x. x) result (spec.file_header bytes.now) }
    ensures long { OnOk result (FILE_HEADER ≤ length bytes.now) }
{
    if bytes.len() < FILE_HEADER {
        return Err(ElfError::Short);
    }
    if &bytes[..4] != &MAGIC[..] {
        return Err(ElfError::NotElf);
    }
    if !is_elf32_little(bytes) {
        return Err(ElfError::NotElf32Little);
    }
    if half(bytes, E_MACHINE) != EM_RISCV {
        return Err(ElfError::NotRiscV);
    }
    if half(bytes, E_TYPE) != ET_EXEC {
        return Err(ElfError::NotExecutable);
    }
    Ok(())
}

/// The image of the file, or its first refusal.
#[tactic(auto, unfolding(crate::specs::Reading::reading))]
fn image_of(alloc: Global, bytes: &[u8]) -> Result<Image, ElfError>
    ensures { Gives ElfError.Memory (λ x. x) result (spec.reading bytes.now) }
{
    check_file_header(bytes)?;
    let headers = program_headers(alloc, bytes)?;
    check_static(&headers)?;
    check_inside(&headers, bytes.len())?;
    check_apart(alloc, &headers)?;
    check_code(&headers)?;
    let symbols = symbols(alloc, bytes)?;
    Ok(Image {
        entry: word(bytes, E_ENTRY),
        segments: segments(alloc, bytes, &headers)?,
        symbols,
    })
}

/// The image of an ELF32 executable for RISC-V: the entry, the segments of the PT_LOAD headers, and
/// the symbols of the first SHT_SYMTAB, both in the order of their tables. A symbol is left out if
/// it is undefined (SHN_UNDEF), names a source file (STT_FILE), or has no name: an empty one, or
/// one that does not begin and end in the string section. Sizes are in bytes, and so are addresses,
/// which are below 2^32. An `Err` is the first refusal in the order of the variants of `ElfError`,
/// except that `HeaderOutside` comes before `NotStatic`. `Memory` may replace any result. Time is
/// linear in the file and in the image, and n log n in the number of program headers. The memory in
/// addition to the image is a few times that of the tables of program and section headers. Sources:
/// Tool Interface Standard, Executable and Linking Format 1.2, book I; RISC-V ELF psABI.
pub fn read_elf(alloc: Global, bytes: &[u8]) -> Result<Image, ElfError>
    // The meaning of the bytes, unless memory runs out.
    ensures is { Gives ElfError.Memory (λ x. x) result (spec.reading bytes.now) }
    // The segments of an image are below 2^32, are disjoint, and have no more bytes than their
    // sizes.
    ensures image { IfOk result IsImage }
{
    image_of(alloc, bytes)
}
