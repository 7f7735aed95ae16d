//! Why an ELF file was refused.

ghost use Rattle.std.specs.Prelude.{◌≡◌};
ghost use Rattle.elf_reader.specs.declared.error.ElfError.TheVariants.{Memory};

use std::alloc::{AllocError, AllocFailed};
use thiserror::Error;

/// The first error in the bytes of an ELF file. A number is the place of the first program header
/// with that error, counted from 0 over the whole table, including headers of every type.
#[derive(Clone, Copy, Debug, Error)]
pub enum ElfError {
    /// There is no memory for the image or for the tables that are read.
    #[error("out of memory")]
    Memory,
    /// The file has fewer than the 52 bytes of an ELF32 header.
    #[error("shorter than the header")]
    Short,
    /// The file does not begin with 0x7F and the letters ELF.
    #[error("not ELF")]
    NotElf,
    /// The class is not ELFCLASS32, the data not ELFDATA2LSB, or the version not EV_CURRENT.
    #[error("not ELF32 in little-endian order, version 1")]
    NotElf32Little,
    /// `e_machine` is not EM_RISCV.
    #[error("not for RISC-V")]
    NotRiscV,
    /// `e_type` is not ET_EXEC.
    #[error("not an executable")]
    NotExecutable,
    /// A header of type PT_DYNAMIC or PT_INTERP.
    #[error("program header {0} is for dynamic linking")]
    NotStatic(u32),
    /// There are program headers, and `e_phentsize` is not 32 or their table extends past the
    /// file's end.
    #[error("the program headers lie outside the file")]
    HeaderOutside,
    /// A PT_LOAD whose bytes begin or end past the file's end (even if it has none) or are more
    /// than its size, or whose addresses extend past 2^32.
    #[error("segment {0} lies outside the file or the addresses")]
    SegmentOutside(u32),
    /// A PT_LOAD that shares an address with an earlier PT_LOAD of the table.
    #[error("segment {0} shares an address with an earlier one")]
    SegmentsOverlap(u32),
    /// No PT_LOAD with PF_X has bytes in the file.
    #[error("no executable segment has bytes")]
    NoCode,
    /// Section headers whose `e_shentsize` is not 40 or whose table extends past the file's end. Or
    /// a first SHT_SYMTAB that extends past it, whose `sh_entsize` is not 16, or whose `sh_link` is
    /// not the place of an SHT_STRTAB in the file.
    #[error("the sections or symbols lie outside the file")]
    SymbolsOutside,
}

impl From<AllocError> for ElfError {
    ghost from_gives = { λ _ e. e ≡ Memory };

    fn from(_e: AllocError) -> ElfError {
        ElfError::Memory
    }
}

impl<T: Drop> From<AllocFailed<T>> for ElfError {
    ghost from_gives = { λ _ e. e ≡ Memory };

    fn from(_e: AllocFailed<T>) -> ElfError {
        ElfError::Memory
    }
}
