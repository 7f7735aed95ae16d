// The fields of the file, by their offsets.
ghost use Rattle.std.specs.Prelude.{◌≡◌, ◌+◌, ◌≤◌, length, map};
ghost use Rattle.elf_reader.specs.Fields as spec;

use crate::entries::{ProgramHeader, SectionHeader, SymbolEntry};
use byteorder::{ByteOrder, LittleEndian};

// The offsets of the fields in the file's header, with the names of the ELF specification.
pub(crate) const E_TYPE: usize = 16;

pub(crate) const E_MACHINE: usize = 18;

pub(crate) const E_ENTRY: usize = 24;

pub(crate) const E_PHOFF: usize = 28;

pub(crate) const E_SHOFF: usize = 32;

pub(crate) const E_PHENTSIZE: usize = 42;

pub(crate) const E_PHNUM: usize = 44;

pub(crate) const E_SHENTSIZE: usize = 46;

pub(crate) const E_SHNUM: usize = 48;

/// The bytes of the file's header.
pub(crate) const FILE_HEADER: usize = 52;

/// The bytes of a program header.
pub(crate) const PROGRAM_HEADER: usize = 32;

/// The bytes of a section header.
pub(crate) const SECTION_HEADER: usize = 40;

/// The bytes of an entry of the symbol table.
pub(crate) const SYMBOL_ENTRY: usize = 16;

// The offsets of the fields in a program header; its first field is `p_type`.
const P_OFFSET: usize = 4;

const P_VADDR: usize = 8;

const P_FILESZ: usize = 16;

const P_MEMSZ: usize = 20;

const P_FLAGS: usize = 24;

// The same in a section header.
const SH_TYPE: usize = 4;

const SH_OFFSET: usize = 16;

const SH_SIZE: usize = 20;

const SH_LINK: usize = 24;

const SH_ENTSIZE: usize = 36;

// The same in an entry of the symbol table; its first field is `st_name`.
const ST_VALUE: usize = 4;

const ST_INFO: usize = 12;

const ST_SHNDX: usize = 14;

/// The number in the two bytes at an offset.
#[tactic(auto, unfolding(crate::specs::Fields::file_half))]
pub(crate) fn half(bytes: &[u8], place: usize) -> u16
    requires { place + 2 ≤ length bytes.now }
    ensures { result ≡ spec.file_half bytes.now place }
{
    LittleEndian::read_u16(&bytes[place..])
}

/// The number in the four bytes at an offset.
#[tactic(auto, unfolding(crate::specs::Fields::file_word))]
pub(crate) fn word(bytes: &[u8], place: usize) -> u32
    requires { place + 4 ≤ length bytes.now }
    ensures { result ≡ spec.file_word bytes.now place }
{
    LittleEndian::read_u32(&bytes[place..])
}

/// The program header at an offset of the file.
pub(crate) fn program_header(bytes: &[u8], place: usize) -> ProgramHeader
    requires { place + PROGRAM_HEADER ≤ length bytes.now }
    ensures { result ≡ spec.program_header bytes.now place }
{
    ProgramHeader {
        p_type: word(bytes, place),
        p_offset: word(bytes, place + P_OFFSET),
        p_vaddr: word(bytes, place + P_VADDR),
        p_filesz: word(bytes, place + P_FILESZ),
        p_memsz: word(bytes, place + P_MEMSZ),
        p_flags: word(bytes, place + P_FLAGS),
    }
}

/// The section header at an offset of the file.
pub(crate) fn section_header(bytes: &[u8], place: usize) -> SectionHeader
    requires { place + SECTION_HEADER ≤ length bytes.now }
    ensures { result ≡ spec.section_header bytes.now place }
{
    SectionHeader {
        sh_type: word(bytes, place + SH_TYPE),
        sh_offset: word(bytes, place + SH_OFFSET),
        sh_size: word(bytes, place + SH_SIZE),
        sh_link: word(bytes, place + SH_LINK),
        sh_entsize: word(bytes, place + SH_ENTSIZE),
    }
}

/// The symbol table's entry at an offset of the file.
pub(crate) fn symbol_entry(bytes: &[u8], place: usize) -> SymbolEntry
    requires { place + SYMBOL_ENTRY ≤ length bytes.now }
    ensures { result ≡ spec.symbol_entry bytes.now place }
{
    SymbolEntry {
        st_name: word(bytes, place),
        st_value: word(bytes, place + ST_VALUE),
        st_info: bytes[place + ST_INFO],
        st_shndx: half(bytes, place + ST_SHNDX),
    }
}
