// The symbols of the first symbol section.
ghost use Rattle.std.specs.Prelude.{◌≡◌, ℕ, ◌+◌, ◌*◌, ◌/◌, ◌≤◌, drop, length, map, filter_map};
ghost use Rattle.std.specs.Prelude.{option_map, option_copied, find, position, slice_get, ◌<◌};
ghost use Rattle.std.specs.Prelude.{IfOk, IfSome, if◌then◌else◌};
ghost use Rattle.std.specs.List.{range_with_len};
ghost use Rattle.elf_reader.specs.Fields as fields;
ghost use Rattle.crpd_base.specs.Outcome.{Gives};
ghost use Rattle.elf_reader.specs.Symbols as spec;

use crate::entries::{SectionHeader, SymbolEntry};
use crate::error::ElfError;
use crate::fields::{
    E_SHENTSIZE, E_SHNUM, E_SHOFF, SECTION_HEADER, SYMBOL_ENTRY, half, section_header,
    symbol_entry, word,
};
use crpd_base::{Items, Shared, Symbol};
use std::alloc::{AllocError, Global};

/// A section of symbols.
const SHT_SYMTAB: u32 = 2;

/// A section of texts.
const SHT_STRTAB: u32 = 3;

/// The section of an undefined symbol.
const SHN_UNDEF: u16 = 0;

/// The type of a symbol that names a source file.
const STT_FILE: u8 = 4;

/// The first `count` headers of the table at an offset of the file.
fn table(
    alloc: Global,
    bytes: &[u8],
    start: usize,
    count: u16,
) -> Result<Vec<SectionHeader>, AllocError>
    requires { start + SECTION_HEADER * count ≤ length bytes.now }
    ensures { IfOk result (λ ss.
        ss.items
        ≡ map (λ i. fields.section_header bytes.now (start + fields.section_header_bytes * i))
        (range_with_len 0 count)) }
{
    let mut sections = Vec::with_capacity(alloc, usize::from(count))?;
    for i in 0..usize::from(count) {
        sections.push(section_header(bytes, start + SECTION_HEADER * i))?;
    }
    Ok(sections)
}

/// The section headers of the file.
#[tactic(auto, unfolding(crate::specs::Symbols::section_headers))]
fn section_headers(alloc: Global, bytes: &[u8]) -> Result<Vec<SectionHeader>, ElfError>
    requires { fields.file_header_bytes ≤ length bytes.now }
    ensures { Gives ElfError.Memory (λ ss. ss.items) result (spec.section_headers bytes.now) }
{
    let start = word(bytes, E_SHOFF) as usize;
    let count = half(bytes, E_SHNUM);
    if start == 0 || count == 0 {
        return Ok(Vec::new(alloc));
    }
    let size = usize::from(half(bytes, E_SHENTSIZE));
    if size != SECTION_HEADER || start + SECTION_HEADER * usize::from(count) > bytes.len() {
        return Err(ElfError::SymbolsOutside);
    }
    Ok(table(alloc, bytes, start, count)?)
}

/// The bytes of a section, if it is in the file.
fn contents(bytes: &[u8], section: SectionHeader) -> Option<&[u8]>
    ensures { option_map (λ c. c.now) result
        ≡ (if spec.is_inside (length bytes.now) section then Some (spec.contents bytes.now section)
        else None) }
{
    let start = section.sh_offset as usize;
    let end = start + section.sh_size as usize;
    if end <= bytes.len() {
        Some(&bytes[start..end])
    } else {
        None
    }
}

/// The bytes of the string section with this header.
#[tactic(auto, unfolding(crate::specs::Symbols::strings_at))]
fn strings_at(bytes: &[u8], section: Option<SectionHeader>) -> Result<&[u8], ElfError>
    ensures { Gives ElfError.Memory (λ s. s.now) result (spec.strings_at bytes.entry.now section) }
{
    match section {
        Some(s) if s.sh_type == SHT_STRTAB => contents(bytes, s).ok_or(ElfError::SymbolsOutside),
        _ => Err(ElfError::SymbolsOutside),
    }
}

/// The part up to the last zero byte. Each text in it has an end, so that a search for the end
/// passes over the text alone.
fn terminated(strings: &[u8]) -> &[u8]
    ensures { (place : ℕ) → spec.symbol_text (drop place result.now)
        ≡ spec.symbol_text (drop place strings.entry.now) }
{
    let mut end = strings.len();
    while end > 0 && strings[end - 1] != 0 {
        end -= 1;
    }
    &strings[..end]
}

fn is_zero(byte: &u8) -> bool
    ensures { result ≡ spec.is_zero byte.now }
{
    *byte == 0
}

/// The place of the first zero byte.
fn first_zero(bytes: &[u8]) -> Option<usize>
    ensures is { result ≡ position spec.is_zero bytes.now }
    ensures bound { IfSome result (λ place. place < length bytes.now) }
{
    bytes.iter().position(is_zero)
}

/// The bytes up to the first zero byte, None if there is no zero byte or it comes first.
#[tactic(auto, unfolding(crate::specs::Symbols::symbol_text))]
fn text(bytes: &[u8]) -> Option<&[u8]>
    ensures { option_map (λ t. t.now) result ≡ spec.symbol_text bytes.entry.now }
{
    match first_zero(bytes) {
        None => None,
        Some(0) => None,
        Some(len) => Some(&bytes[..len]),
    }
}

/// The text at an offset of the string section.
fn name(strings: &[u8], place: u32) -> Option<&[u8]>
    ensures { option_map (λ t. t.now) result ≡ spec.symbol_text (drop place strings.entry.now) }
{
    let place = place as usize;
    if place < strings.len() {
        text(&strings[place..])
    } else {
        None
    }
}

fn is_passed_over(entry: SymbolEntry) -> bool
    ensures { result ≡ spec.is_passed_over entry }
{
    let undefined = entry.st_shndx == SHN_UNDEF;
    undefined || entry.st_info % 16 == STT_FILE
}

/// The symbol of an entry.
#[tactic(auto, unfolding(crate::specs::Symbols::symbol))]
fn symbol(alloc: Global, strings: &[u8], entry: SymbolEntry) -> Result<Option<Symbol>, AllocError>
    ensures { IfOk result (λ s. s ≡ spec.symbol strings.now entry) }
{
    if is_passed_over(entry) {
        return Ok(None);
    }
    let Some(name) = name(strings, entry.st_name) else {
        return Ok(None);
    };
    Ok(Some(Symbol {
        name: Items::new(Vec::from_slice(alloc, name)?),
        value: entry.st_value,
    }))
}

/// The symbols of `count` entries at an offset of the file.
fn each_symbol(
    alloc: Global,
    bytes: &[u8],
    strings: &[u8],
    start: usize,
    count: usize,
) -> Result<Vec<Symbol>, AllocError>
    requires { start + SYMBOL_ENTRY * count ≤ length bytes.now }
    ensures { IfOk result (λ v.
        v.items ≡ filter_map (spec.symbol strings.now)
        (map (λ i. fields.symbol_entry bytes.now (start + fields.symbol_bytes * i))
        (range_with_len 0 count))) }
{
    let mut symbols = Vec::new(alloc);
    for i in 0..count {
        if let Some(found) = symbol(
            alloc,
            strings,
            symbol_entry(bytes, start + SYMBOL_ENTRY * i),
        )? {
            symbols.push(found)?;
        }
    }
    Ok(symbols)
}

/// The same, with each search for the end of a name passing over the name alone.
fn all_symbols(
    alloc: Global,
    bytes: &[u8],
    strings: &[u8],
    start: usize,
    count: usize,
) -> Result<Vec<Symbol>, AllocError>
    requires { start + SYMBOL_ENTRY * count ≤ length bytes.now }
    ensures { IfOk result (λ v.
        v.items ≡ filter_map (spec.symbol strings.now)
        (map (λ i. fields.symbol_entry bytes.now (start + fields.symbol_bytes * i))
        (range_with_len 0 count))) }
{
    each_symbol(alloc, bytes, terminated(strings), start, count)
}

/// The section header at a place of the table.
fn section_at(sections: &[SectionHeader], place: u32) -> Option<SectionHeader>
    ensures { result ≡ slice_get sections.now place }
{
    sections.get(place as usize).copied()
}

/// The symbols of a symbol section, none if there is no such section.
#[tactic(auto, unfolding(crate::specs::Symbols::symbols_of))]
fn symbols_of(
    alloc: Global,
    bytes: &[u8],
    sections: &[SectionHeader],
    table: Option<SectionHeader>,
) -> Result<Vec<Symbol>, ElfError>
    ensures { Gives ElfError.Memory (λ v. v.items) result
        (spec.symbols_of bytes.now sections.now table) }
{
    let Some(table) = table else {
        return Ok(Vec::new(alloc));
    };
    let start = table.sh_offset as usize;
    let size = table.sh_size as usize;
    if table.sh_entsize as usize != SYMBOL_ENTRY || start + size > bytes.len() {
        return Err(ElfError::SymbolsOutside);
    }
    let strings = strings_at(bytes, section_at(sections, table.sh_link))?;
    Ok(all_symbols(alloc, bytes, strings, start, size / SYMBOL_ENTRY)?)
}

/// The first symbol section.
fn symbol_section(sections: &[SectionHeader]) -> Option<&SectionHeader>
    ensures { option_copied result ≡ find spec.is_symbol_section sections.entry.now }
{
    sections.iter().find(|s| s.sh_type == SHT_SYMTAB)
}

/// The symbols of the first symbol section; none if there is no symbol section.
#[tactic(auto, unfolding(crate::specs::Symbols::symbols))]
pub(crate) fn symbols(alloc: Global, bytes: &[u8]) -> Result<Shared<Symbol>, ElfError>
    requires { fields.file_header_bytes ≤ length bytes.now }
    ensures { Gives ElfError.Memory (λ s. s) result (spec.symbols bytes.now) }
{
    let sections = section_headers(alloc, bytes)?;
    let found = symbols_of(alloc, bytes, &sections, symbol_section(&sections).copied())?;
    Ok(Shared::new(found)?)
}
