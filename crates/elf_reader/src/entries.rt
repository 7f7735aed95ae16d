// The entries of the file's tables, with the names of the ELF specification. Fields that are not
// read are left out.

#[derive(Clone, Copy)]
pub(crate) struct ProgramHeader {
    /// The kind of segment: PT_LOAD is 1, PT_DYNAMIC 2, PT_INTERP 3.
    pub p_type: u32,
    /// The file offset at which its bytes begin.
    pub p_offset: u32,
    /// The address at which it is loaded.
    pub p_vaddr: u32,
    /// How many bytes it has in the file.
    pub p_filesz: u32,
    /// How many bytes it has in memory.
    pub p_memsz: u32,
    /// Its permissions; bit 0 is PF_X.
    pub p_flags: u32,
}

#[derive(Clone, Copy)]
pub(crate) struct SectionHeader {
    /// The kind of section: SHT_SYMTAB is 2, SHT_STRTAB 3.
    pub sh_type: u32,
    /// The file offset at which its bytes begin.
    pub sh_offset: u32,
    /// How many bytes it has.
    pub sh_size: u32,
    /// For a symbol table, the place of its string section among the headers.
    pub sh_link: u32,
    /// How many bytes an entry has, 16 for symbols.
    pub sh_entsize: u32,
}

#[derive(Clone, Copy)]
pub(crate) struct SymbolEntry {
    /// The offset of the name's first byte in the string section.
    pub st_name: u32,
    /// Its value, an address.
    pub st_value: u32,
    /// Its type in the low 4 bits (STT_FILE is 4), and its binding above them.
    pub st_info: u8,
    /// The section that defines it, 0 (SHN_UNDEF) for none.
    pub st_shndx: u16,
}
