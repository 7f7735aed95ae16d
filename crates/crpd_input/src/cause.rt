// The causes of refusals.
ghost use Rattle.std.specs.Prelude.{◌≡◌};
ghost use Rattle.crpd_input.specs.Causes.{cause_row as row_of};

/// The cause of a refusal. Unless a variant says otherwise, the refusal has no detail.
#[derive(Clone, Copy)]
pub enum Cause {
    /// An ELF file has fewer than 52 bytes.
    Short,
    /// Its first four bytes are not those of an ELF file.
    NotElf,
    /// It is not a 32-bit, little-endian ELF file of version 1.
    NotElf32Little,
    /// It is for another machine.
    NotRiscV,
    /// It is not an executable file: an object file, a shared file or a file of another type.
    NotExecutable,
    /// It requires dynamic linking; the detail is the program header's place.
    NotStatic,
    /// Its program headers do not have 32 bytes each, or are not inside the file.
    HeaderOutside,
    /// A segment is not inside the file or the address space, or has more bytes in the file than in
    /// memory; the detail is the program header's place.
    SegmentOutside,
    /// A segment shares an address with an earlier one; the detail is the program header's place.
    SegmentsOverlap,
    /// It has no executable segment with bytes.
    NoCode,
    /// Its sections, symbols or their names are not inside the file, or do not have their sizes; or
    /// the symbol table names no string section.
    SymbolsOutside,
    /// A task set is not a TOML text.
    SetNotToml,
    /// A required key of a task set is missing; the detail is the key, also in the next variant.
    SetMissing,
    /// A value of a task set has the wrong kind or is outside its range.
    SetBadValue,
    /// A task set has more than 32 tasks; the detail is their number.
    TooManyTasks,
    /// A task has the name of an earlier one; the detail is the key.
    SameName,
    /// A deadline exceeds its period; the detail is the key.
    DeadlineAfterPeriod,
    /// A task set has an unknown key; the detail is the key.
    SetUnknownKey,
    /// A script is not a TOML text.
    ScriptNotToml,
    /// A required key of a script is missing; the detail is the key, also in the variants on
    /// scripts below.
    ScriptMissing,
    /// A value of a script has the wrong kind or is outside its range.
    ScriptBadValue,
    /// A job's task is not in the set.
    UnknownTask,
    /// A script has more than 2^40 cycles or more than 10,000 jobs.
    ScriptTooLong,
    /// A script has an unknown key.
    ScriptUnknownKey,
    /// Two files have different code at an address; the detail is the smallest such address.
    CodeConflict,
    /// A task's file has no such symbol, or symbol and offset together are 2^32 or more; the detail
    /// is the symbol, followed by `+` and the offset in decimal unless it is 0.
    UnknownSymbol,
    /// There is no word of code at a task's entry; the detail is the entry.
    EntryOutside,
    /// The word at an address that a task's flow reaches is not an instruction; the detail is this
    /// address, also in the variants on flows below.
    Undecodable,
    /// The flow leaves the code.
    OutsideCode,
    /// The flow reaches a `jalr` that is not a return.
    IndirectJump,
    /// The flow reaches a `jal` that links in a register other than x1.
    OtherLink,
    /// The flow reaches an `ebreak`.
    Breakpoint,
    /// The flow reaches a call of a function that is already under way.
    Recursive,
    /// The flow has more than 16,384 nodes; the detail is the entry.
    TooManyNodes,
    /// The flow reaches a call inside 16 nested calls.
    TooDeep,
    /// The flow reaches an address that is not a multiple of 4.
    Misaligned,
    /// A loop is entered at a node other than its head; the detail is the address of the first such
    /// node, in the order of nodes.
    SecondEntry,
    /// Two loops overlap and neither contains the other; the detail is the address of the first
    /// node in both.
    NotNested,
    /// Two stated loops have one head; the detail is its address.
    SameHead,
    /// A cycle has no stated loop; the detail is the address of the first node on such a cycle.
    CycleWithoutBound,
    /// A task's bound exceeds 2^40 cycles; the detail is the entry.
    BoundTooLarge,
    /// A certificate is not a JSON text.
    NotJson,
    /// A key of a certificate is missing; the detail is the key.
    CertificateMissing,
    /// A value of a certificate has the wrong kind or is outside its range; the detail is the key,
    /// or `-` if the whole text is not an object.
    CertificateBadValue,
    /// A certificate has more than 4,000,000 state entries; the detail is their number.
    CertificateTooLong,
    /// A certificate has another version; the detail is the version.
    OtherVersion,
    /// The new certificate would have more than 4,000,000 state entries; the detail is their
    /// number.
    TooManyEntries,
    /// There is no file of this name.
    NoFile,
    /// A file is longer than the limit.
    FileTooLong,
    /// The set has no task of this name; the detail is the name.
    NoSuchTask,
}

// The number and the name of each cause, in the order of the causes.
static ROWS: [(u32, &str); 50] = [
    (1, "Short"),
    (2, "NotElf"),
    (3, "NotElf32Little"),
    (4, "NotRiscV"),
    (5, "NotExecutable"),
    (6, "NotStatic"),
    (7, "HeaderOutside"),
    (8, "SegmentOutside"),
    (9, "SegmentsOverlap"),
    (10, "NoCode"),
    (11, "SymbolsOutside"),
    (20, "NotToml"),
    (21, "Missing"),
    (22, "BadValue"),
    (23, "TooManyTasks"),
    (24, "SameName"),
    (25, "DeadlineAfterPeriod"),
    (26, "UnknownKey"),
    (30, "NotToml"),
    (31, "Missing"),
    (32, "BadValue"),
    (33, "UnknownTask"),
    (34, "TooLong"),
    (35, "UnknownKey"),
    (40, "CodeConflict"),
    (41, "UnknownSymbol"),
    (42, "EntryOutside"),
    (50, "Undecodable"),
    (51, "OutsideCode"),
    (52, "IndirectJump"),
    (53, "OtherLink"),
    (54, "Breakpoint"),
    (55, "Recursive"),
    (56, "TooManyNodes"),
    (57, "TooDeep"),
    (58, "Misaligned"),
    (60, "SecondEntry"),
    (61, "NotNested"),
    (62, "SameHead"),
    (63, "CycleWithoutBound"),
    (64, "BoundTooLarge"),
    (70, "NotJson"),
    (71, "Missing"),
    (72, "BadValue"),
    (73, "TooLong"),
    (74, "OtherVersion"),
    (75, "TooManyEntries"),
    (80, "NoFile"),
    (81, "FileTooLong"),
    (82, "NoSuchTask"),
];

impl Cause {
    // Its number and its name.
    fn row(self) -> (u32, &'static str)
        ensures number { result.0 ≡ (row_of self).0 }
        ensures name { result.1.now ≡ (row_of self).1 }
    {
        ROWS[self as usize]
    }

    /// The number of this cause, from 1 to 82.
    pub fn number(self) -> u32
        ensures { result ≡ (row_of self).0 }
    {
        self.row().0
    }

    /// The name of this cause. Causes of different files may share one.
    pub fn name(self) -> &'static str
        ensures { result.now ≡ (row_of self).1 }
    {
        self.row().1
    }
}
