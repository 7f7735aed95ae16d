// Encoding: from an instruction to its word.
ghost use Rattle.std.specs.Prelude.{◌≡◌, ◌+◌, ◌-◌, ◌<◌, ◌≤◌, ◌^◌, ◌/◌, ◌%◌, ◌*◌};
ghost use Rattle.rv_decode.specs.Encoding.{IsWordOf, encoding, word_of_fields, signed_bits, i_word};
ghost use Rattle.rv_decode.specs.Encoding.{s_word, b_word, u_word, j_word};
ghost use Rattle.rv_decode.specs.Range.{HasFieldsInRange, IsSigned};
ghost use Rattle.rv_decode.specs.Inner.Operations.{operation};

use crate::Ins;
use crate::operands::Operands;
use crate::table::instruction_table;

/// The values in the bits of rd, rs1, rs2 and funct7.
#[derive(Clone, Copy)]
struct FieldValues {
    rd: u32,
    rs1: u32,
    rs2: u32,
    funct7: u32,
}

fn assemble(opcode: u32, funct3: u32, values: FieldValues) -> u32
    requires opcode { opcode < 2 ^ 7 }
    requires funct3 { funct3 < 2 ^ 3 }
    requires rd { values.rd < 2 ^ 5 }
    requires rs1 { values.rs1 < 2 ^ 5 }
    requires rs2 { values.rs2 < 2 ^ 5 }
    requires funct7 { values.funct7 < 2 ^ 7 }
    ensures { result ≡ word_of_fields opcode values.rd funct3 values.rs1 values.rs2 values.funct7 }
{
    let low = opcode + (values.rd << 7) + (funct3 << 12);
    low + (values.rs1 << 15) + (values.rs2 << 20) + (values.funct7 << 25)
}

/// The `count` bits of a signed number.
fn bits_of(imm: i32, count: u32) -> u32
    requires some { 1 ≤ count }
    requires few { count ≤ 21 }
    requires within { IsSigned count imm }
    ensures value { result ≡ signed_bits count imm }
    ensures below { result < 2 ^ count }
{
    if imm < 0 {
        (imm + (1 << count)) as u32
    } else {
        imm as u32
    }
}

fn r_word(opcode: u32, funct3: u32, funct7: u32, rd: u8, rs1: u8, rs2: u8) -> u32
    requires opcode { opcode < 2 ^ 7 }
    requires funct3 { funct3 < 2 ^ 3 }
    requires funct7 { funct7 < 2 ^ 7 }
    requires rd { rd < 32 }
    requires rs1 { rs1 < 32 }
    requires rs2 { rs2 < 32 }
    ensures { result ≡ word_of_fields opcode rd funct3 rs1 rs2 funct7 }
{
    let values = FieldValues {
        rd: rd as u32,
        rs1: rs1 as u32,
        rs2: rs2 as u32,
        funct7,
    };
    assemble(opcode, funct3, values)
}

/// The I form, and FENCE, with these bits 31 to 20.
fn i_word(opcode: u32, funct3: u32, rd: u8, rs1: u8, high: u32) -> u32
    requires opcode { opcode < 2 ^ 7 }
    requires funct3 { funct3 < 2 ^ 3 }
    requires rd { rd < 32 }
    requires rs1 { rs1 < 32 }
    requires high { high < 2 ^ 12 }
    ensures { result ≡ i_word opcode funct3 rd rs1 high }
{
    let values = FieldValues {
        rd: rd as u32,
        rs1: rs1 as u32,
        rs2: high % 32,
        funct7: high / 32,
    };
    assemble(opcode, funct3, values)
}

fn s_word(opcode: u32, funct3: u32, rs1: u8, rs2: u8, imm: i32) -> u32
    requires opcode { opcode < 2 ^ 7 }
    requires funct3 { funct3 < 2 ^ 3 }
    requires rs1 { rs1 < 32 }
    requires rs2 { rs2 < 32 }
    requires imm { IsSigned 12 imm }
    ensures { result ≡ s_word opcode funct3 rs1 rs2 (signed_bits 12 imm) }
{
    let imm = bits_of(imm, 12);
    let values = FieldValues {
        rd: imm % 32,
        rs1: rs1 as u32,
        rs2: rs2 as u32,
        funct7: imm / 32,
    };
    assemble(opcode, funct3, values)
}

fn b_word(opcode: u32, funct3: u32, rs1: u8, rs2: u8, imm: i32) -> u32
    requires opcode { opcode < 2 ^ 7 }
    requires funct3 { funct3 < 2 ^ 3 }
    requires rs1 { rs1 < 32 }
    requires rs2 { rs2 < 32 }
    requires imm { IsSigned 13 imm }
    ensures { result ≡ b_word opcode funct3 rs1 rs2 (signed_bits 13 imm) }
{
    let imm = bits_of(imm, 13);
    let values = FieldValues {
        rd: (imm >> 11) % 2 + (imm >> 1) % 16 * 2,
        rs1: rs1 as u32,
        rs2: rs2 as u32,
        funct7: (imm >> 5) % 64 + (imm >> 12) * 64,
    };
    assemble(opcode, funct3, values)
}

fn u_word(opcode: u32, rd: u8, upper: u32) -> u32
    requires opcode { opcode < 2 ^ 7 }
    requires rd { rd < 32 }
    requires upper { upper < 2 ^ 20 }
    ensures { result ≡ u_word opcode rd upper }
{
    opcode + ((rd as u32) << 7) + (upper << 12)
}

fn j_word(opcode: u32, rd: u8, imm: i32) -> u32
    requires opcode { opcode < 2 ^ 7 }
    requires rd { rd < 32 }
    requires imm { IsSigned 21 imm }
    ensures { result ≡ j_word opcode rd (signed_bits 21 imm) }
{
    let imm = bits_of(imm, 21);
    let low = (imm >> 12) % 256 + (imm >> 11) % 2 * 256;
    u_word(
        opcode,
        rd,
        low + (imm >> 1) % 1024 * 512 + (imm >> 20) * 524_288,
    )
}

/// The bits of a word besides its operands: its operation.
#[derive(Clone, Copy)]
struct Operation {
    opcode: u32,
    funct3: u32,
    funct7: u32,
}

/// The operation of a row. ECALL and EBREAK have one opcode.
macro_rules! operation_row {
    (whole $whole:literal) => {
        operation_row!(i 0x73)
    };
    ($form:ident $opcode:literal) => {
        operation_row!($form $opcode 0)
    };
    ($form:ident $opcode:literal $funct3:literal) => {
        operation_row!($form $opcode $funct3 0)
    };
    ($form:ident $opcode:literal $funct3:literal $funct7:literal) => {
        Operation {
            opcode: $opcode,
            funct3: $funct3,
            funct7: $funct7,
        }
    };
}

macro_rules! operation_rows {
    ([$ins:ident] $({ $form:ident $variant:ident $fields:tt $name:literal $($key:literal)* })*) => {
        match *$ins {
            $(Ins::$variant { .. } => operation_row!($form $($key)*),)*
        }
    };
}

impl Ins {
    /// The bits that its row states besides the operands, 0 if the form has none there.
    #[tactic(auto, unfolding(crate::specs::Inner::Operations::operation))]
    fn operation(&self) -> Operation
        ensures { result ≡ operation self.now }
    {
        instruction_table!(operation_rows[self])
    }
}

/// The word of an instruction whose fields are in range: the only word that decodes to it. In
/// constant time; it takes no memory.
pub fn encode(ins: &Ins) -> u32
    requires { HasFieldsInRange ins.now }
    ensures value { result ≡ encoding ins.now }
    ensures is_word { IsWordOf ins.now result }
{
    let Operation {
        opcode,
        funct3,
        funct7,
    } = ins.operation();
    match ins.operands() {
        Operands::R { rd, rs1, rs2 } => r_word(opcode, funct3, funct7, rd, rs1, rs2),
        Operands::Shift { rd, rs1, amount } => r_word(opcode, funct3, funct7, rd, rs1, amount),
        Operands::I { rd, rs1, imm } => i_word(opcode, funct3, rd, rs1, bits_of(imm, 12)),
        Operands::Address { rd, rs1, imm } => i_word(opcode, funct3, rd, rs1, bits_of(imm, 12)),
        Operands::S { rs1, rs2, imm } => s_word(opcode, funct3, rs1, rs2, imm),
        Operands::B { rs1, rs2, imm } => b_word(opcode, funct3, rs1, rs2, imm),
        Operands::U { rd, upper } => u_word(opcode, rd, upper),
        Operands::J { rd, imm } => j_word(opcode, rd, imm),
        Operands::Plain { rd, rs1, bits } => i_word(opcode, funct3, rd, rs1, bits as u32),
    }
}
