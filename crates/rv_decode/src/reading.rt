// Decoding: from a word to its instruction.
ghost use Rattle.std.specs.Prelude.{◌≡◌, IfSome};
ghost use Rattle.rv_decode.specs.Encoding.{ExcludeEachOther};
ghost use Rattle.rv_decode.specs.Range.{HasFieldsInRange};
ghost use Rattle.rv_decode.specs.Table.{ins_of_word, table};

use crate::Ins;
use crate::fields::{Fields, has_funct3, has_funct7, has_opcode};
use crate::table::instruction_table;

/// Whether a word fits a row.
macro_rules! fits_row {
    (whole $word:ident $whole:literal) => {
        $word == $whole
    };
    ($form:ident $word:ident $opcode:literal) => {
        has_opcode($word, $opcode)
    };
    ($form:ident $word:ident $opcode:literal $funct3:literal) => {
        has_funct3($word, $opcode, $funct3)
    };
    ($form:ident $word:ident $opcode:literal $funct3:literal $funct7:literal) => {
        has_funct7($word, $opcode, $funct3, $funct7)
    };
}

/// The instruction of a row, with the fields of its form.
macro_rules! read_row {
    (r $variant:ident $at:ident) => {
        Ins::$variant {
            rd: $at.rd,
            rs1: $at.rs1,
            rs2: $at.rs2,
        }
    };
    (address $variant:ident $at:ident) => {
        read_row!(i $variant $at)
    };
    (i $variant:ident $at:ident) => {
        Ins::$variant {
            rd: $at.rd,
            rs1: $at.rs1,
            imm: $at.i_imm,
        }
    };
    (shift $variant:ident $at:ident) => {
        Ins::$variant {
            rd: $at.rd,
            rs1: $at.rs1,
            amount: $at.rs2,
        }
    };
    (s $variant:ident $at:ident) => {
        Ins::$variant {
            rs1: $at.rs1,
            rs2: $at.rs2,
            imm: $at.s_imm,
        }
    };
    (b $variant:ident $at:ident) => {
        Ins::$variant {
            rs1: $at.rs1,
            rs2: $at.rs2,
            imm: $at.b_imm,
        }
    };
    (u $variant:ident $at:ident) => {
        Ins::$variant {
            rd: $at.rd,
            upper: $at.upper,
        }
    };
    (j $variant:ident $at:ident) => {
        Ins::$variant {
            rd: $at.rd,
            imm: $at.j_imm,
        }
    };
    (fence $variant:ident $at:ident) => {
        Ins::$variant {
            rd: $at.rd,
            rs1: $at.rs1,
            bits: $at.bits,
        }
    };
    (whole $variant:ident $at:ident) => {
        Ins::$variant
    };
}

macro_rules! decode_rows {
    ([$word:ident $at:ident] $({ $form:ident $variant:ident $fields:tt $name:literal $($key:literal)* })*) => {
        $(if fits_row!($form $word $($key)*) {
            return Some(read_row!($form $variant $at));
        })*
    };
}

/// The instruction of a word, or None if it fits no row of the table of RV32I and the M extension
/// (RISC-V unprivileged manual, "RV32/64G Instruction Set Listings"). In constant time: one test
/// per row, 48 in all. It takes no memory.
#[tactic(none)]
pub fn decode(word: u32) -> Option<Ins>
    ensures row { result ≡ ins_of_word word }
    ensures in_range { IfSome result HasFieldsInRange }
{
    let at = Fields::split(word);
    instruction_table!(decode_rows [word at]);
    None
}

/// A law: no word fits two rows of the table. In constant time.
pub fn no_word_fits_two_rows()
    ensures { ExcludeEachOther table }
{}
