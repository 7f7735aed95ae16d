// The texts of instructions.
ghost use Rattle.std.specs.Prelude.{◌≡◌, ◌++◌, IfOk, OnOk, string_bytes};
ghost use Rattle.rv_decode.specs.Text.{text, r_text, i_text, address_text, j_text};
ghost use Rattle.rv_decode.specs.Inner.Names.{name};
ghost use Rattle.rv_decode.specs.Inner.Operands.{text_by};

use crate::Ins;
use crate::operands::Operands;
use crate::table::instruction_table;
use crpd_base::Memory;
use std::alloc::{AllocError, Global};

/// Appends a name and three registers.
fn add_r_text(text: &mut String, name: &str, rd: u8, rs1: u8, rs2: u8) -> Result<(), AllocError>
    ensures { OnOk result
        (string_bytes text.new ≡ string_bytes text.old ++ r_text name.now rd rs1 rs2) }
{
    write!(text, "{name} x{rd},x{rs1},x{rs2}")
}

/// Appends a name, two registers and a number: the I form, branches, and shifts by an amount.
fn add_i_text(text: &mut String, name: &str, rd: u8, rs1: u8, imm: i32) -> Result<(), AllocError>
    ensures { OnOk result
        (string_bytes text.new ≡ string_bytes text.old ++ i_text name.now rd rs1 imm) }
{
    write!(text, "{name} x{rd},x{rs1},{imm}")
}

/// Appends a name, a register and an address: an offset from a base register.
fn add_address_text(
    text: &mut String,
    name: &str,
    register: u8,
    imm: i32,
    base: u8,
) -> Result<(), AllocError>
    ensures { OnOk result
        (string_bytes text.new ≡ string_bytes text.old ++ address_text name.now register imm base) }
{
    write!(text, "{name} x{register},{imm}(x{base})")
}

/// Appends a name, a register and a number: JAL, LUI and AUIPC.
fn add_j_text(text: &mut String, name: &str, rd: u8, number: i64) -> Result<(), AllocError>
    ensures { OnOk result
        (string_bytes text.new ≡ string_bytes text.old ++ j_text name.now rd number) }
{
    write!(text, "{name} x{rd},{number}")
}

/// Appends a name with these operands.
fn add_text(text: &mut String, name: &str, operands: Operands) -> Result<(), AllocError>
    ensures { OnOk result
        (string_bytes text.new ≡ string_bytes text.old ++ text_by name.now operands) }
{
    match operands {
        Operands::R { rd, rs1, rs2 } => add_r_text(text, name, rd, rs1, rs2),
        Operands::Shift { rd, rs1, amount } => add_i_text(text, name, rd, rs1, amount as i32),
        Operands::I { rd, rs1, imm } => add_i_text(text, name, rd, rs1, imm),
        Operands::Address { rd, rs1, imm } => add_address_text(text, name, rd, imm, rs1),
        Operands::S { rs1, rs2, imm } => add_address_text(text, name, rs2, imm, rs1),
        Operands::B { rs1, rs2, imm } => add_i_text(text, name, rs1, rs2, imm),
        Operands::U { rd, upper } => add_j_text(text, name, rd, upper as i64),
        Operands::J { rd, imm } => add_j_text(text, name, rd, imm as i64),
        Operands::Plain { .. } => text.push_str(name),
    }
}

macro_rules! name_rows {
    ([$ins:ident] $({ $form:ident $variant:ident $fields:tt $name:literal $($key:literal)* })*) => {
        match *$ins {
            $(Ins::$variant { .. } => $name,)*
        }
    };
}

impl Ins {
    /// The name in the instruction's row.
    #[tactic(auto, unfolding(crate::specs::Inner::Names::name))]
    fn name(&self) -> &'static str
        ensures { result.now ≡ name self.now }
    {
        instruction_table!(name_rows[self])
    }

    /// The text of the instruction: the name, a space, and the operands with commas between them;
    /// JALR, loads and stores name offset and base as in `12(x2)`. FENCE, ECALL and EBREAK are
    /// their names alone, so the fields of a FENCE are not shown. Registers are `x0` to `x31` and
    /// numbers decimal; a branch and JAL name their offset in bytes. Time and memory are linear in
    /// the text, which has fewer than 20 bytes if the fields are in range. Running out of memory is
    /// the only error.
    pub fn text(&self, alloc: Global) -> Result<String, Memory>
        ensures { IfOk result (λ s. string_bytes s ≡ text self.now) }
    {
        let mut text = String::new(alloc);
        add_text(&mut text, self.name(), self.operands())?;
        Ok(text)
    }
}
