// The operands of instructions.
ghost use Rattle.std.specs.Prelude.{◌≡◌};
ghost use Rattle.rv_decode.specs.Inner.Operands.{operands};

use crate::Ins;

/// The operands of an instruction, by the form of its word and of its text.
#[derive(Clone, Copy)]
pub(crate) enum Operands {
    /// Three registers.
    R { rd: u8, rs1: u8, rs2: u8 },
    /// An amount, which is in the bits of rs2.
    Shift { rd: u8, rs1: u8, amount: u8 },
    /// An immediate.
    I { rd: u8, rs1: u8, imm: i32 },
    /// The I form of JALR and the loads: their texts name an offset and a base register.
    Address { rd: u8, rs1: u8, imm: i32 },
    /// A store: rs2 to an offset from rs1.
    S { rs1: u8, rs2: u8, imm: i32 },
    /// A branch: an offset in bytes.
    B { rs1: u8, rs2: u8, imm: i32 },
    /// Bits 31 to 12.
    U { rd: u8, upper: u32 },
    /// JAL: an offset in bytes.
    J { rd: u8, imm: i32 },
    /// The I form of FENCE, ECALL and EBREAK: bits 31 to 20. Their texts name no operand.
    Plain { rd: u8, rs1: u8, bits: u16 },
}

impl Ins {
    /// The operands. ECALL and EBREAK have only bits 31 to 20, 0 and 1.
    #[tactic(auto, unfolding(crate::specs::Inner::Operands::operands))]
    pub(crate) fn operands(self) -> Operands
        ensures { result ≡ operands self }
    {
        match self {
            Ins::Lui { rd, upper } | Ins::Auipc { rd, upper } => Operands::U { rd, upper },
            Ins::Jal { rd, imm } => Operands::J { rd, imm },
            Ins::Jalr { rd, rs1, imm }
            | Ins::Lb { rd, rs1, imm }
            | Ins::Lh { rd, rs1, imm }
            | Ins::Lw { rd, rs1, imm }
            | Ins::Lbu { rd, rs1, imm }
            | Ins::Lhu { rd, rs1, imm } => Operands::Address { rd, rs1, imm },
            Ins::Beq { rs1, rs2, imm }
            | Ins::Bne { rs1, rs2, imm }
            | Ins::Blt { rs1, rs2, imm }
            | Ins::Bge { rs1, rs2, imm }
            | Ins::Bltu { rs1, rs2, imm }
            | Ins::Bgeu { rs1, rs2, imm } => Operands::B { rs1, rs2, imm },
            Ins::Sb { rs1, rs2, imm } | Ins::Sh { rs1, rs2, imm } | Ins::Sw { rs1, rs2, imm } =>
                Operands::S { rs1, rs2, imm },
            Ins::Addi { rd, rs1, imm }
            | Ins::Slti { rd, rs1, imm }
            | Ins::Sltiu { rd, rs1, imm }
            | Ins::Xori { rd, rs1, imm }
            | Ins::Ori { rd, rs1, imm }
            | Ins::Andi { rd, rs1, imm } => Operands::I { rd, rs1, imm },
            Ins::Slli { rd, rs1, amount }
            | Ins::Srli { rd, rs1, amount }
            | Ins::Srai { rd, rs1, amount } => Operands::Shift { rd, rs1, amount },
            Ins::Add { rd, rs1, rs2 }
            | Ins::Sub { rd, rs1, rs2 }
            | Ins::Sll { rd, rs1, rs2 }
            | Ins::Slt { rd, rs1, rs2 }
            | Ins::Sltu { rd, rs1, rs2 }
            | Ins::Xor { rd, rs1, rs2 }
            | Ins::Srl { rd, rs1, rs2 }
            | Ins::Sra { rd, rs1, rs2 }
            | Ins::Or { rd, rs1, rs2 }
            | Ins::And { rd, rs1, rs2 }
            | Ins::Mul { rd, rs1, rs2 }
            | Ins::Mulh { rd, rs1, rs2 }
            | Ins::Mulhsu { rd, rs1, rs2 }
            | Ins::Mulhu { rd, rs1, rs2 }
            | Ins::Div { rd, rs1, rs2 }
            | Ins::Divu { rd, rs1, rs2 }
            | Ins::Rem { rd, rs1, rs2 }
            | Ins::Remu { rd, rs1, rs2 } => Operands::R { rd, rs1, rs2 },
            Ins::Fence { rd, rs1, bits } => Operands::Plain { rd, rs1, bits },
            Ins::Ecall => Operands::Plain {
                rd: 0,
                rs1: 0,
                bits: 0,
            },
            Ins::Ebreak => Operands::Plain {
                rd: 0,
                rs1: 0,
                bits: 1,
            },
        }
    }
}
