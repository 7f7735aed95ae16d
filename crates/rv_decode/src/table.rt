// The instruction table of RV32I and the M extension.

/// Passes the 48 rows to another macro: form, variant and fields, name, opcode, funct3 and funct7,
/// or the whole word. `address` is the I form of JALR and the loads, whose texts name an offset and
/// a base register.
macro_rules! instruction_table {
    ($then:ident $given:tt) => {
        $then! {
            $given
            { u Lui { rd, upper } "lui" 0x37 }
            { u Auipc { rd, upper } "auipc" 0x17 }
            { j Jal { rd, imm } "jal" 0x6F }
            { address Jalr { rd, rs1, imm } "jalr" 0x67 0 }
            { b Beq { rs1, rs2, imm } "beq" 0x63 0 }
            { b Bne { rs1, rs2, imm } "bne" 0x63 1 }
            { b Blt { rs1, rs2, imm } "blt" 0x63 4 }
            { b Bge { rs1, rs2, imm } "bge" 0x63 5 }
            { b Bltu { rs1, rs2, imm } "bltu" 0x63 6 }
            { b Bgeu { rs1, rs2, imm } "bgeu" 0x63 7 }
            { address Lb { rd, rs1, imm } "lb" 0x03 0 }
            { address Lh { rd, rs1, imm } "lh" 0x03 1 }
            { address Lw { rd, rs1, imm } "lw" 0x03 2 }
            { address Lbu { rd, rs1, imm } "lbu" 0x03 4 }
            { address Lhu { rd, rs1, imm } "lhu" 0x03 5 }
            { s Sb { rs1, rs2, imm } "sb" 0x23 0 }
            { s Sh { rs1, rs2, imm } "sh" 0x23 1 }
            { s Sw { rs1, rs2, imm } "sw" 0x23 2 }
            { i Addi { rd, rs1, imm } "addi" 0x13 0 }
            { i Slti { rd, rs1, imm } "slti" 0x13 2 }
            { i Sltiu { rd, rs1, imm } "sltiu" 0x13 3 }
            { i Xori { rd, rs1, imm } "xori" 0x13 4 }
            { i Ori { rd, rs1, imm } "ori" 0x13 6 }
            { i Andi { rd, rs1, imm } "andi" 0x13 7 }
            { shift Slli { rd, rs1, amount } "slli" 0x13 1 0 }
            { shift Srli { rd, rs1, amount } "srli" 0x13 5 0 }
            { shift Srai { rd, rs1, amount } "srai" 0x13 5 0x20 }
            { r Add { rd, rs1, rs2 } "add" 0x33 0 0 }
            { r Sub { rd, rs1, rs2 } "sub" 0x33 0 0x20 }
            { r Sll { rd, rs1, rs2 } "sll" 0x33 1 0 }
            { r Slt { rd, rs1, rs2 } "slt" 0x33 2 0 }
            { r Sltu { rd, rs1, rs2 } "sltu" 0x33 3 0 }
            { r Xor { rd, rs1, rs2 } "xor" 0x33 4 0 }
            { r Srl { rd, rs1, rs2 } "srl" 0x33 5 0 }
            { r Sra { rd, rs1, rs2 } "sra" 0x33 5 0x20 }
            { r Or { rd, rs1, rs2 } "or" 0x33 6 0 }
            { r And { rd, rs1, rs2 } "and" 0x33 7 0 }
            { r Mul { rd, rs1, rs2 } "mul" 0x33 0 1 }
            { r Mulh { rd, rs1, rs2 } "mulh" 0x33 1 1 }
            { r Mulhsu { rd, rs1, rs2 } "mulhsu" 0x33 2 1 }
            { r Mulhu { rd, rs1, rs2 } "mulhu" 0x33 3 1 }
            { r Div { rd, rs1, rs2 } "div" 0x33 4 1 }
            { r Divu { rd, rs1, rs2 } "divu" 0x33 5 1 }
            { r Rem { rd, rs1, rs2 } "rem" 0x33 6 1 }
            { r Remu { rd, rs1, rs2 } "remu" 0x33 7 1 }
            { fence Fence { rd, rs1, bits } "fence" 0x0F 0 }
            { whole Ecall {} "ecall" 0x00000073 }
            { whole Ebreak {} "ebreak" 0x00100073 }
        }
    };
}

pub(crate) use instruction_table;
