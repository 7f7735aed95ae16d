// The effect of an instruction.
ghost use Rattle.std.specs.Prelude.{◌<◌, ◌≡◌, ℕ, IfOk, IsOk, OnErr, OnOk, ◌⊎◌};
ghost use Rattle.rv_decode.specs.Range.{HasFieldsInRange};
ghost use Rattle.rv_core.specs.Effect.{IsStore, branch, next_pc, registers_after, memory_after};
ghost use Rattle.rv_core.specs.Effect.{written};
ghost use Rattle.rv_core.specs.Sources.{SourcesTellEffect};

use crate::Next;
use crate::alu::{
    after, byte_extended, half_extended, high_mixed, high_signed, high_unsigned, int_word, one_if,
    plus, quotient, quotient_unsigned, remainder, remainder_unsigned, shift_left, shift_right,
    shift_signed, signed_lt,
};
use crate::memory::DataMemory;
use crate::registers::Regs;
use crpd_base::Memory;
use rv_decode::Ins;

fn branch(taken: bool, pc: u32, imm: i32) -> Next
    ensures { result ≡ branch taken pc imm }
{
    if taken {
        Next::Goto(plus(pc, imm))
    } else {
        Next::Goto(after(pc))
    }
}

/// Where a job continues after an instruction at `pc`: ECALL completes it, EBREAK is a fault. The
/// fields are in range. In constant time; it takes no memory.
#[tactic(auto, unfolding(crate::specs::Effect::next_pc, rv_decode::specs::Range::HasFieldsInRange))]
#[inline(always)]
pub fn next_pc(ins: &Ins, pc: u32, regs: &Regs) -> Next
    requires { HasFieldsInRange ins.now }
    ensures { result ≡ next_pc ins.now pc regs.now }
{
    match *ins {
        Ins::Jal { imm, .. } => Next::Goto(plus(pc, imm)),
        Ins::Jalr { rs1, imm, .. } => Next::Goto(plus(regs.get(rs1), imm) / 2 * 2),
        Ins::Beq { rs1, rs2, imm } => branch(regs.get(rs1) == regs.get(rs2), pc, imm),
        Ins::Bne { rs1, rs2, imm } => branch(regs.get(rs1) != regs.get(rs2), pc, imm),
        Ins::Blt { rs1, rs2, imm } => branch(signed_lt(regs.get(rs1), regs.get(rs2)), pc, imm),
        Ins::Bge { rs1, rs2, imm } => branch(!signed_lt(regs.get(rs1), regs.get(rs2)), pc, imm),
        Ins::Bltu { rs1, rs2, imm } => branch(regs.get(rs1) < regs.get(rs2), pc, imm),
        Ins::Bgeu { rs1, rs2, imm } => branch(!(regs.get(rs1) < regs.get(rs2)), pc, imm),
        Ins::Ecall => Next::Answer,
        Ins::Ebreak => Next::Fault,
        _ => Next::Goto(after(pc)),
    }
}

/// The register that an instruction writes, and the value. Register 0 means none.
#[tactic(auto, unfolding(crate::specs::Effect::written, rv_decode::specs::Range::HasFieldsInRange))]
#[inline(always)]
fn written(ins: Ins, pc: u32, regs: &Regs, memory: &DataMemory) -> (u8, u32)
    requires { HasFieldsInRange ins }
    ensures { result ≡ written ins pc regs.now memory.now }
{
    match ins {
        Ins::Lui { rd, upper } => (rd, upper << 12),
        Ins::Auipc { rd, upper } => (rd, pc.wrapping_add(upper << 12)),
        Ins::Jal { rd, .. } => (rd, after(pc)),
        Ins::Jalr { rd, .. } => (rd, after(pc)),
        Ins::Lb { rd, rs1, imm } => (rd, byte_extended(memory.byte(plus(regs.get(rs1), imm)))),
        Ins::Lh { rd, rs1, imm } => (rd, half_extended(memory.half(plus(regs.get(rs1), imm)))),
        Ins::Lw { rd, rs1, imm } => (rd, memory.whole(plus(regs.get(rs1), imm))),
        Ins::Lbu { rd, rs1, imm } => (rd, memory.byte(plus(regs.get(rs1), imm)) as u32),
        Ins::Lhu { rd, rs1, imm } => (rd, memory.half(plus(regs.get(rs1), imm))),
        Ins::Addi { rd, rs1, imm } => (rd, plus(regs.get(rs1), imm)),
        Ins::Slti { rd, rs1, imm } => (rd, one_if(signed_lt(regs.get(rs1), int_word(imm)))),
        Ins::Sltiu { rd, rs1, imm } => (rd, one_if(regs.get(rs1) < int_word(imm))),
        Ins::Xori { rd, rs1, imm } => (rd, regs.get(rs1) ^ int_word(imm)),
        Ins::Ori { rd, rs1, imm } => (rd, regs.get(rs1) | int_word(imm)),
        Ins::Andi { rd, rs1, imm } => (rd, regs.get(rs1) & int_word(imm)),
        Ins::Slli { rd, rs1, amount } => (rd, shift_left(regs.get(rs1), amount as u32)),
        Ins::Srli { rd, rs1, amount } => (rd, shift_right(regs.get(rs1), amount as u32)),
        Ins::Srai { rd, rs1, amount } => (rd, shift_signed(regs.get(rs1), amount as u32)),
        Ins::Add { rd, rs1, rs2 } => (rd, regs.get(rs1).wrapping_add(regs.get(rs2))),
        Ins::Sub { rd, rs1, rs2 } => (rd, regs.get(rs1).wrapping_sub(regs.get(rs2))),
        Ins::Sll { rd, rs1, rs2 } => (rd, shift_left(regs.get(rs1), regs.get(rs2) % 32)),
        Ins::Slt { rd, rs1, rs2 } => (rd, one_if(signed_lt(regs.get(rs1), regs.get(rs2)))),
        Ins::Sltu { rd, rs1, rs2 } => (rd, one_if(regs.get(rs1) < regs.get(rs2))),
        Ins::Xor { rd, rs1, rs2 } => (rd, regs.get(rs1) ^ regs.get(rs2)),
        Ins::Srl { rd, rs1, rs2 } => (rd, shift_right(regs.get(rs1), regs.get(rs2) % 32)),
        Ins::Sra { rd, rs1, rs2 } => (rd, shift_signed(regs.get(rs1), regs.get(rs2) % 32)),
        Ins::Or { rd, rs1, rs2 } => (rd, regs.get(rs1) | regs.get(rs2)),
        Ins::And { rd, rs1, rs2 } => (rd, regs.get(rs1) & regs.get(rs2)),
        Ins::Mul { rd, rs1, rs2 } => (rd, regs.get(rs1).wrapping_mul(regs.get(rs2))),
        Ins::Mulh { rd, rs1, rs2 } => (rd, high_signed(regs.get(rs1), regs.get(rs2))),
        Ins::Mulhsu { rd, rs1, rs2 } => (rd, high_mixed(regs.get(rs1), regs.get(rs2))),
        Ins::Mulhu { rd, rs1, rs2 } => (rd, high_unsigned(regs.get(rs1), regs.get(rs2))),
        Ins::Div { rd, rs1, rs2 } => (rd, quotient(regs.get(rs1), regs.get(rs2))),
        Ins::Divu { rd, rs1, rs2 } => (rd, quotient_unsigned(regs.get(rs1), regs.get(rs2))),
        Ins::Rem { rd, rs1, rs2 } => (rd, remainder(regs.get(rs1), regs.get(rs2))),
        Ins::Remu { rd, rs1, rs2 } => (rd, remainder_unsigned(regs.get(rs1), regs.get(rs2))),
        _ => (0, 0),
    }
}

/// Executes the store of an instruction, if it is one.
#[tactic(auto, unfolding(crate::specs::Effect::memory_after, crate::specs::Effect::IsStore, rv_decode::specs::Range::HasFieldsInRange))]
#[inline(always)]
fn store(ins: &Ins, regs: &Regs, memory: &mut DataMemory) -> Result<(), Memory>
    requires { HasFieldsInRange ins.now }
    ensures ok { OnOk result (memory.new ≡ memory_after ins.now regs.now memory.old) }
    ensures err { OnErr result (memory.new ≡ memory.old) }
    ensures only { IsStore ins.now ⊎ IsOk result }
{
    match *ins {
        Ins::Sb { rs1, rs2, imm } => memory.store(plus(regs.get(rs1), imm), regs.get(rs2), 1),
        Ins::Sh { rs1, rs2, imm } => memory.store(plus(regs.get(rs1), imm), regs.get(rs2), 2),
        Ins::Sw { rs1, rs2, imm } => memory.store(plus(regs.get(rs1), imm), regs.get(rs2), 4),
        _ => Ok(()),
    }
}

/// Executes an instruction at `pc`, whose fields are in range: its effect on registers and memory,
/// for a caller that has computed the next address.
///
/// Registers and memory change as by `effect`. Only a store may run out of memory; then nothing has
/// changed. In constant time, except for a load or store: logarithmic in the stored pages.
#[inline(always)]
pub fn carry_out(ins: &Ins, pc: u32, regs: &mut Regs, memory: &mut DataMemory) -> Result<(), Memory>
    requires { HasFieldsInRange ins.now }
    ensures registers { OnOk result (regs.new ≡ registers_after ins.now pc regs.old memory.old) }
    ensures memory { OnOk result (memory.new ≡ memory_after ins.now regs.old memory.old) }
    ensures err { OnErr result ((regs.new ≡ regs.old) × (memory.new ≡ memory.old)) }
    ensures only { IsStore ins.now ⊎ IsOk result }
{
    let (register, value) = written(*ins, pc, regs, memory);
    store(ins, regs, memory)?;
    regs.put(register, value);
    Ok(())
}

/// Executes an instruction at `pc`, whose fields are in range, and returns where the job continues.
///
/// Registers and memory change as the variants of `Ins` say (RISC-V unprivileged manual, RV32I and
/// M): arithmetic is modulo 2^32, data is little-endian, an access across the end of memory
/// continues at 0, and misaligned accesses are executed. Only a store may run out of memory; then
/// nothing has changed. In constant time, except for a load or store: logarithmic in the stored
/// pages.
pub fn effect(ins: &Ins, pc: u32, regs: &mut Regs, memory: &mut DataMemory) -> Result<Next, Memory>
    requires { HasFieldsInRange ins.now }
    ensures next { IfOk result (λ next. next ≡ next_pc ins.now pc regs.old) }
    ensures registers { OnOk result (regs.new ≡ registers_after ins.now pc regs.old memory.old) }
    ensures memory { OnOk result (memory.new ≡ memory_after ins.now regs.old memory.old) }
    ensures err { OnErr result ((regs.new ≡ regs.old) × (memory.new ≡ memory.old)) }
    ensures only { IsStore ins.now ⊎ IsOk result }
{
    let next = next_pc(ins, pc, regs);
    carry_out(ins, pc, regs, memory)?;
    Ok(next)
}

/// A law: registers that agree on an instruction's sources give the same effect. In constant time.
pub fn sources_tell_effect()
    ensures { SourcesTellEffect }
{}
