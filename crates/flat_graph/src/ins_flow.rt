// The control flow of an instruction.
ghost use Rattle.std.specs.Prelude.{◌≡◌, ◌^◌, ◌<◌};
ghost use Rattle.rv_decode.specs.Address.{plus};
ghost use Rattle.rv_decode.specs.Flow.{flow};
ghost use Rattle.flat_graph.specs.Inner.InsFlows.{flow_by};

use rv_decode::Ins;

/// The control flow of an instruction: to the next address; there or to a target; to a target; into
/// a call; back from one; nowhere, at an ECALL; or it is not followed.
#[derive(Clone, Copy)]
pub(crate) enum InsFlow {
    Next,
    Branch(u32),
    Jump(u32),
    Call(u32),
    Return,
    Exit,
    Breakpoint,
    IndirectJump,
    OtherLink,
}

/// An address with an offset in bytes added, modulo 2^32.
fn plus(address: u32, offset: i32) -> u32
    ensures { result ≡ plus address offset }
{
    address.wrapping_add(offset.cast_unsigned())
}

/// The control flow of an instruction at an address.
#[tactic(auto, unfolding(rv_decode::specs::Flow::flow))]
pub(crate) fn flow_of(address: u32, ins: &Ins) -> InsFlow
    ensures { flow_by result ≡ flow address ins.now }
{
    match *ins {
        Ins::Jal { rd: 0, imm } => InsFlow::Jump(plus(address, imm)),
        Ins::Jal { rd: 1, imm } => InsFlow::Call(plus(address, imm)),
        Ins::Jal { .. } => InsFlow::OtherLink,
        Ins::Jalr {
            rd: 0,
            rs1: 1,
            imm: 0,
        } => InsFlow::Return,
        Ins::Jalr { .. } => InsFlow::IndirectJump,
        Ins::Beq { imm, .. } => InsFlow::Branch(plus(address, imm)),
        Ins::Bne { imm, .. } => InsFlow::Branch(plus(address, imm)),
        Ins::Blt { imm, .. } => InsFlow::Branch(plus(address, imm)),
        Ins::Bge { imm, .. } => InsFlow::Branch(plus(address, imm)),
        Ins::Bltu { imm, .. } => InsFlow::Branch(plus(address, imm)),
        Ins::Bgeu { imm, .. } => InsFlow::Branch(plus(address, imm)),
        Ins::Ecall => InsFlow::Exit,
        Ins::Ebreak => InsFlow::Breakpoint,
        _ => InsFlow::Next,
    }
}
