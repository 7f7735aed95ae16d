// The cost of an instruction.
ghost use Rattle.std.specs.Prelude.{◌≡◌};
ghost use Rattle.rv_decode.specs.Cost.{changes_flow, cost, work_cost};

use crate::Ins;
use crpd_base::Platform;

/// The cycles of an instruction without its fetch: `memory` for a load or store, `mul` for
/// products, `div` for quotients and remainders.
#[tactic(auto, unfolding(crate::specs::Cost::work_cost))]
fn work_cost(platform: &Platform, ins: &Ins) -> u32
    ensures { result ≡ work_cost platform.now ins.now }
{
    match *ins {
        Ins::Lb { .. }
        | Ins::Lh { .. }
        | Ins::Lw { .. }
        | Ins::Lbu { .. }
        | Ins::Lhu { .. }
        | Ins::Sb { .. }
        | Ins::Sh { .. }
        | Ins::Sw { .. } => platform.memory,
        Ins::Mul { .. } | Ins::Mulh { .. } | Ins::Mulhsu { .. } | Ins::Mulhu { .. } => platform.mul,
        Ins::Div { .. } | Ins::Divu { .. } | Ins::Rem { .. } | Ins::Remu { .. } => platform.div,
        _ => 0,
    }
}

/// Whether it is a branch, JAL or JALR.
fn changes_flow(ins: &Ins) -> bool
    ensures { result ≡ changes_flow ins.now }
{
    matches!(
        *ins,
        Ins::Jal { .. }
            | Ins::Jalr { .. }
            | Ins::Beq { .. }
            | Ins::Bne { .. }
            | Ins::Blt { .. }
            | Ins::Bge { .. }
            | Ins::Bltu { .. }
            | Ins::Bgeu { .. }
    )
}

/// The cycles of an instruction: `hit`, plus `miss` if its fetch missed, plus the cost of its
/// operation, plus `taken` for a branch, JAL or JALR whose next address is not the following one.
///
/// The argument `miss` says that the fetch missed, and `taken` that the next address is not the
/// following one. Every sum fits: each of the four terms is below 2^32. In constant time; it takes
/// no memory.
pub fn cost(platform: &Platform, ins: &Ins, miss: bool, taken: bool) -> u64
    ensures { result ≡ cost platform.now ins.now miss taken }
{
    let reload = if miss { platform.miss } else { 0 };
    let change = if taken && changes_flow(ins) {
        platform.taken
    } else {
        0
    };
    platform.hit as u64 + reload as u64 + work_cost(platform, ins) as u64 + change as u64
}
