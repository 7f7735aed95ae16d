// The address, the instruction and the kind of a node.
ghost use Rattle.std.specs.Prelude.{◌≡◌, ℕ};
ghost use Rattle.rv_decode.specs.Flow.{flow};
ghost use Rattle.flat_graph.specs.CodeGraph.{kind_of};

use rv_decode::Ins;

/// How a job continues after a node. It completes at an ECALL, or at a return with no call under
/// way.
#[derive(Clone, Copy)]
pub enum Kind {
    /// At the next address, or after a branch or jump at its target, with the same calls under way.
    Plain,
    /// At the target of a JAL with link register x1, with one more call under way.
    Call,
    /// At the address after the innermost call, which is then no longer under way.
    Return,
    /// Not at all: the job completes.
    Answer,
}

/// A node's address in bytes, its instruction and its kind.
#[derive(Clone, Copy)]
pub struct Node {
    /// Its address in bytes, a multiple of 4.
    pub address: u32,
    /// The instruction there, with its fields in range.
    pub ins: Ins,
    /// How a job continues after it.
    pub kind: Kind,
}

/// The kind of a node, from its instruction and the calls under way.
#[tactic(auto, unfolding(rv_decode::specs::Flow::flow))]
pub(crate) fn kind_by(ins: &Ins, context: &[u32]) -> Kind
    ensures { (a : ℕ) → result ≡ kind_of context.now (flow a ins.now) }
{
    match *ins {
        Ins::Jal { rd: 1, .. } => Kind::Call,
        Ins::Jalr {
            rd: 0,
            rs1: 1,
            imm: 0,
        } => {
            if context.is_empty() {
                Kind::Answer
            } else {
                Kind::Return
            }
        }
        Ins::Ecall => Kind::Answer,
        _ => Kind::Plain,
    }
}
