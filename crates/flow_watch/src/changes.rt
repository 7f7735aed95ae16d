// The changes of a watch's frames by instructions.
ghost use Rattle.std.specs.Prelude.{◌≡◌, ℕ};
ghost use Rattle.rv_decode.specs.Flow.{flow};
ghost use Rattle.std.specs.Bool.{OnTrue};
ghost use Rattle.flow_watch.specs.Inner.Changes.{change_of};
ghost use Rattle.flow_watch.specs.Quiet.{stays, IsArrival};

use rv_decode::Ins;

/// The change of the frames by an instruction: it stays in the top frame, pushes one or pops one,
/// or is not followed.
#[derive(Clone, Copy)]
pub(crate) enum Change {
    Stay,
    Push,
    Pop,
    Unfollowed,
}

/// The change of the frames by an instruction, from its fields alone: a JAL with link register x1
/// is a call, `jalr x0,0(x1)` a return; other links and other indirect jumps are not followed.
#[tactic(auto, unfolding(rv_decode::specs::Flow::flow))]
pub(crate) fn change_by(ins: &Ins) -> Change
    ensures { (a : ℕ) → result ≡ change_of (flow a ins.now) }
{
    match *ins {
        Ins::Jal { rd: 0, .. } => Change::Stay,
        Ins::Jal { rd: 1, .. } => Change::Push,
        Ins::Jalr {
            rd: 0,
            rs1: 1,
            imm: 0,
        } => Change::Pop,
        Ins::Jal { .. } | Ins::Jalr { .. } => Change::Unfollowed,
        _ => Change::Stay,
    }
}

/// Whether an instruction stays in its frame: it is followed, and neither calls nor returns. Then a
/// step of a watch by it is the arrival alone. In constant time; it takes no memory.
pub fn stays_in_frame(ins: &Ins) -> bool
    ensures is { (a : ℕ) → result ≡ stays (flow a ins.now) }
    ensures arrival { OnTrue result (IsArrival ins.now) }
{
    match change_by(ins) {
        Change::Stay => true,
        Change::Push | Change::Pop | Change::Unfollowed => false,
    }
}
