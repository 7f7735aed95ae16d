//! The completions of the machine, computed in the time of an instruction-set simulator.
#![tactic(auto)]

mod running;

ghost use Rattle.preempt_machine.specs.Stretch.{CyclesLaw, EffectLaw, IdleLaw, SwitchLaw};

pub use running::run_fast;

/// A law: a skipped stretch is as many steps of the machine. The stretches are one in which no job
/// is ready, one of switch cycles, one of cycles of an instruction before its last one, and one up
/// to the last one, at which the instruction has its effect. In constant time.
pub fn stretch_law()
    ensures idle { IdleLaw }
    ensures switch { SwitchLaw }
    ensures cycles { CyclesLaw }
    ensures effect { EffectLaw }
{}
