// Windows stay, and none becomes longer, if the parameters become better.
ghost use Rattle.sustainability.specs.Laws.{CertifiedWindowsAreSustainable};
ghost use Rattle.sustainability.specs.Laws.{CertifiedWindowsAreNoLonger};
ghost use Rattle.sustainability.specs.RefinedLaws.{RefinedWindowsAreSustainable};
ghost use Rattle.sustainability.specs.RefinedLaws.{RefinedWindowsAreNoLonger};
ghost use Rattle.sustainability.specs.Changes.{NoMoreThanItself, ChangesAddUp, RefinedChangesAddUp};
ghost use Rattle.sustainability.specs.Changes.{AnyTaskMayLeave};
ghost use Rattle.sustainability.specs.SetLaws.{AcceptedSetsAreSustainable};
ghost use Rattle.sustainability.specs.SetLaws.{RefinedSetsAreSustainable};
ghost use Rattle.sustainability.specs.LoopBounds.{BoundsAreSustainable, LoopBoundsAreSustainable};
ghost use Rattle.sustainability.specs.Examples.{ShorterWindows};
ghost use Rattle.sustainability.specs.RefinedExamples.{ShorterRefined};
ghost use Rattle.sustainability.specs.Together.{AcceptanceIsSustainable};

use sensitivity::{acceptance_law, costs_law};

/// A law: the windows with the multiset delays are sustainable. If all tasks of a set have windows,
/// so have those of a workload that is no more demanding: its periods and deadlines are no shorter,
/// its jitters, bounds and costs no larger, it has no further evicting or useful cache sets, and
/// tasks may be left away. No window of it, and no response, is longer. In constant time.
pub fn sustainable_windows()
    ensures sustainable { CertifiedWindowsAreSustainable }
    ensures no_longer { CertifiedWindowsAreNoLonger }
{}

/// A law: refined windows, each the smallest by five methods, are sustainable in the same sense: if
/// what each method counts is no more demanding, and what is useful at a node of a task is useful
/// at one node of the task from which it comes. In constant time.
pub fn sustainable_refinement()
    ensures sustainable { RefinedWindowsAreSustainable }
    ensures no_longer { RefinedWindowsAreNoLonger }
{}

/// A law: a workload is no more demanding than itself, so each of its parameters may become better
/// alone; and changes add up. Leaving any one task away is such a change. In constant time.
pub fn sustainable_changes()
    ensures itself { NoMoreThanItself }
    ensures both { ChangesAddUp }
    ensures refined { RefinedChangesAddUp }
    ensures leaves { AnyTaskMayLeave }
{}

/// A law: a set that is accepted, or has refined windows, keeps this on the same platform with the
/// same code, if periods and deadlines become longer and jitters smaller, and tasks are left away.
/// No window becomes longer. In constant time.
pub fn sustainable_sets()
    ensures accepted { AcceptedSetsAreSustainable }
    ensures refined { RefinedSetsAreSustainable }
{}

/// A law: as the bounds of a task's loops decrease, its bound does not increase; a set that is
/// accepted stays accepted, and no window becomes longer. In constant time.
pub fn sustainable_loop_bounds()
    ensures bounds { BoundsAreSustainable }
    ensures accepted { LoopBoundsAreSustainable }
{}

/// A law: a set that is accepted stays accepted, and no window becomes longer, if all this changes
/// at once: a switch and a reload cost less, loops have smaller bounds, periods and deadlines are
/// longer, jitters smaller, and tasks are left away. In constant time.
pub fn sustainable_acceptance()
    ensures { AcceptanceIsSustainable }
{
    acceptance_law();
    costs_law();
}

/// A law: an example of two tasks. With a longer period of the higher one, and without it, the
/// window of the lower one is shorter; with a longer period its refined window is shorter too. In
/// constant time.
pub fn shorter_windows()
    ensures windows { ShorterWindows }
    ensures refined { ShorterRefined }
{}
