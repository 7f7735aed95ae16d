//! Worked examples of the laws on checked sets of tasks: sets that satisfy all premises, with what
//! the laws then say of them. Each law is a function that does nothing, in constant time; its
//! contract is the statement.
#![tactic(auto)]

ghost use Rattle.worked_examples.specs.LateTasks.{LateTasks};
ghost use Rattle.worked_examples.specs.OneLoop.{OneLoop};
ghost use Rattle.worked_examples.specs.PointTasks.{PointTasks};
ghost use Rattle.worked_examples.specs.ThreeTasks.{ThreeTasks};
ghost use Rattle.worked_examples.specs.TwoTasks.{TwoTasks};
ghost use Rattle.worked_examples.specs.TwoWords.{TwoWords};
ghost use Rattle.worked_examples.specs.WorkedSets.{WorkedSets};

use delay_point::refined_law;
use sound_laws::{checked_code_is_safe, yes_is_safe};

/// A law: the premises hold of a task of two words.
pub fn two_words()
    ensures { TwoWords }
{
    yes_is_safe();
}

/// A law: the premises hold of a task with a loop.
pub fn one_loop()
    ensures { OneLoop }
{
    yes_is_safe();
}

/// A law: the premises hold of two tasks of which the higher one preempts the lower one. In a legal
/// run jobs of both take exactly the certified responses, so no shorter ones are safe.
pub fn two_tasks()
    ensures { TwoTasks }
{
    checked_code_is_safe();
}

/// A law: the premises hold of the two tasks if switches wait for the end of an instruction, the
/// higher task is released after its arrival, and the lower one's delay is by the ECB-union method.
/// The ledger of a legal run has one reload.
pub fn late_tasks()
    ensures { LateTasks }
{
    checked_code_is_safe();
}

/// A law: the premises hold of three tasks of which each higher one preempts the next. In a legal
/// run jobs of all take exactly the certified responses, so no shorter ones are safe.
pub fn three_tasks()
    ensures { ThreeTasks }
{
    checked_code_is_safe();
}

/// A law: two tasks, the lower one with a refined window by program point, which is shorter than by
/// either multiset delay. In a legal run jobs of both take exactly the refined responses, so no
/// shorter ones are safe.
pub fn point_tasks()
    ensures { PointTasks }
{
    refined_law();
}

/// A law: the surely cached blocks, the useful and the evicting sets and the full states of the
/// three tasks, and of a program with two calls.
pub fn worked_sets()
    ensures { WorkedSets }
{}
