// The graphs of a set's tasks with the regions of their loops.
ghost use Rattle.std.specs.Prelude.{IfOk, IsErrOf};
ghost use Rattle.task_shapes.specs.SameTask.{AreTaken};
ghost use Rattle.crpd_input.specs.Asking.{AsksFor, set_files};
ghost use Rattle.crpd_input.specs.Shapes as spec;
ghost use Rattle.crpd_input.specs.Shapes.{GraphsFrom, ShapedFrom, ShapedIn};
ghost use Rattle.crpd_input.specs.Steps.{HoldsFor, IsRefusal, LeavesFiles, MeansBy};

use crate::cause::Cause;
use crate::halt::Halt;
use crate::input::load_input;
use crate::refuse::refuse_address;
use crpd_base::Items;
use crpd_io::Files;
use flat_graph::{Graph, GraphError};
use loop_regions::LoopError;
use std::alloc::Global;
use task_shapes::{Input, ShapeError, ShapedSet, renew, shape, task_graphs};

/// The refusal of a task's graph, or out of memory.
fn graph_halt(alloc: Global, name: &str, error: GraphError) -> Halt
    ensures { IsRefusal (spec.graph_halt name.now error) result }
{
    let (cause, address) = match error {
        GraphError::Memory => return Halt::Memory,
        GraphError::Undecodable(address) => (Cause::Undecodable, address),
        GraphError::OutsideCode(address) => (Cause::OutsideCode, address),
        GraphError::IndirectJump(address) => (Cause::IndirectJump, address),
        GraphError::OtherLink(address) => (Cause::OtherLink, address),
        GraphError::Breakpoint(address) => (Cause::Breakpoint, address),
        GraphError::Recursive(address) => (Cause::Recursive, address),
        GraphError::TooManyNodes(address) => (Cause::TooManyNodes, address),
        GraphError::TooDeep(address) => (Cause::TooDeep, address),
        GraphError::Misaligned(address) => (Cause::Misaligned, address),
    };
    refuse_address(alloc, cause, name, address)
}

/// The refusal of a task's loops, or out of memory.
fn loop_halt(alloc: Global, name: &str, error: LoopError) -> Halt
    ensures { IsRefusal (spec.loop_halt name.now error) result }
{
    let (cause, address) = match error {
        LoopError::Memory => return Halt::Memory,
        LoopError::SecondEntry(address) => (Cause::SecondEntry, address),
        LoopError::NotNested(address) => (Cause::NotNested, address),
        LoopError::SameHead(address) => (Cause::SameHead, address),
        LoopError::CycleWithoutBound(address) => (Cause::CycleWithoutBound, address),
    };
    refuse_address(alloc, cause, name, address)
}

/// The refusal of the shapes of a set, or out of memory.
fn shape_halt(alloc: Global, error: ShapeError) -> Halt
    ensures { IsRefusal (spec.shape_halt error) result }
{
    match error {
        ShapeError::Memory => Halt::Memory,
        ShapeError::Graph { name, error } => graph_halt(alloc, name.as_str(), error),
        ShapeError::Loops { name, error } => loop_halt(alloc, name.as_str(), error),
    }
}

/// The flat graphs of all tasks, in their order, of at most 16,384 nodes each.
///
/// Refused with 50 to 58 for the first task that has none; the subject is the task, the detail a
/// byte address. Cost: that of building each graph.
pub fn input_graphs(alloc: Global, input: &Input) -> Result<Items<Graph>, Halt>
    ensures exact { MeansBy (GraphsFrom input.now) result }
    ensures no_fault { ¬ IsErrOf result Halt.Fault }
{
    match task_graphs(alloc, input) {
        Ok(graphs) => Ok(graphs),
        Err(error) => Err(shape_halt(alloc, error)),
    }
}

/// A set with the graphs of all tasks and the regions of all tasks' loops.
///
/// Refused as `input_graphs` says, and then with 60 to 63 for the first task whose loops have no
/// such regions; the subject is the task, the detail a byte address. Cost: that of building each
/// graph and its regions.
pub fn shape_input(alloc: Global, input: Input) -> Result<ShapedSet, Halt>
    ensures exact { MeansBy (ShapedFrom input) result }
    ensures no_fault { ¬ IsErrOf result Halt.Fault }
{
    match shape(alloc, input) {
        Ok(shaped) => Ok(shaped),
        Err(error) => Err(shape_halt(alloc, error)),
    }
}

/// A set with its shapes, as `shape_input` gives it. The shapes of tasks that are the same in an
/// old set are copied.
fn renew_input(alloc: Global, old: &ShapedSet, input: Input) -> Result<ShapedSet, Halt>
    ensures exact { MeansBy (ShapedFrom input) result }
    ensures no_fault { ¬ IsErrOf result Halt.Fault }
    ensures taken { IfOk result (AreTaken old.now) }
{
    match renew(alloc, old, input) {
        Ok(shaped) => Ok(shaped),
        Err(error) => Err(shape_halt(alloc, error)),
    }
}

/// The set of a file with its code and its shapes, as `load_input` and then `shape_input` give
/// them. Refused as these two say; `Fault` is possible only if the files counted one. Cost: that of
/// both.
pub fn load_shaped<F: Files>(alloc: Global, files: &mut F, name: &str) -> Result<ShapedSet, Halt>
    ensures exact { HoldsFor (F.log files.old) (F.log files.new)
        (λ c. MeansBy (ShapedIn c name.now) result) }
    ensures files { LeavesFiles F.contents F.faults F.log files.old files.new result }
    ensures asks { AsksFor (F.log files.old) (F.log files.new) (λ c. set_files c name.now) result }
{
    let input = load_input(alloc, files, name)?;
    shape_input(alloc, input)
}

/// The set of a file with its code and its shapes, as `load_shaped` gives it, with its refusals.
/// The graphs and regions of tasks that are the same in an old set are copied.
///
/// Cost: that of reading the set with its code, and that of `renew` in `task_shapes`.
pub fn load_renewed<F: Files>(
    alloc: Global,
    files: &mut F,
    name: &str,
    old: &ShapedSet,
) -> Result<ShapedSet, Halt>
    ensures exact { HoldsFor (F.log files.old) (F.log files.new)
        (λ c. MeansBy (ShapedIn c name.now) result) }
    ensures files { LeavesFiles F.contents F.faults F.log files.old files.new result }
    ensures asks { AsksFor (F.log files.old) (F.log files.new) (λ c. set_files c name.now) result }
    ensures taken { IfOk result (AreTaken old.now) }
{
    let input = load_input(alloc, files, name)?;
    renew_input(alloc, old, input)
}
