// The program points of a task's code: the calls under way and an address.
ghost use Rattle.std.specs.Prelude.{◌≡◌, ◌≤◌, ◌+◌, ◌++◌, ◌∷◌, [], reverse, IfOk, OnOk};
ghost use Rattle.std.specs.Prelude.{List, ℕ};
ghost use Rattle.std.specs.List.Sorted.{IsPermutation, IsSortedBy};
ghost use Rattle.std.specs.Ordering.{is_lt};
ghost use Rattle.rv_decode.specs.Address.{end_address};
ghost use Rattle.rv_decode.specs.Flow.{Branch};
ghost use Rattle.flat_graph.specs.Inner.NumberingOrder.{flat_cmp};
ghost use Rattle.flat_graph.specs.FlatGraph.{goes_to, returns_to};
ghost use Rattle.flat_graph.specs.Inner.Points.{point_node, flat_steps, IsBelowEnd};
ghost use Rattle.flat_graph.specs.Inner.InsFlows.{flow_by};

use crate::contexts::calls_of;
use crate::graph::Context;
use crate::ins_flow::InsFlow;
use smallvec::SmallVec;
use std::alloc::{AllocError, Global};
use std::cmp::Ordering;

/// A program point: the number of a list of calls under way, and an address.
#[derive(Clone, Copy, PartialEq, Eq, Hash)]
pub(crate) struct ProgramPoint {
    pub(crate) context: u32,
    pub(crate) address: u32,
}

/// A program point, with the place at which it was found.
#[derive(Clone, Copy)]
pub(crate) struct FoundPoint {
    pub(crate) point: ProgramPoint,
    pub(crate) place: u32,
}

/// Compares points in the order of numbering: their calls as lists, lexicographically, and then
/// their addresses. Points with the same list are compared by their addresses alone.
pub(crate) fn compare(lists: &[Context], point: &ProgramPoint, other: &ProgramPoint) -> Ordering
    ensures { result ≡ flat_cmp (point_node lists.now point.now) (point_node lists.now other.now) }
{
    if point.context == other.context {
        return point.address.cmp(&other.address);
    }
    let calls = calls_of(lists, point.context);
    let others = calls_of(lists, other.context);
    calls.cmp(others).then(point.address.cmp(&other.address))
}

/// Sorts points in the order of numbering.
pub(crate) fn sort(lists: &[Context], points: &mut Vec<FoundPoint>) -> Result<(), AllocError>
    ensures same { IsPermutation points.old.items points.new.items }
    ensures sorted { OnOk result
        (IsSortedBy (λ s t.
        is_lt (flat_cmp (point_node lists.now s.point) (point_node lists.now t.point)))
        points.new.items) }
{
    points.sort_by(
        |found: &FoundPoint, other: &FoundPoint| -> Ordering
            ensures { result ≡ flat_cmp (point_node lists.entry.now found.now.point)
                (point_node lists.entry.now other.now.point) }
        { compare(lists, &found.point, &other.point) },
    )
}

/// The next points of a point: none, one or two addresses with the same calls under way, or an
/// address with others.
#[derive(Drop)]
pub(crate) enum Steps {
    Ends,
    To(u32),
    Either(u32, u32),
    Away(Context, u32),
}

/// The calls under way, with one more.
fn into_call(alloc: Global, calls: &[u32], call: u32) -> Result<Context, AllocError>
    ensures { IfOk result (λ c. c ≡ calls.now ++ call ∷ []) }
{
    let mut more = SmallVec::from_slice(alloc, calls)?;
    more.push(call)?;
    Ok(Context { calls: more })
}

/// The next point after a return: the address after the innermost call under way, none without a
/// call.
fn after_return(alloc: Global, calls: &[u32]) -> Result<Steps, AllocError>
    requires { IsBelowEnd calls.now }
    ensures { IfOk result (λ s. flat_steps calls.now s ≡ returns_to (reverse calls.now)) }
{
    let Some((last, rest)) = calls.split_last() else {
        return Ok(Steps::Ends);
    };
    let rest = SmallVec::from_slice(alloc, rest)?;
    Ok(Steps::Away(Context { calls: rest }, *last + 4))
}

/// The next points after a branch at an address: its target may be the next address.
fn branch_steps(address: u32, target: u32) -> Steps
    requires { address + 4 ≤ end_address }
    ensures { (calls : List ℕ) → flat_steps calls result ≡ goes_to calls address (Branch target) }
{
    let next = address + 4;
    let is_next = target == next;
    if is_next {
        Steps::To(next)
    } else {
        Steps::Either(next, target)
    }
}

/// The next points of a point with these calls under way, by the flow of its instruction.
pub(crate) fn steps_of(
    alloc: Global,
    calls: &[u32],
    address: u32,
    flow: InsFlow,
) -> Result<Steps, AllocError>
    requires word { address + 4 ≤ end_address }
    requires calls { IsBelowEnd calls.now }
    ensures { IfOk result (λ s. flat_steps calls.now s ≡ goes_to calls.now address (flow_by flow)) }
{
    let next = address + 4;
    Ok(match flow {
        InsFlow::Next => Steps::To(next),
        InsFlow::Branch(target) => branch_steps(address, target),
        InsFlow::Jump(target) => Steps::To(target),
        InsFlow::Call(target) => Steps::Away(into_call(alloc, calls, address)?, target),
        InsFlow::Return => after_return(alloc, calls)?,
        _ => Steps::Ends,
    })
}
