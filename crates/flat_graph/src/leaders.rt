// The leaders of a graph.
ghost use Rattle.std.specs.Prelude.{◌≡◌, ◌<◌, ℕ, Some, IfOk, length, slice_get, All};
ghost use Rattle.flat_graph.specs.declared.leaders.Mark.{Mark};
ghost use Rattle.flat_graph.specs.Inner.Leaders.{AreEnds, AreMarked, mark_after_edges, is_leading};

use crate::graph::{NextNodes, NodeBody};
use std::alloc::{AllocError, Global};

/// What is known of a node from the edges towards it so far: there are none, there is one from a
/// node with one successor, or the node is a leader.
#[derive(Clone, Copy)]
pub(crate) enum Mark {
    Unmet,
    Continues,
    Leads,
}

/// Marks the ends of the edges from a node.
fn mark_ends(marks: &mut [Mark], next: NextNodes)
    requires { AreEnds (length marks.old) next }
    ensures count { length marks.new ≡ length marks.old }
    ensures marked { (v : ℕ) (m : Mark) (n : Mark) → slice_get marks.old v ≡ Some m
        → slice_get marks.new v ≡ Some n → n ≡ mark_after_edges next v m }
{
    match next {
        NextNodes::Ends => {}
        NextNodes::To(only) => {
            marks[only as usize] = match marks[only as usize] {
                Mark::Unmet => Mark::Continues,
                _ => Mark::Leads,
            };
        }
        NextNodes::Either(first, second) => {
            marks[first as usize] = Mark::Leads;
            marks[second as usize] = Mark::Leads;
        }
    }
}

/// The marks of all nodes, for nodes with the successors of these bodies; they show which nodes are
/// leaders. Time linear in the nodes.
pub(crate) fn all_marks(
    alloc: Global,
    bodies: &[NodeBody],
    first: u32,
) -> Result<Vec<Mark>, AllocError>
    requires first { first < length bodies.now }
    requires edges { All (λ l. AreEnds (length bodies.now) l.next) bodies.now }
    ensures count { IfOk result (λ v. length v.items ≡ length bodies.now) }
    ensures marked { IfOk result (λ v. AreMarked bodies.now first (length bodies.now) v.items) }
{
    let mut marks = vec![in alloc; Mark::Unmet; bodies.len()]?;
    marks[first as usize] = Mark::Leads;
    for body in bodies {
        mark_ends(&mut marks, body.next);
    }
    Ok(marks)
}

/// Whether a node with a mark is a leader, after all edges. It is not if its only edge comes from a
/// node with one successor and it is not the first node.
pub(crate) fn is_leader(mark: Mark) -> bool
    ensures { result ≡ is_leading mark }
{
    match mark {
        Mark::Continues => false,
        _ => true,
    }
}
