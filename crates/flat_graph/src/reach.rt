// The points of the code that are reached from a task's entry, and the instructions at them.
ghost use Rattle.std.specs.Prelude.{◌≡◌, ◌≢◌, ◌<◌, ◌≤◌, ◌+◌, ◌⊎◌, ◌^◌, length, IfOk, OnOk, IfErr};
ghost use Rattle.std.specs.Prelude.{Some, None, [], ◌∷◌, slice_get, slice_index_or, MatchOption};
ghost use Rattle.code_map.specs.Words.{word_at};
ghost use Rattle.rv_decode.specs.Flow.{Words, flows};
ghost use Rattle.std.specs.List.Sorted.{IsPermutation, IsSortedBy};
ghost use Rattle.std.specs.Ordering.{is_lt};
ghost use Rattle.crpd_base.specs.Limits.{most_nodes};
ghost use Rattle.flat_graph.specs.Inner.NumberingOrder.{flat_cmp};
ghost use Rattle.flat_graph.specs.FlatGraph.{IsNode, HasMoreNodes, error_of};
ghost use Rattle.flat_graph.specs.Inner.GraphParts.{AreNumbers};
ghost use Rattle.flat_graph.specs.Inner.StoredGraph.{next_nodes};
ghost use Rattle.flat_graph.specs.Inner.Reach.{AreNumbered, ExtendsLists, HaveLists, AreAdded};
ghost use Rattle.flat_graph.specs.Inner.Reach.{ArePlaced, AreDistinct, AreNodeSteps, nodes_found};
ghost use Rattle.flat_graph.specs.Inner.Reach.{AreFollowed, AreAllFollowed};
ghost use Rattle.flat_graph.specs.Inner.Ordered.{AreOrdered};
ghost use Rattle.flat_graph.specs.Inner.Points.{point_node, point_nodes, flat_steps};
ghost use Rattle.flat_graph.specs.declared.error.GraphError.TheVariants.{Memory, TooManyNodes};

use crate::checks::check;
use crate::contexts::{Contexts, calls_of};
use crate::error::GraphError;
use crate::graph::{Context, NextNodes, NodeBody};
use crate::ins_flow::flow_of;
use crate::points::{FoundPoint, ProgramPoint, Steps, sort, steps_of};
use code_map::CodeMap;
use indexmap::IndexSet;
use rv_decode::Ins;
use smallvec::SmallVec;
use std::alloc::{AllocError, Global};

/// The points found so far, in the order in which they were found, with the lists of calls that
/// their numbers refer to. For each point that was followed, the body of its node, whose successors
/// are places in that order; None if the node has an error.
#[derive(Drop)]
struct Found {
    contexts: Contexts,
    points: IndexSet<ProgramPoint>,
    bodies: Vec<Option<NodeBody>>,
}

/// Points in the order of numbering, with the lists of calls that their numbers refer to, and the
/// bodies of their nodes in the order in which the points were found.
#[derive(Drop)]
pub(crate) struct Ordered {
    pub(crate) lists: Vec<Context>,
    pub(crate) points: Vec<FoundPoint>,
    pub(crate) bodies: Vec<Option<NodeBody>>,
}

impl Found {
    fn new(alloc: Global) -> Self
        ensures numbered { AreNumbered result.contexts.numbers result.contexts.lists.items }
        ensures none { result.points.keys ≡ [] }
        ensures no_lists { result.contexts.lists.items ≡ [] }
        ensures no_bodies { result.bodies.items ≡ [] }
    {
        Found {
            contexts: Contexts::new(alloc),
            points: IndexSet::new(alloc),
            bodies: Vec::new(alloc),
        }
    }

    /// The place of a point, which is added unless it is found already.
    fn add(&mut self, point: ProgramPoint) -> Result<u32, AllocError>
        requires few { length self.old.points.keys < 2 ^ 32 }
        requires inside { HaveLists self.old.contexts.lists.items self.old.points.keys }
        requires list { point.context < length self.old.contexts.lists.items }
        ensures inside { OnOk result
            (HaveLists self.new.contexts.lists.items self.new.points.keys) }
        ensures added { let lists = self.old.contexts.lists.items in
            OnOk result
            (AreAdded (point_nodes lists self.old.points.keys) (point_node lists point ∷ [])
            (point_nodes lists self.new.points.keys)) }
        ensures place { IfOk result (λ n. slice_get self.new.points.keys n ≡ Some point) }
        ensures count { OnOk result
            (length self.new.points.keys ≤ length self.old.points.keys + 1) }
        ensures contexts { self.new.contexts ≡ self.old.contexts }
        ensures bodies { self.new.bodies ≡ self.old.bodies }
    {
        let found = self.points.insert_full(point)?;
        Ok(found.0 as u32)
    }

    /// The place of the point with these calls under way at an address, which is added unless it is
    /// found already.
    fn add_away(&mut self, calls: Context, address: u32) -> Result<u32, AllocError>
        requires numbered { AreNumbered self.old.contexts.numbers self.old.contexts.lists.items }
        requires few_lists { length self.old.contexts.lists.items < 2 ^ 32 }
        requires few { length self.old.points.keys < 2 ^ 32 }
        requires inside { HaveLists self.old.contexts.lists.items self.old.points.keys }
        ensures numbered { OnOk result
            (AreNumbered self.new.contexts.numbers self.new.contexts.lists.items) }
        ensures inside { OnOk result
            (HaveLists self.new.contexts.lists.items self.new.points.keys) }
        ensures added { OnOk result
            (AreAdded (nodes_found self.old) (record { context = calls; address = address } ∷ [])
            (nodes_found self.new)) }
        ensures place { IfOk result
            (λ n. slice_get (nodes_found self.new) n
            ≡ Some (record { context = calls; address = address })) }
        ensures lists { OnOk result
            (length self.new.contexts.lists.items ≤ length self.old.contexts.lists.items + 1) }
        ensures count { OnOk result
            (length self.new.points.keys ≤ length self.old.points.keys + 1) }
        ensures bodies { self.new.bodies ≡ self.old.bodies }
    {
        let context = self.contexts.number(calls)?;
        let place = self.add(ProgramPoint { context, address })?;
        Ok(place)
    }

    /// The places of the next points of a point whose calls have this number. Points that are not
    /// found yet are added.
    fn add_steps(&mut self, from: u32, steps: Steps) -> Result<NextNodes, AllocError>
        requires numbered { AreNumbered self.old.contexts.numbers self.old.contexts.lists.items }
        requires few_lists { length self.old.contexts.lists.items < 2 ^ 32 }
        requires few { length self.old.points.keys + 1 < 2 ^ 32 }
        requires inside { HaveLists self.old.contexts.lists.items self.old.points.keys }
        requires from { from < length self.old.contexts.lists.items }
        ensures numbered { OnOk result
            (AreNumbered self.new.contexts.numbers self.new.contexts.lists.items) }
        ensures inside { OnOk result
            (HaveLists self.new.contexts.lists.items self.new.points.keys) }
        ensures added { OnOk result
            (AreAdded (nodes_found self.old)
            (flat_steps (slice_index_or self.old.contexts.lists.items from []) steps)
            (nodes_found self.new)) }
        ensures numbers { IfOk result
            (λ next. AreNumbers (nodes_found self.new) (next_nodes next)
            (flat_steps (slice_index_or self.old.contexts.lists.items from []) steps)) }
        ensures lists { OnOk result
            (length self.new.contexts.lists.items ≤ length self.old.contexts.lists.items + 1) }
        ensures count { OnOk result
            (length self.new.points.keys ≤ length self.old.points.keys + 2) }
        ensures bodies { self.new.bodies ≡ self.old.bodies }
    {
        match steps {
            Steps::Ends => Ok(NextNodes::Ends),
            Steps::To(address) => {
                let only = self.add(ProgramPoint {
                    context: from,
                    address,
                })?;
                Ok(NextNodes::To(only))
            }
            Steps::Either(address, other) => {
                let first = self.add(ProgramPoint {
                    context: from,
                    address,
                })?;
                let second = self.add(ProgramPoint {
                    context: from,
                    address: other,
                })?;
                Ok(NextNodes::Either(first, second))
            }
            Steps::Away(calls, address) => {
                let away = self.add_away(calls, address)?;
                Ok(NextNodes::To(away))
            }
        }
    }
}

/// Points with their places.
fn placed(alloc: Global, points: &[ProgramPoint]) -> Result<Vec<FoundPoint>, AllocError>
    requires { length points.now ≤ 2 ^ 32 }
    ensures { IfOk result (λ placed. ArePlaced points.now placed.items) }
{
    let mut placed = Vec::with_capacity(alloc, points.len())?;
    for (place, point) in points.iter().enumerate() {
        placed.push(FoundPoint {
            point: *point,
            place: place as u32,
        })?;
    }
    Ok(placed)
}

impl Found {
    /// The points in the order of numbering.
    fn ordered(self, alloc: Global) -> Result<Ordered, AllocError>
        requires { length self.points.keys ≤ 2 ^ 32 }
        ensures lists { IfOk result (λ o. o.lists.items ≡ self.contexts.lists.items) }
        ensures bodies { IfOk result (λ o. o.bodies.items ≡ self.bodies.items) }
        ensures distinct { IfOk result (λ _. AreDistinct self.points.keys) }
        ensures same { IfOk result
            (λ o. (placed : _) × ArePlaced self.points.keys placed
            × IsPermutation placed o.points.items) }
        ensures sorted { IfOk result
            (λ o. IsSortedBy (λ s t.
            is_lt (flat_cmp (point_node self.contexts.lists.items s.point)
            (point_node self.contexts.lists.items t.point))) o.points.items) }
    {
        let mut points = placed(alloc, self.points.as_slice())?;
        let contexts = self.contexts;
        let lists = contexts.lists;
        sort(lists.as_slice(), &mut points)?;
        Ok(Ordered {
            lists,
            points,
            bodies: self.bodies,
        })
    }
}

/// The instruction of a node, and the next points.
#[derive(Drop)]
struct NodeSteps {
    ins: Ins,
    steps: Steps,
}

/// The instruction of a node with these calls under way at an address, and the next points; None if
/// the node has an error.
fn steps_from(
    alloc: Global,
    code: &CodeMap,
    entry: u32,
    calls: &[u32],
    address: u32,
) -> Result<Option<NodeSteps>, AllocError>
    requires { IsNode (flows (word_at code.now.images)) entry
        (record { context = calls.now; address = address }) }
    ensures { IfOk result (λ found. MatchOption found
        (error_of (flows (word_at code.now.images)) entry
        (record { context = calls.now; address = address }) ≢ None)
        (AreNodeSteps (word_at code.now.images) entry
        (record { context = calls.now; address = address }))) }
{
    code.words_law();
    match check(code, entry, calls, address) {
        Ok(ins) => {
            let steps = steps_of(alloc, calls, address, flow_of(address, &ins))?;
            Ok(Some(NodeSteps { ins, steps }))
        }
        Err(_) => Ok(None),
    }
}

impl Found {
    /// The point at an entry with no call under way, before it is followed.
    fn start(alloc: Global, entry: u32) -> Result<Self, AllocError>
        ensures followed { IfOk result
            (λ found. (words : Words) → AreFollowed words entry 0 found) }
        ensures few { IfOk result (λ found. length found.points.keys ≤ 1) }
    {
        let mut found = Found::new(alloc);
        let calls = SmallVec::new(alloc);
        found.add_away(Context { calls }, entry)?;
        Ok(found)
    }

    /// The point at a place.
    fn point_at(&self, place: usize) -> ProgramPoint
        requires { place < length self.now.points.keys }
        ensures { slice_get self.now.points.keys place ≡ Some result }
    {
        let points = self.points.as_slice();
        points[place]
    }

    /// The calls of a number.
    fn calls_of(&self, number: u32) -> &[u32]
        ensures { result.now ≡ slice_index_or self.now.contexts.lists.items number [] }
    {
        calls_of(self.contexts.lists.as_slice(), number)
    }

    /// Adds the next points of the point at a place, and the body of its node.
    fn follow(
        &mut self,
        alloc: Global,
        code: &CodeMap,
        entry: u32,
        place: usize,
    ) -> Result<(), AllocError>
        requires there { place < length self.old.points.keys }
        requires few { length self.old.points.keys ≤ most_nodes }
        requires before { AreFollowed (word_at code.now.images) entry place self.old }
        ensures followed { OnOk result
            (AreFollowed (word_at code.now.images) entry (place + 1) self.new) }
        ensures count { OnOk result
            (length self.new.points.keys ≤ length self.old.points.keys + 2) }
    {
        let point = self.point_at(place);
        let calls = self.calls_of(point.context);
        let found = steps_from(alloc, code, entry, calls, point.address)?;
        match found {
            Some(known) => {
                let ins = known.ins;
                let next = self.add_steps(point.context, known.steps)?;
                self.bodies.push(Some(NodeBody { ins, next }))?;
                Ok(())
            }
            None => {
                self.bodies.push(None)?;
                Ok(())
            }
        }
    }

    /// Follows the points in the order in which they are found, until none is left or more than
    /// `most` are found.
    fn follow_all(
        &mut self,
        alloc: Global,
        code: &CodeMap,
        entry: u32,
        most: usize,
    ) -> Result<(), AllocError>
        requires most { most ≤ most_nodes }
        requires start { AreFollowed (word_at code.now.images) entry 0 self.old }
        requires few { length self.old.points.keys ≤ 1 }
        ensures { OnOk result (AreAllFollowed (word_at code.now.images) entry most self.new) }
    {
        let mut place = 0;
        while place < self.points.len() && self.points.len() <= most {
            self.follow(alloc, code, entry, place)?;
            place += 1;
        }
        Ok(())
    }
}

/// The points of the nodes of the graph from an entry, in the order of numbering, with the nodes'
/// bodies; `TooManyNodes` if there are more than `most`.
pub(crate) fn reach(
    alloc: Global,
    code: &CodeMap,
    entry: u32,
    most: usize,
) -> Result<Ordered, GraphError>
    requires { most ≤ most_nodes }
    ensures reached { IfOk result (AreOrdered (word_at code.now.images) entry) }
    ensures few { IfOk result (λ o. length o.points.items ≤ most) }
    ensures too_many { IfErr result
        (λ e. (e ≡ Memory)
        ⊎ ((e ≡ TooManyNodes entry) × HasMoreNodes (flows (word_at code.now.images)) entry most)) }
{
    let mut found = Found::start(alloc, entry)?;
    found.follow_all(alloc, code, entry, most)?;
    let ordered = found.ordered(alloc)?;
    if ordered.points.len() > most {
        return Err(GraphError::TooManyNodes(entry));
    }
    Ok(ordered)
}
