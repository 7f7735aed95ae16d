// The orders in which nodes are visited: each node before the targets of its edges, except in
// cycles.
ghost use Rattle.std.specs.Prelude.{◌≡◌, ◌<◌, ◌≤◌, ℕ, IfOk, OnOk, None, [], ◌∷◌, ◌++◌, length};
ghost use Rattle.std.specs.Prelude.{vec_len, slice_index_or, not, slice_set, true, false};
ghost use Rattle.dataflow.specs.Inner.Search.{IsChained, IsVisitOrder, IsInDepth, root_at};
ghost use Rattle.dataflow.specs.Inner.Search.{to_follow};

use crate::outgoing::Outgoing;
use crate::problem::Flow;
use std::alloc::{AllocError, Global};

/// The k-th root of a search: node k, or the k-th node from the last one back.
fn root_at(nodes: u32, from_last: bool, k: u32) -> u32
    requires { k < nodes }
    ensures { result ≡ root_at from_last nodes k }
{
    if from_last { nodes - 1 - k } else { k }
}

/// A depth-first search.
#[derive(Drop)]
struct DepthFirst {
    /// Which nodes were found.
    seen: Vec<bool>,
    /// The next edge to follow from each node.
    next: Vec<Option<u32>>,
    /// The nodes from the root to the current one.
    path: Vec<u32>,
    /// The nodes that the search has left, in postorder.
    left: Vec<u32>,
}

impl DepthFirst {
    /// A search that has found nothing.
    fn new(alloc: Global, outgoing: &Outgoing) -> Result<Self, AllocError>
        ensures edges { IfOk result (λ s. s.next.items ≡ outgoing.now.last.items) }
        ensures seen { IfOk result (λ s. vec_len s.seen ≡ vec_len outgoing.now.last) }
        ensures none { IfOk result (λ s. (n : ℕ) → slice_index_or s.seen.items n false ≡ false) }
        ensures path { IfOk result (λ s. s.path.items ≡ []) }
        ensures left { IfOk result (λ s. s.left.items ≡ []) }
    {
        Ok(DepthFirst {
            seen: vec![in alloc; false; outgoing.last.len()]?,
            next: Vec::from_slice(alloc, &outgoing.last)?,
            path: Vec::new(alloc),
            left: Vec::new(alloc),
        })
    }

    /// Whether a node was not found yet.
    fn is_new(&self, node: u32) -> bool
        requires { node < vec_len self.now.seen }
        ensures { result ≡ not (slice_index_or self.now.seen.items node false) }
    {
        !self.seen[node as usize]
    }

    /// Marks a node as found, and appends it to the path.
    fn find(&mut self, node: u32) -> Result<(), AllocError>
        requires { node < vec_len self.old.seen }
        ensures seen { OnOk result (self.new.seen.items ≡ slice_set self.old.seen.items node true) }
        ensures path { OnOk result (self.new.path.items ≡ self.old.path.items ++ node ∷ []) }
        ensures next { self.new.next ≡ self.old.next }
        ensures left { self.new.left ≡ self.old.left }
    {
        self.seen[node as usize] = true;
        self.path.push(node)?;
        Ok(())
    }

    /// Follows the next edge from a node that was last on the path, or leaves the node.
    fn visit<G: Flow>(&mut self, flow: &G, outgoing: &Outgoing, node: u32) -> Result<(), AllocError>
        requires edges { IsChained (G.node_count flow.now) (G.edge_count flow.now)
            (G.ends flow.now) outgoing.now.last.items outgoing.now.before.items }
        requires node { node < G.node_count flow.now }
        requires search { IsInDepth (G.node_count flow.now) (G.edge_count flow.now)
            self.old.seen.items self.old.next.items (self.old.path.items ++ node ∷ [])
            self.old.left.items }
        ensures search { OnOk result
            (IsInDepth (G.node_count flow.now) (G.edge_count flow.now) self.new.seen.items
            self.new.next.items self.new.path.items self.new.left.items) }
        ensures seen { OnOk result
            ((n : ℕ) → slice_index_or self.old.seen.items n false ≡ true
            → slice_index_or self.new.seen.items n false ≡ true) }
        ensures falls { OnOk result
            (to_follow self.new.next.items self.new.path.items
            ≤ to_follow self.old.next.items self.old.path.items) }
    {
        match self.next[node as usize] {
            Some(k) => {
                self.next[node as usize] = outgoing.before[k as usize];
                self.path.push(node)?;
                let (_, target) = flow.edge(k);
                if !self.seen[target as usize] {
                    self.find(target)?;
                }
                Ok(())
            }
            None => {
                self.left.push(node)?;
                Ok(())
            }
        }
    }

    /// Finds and leaves all nodes that are reachable from the root through nodes not found before.
    fn run<G: Flow>(&mut self, flow: &G, outgoing: &Outgoing, root: u32) -> Result<(), AllocError>
        requires edges { IsChained (G.node_count flow.now) (G.edge_count flow.now)
            (G.ends flow.now) outgoing.now.last.items outgoing.now.before.items }
        requires root { root < G.node_count flow.now }
        requires search { IsInDepth (G.node_count flow.now) (G.edge_count flow.now)
            self.old.seen.items self.old.next.items self.old.path.items self.old.left.items }
        requires path { self.old.path.items ≡ [] }
        ensures search { OnOk result
            (IsInDepth (G.node_count flow.now) (G.edge_count flow.now) self.new.seen.items
            self.new.next.items self.new.path.items self.new.left.items) }
        ensures path { OnOk result (self.new.path.items ≡ []) }
        ensures root { OnOk result (slice_index_or self.new.seen.items root false ≡ true) }
        ensures seen { OnOk result
            ((n : ℕ) → slice_index_or self.old.seen.items n false ≡ true
            → slice_index_or self.new.seen.items n false ≡ true) }
    {
        self.find(root)?;
        while let Some(node) = self.path.pop() {
            self.visit(flow, outgoing, node)?;
        }
        Ok(())
    }

    /// Finds and leaves all nodes. Takes its roots from the first node on, or from the last one
    /// back.
    fn run_all<G: Flow>(
        &mut self,
        flow: &G,
        outgoing: &Outgoing,
        from_last: bool,
    ) -> Result<(), AllocError>
        requires edges { IsChained (G.node_count flow.now) (G.edge_count flow.now)
            (G.ends flow.now) outgoing.now.last.items outgoing.now.before.items }
        requires search { IsInDepth (G.node_count flow.now) (G.edge_count flow.now)
            self.old.seen.items self.old.next.items self.old.path.items self.old.left.items }
        requires path { self.old.path.items ≡ [] }
        ensures { OnOk result (IsVisitOrder (G.node_count flow.now) self.new.left.items) }
    {
        for k in 0..flow.nodes() {
            let root = root_at(flow.nodes(), from_last, k);
            if self.is_new(root) {
                self.run(flow, outgoing, root)?;
            }
        }
        Ok(())
    }
}

/// The reverse postorder of a depth-first search that takes its roots from the first node on, or
/// from the last one back.
fn depth_order<G: Flow>(
    alloc: Global,
    flow: &G,
    outgoing: &Outgoing,
    from_last: bool,
) -> Result<Vec<u32>, AllocError>
    requires { IsChained (G.node_count flow.now) (G.edge_count flow.now)
        (G.ends flow.now) outgoing.now.last.items outgoing.now.before.items }
    ensures { IfOk result (λ order. IsVisitOrder (G.node_count flow.now) order.items) }
{
    let mut search = DepthFirst::new(alloc, outgoing)?;
    search.run_all(flow, outgoing, from_last)?;
    let mut order = search.left;
    order.reverse();
    Ok(order)
}

/// Two orders of all nodes, in sequence: by a depth-first search from the first node on, and by one
/// from the last node back. The first has each node before the targets of its edges, except in
/// cycles. The second passes a chain of overlapping loops from its end. Linear in nodes and edges.
pub(crate) fn visit_order<G: Flow>(
    alloc: Global,
    flow: &G,
    outgoing: &Outgoing,
) -> Result<Vec<u32>, AllocError>
    requires { IsChained (G.node_count flow.now) (G.edge_count flow.now)
        (G.ends flow.now) outgoing.now.last.items outgoing.now.before.items }
    ensures { IfOk result (λ order. IsVisitOrder (G.node_count flow.now) order.items) }
{
    let mut order = depth_order(alloc, flow, outgoing, false)?;
    let second = depth_order(alloc, flow, outgoing, true)?;
    order.extend_from_slice(&second)?;
    Ok(order)
}
