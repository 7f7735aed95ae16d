// The edges that leave each node.
ghost use Rattle.std.specs.Prelude.{IfOk, OnOk};
ghost use Rattle.dataflow.specs.Inner.Search.{IsChained};

use crate::problem::Flow;
use std::alloc::{AllocError, Global};

/// The edges of each source as a chain from its last edge to its first.
#[derive(Drop)]
pub(crate) struct Outgoing {
    /// The last edge that leaves each node.
    pub(crate) last: Vec<Option<u32>>,
    /// For each edge, the last one before it that leaves the same node.
    pub(crate) before: Vec<Option<u32>>,
}

impl Outgoing {
    /// Chains the edges, of which none is chained yet.
    fn link<G: Flow>(&mut self, flow: &G) -> Result<(), AllocError>
        requires { IsChained (G.node_count flow.now) 0 (G.ends flow.now) self.old.last.items
            self.old.before.items }
        ensures { OnOk result
            (IsChained (G.node_count flow.now) (G.edge_count flow.now) (G.ends flow.now)
            self.new.last.items self.new.before.items) }
    {
        for k in 0..flow.edges() {
            let (source, _) = flow.edge(k);
            self.before.push(self.last[source as usize])?;
            self.last[source as usize] = Some(k);
        }
        Ok(())
    }
}

/// Chains the edges. Linear in nodes and edges.
pub(crate) fn chain<G: Flow>(alloc: Global, flow: &G) -> Result<Outgoing, AllocError>
    ensures { IfOk result (λ o.
        IsChained (G.node_count flow.now) (G.edge_count flow.now) (G.ends flow.now) o.last.items
        o.before.items) }
{
    let mut outgoing = Outgoing {
        last: vec![in alloc; None; flow.nodes() as usize]?,
        before: Vec::with_capacity(alloc, flow.edges() as usize)?,
    };
    outgoing.link(flow)?;
    Ok(outgoing)
}
