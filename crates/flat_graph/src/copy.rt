// Copies of graphs.
ghost use Rattle.std.specs.Prelude.{◌≡◌, IfOk};

use crate::graph::Graph;
use crpd_base::Items;
use std::alloc::{AllocError, Global};

impl Graph {
    /// A copy of the graph. Linear in its nodes and the calls under way. Running out of memory is
    /// the only error.
    pub fn copy(&self, alloc: Global) -> Result<Graph, AllocError>
        ensures { IfOk result (λ graph. graph ≡ self.now) }
    {
        let contexts = Vec::from_clones(alloc, self.contexts.as_slice())?;
        let nodes = Vec::from_slice(alloc, self.nodes.as_slice())?;
        Ok(Graph {
            contexts: Items::new(contexts),
            nodes: Items::new(nodes),
            first: self.first,
        })
    }
}
