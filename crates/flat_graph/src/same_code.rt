// Whether the graph of some code is also that of other code.
ghost use Rattle.std.specs.Prelude.{◌≡◌, ◌<◌, ◌↔◌, IsTrue};
ghost use Rattle.code_map.specs.Words.{word_at};
ghost use Rattle.flat_graph.specs.CodeGraph.{IsCodeGraph, graph_of, ins_of, places_of};
ghost use Rattle.flat_graph.specs.Inner.GraphErrors.{HasInstructionAt};
ghost use Rattle.flat_graph.specs.Inner.SameCode.{FitsCode};

use crate::graph::Graph;
use code_map::CodeMap;
use crpd_base::NodeId;
use rv_decode::encode;

/// Whether a node's instruction is in the code at its address: whether its word is.
fn stands(graph: &Graph, code: &CodeMap, id: NodeId) -> bool
    requires { id.0 < (graph_of graph.now).size }
    ensures { IsTrue result
        ↔ HasInstructionAt (word_at code.now.images) ((places_of graph.now).address id.0)
        (ins_of graph.now id.0) }
{
    graph.graph_law();
    match code.word(graph.address(id)) {
        Some(word) => encode(&graph.ins(id)) == word,
        None => false,
    }
}

/// Whether a graph begins at an entry, and its nodes' instructions are in the code.
fn fits(graph: &Graph, code: &CodeMap, entry: u32) -> bool
    ensures { IsTrue result ↔ FitsCode (word_at code.now.images) entry graph.now }
{
    graph.graph_law();
    if graph.address(graph.first()) != entry {
        return false;
    }
    for u in 0..graph.len() {
        if !stands(graph, code, NodeId(u)) {
            return false;
        }
    }
    true
}

impl Graph {
    /// Whether this is the flat graph of some code from an entry, as `build` would give it. Time:
    /// at most the look-up of one word of the code for each node; it takes no memory.
    pub fn is_of_code(&self, code: &CodeMap, entry: u32) -> bool
        ensures { IsTrue result ↔ IsCodeGraph (word_at code.now.images) entry self.now }
    {
        self.graph_law();
        fits(self, code, entry)
    }
}
