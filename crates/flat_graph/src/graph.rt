// A task's flat graph.
ghost use Rattle.std.specs.Prelude.{All, IfSome, IsNone, ◌≡◌, ℕ, ◌<◌, ◌≤◌, ◌+◌, ◌↔◌, length};
ghost use Rattle.std.specs.Prelude.{slice_get, option_map, IsTrue, MatchOption, nat_eq};
ghost use Rattle.rv_decode.specs.Flow.{flow};
ghost use Rattle.crpd_base.specs.Limits.{most_nodes};
ghost use Rattle.flat_graph.specs.Graph.{Edge, IsGraph, IsLeader};
ghost use Rattle.flat_graph.specs.Numbered.{node_at};
ghost use Rattle.std.proofs.Common.{rules};
ghost use Rattle.std.specs.Cmp.Rules.{comparing};
ghost use Rattle.std.specs.Iterator.{item_count};
ghost use Rattle.std.specs.Cmp.Lexicographic.{slice_cmp, nat_list_cmp_total, pointwise, texts_ties};
ghost use Rattle.std.specs.Cmp.Lexicographic.{texts_po};
ghost use Rattle.std.specs.List.Sorted.{IsSearchInRange, IsBinarySearchResult};
ghost use Rattle.std.specs.Ordering.{nat_cmp, as_partial_cmp};
ghost use Rattle.flat_graph.specs.Inner.NumberingOrder.{flat_cmp, stored_flat_node};
ghost use Rattle.flat_graph.specs.Successors.{GivesFirst};
ghost use Rattle.flat_graph.specs.CodeGraph.{HasCode, kind_of, graph_of, places_of, ins_of};

use crate::node::{Node, kind_by};
use crpd_base::{Items, NodeId};
use rv_decode::Ins;
use smallvec::SmallVec;
use std::alloc::AllocError;
use std::cmp::Ordering;
use std::marker::Model;

/// The addresses of the calls under way, the outermost first.
#[derive(Drop)]
pub(crate) struct Context {
    pub(crate) calls: SmallVec<u32, 4>,
}

impl Model for Context {
    ghost use Rattle.std.specs.Prelude.{List, ℕ};

    ghost Value = { List ℕ };

    ghost view = { λ c. c.calls.items };
}

impl Clone for Context {
    ghost is_clone = { λ context copy. copy ≡ context };

    fn clone(&self) -> Result<Self, AllocError> {
        Ok(Context {
            calls: self.calls.clone()?,
        })
    }
}

impl PartialEq for Context {
    ghost eq = { pointwise nat_eq };

    ghost laws = { Prim.search (comparing, rules) };

    fn eq(&self, other: &Context) -> bool {
        self.calls.as_slice() == other.calls.as_slice()
    }
}

impl Eq for Context {
    ghost laws = { Prim.search (comparing, rules) };
}

impl PartialOrd for Context {
    ghost partial_cmp = { as_partial_cmp (slice_cmp nat_cmp) };

    ghost laws = { texts_po };

    fn partial_cmp(&self, other: &Context) -> Option<Ordering> {
        Some(self.cmp(other))
    }
}

impl Ord for Context {
    ghost cmp = { slice_cmp nat_cmp };

    ghost total = { nat_list_cmp_total };

    ghost matches_partial_cmp = { Prim.search (comparing, rules) };

    ghost matches_eq = { texts_ties };

    /// Lexicographically; a list comes before its continuations.
    fn cmp(&self, other: &Context) -> Ordering {
        self.calls.as_slice().cmp(other.calls.as_slice())
    }
}

/// The successors of a node, as numbers.
#[derive(Clone, Copy)]
pub(crate) enum NextNodes {
    Ends,
    To(u32),
    Either(u32, u32),
}

/// The instruction of a node and its successors.
#[derive(Clone, Copy)]
pub(crate) struct NodeBody {
    pub(crate) ins: Ins,
    pub(crate) next: NextNodes,
}

/// The remaining successors of a node, in order: at most two. Contracts see their numbers.
#[derive(Drop)]
pub struct Successors {
    left: NextNodes,
}

impl Model for Successors {
    ghost use Rattle.std.specs.Prelude.{List, ℕ};
    ghost use Rattle.flat_graph.specs.Inner.StoredGraph.{next_nodes};

    ghost Value = { List ℕ };

    ghost view = { λ s. next_nodes s.left };
}

impl Iterator for Successors {
    type Item = NodeId;

    ghost next_gives = { GivesFirst };

    ghost remaining = { item_count (λ left. left) };

    fn next(&mut self) -> Option<NodeId> {
        match self.left {
            NextNodes::Ends => None,
            NextNodes::To(only) => {
                self.left = NextNodes::Ends;
                Some(NodeId(only))
            }
            NextNodes::Either(first, second) => {
                self.left = NextNodes::To(second);
                Some(NodeId(first))
            }
        }
    }
}

/// A node: the number of its context, its address, its instruction, its successors, and whether it
/// is a leader.
#[derive(Clone, Copy)]
pub(crate) struct StoredNode {
    pub(crate) context: u32,
    pub(crate) address: u32,
    pub(crate) ins: Ins,
    pub(crate) next: NextNodes,
    pub(crate) leader: bool,
}

/// The flat graph of a task: a node is a list of the calls under way and an address, and its
/// successors follow from the instruction there. Nodes are numbered from 0 by their calls under
/// way, then by address; there are at most 16,384. Each node is reached from the first one, and has
/// at most two successors.
///
/// Contracts see it as the graph of numbers, with the calls under way, the address and the
/// instruction of each node.
#[derive(Drop)]
pub struct Graph {
    pub(crate) contexts: Items<Context>,
    pub(crate) nodes: Items<StoredNode>,
    pub(crate) first: u32,
}

impl Model for Graph {
    ghost use Rattle.flat_graph.specs.CodeGraph.{CodeGraph};

    ghost Value = { CodeGraph };

    ghost use Rattle.flat_graph.specs.Inner.StoredGraph.{IsStoredGraph, stored_graph};

    ghost view = { λ g. stored_graph g.contexts g.nodes g.first };

    ghost invariant = { λ g. IsStoredGraph g.contexts g.nodes g.first };
}

/// Compares a node with the calls under way and an address, in the order of numbering.
fn compare(contexts: &[Context], node: &StoredNode, context: &[u32], address: u32) -> Ordering
    ensures { result ≡ flat_cmp (stored_flat_node contexts.now node.now)
        (record { context = context.now; address = address }) }
{
    let calls = match contexts.get(node.context as usize) {
        Some(kept) => kept.calls.as_slice(),
        None => &[],
    };
    calls.cmp(context).then(node.address.cmp(&address))
}

/// The place at which a node with these calls under way and this address is stored, or would be.
fn search(
    contexts: &[Context],
    nodes: &[StoredNode],
    context: &[u32],
    address: u32,
) -> Result<usize, usize>
    ensures bound { IsSearchInRange result (length nodes.now) }
    ensures position { IsBinarySearchResult
        (λ s. flat_cmp (stored_flat_node contexts.now s)
        (record { context = context.now; address = address })) nodes.now result }
{
    nodes.binary_search_by(
        |node: &StoredNode| -> Ordering
            ensures { result ≡ flat_cmp (stored_flat_node contexts.entry.now node.now)
                (record { context = context.entry.now; address = address }) }
        { compare(contexts, node, context, address) },
    )
}

impl Graph {
    /// How many nodes there are: 1 to 16,384. In constant time; it takes no memory.
    pub fn len(&self) -> u32
        ensures { result ≡ (graph_of self.now).size }
    {
        self.nodes.len() as u32
    }

    /// The node with no call under way at the task's entry. In constant time; it takes no memory.
    pub fn first(&self) -> NodeId
        ensures { result.0 ≡ (graph_of self.now).first }
    {
        NodeId(self.first)
    }

    /// A node's address, instruction and kind. In constant time; it takes no memory.
    pub fn node(&self, id: NodeId) -> Node
        requires { id.0 < (graph_of self.now).size }
        ensures address { result.address ≡ (places_of self.now).address id.0 }
        ensures instruction { result.ins ≡ ins_of self.now id.0 }
        ensures kind { result.kind
            ≡ kind_of ((places_of self.now).context id.0)
            (flow ((places_of self.now).address id.0) (ins_of self.now id.0)) }
    {
        let node = &self.nodes[id.0 as usize];
        Node {
            address: node.address,
            ins: node.ins,
            kind: kind_by(&node.ins, self.context(id)),
        }
    }

    /// A node's address in bytes. In constant time; it takes no memory.
    pub fn address(&self, id: NodeId) -> u32
        requires { id.0 < (graph_of self.now).size }
        ensures { result ≡ (places_of self.now).address id.0 }
    {
        self.nodes[id.0 as usize].address
    }

    /// The instruction at a node. In constant time; it takes no memory.
    pub fn ins(&self, id: NodeId) -> Ins
        requires { id.0 < (graph_of self.now).size }
        ensures { result ≡ ins_of self.now id.0 }
    {
        self.nodes[id.0 as usize].ins
    }

    /// The addresses of the calls under way at a node, the outermost first; at most 16. In constant
    /// time; it takes no memory.
    pub fn context(&self, id: NodeId) -> &[u32]
        requires { id.0 < (graph_of self.now).size }
        ensures { result.now ≡ (places_of self.now).context id.0 }
    {
        let node = &self.nodes[id.0 as usize];
        let context = &self.contexts[node.context as usize];
        context.calls.as_slice()
    }

    /// The first (0) or second (1) successor of a node, None if it has none. The first successor of
    /// a branch is the next address. In constant time; it takes no memory.
    pub fn succ(&self, id: NodeId, k: u8) -> Option<NodeId>
        requires node { id.0 < (graph_of self.now).size }
        requires place { k < 2 }
        ensures { option_map (λ v. v.0) result ≡ slice_get ((graph_of self.now).next id.0) k }
    {
        match (self.nodes[id.0 as usize].next, k) {
            (NextNodes::To(only), 0) => Some(NodeId(only)),
            (NextNodes::Either(first, _), 0) => Some(NodeId(first)),
            (NextNodes::Either(_, second), _) => Some(NodeId(second)),
            _ => None,
        }
    }

    /// The successors of a node, in order, as `succ` gives them. In constant time; it takes no
    /// memory.
    pub fn successors(&self, id: NodeId) -> Successors
        requires { id.0 < (graph_of self.now).size }
        ensures are { result ≡ (graph_of self.now).next id.0 }
        ensures edges { All (Edge (graph_of self.now) id.0) ((graph_of self.now).next id.0) }
        ensures nodes { All (λ v. v < (graph_of self.now).size) ((graph_of self.now).next id.0) }
    {
        self.graph_law();
        Successors {
            left: self.nodes[id.0 as usize].next,
        }
    }

    /// The node with these calls under way, the outermost first, at this address; None if there is
    /// no such node. Logarithmic in the number of nodes. It takes no memory.
    pub fn find(&self, context: &[u32], address: u32) -> Option<NodeId>
        ensures found { IfSome result
            (λ id. (id.0 < (graph_of self.now).size)
            × (node_at (places_of self.now) id.0 ≡ record {
              context = context.now;
              address = address;
            })) }
        ensures none { IsNone result → (u : ℕ) → u < (graph_of self.now).size
            → node_at (places_of self.now) u ≡ record { context = context.now; address = address }
            → ⊥ }
    {
        let contexts = self.contexts.as_slice();
        match search(contexts, self.nodes.as_slice(), context, address) {
            Ok(place) => Some(NodeId(place as u32)),
            Err(_) => None,
        }
    }

    /// Whether a node is a leader: the first node, a node with other than one edge towards it, or a
    /// successor of a node with two successors. Every cycle of the graph has a leader. In constant
    /// time; it takes no memory.
    pub fn leader(&self, id: NodeId) -> bool
        requires { id.0 < (graph_of self.now).size }
        ensures { IsTrue result ↔ IsLeader (graph_of self.now) id.0 }
    {
        self.nodes[id.0 as usize].leader
    }

    /// What holds of every graph: it is the flat graph of some code, with at most 16,384 nodes,
    /// each reached by a walk from the first and with at most two successors. In constant time.
    pub fn graph_law(&self)
        ensures code { HasCode self.now }
        ensures graph { IsGraph (graph_of self.now) }
        ensures few { (graph_of self.now).size ≤ most_nodes }
        ensures successors { (u : ℕ) → length ((graph_of self.now).next u) ≤ 2 }
    {
        let _nodes = &self.nodes;
    }
}

/// A law: each of the graphs is that of some code. Linear in the graphs.
pub fn graphs_law(graphs: &[Graph])
    ensures { All HasCode graphs.now }
{
    for graph in graphs {
        graph.graph_law();
    }
}
