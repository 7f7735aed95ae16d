// The traits of graphs and of domains of facts.
ghost use Rattle.std.specs.Prelude.{◌≡◌, ℕ, ◌<◌, ◌≤◌, Option, MatchBool, option_map};
ghost use Rattle.dataflow.specs.Problem.{IsSemilattice, IsOrderWithJoins};

/// A graph. Its nodes are the numbers below `nodes()`. Edge k, for k below `edges()`, leads from
/// the first to the second number of `edge(k)`. No call allocates memory.
pub trait Flow {
    /// How many nodes there are.
    ghost node_count: { Self → ℕ };

    /// How many edges there are.
    ghost edge_count: { Self → ℕ };

    /// The source and the target of each edge.
    ghost ends: { Self → ℕ → ℕ × ℕ };

    /// The number of nodes. In constant time.
    fn nodes(&self) -> u32
        ensures { result ≡ node_count self.now };

    /// The number of edges. In constant time.
    fn edges(&self) -> u32
        ensures { result ≡ edge_count self.now };

    /// The source and the target of edge k. Costs an array access.
    fn edge(&self, k: u32) -> (u32, u32)
        requires { k < edge_count self.now }
        ensures ends { result ≡ ends self.now k }
        ensures source { result.0 < node_count self.now }
        ensures target { result.1 < node_count self.now };
}

/// Facts about the nodes of a graph, and how they flow. Contracts see a fact as a value. A value is
/// below another if their join is the other (`order_law`). The laws: joins are idempotent,
/// commutative and associative; a node's transfer of a join is the join of its transfers, and so for
/// an edge's; no height exceeds the tallest. No call allocates memory.
pub trait Domain {
    /// What is known before a node.
    type Fact: Copy;

    /// The type of values, as which contracts see facts.
    ghost Value: { Type 0 };

    /// The value of a fact.
    ghost view: { Self.Fact → Value };

    /// The join of two values, the least value above both.
    ghost joined: { Value → Value → Value };

    /// The value after a node, from the value before it.
    ghost passed: { Self → ℕ → Value → Value };

    /// What the edge from one node to another makes of the value after the first.
    ghost crossed: { Self → ℕ → ℕ → Value → Value };

    /// The value before a node at which paths begin, `None` if none begins there.
    ghost begins: { Self → ℕ → Option Value };

    /// A number that rises whenever a join changes a value.
    ghost height: { Self → Value → ℕ };

    /// A number that no height exceeds.
    ghost tallest: { Self → ℕ };

    /// Which numbers are its nodes.
    ghost is_own: { Self → ℕ → Type 0 };

    /// The fact before a node at which paths begin, `None` if none begins there.
    fn start(&self, node: u32) -> Option<Self::Fact>
        requires { is_own self.now node }
        ensures { option_map view result ≡ begins self.now node };

    /// Replaces `a` by the join of `a` and `b`. Returns whether that changed its value.
    fn join(&self, a: &mut Self::Fact, b: &Self::Fact) -> bool
        ensures value { view a.new ≡ joined (view a.old) (view b.now) }
        ensures changed { MatchBool result
            (height self.now (view a.old) < height self.now (view a.new))
            (view a.new ≡ view a.old) };

    /// Replaces the fact before a node by the fact after it.
    fn transfer(&self, node: u32, fact: &mut Self::Fact)
        requires { is_own self.now node }
        ensures { view fact.new ≡ passed self.now node (view fact.old) };

    /// Replaces the fact after a node by what the edge to another node makes of it.
    fn cross(&self, source: u32, target: u32, fact: &mut Self::Fact)
        requires source { is_own self.now source }
        requires target { is_own self.now target }
        ensures { view fact.new ≡ crossed self.now source target (view fact.old) };

    /// A law: joins are idempotent, commutative and associative.
    ghost joins: { IsSemilattice Value joined };

    /// A law: a node's transfer of a join is the join of its transfers.
    ghost distributes: { (d : Self) (n : ℕ) (a b : Value)
        → passed d n (joined a b) ≡ joined (passed d n a) (passed d n b) };

    /// A law: an edge makes of a join the join of what it makes of its sides.
    ghost crosses: { (d : Self) (m n : ℕ) (a b : Value)
        → crossed d m n (joined a b) ≡ joined (crossed d m n a) (crossed d m n b) };

    /// A law: no height exceeds the tallest.
    ghost bounded: { (d : Self) (v : Value) → height d v ≤ tallest d };
}

/// A law: the values of a domain are ordered, and a join is the least value above both of its
/// sides. In constant time.
pub fn order_law<D: Domain>()
    ensures { IsOrderWithJoins D.Value D.joined }
{}
