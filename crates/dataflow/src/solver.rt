// The search for the least solution.
ghost use Rattle.std.specs.Prelude.{◌≡◌, ◌≢◌, ℕ, ◌+◌, ◌<◌, ◌≤◌, Option, IfOk, Some, MatchBool};
ghost use Rattle.std.specs.Prelude.{length, vec_len, option_map, slice_index_or, false};
ghost use Rattle.dataflow.specs.Problem.{problem, IsFact, IsLeastSolution, fact_at};
ghost use Rattle.dataflow.specs.Inner.Search.{IsChained, IsPartialSolution, IsPassedOn, absorbed};
ghost use Rattle.dataflow.specs.Inner.Search.{rank, waits, work_left};

use crate::order::visit_order;
use crate::outgoing::{Outgoing, chain};
use crate::problem::{Domain, Flow};
use crate::worklist::Worklist;
use crpd_base::Memory;
use std::alloc::{AllocError, Global};

/// Joins a value into a fact. Returns whether that changed it.
fn absorb<D: Domain>(domain: &D, fact: &mut Option<D::Fact>, value: &D::Fact) -> bool
    ensures value { option_map D.view fact.new
        ≡ Some (absorbed D.joined (option_map D.view fact.old) (D.view value.now)) }
    ensures changed { MatchBool result
        (rank (D.height domain.now) (option_map D.view fact.old)
        < rank (D.height domain.now) (option_map D.view fact.new))
        (option_map D.view fact.new ≡ option_map D.view fact.old) }
{
    match fact {
        Some(fact) => domain.join(fact, value),
        None => {
            *fact = Some(*value);
            true
        }
    }
}

/// The facts where paths begin.
fn first_facts<G: Flow, D: Domain>(
    alloc: Global,
    flow: &G,
    domain: &D,
) -> Result<Vec<Option<D::Fact>>, AllocError>
    requires { (n : ℕ) → n < G.node_count flow.now → D.is_own domain.now n }
    ensures nodes { IfOk result (λ facts. vec_len facts ≡ G.node_count flow.now) }
    ensures begins { IfOk result
        (λ facts. (n : ℕ) → n < G.node_count flow.now
        → fact_at D.view facts.items n ≡ D.begins domain.now n) }
{
    let mut facts = Vec::with_capacity(alloc, flow.nodes() as usize)?;
    for node in 0..flow.nodes() {
        facts.push(domain.start(node))?;
    }
    Ok(facts)
}

/// The value after a node, from the fact before it.
fn fact_after<D: Domain>(domain: &D, node: u32, before: &D::Fact) -> D::Fact
    requires { D.is_own domain.now node }
    ensures { D.view result ≡ D.passed domain.now node (D.view before.now) }
{
    let mut value = *before;
    domain.transfer(node, &mut value);
    value
}

/// The value that an edge brings to its target, from the value after its source.
fn value_across<D: Domain>(domain: &D, source: u32, target: u32, after: &D::Fact) -> D::Fact
    requires source { D.is_own domain.now source }
    requires target { D.is_own domain.now target }
    ensures { D.view result ≡ D.crossed domain.now source target (D.view after.now) }
{
    let mut value = *after;
    domain.cross(source, target, &mut value);
    value
}

/// Joins what each edge of a node makes of the value after it into the fact of the edge's target.
/// The nodes whose facts change wait.
fn pass_on<G: Flow, D: Domain>(
    flow: &G,
    domain: &D,
    outgoing: &Outgoing,
    node: u32,
    value: &D::Fact,
    facts: &mut [Option<D::Fact>],
    waiting: &mut Worklist,
)
    requires own { (n : ℕ) → n < G.node_count flow.now → D.is_own domain.now n }
    requires edges { IsChained (G.node_count flow.now) (G.edge_count flow.now)
        (G.ends flow.now) outgoing.now.last.items outgoing.now.before.items }
    requires node { node < G.node_count flow.now }
    requires facts { length facts.old ≡ G.node_count flow.now }
    requires waiting { length waiting.old ≡ G.node_count flow.now }
    requires source { IsPassedOn D.Value
        (problem D.joined (D.passed domain.now) (D.crossed domain.now) (D.begins domain.now) (G.node_count flow.now)
        (G.edge_count flow.now) (G.ends flow.now))
        (D.crossed domain.now) (fact_at D.view facts.old) (waits waiting.old) node
        (D.view value.now) }
    requires under_way { IsPartialSolution D.Value
        (problem D.joined (D.passed domain.now) (D.crossed domain.now) (D.begins domain.now) (G.node_count flow.now)
        (G.edge_count flow.now) (G.ends flow.now))
        (fact_at D.view facts.old) (waits waiting.old) (λ k. (G.ends flow.now k).0 ≢ node) }
    ensures waiting { length waiting.new ≡ G.node_count flow.now }
    ensures under_way { IsPartialSolution D.Value
        (problem D.joined (D.passed domain.now) (D.crossed domain.now) (D.begins domain.now) (G.node_count flow.now)
        (G.edge_count flow.now) (G.ends flow.now))
        (fact_at D.view facts.new) (waits waiting.new) (λ k. Unit {0}) }
    ensures left { work_left D.view (D.height domain.now) (D.tallest domain.now)
        facts.new waiting.new
        ≤ work_left D.view (D.height domain.now) (D.tallest domain.now) facts.old waiting.old }
{
    let mut next = outgoing.last[node as usize];
    while let Some(k) = next {
        let (_, target) = flow.edge(k);
        let brought = value_across(domain, node, target, value);
        if absorb(domain, &mut facts[target as usize], &brought) {
            waiting.add(target);
        }
        next = outgoing.before[k as usize];
    }
}

/// Visits waiting nodes until none waits.
fn settle<G: Flow, D: Domain>(
    flow: &G,
    domain: &D,
    outgoing: &Outgoing,
    facts: &mut [Option<D::Fact>],
    waiting: &mut Worklist,
)
    requires own { (n : ℕ) → n < G.node_count flow.now → D.is_own domain.now n }
    requires edges { IsChained (G.node_count flow.now) (G.edge_count flow.now)
        (G.ends flow.now) outgoing.now.last.items outgoing.now.before.items }
    requires facts { length facts.old ≡ G.node_count flow.now }
    requires waiting { length waiting.old ≡ G.node_count flow.now }
    requires under_way { IsPartialSolution D.Value
        (problem D.joined (D.passed domain.now) (D.crossed domain.now) (D.begins domain.now) (G.node_count flow.now)
        (G.edge_count flow.now) (G.ends flow.now))
        (fact_at D.view facts.old) (waits waiting.old) (λ k. Unit {0}) }
    ensures { IsPartialSolution D.Value
        (problem D.joined (D.passed domain.now) (D.crossed domain.now) (D.begins domain.now) (G.node_count flow.now)
        (G.edge_count flow.now) (G.ends flow.now))
        (fact_at D.view facts.new) (λ n. false) (λ k. Unit {0}) }
{
    while let Some(node) = waiting.take() {
        if let Some(before) = &facts[node as usize] {
            let value = fact_after(domain, node, before);
            pass_on(flow, domain, outgoing, node, &value, facts, waiting);
        }
    }
}

/// The least solution of a dataflow problem. The fact of a node is the fact before it: the join of
/// its start with what each edge to it makes of the fact after the edge's source. It is the join
/// over all paths from nodes with a start, and `None` exactly if there is no such path. All numbers
/// below the flow's `nodes()` must be the domain's own. The only error is out of memory. Allocates a
/// fact for each node, and some fifteen bytes for each node and edge.
///
/// Nodes are visited in two reverse postorders in turn: from the first node on, and from the last
/// node back. The second takes a fact back through a chain of overlapping loops in one round. A
/// node is visited only if its fact has risen since. So an edge is followed at most as often as a
/// fact can rise plus one, and once if there is no cycle (Kam and Ullman 1976). A visit costs a
/// copy of a fact and a transfer, an edge a copy and a join, and a round passes each node twice.
pub fn solve<G: Flow, D: Domain>(
    alloc: Global,
    flow: &G,
    domain: &D,
) -> Result<Vec<Option<D::Fact>>, Memory>
    requires { (n : ℕ) → n < G.node_count flow.now → D.is_own domain.now n }
    ensures nodes { IfOk result (λ facts. vec_len facts ≡ G.node_count flow.now) }
    ensures facts { IfOk result (λ facts. (n : ℕ) → n < G.node_count flow.now →
        IsFact (problem D.joined (D.passed domain.now) (D.crossed domain.now) (D.begins domain.now) (G.node_count flow.now)
        (G.edge_count flow.now) (G.ends flow.now))
        n (fact_at D.view facts.items n)) }
    ensures least { IfOk result (λ facts.
        IsLeastSolution D.Value
        (problem D.joined (D.passed domain.now) (D.crossed domain.now) (D.begins domain.now) (G.node_count flow.now)
        (G.edge_count flow.now) (G.ends flow.now))
        (fact_at D.view facts.items)) }
{
    let outgoing = chain(alloc, flow)?;
    let order = visit_order(alloc, flow, &outgoing)?;
    let mut waiting = Worklist::new(alloc, order, flow.nodes() as usize)?;
    let mut facts = first_facts(alloc, flow, domain)?;
    settle(flow, domain, &outgoing, &mut facts, &mut waiting);
    Ok(facts)
}
