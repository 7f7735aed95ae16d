// The least facts along the edges of a graph.
ghost use Rattle.std.specs.Prelude.{◌≡◌, ℕ, ◌<◌, Some, None, IfOk, IsSome, length, map};
ghost use Rattle.std.specs.Prelude.{slice_index_or, vec_len};
ghost use Rattle.dataflow.specs.Problem.{fact_at};
ghost use Rattle.flat_graph.specs.CodeGraph.{graph_of};
ghost use Rattle.must_cache.specs.Inner.GraphFacts.{AreGraphFacts, along};

use crate::edge_pairs::edges;
use crpd_base::Memory;
use dataflow::{Domain, EdgeList, solve};
use flat_graph::Graph;
use std::alloc::{AllocError, Global};

/// The least facts before the nodes of a graph, along its edges.
pub(crate) fn graph_facts<D: Domain>(
    alloc: Global,
    graph: &Graph,
    domain: &D,
) -> Result<Vec<Option<D::Fact>>, Memory>
    requires { (n : ℕ) → n < (graph_of graph.now).size → D.is_own domain.now n }
    ensures count { IfOk result (λ facts. vec_len facts ≡ (graph_of graph.now).size) }
    ensures least { IfOk result (λ facts. AreGraphFacts D.Value (graph_of graph.now)
        (along D.joined (D.passed domain.now) (D.crossed domain.now) (D.begins domain.now)
        (graph_of graph.now))
        (fact_at D.view facts.items)) }
{
    let edges = edges(alloc, graph)?;
    let Some(flow) = EdgeList::new(graph.len(), &edges) else {
        unreachable!()
    };
    let facts = solve(alloc, &flow, domain)?;
    Ok(facts)
}

/// The facts, of which each is present.
pub(crate) fn all_present<T: Copy>(alloc: Global, facts: &[Option<T>]) -> Result<Vec<T>, AllocError>
    requires { (n : ℕ) → n < length facts.now → IsSome (slice_index_or facts.now n None) }
    ensures { IfOk result (λ all. map Some all.items ≡ facts.now) }
{
    let mut all = Vec::with_capacity(alloc, facts.len())?;
    for fact in facts {
        match fact {
            Some(fact) => all.push(*fact)?,
            None => unreachable!(),
        }
    }
    Ok(all)
}
