//! The listed nodes of a task, with the state of the cache before each, and its useful sets.

ghost use Rattle.std.specs.Prelude.{◌≡◌, ◌≤◌, ◌<◌, option_map, IfOk, IfSome};
ghost use Rattle.crpd_base.specs.Limits as limits;
ghost use Rattle.serde_json.specs.View.{view, items_view};
ghost use Rattle.cert_model.specs.Kinds as spec;

use crate::kinds::below;
use crate::sets::set_numbers;
use crpd_base::{Items, NodeState};
use serde_json::Value;
use std::alloc::{AllocError, Global};

const BLOCKS: u64 = 1 << 32;

/// A set number and a block number.
#[tactic(auto, unfolding(crate::specs::Kinds::pair))]
fn pair(low: u64, limit: u64, set: &Value, block: &Value) -> Option<(u16, u32)>
    requires { limit ≤ limits.most_sets }
    ensures is { result ≡ spec.pair low limit (view set.now) (view block.now) }
    ensures bound { IfSome result (λ p. p.0 < limit) }
{
    let set = below(set, low, limit)?;
    let block = below(block, 0, BLOCKS)?;
    Some((set as u16, block as u32))
}

/// The pairs of a flat list: set, block, set, block.
#[tactic(auto, unfolding(crate::specs::Kinds::sure_pairs))]
fn sure_pairs(
    alloc: Global,
    limit: u64,
    value: &Value,
) -> Result<Option<Vec<(u16, u32)>>, AllocError>
    requires { limit ≤ limits.most_sets }
    ensures { IfOk result (λ found.
        option_map (λ v. v.items) found ≡ spec.sure_pairs limit (view value.now)) }
{
    let Some(values) = value.as_array() else {
        return Ok(None);
    };
    let mut found = Vec::new(alloc);
    let mut low = 0;
    for i in 0..values.len() / 2 {
        let Some(next) = pair(low, limit, &values[2 * i], &values[2 * i + 1]) else {
            return Ok(None);
        };
        low = u64::from(next.0) + 1;
        found.push(next)?;
    }
    let even = values.len() % 2 == 0;
    if even { Ok(Some(found)) } else { Ok(None) }
}

/// A node with its sure pairs and its useful sets.
#[tactic(auto, unfolding(crate::specs::Kinds::state_of))]
fn state_of(
    alloc: Global,
    sets: u64,
    nodes: u64,
    low: u64,
    node: &Value,
    sure: &Value,
    useful: &Value,
) -> Result<Option<NodeState>, AllocError>
    requires sets { sets ≤ limits.most_sets }
    requires nodes { nodes ≤ limits.most_nodes }
    ensures is { IfOk result
        (λ s. s ≡ spec.state_of sets nodes low (view node.now) (view sure.now) (view useful.now)) }
    ensures bound { IfOk result (λ s. IfSome s (λ s. s.node < nodes)) }
{
    let Some(node) = below(node, low, nodes) else {
        return Ok(None);
    };
    let Some(sure) = sure_pairs(alloc, sets, sure)? else {
        return Ok(None);
    };
    let Some(useful) = set_numbers(sets, useful) else {
        return Ok(None);
    };
    Ok(Some(NodeState {
        node: node as u32,
        sure: Items::new(sure),
        useful,
    }))
}

/// A list of three: the node, its sure pairs and its useful sets.
#[tactic(auto, using(crate::proofs::Pairs::three_of_three, crate::proofs::Pairs::three_of_others), unfolding(crate::specs::Kinds::state_value))]
fn state(
    alloc: Global,
    sets: u64,
    nodes: u64,
    low: u64,
    value: &Value,
) -> Result<Option<NodeState>, AllocError>
    requires sets { sets ≤ limits.most_sets }
    requires nodes { nodes ≤ limits.most_nodes }
    ensures is { IfOk result (λ s. s ≡ spec.state_value sets nodes low (view value.now)) }
    ensures bound { IfOk result (λ s. IfSome s (λ s. s.node < nodes)) }
{
    match value.as_array() {
        Some(parts) if parts.len() == 3 => {
            state_of(alloc, sets, nodes, low, &parts[0], &parts[1], &parts[2])
        }
        _ => Ok(None),
    }
}

/// The states of a task, each node above the one before, with nodes and cache sets below these
/// limits, which are at most 16,384 and 512; None for any other value. Linear in the text's tree;
/// running out of memory is the only error.
#[tactic(auto, unfolding(crate::specs::Kinds::states))]
pub fn states(
    alloc: Global,
    sets: u64,
    nodes: u64,
    value: &Value,
) -> Result<Option<Vec<NodeState>>, AllocError>
    requires sets { sets ≤ limits.most_sets }
    requires nodes { nodes ≤ limits.most_nodes }
    ensures { IfOk result (λ found.
        option_map (λ v. v.items) found ≡ spec.states sets nodes (view value.now)) }
{
    let Some(values) = value.as_array() else {
        return Ok(None);
    };
    let mut found = Vec::new(alloc);
    let mut low = 0;
    for value in values {
        let Some(state) = state(alloc, sets, nodes, low, value)? else {
            return Ok(None);
        };
        low = u64::from(state.node) + 1;
        found.push(state)?;
    }
    Ok(Some(found))
}
