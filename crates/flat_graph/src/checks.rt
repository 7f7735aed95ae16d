// Which points of the code have an error.
ghost use Rattle.std.specs.Prelude.{◌≡◌, ℕ, ◌≤◌, ◌+◌, Some, None, IfOk, MatchResult, IsTrue};
ghost use Rattle.std.specs.Prelude.{option_map, ◌==◌, ◌||◌};
ghost use Rattle.std.specs.List.{list_any};
ghost use Rattle.code_map.specs.Words.{word_at};
ghost use Rattle.rv_decode.specs.Address.{end_address};
ghost use Rattle.rv_decode.specs.Flow.{flows, flow};
ghost use Rattle.rv_decode.specs.Table.{ins_of_word};
ghost use Rattle.flat_graph.specs.FlatGraph.{calls, call_error, error_of};
ghost use Rattle.flat_graph.specs.Inner.GraphErrors.{graph_error, HasInstructionAt};

use crate::error::GraphError;
use crate::ins_flow::{InsFlow, flow_of};
use code_map::CodeMap;
use crpd_base::MOST_CALLS;
use rv_decode::{Ins, decode};

/// Whether there is a call to this target at an address.
fn calls(code: &CodeMap, address: u32, target: u32) -> bool
    ensures { result ≡ calls (flows (word_at code.now.images) address) target }
{
    let Some(word) = code.word(address) else {
        return false;
    };
    match decode(word) {
        Some(ins) => match flow_of(address, &ins) {
            InsFlow::Call(own) => own == target,
            _ => false,
        },
        None => false,
    }
}

/// Whether a call under way has this target.
fn is_under_way(code: &CodeMap, under_way: &[u32], target: u32) -> bool
    ensures { result ≡ list_any (λ a. calls (flows (word_at code.now.images) a) target)
        under_way.now }
{
    for call in under_way {
        if calls(code, *call, target) {
            return true;
        }
    }
    false
}

/// Whether a call to this target is recursive: the target is the entry or that of a call under way.
fn is_recursive(code: &CodeMap, entry: u32, under_way: &[u32], target: u32) -> bool
    ensures { result ≡ ((target == entry)
        || list_any (λ a. calls (flows (word_at code.now.images) a) target) under_way.now) }
{
    let is_entry = target == entry;
    is_entry || is_under_way(code, under_way, target)
}

/// The error of a call: its target is the entry or the target of a call under way, or sixteen calls
/// are under way.
fn call_error(
    code: &CodeMap,
    entry: u32,
    under_way: &[u32],
    address: u32,
    target: u32,
) -> Result<(), GraphError>
    ensures { let error = call_error (flows (word_at code.now.images)) entry under_way.now target in
        MatchResult result (λ _. error ≡ None)
        (λ e. option_map (λ x. graph_error x address) error ≡ Some e) }
{
    if is_recursive(code, entry, under_way, target) {
        return Err(GraphError::Recursive(address));
    }
    let is_full = under_way.len() == MOST_CALLS;
    if is_full {
        return Err(GraphError::TooDeep(address));
    }
    Ok(())
}

/// The instruction of a node with these calls under way at an address, or the node's error.
pub(crate) fn check(
    code: &CodeMap,
    entry: u32,
    under_way: &[u32],
    address: u32,
) -> Result<Ins, GraphError>
    ensures error { let error =
        error_of (flows (word_at code.now.images)) entry
        (record { context = under_way.now; address = address }) in
        MatchResult result (λ _. error ≡ None)
        (λ e. option_map (λ x. graph_error x address) error ≡ Some e) }
    ensures stands { IfOk result (HasInstructionAt (word_at code.now.images) address) }
    ensures within { IfOk result (λ _. address + 4 ≤ end_address) }
{
    if address % 4 != 0 {
        return Err(GraphError::Misaligned(address));
    }
    let word = code.word(address).ok_or(GraphError::OutsideCode(address))?;
    let ins = decode(word).ok_or(GraphError::Undecodable(address))?;
    match flow_of(address, &ins) {
        InsFlow::Breakpoint => Err(GraphError::Breakpoint(address)),
        InsFlow::IndirectJump => Err(GraphError::IndirectJump(address)),
        InsFlow::OtherLink => Err(GraphError::OtherLink(address)),
        InsFlow::Call(target) => {
            call_error(code, entry, under_way, address, target)?;
            Ok(ins)
        }
        _ => Ok(ins),
    }
}
