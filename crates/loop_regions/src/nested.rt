// Nested regions.
ghost use Rattle.std.specs.Prelude.{◌≡◌, ◌<◌, ℕ, IfOk, IsTrue, None, length, slice_index_or};
ghost use Rattle.std.specs.List.{list_any};
ghost use Rattle.loop_regions.specs.CodeNest.{has, row};
ghost use Rattle.loop_regions.specs.Inner.Least.{IsLeastNumber};
ghost use Rattle.loop_regions.specs.Levels.{IsLevel, IsParent};
ghost use Rattle.loop_regions.specs.Stated.{IsNotNested};
ghost use Rattle.loop_regions.specs.Inner.FoundRegions.{nest_in, AreAround, lie_across, are_across};
ghost use Rattle.loop_regions.specs.Inner.FoundRegions.{is_other, is_better, better, IsInnermost};
ghost use Rattle.loop_regions.specs.Inner.FoundRegions.{AreInLine};

use crate::around::is_like_before;
use crate::found::Regions;
use crate::holders::{Holders, includes};
use std::alloc::{AllocError, Global};

/// Whether neither of two regions holds the other.
fn lie_across(around: &[Holders], r: u32, s: u32) -> bool
    ensures { result ≡ lie_across around.now r s }
{
    !includes(around, r, s) && !includes(around, s, r)
}

/// Whether one of these and this region are such that neither holds the other.
fn lies_across_any(around: &[Holders], among: &[u32], r: u32) -> bool
    ensures { result ≡ list_any (lie_across around.now r) among.now }
{
    for s in among {
        if lie_across(around, r, *s) {
            return true;
        }
    }
    false
}

/// Whether there are two of these regions of which neither holds the other.
fn are_across(around: &[Holders], among: &[u32]) -> bool
    ensures { result ≡ are_across around.now among.now }
{
    for r in among {
        if lies_across_any(around, among, *r) {
            return true;
        }
    }
    false
}

/// The smallest node in two regions of which neither holds the other. The pairs of a node's regions
/// are examined if they differ from those of the node before it.
pub(crate) fn not_nested(regions: &Regions, around: &[Holders]) -> Option<u32>
    requires { AreAround (nest_in regions.now) around.now }
    ensures { IsLeastNumber (IsNotNested (nest_in regions.now)) result }
{
    for y in 0..regions.nodes() {
        if is_like_before(regions, y) {
            continue;
        }
        if are_across(around, regions.holders(y)) {
            return Some(y);
        }
    }
    None
}

/// Whether a region is different from this one.
fn is_other(besides: Option<u32>, r: u32) -> bool
    ensures { result ≡ is_other besides r }
{
    match besides {
        Some(other) => other != r,
        None => true,
    }
}

/// Whether a region lies inside the best one so far, if there is one.
fn is_better(around: &[Holders], best: Option<u32>, r: u32) -> bool
    ensures { result ≡ is_better around.now best r }
{
    match best {
        Some(other) => includes(around, r, other),
        None => true,
    }
}

/// The innermost region so far.
fn better(around: &[Holders], besides: Option<u32>, best: Option<u32>, r: u32) -> Option<u32>
    ensures { result ≡ better around.now besides best r }
{
    if is_other(besides, r) && is_better(around, best, r) {
        Some(r)
    } else {
        best
    }
}

/// The innermost of these regions except this one, if they are nested.
fn innermost(around: &[Holders], among: &[u32], besides: Option<u32>) -> Option<u32>
    requires { AreInLine around.now among.now }
    ensures { IsInnermost around.now among.now besides result }
{
    let mut best = None;
    for r in among {
        best = better(around, besides, best, *r);
    }
    best
}

/// The innermost region of each node.
pub(crate) fn levels(
    alloc: Global,
    regions: &Regions,
    around: &[Holders],
) -> Result<Vec<Option<u32>>, AllocError>
    requires around { AreAround (nest_in regions.now) around.now }
    requires nested { (y : ℕ) → ¬ IsNotNested (nest_in regions.now) y }
    ensures nodes { IfOk result (λ levels. length levels.items ≡ length regions.now.holders) }
    ensures levels { IfOk result (λ levels. (y : ℕ) → y < length regions.now.holders →
        IsLevel (nest_in regions.now) y (slice_index_or levels.items y None)) }
{
    let mut levels = Vec::with_capacity(alloc, regions.nodes() as usize)?;
    for y in 0..regions.nodes() {
        levels.push(innermost(around, regions.holders(y), None))?;
    }
    Ok(levels)
}

/// The parent of each region.
pub(crate) fn parents(
    alloc: Global,
    regions: &Regions,
    around: &[Holders],
) -> Result<Vec<Option<u32>>, AllocError>
    requires around { AreAround (nest_in regions.now) around.now }
    requires nested { (y : ℕ) → ¬ IsNotNested (nest_in regions.now) y }
    ensures regions { IfOk result (λ parents. length parents.items ≡ (nest_in regions.now).size) }
    ensures parents { IfOk result (λ parents. (r : ℕ) → r < (nest_in regions.now).size →
        IsParent (nest_in regions.now) r (slice_index_or parents.items r None)) }
{
    let mut parents = Vec::with_capacity(alloc, around.len())?;
    for r in 0..regions.len() {
        let round = &around[r as usize];
        parents.push(innermost(around, round.as_slice(), Some(r)))?;
    }
    Ok(parents)
}
