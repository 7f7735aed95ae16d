// For each region, the regions round it.
ghost use Rattle.std.specs.Prelude.{◌≡◌, ◌↔◌, ◌<◌, ℕ, IfOk, IsTrue, length};
ghost use Rattle.loop_regions.specs.CodeNest.{has, row};
ghost use Rattle.loop_regions.specs.Inner.FoundRegions.{nest_in, AreAround};

use crate::found::Regions;
use crate::holders::Holders;
use std::alloc::{AllocError, Global};

/// For each region, the regions that hold its head.
fn at_heads(alloc: Global, regions: &Regions) -> Result<Vec<Holders>, AllocError>
    ensures regions { IfOk result (λ rows. length rows.items ≡ (nest_in regions.now).size) }
    ensures rows { IfOk result (λ rows. (r : ℕ) → r < (nest_in regions.now).size →
        row rows.items r ≡ row regions.now.holders ((nest_in regions.now).head r)) }
{
    let heads = regions.heads.as_slice();
    let mut rows = Vec::with_capacity(alloc, heads.len())?;
    for head in heads {
        rows.push(regions.holders[head.node as usize].clone()?)?;
    }
    Ok(rows)
}

/// Keeps, in the rows of a node's regions, only the regions that hold the node.
fn narrow_rows(rows: &mut Vec<Holders>, holders: &[u32])
    requires { (r : ℕ) → IsTrue (has holders.now r) → r < length rows.old.items }
    ensures regions { length rows.new.items ≡ length rows.old.items }
    ensures narrowed { (r s : ℕ) → r < length rows.old.items → IsTrue (has (row rows.new.items r) s)
        ↔ (IsTrue (has (row rows.old.items r) s)
        × (IsTrue (has holders.now r) → IsTrue (has holders.now s))) }
{
    for r in holders {
        let around = &mut rows[*r as usize];
        around.keep(holders);
    }
}

/// Whether a node has the same regions as the node before it.
pub(crate) fn is_like_before(regions: &Regions, y: u32) -> bool
    requires { y < length regions.now.holders }
    ensures { IsTrue result → (z : ℕ) × (z < y)
        × (row regions.now.holders y ≡ row regions.now.holders z) }
{
    y > 0 && regions.holders(y) == regions.holders(y - 1)
}

/// For each region, the regions that hold all of its nodes, itself included. A node's regions are
/// examined if they differ from those of the node before it.
pub(crate) fn regions_around(alloc: Global, regions: &Regions) -> Result<Vec<Holders>, AllocError>
    ensures { IfOk result (λ rows. AreAround (nest_in regions.now) rows.items) }
{
    let mut rows = at_heads(alloc, regions)?;
    for y in 0..regions.nodes() {
        if is_like_before(regions, y) {
            continue;
        }
        narrow_rows(&mut rows, regions.holders(y));
    }
    Ok(rows)
}
