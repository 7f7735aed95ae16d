// The regions that hold a node.
ghost use Rattle.std.specs.Prelude.{◌≡◌, [], ◌∷◌, ◌++◌, OnOk};
ghost use Rattle.std.specs.List.{filter};
ghost use Rattle.loop_regions.specs.CodeNest.{has, row};

use smallvec::SmallVec;
use std::alloc::{AllocError, Global};
use std::marker::Model;

/// The numbers of regions. Up to four take no memory of their own.
#[derive(Drop)]
pub(crate) struct Holders {
    regions: SmallVec<u32, 4>,
}

impl Model for Holders {
    ghost use Rattle.std.specs.Prelude.{List, ℕ};

    ghost Value = { List ℕ };

    ghost view = { λ h. h.regions.items };
}

impl Clone for Holders {
    ghost is_clone = { λ holders copy. copy ≡ holders };

    fn clone(&self) -> Result<Self, AllocError> {
        Ok(Holders {
            regions: self.regions.clone()?,
        })
    }
}

impl Holders {
    /// No regions.
    pub(crate) fn new(alloc: Global) -> Self
        ensures { result ≡ [] }
    {
        Holders {
            regions: SmallVec::new(alloc),
        }
    }

    /// The numbers of the regions.
    pub(crate) fn as_slice(&self) -> &[u32]
        ensures { result.now ≡ self.now }
    {
        self.regions.as_slice()
    }

    /// Whether a region is among them.
    pub(crate) fn has(&self, r: u32) -> bool
        ensures { result ≡ has self.now r }
    {
        self.regions.as_slice().contains(&r)
    }

    /// Appends a region.
    pub(crate) fn push(&mut self, r: u32) -> Result<(), AllocError>
        ensures { OnOk result (self.new ≡ self.old ++ r ∷ []) }
    {
        self.regions.push(r)?;
        Ok(())
    }

    /// Keeps those that are among the others too.
    pub(crate) fn keep(&mut self, others: &[u32])
        ensures { self.new ≡ filter (has others.now) self.old }
    {
        self.regions.retain(|r| others.contains(r));
    }
}

/// Whether a row of a table has a region. A row past the last has none.
pub(crate) fn includes(rows: &[Holders], y: u32, r: u32) -> bool
    ensures { result ≡ has (row rows.now y) r }
{
    let at = y as usize;
    at < rows.len() && rows[at].has(r)
}
