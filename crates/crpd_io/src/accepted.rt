// What an output accepted. It exists only in proofs.
ghost use Rattle.std.specs.Prelude.{◌≡◌, List, ℕ, []};
ghost use base.Fml.{ftrue};

use std::marker::Model;

/// The bytes that were accepted. It takes no bytes.
#[derive(Drop)]
pub(crate) struct Accepted {
    pub(crate) ghost bytes: { List ℕ },
}

impl Model for Accepted {
    ghost also_owns = { λ _. ftrue };
}

/// Bytes that were accepted by one call.
#[derive(Clone, Copy, Drop)]
pub(crate) struct Piece<'a> {
    pub(crate) bytes: &'a [u8],
}

impl Accepted {
    ghost use Rattle.std.specs.Prelude.{◌++◌};

    /// No bytes. It does nothing at run time.
    #[inline(always)]
    pub(crate) fn new() -> Accepted
        ensures { result.bytes ≡ [] }
    {
        Accepted {}
    }

    /// The same bytes, and these after them. It does nothing at run time.
    #[inline(always)]
    pub(crate) fn then(&self, _piece: &Piece<'_>) -> Accepted
        ensures { result.bytes ≡ self.now.bytes ++ _piece.now.bytes.now }
    {
        Accepted {}
    }
}
