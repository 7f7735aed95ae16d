// The index of the code bytes of files.
ghost use Rattle.std.specs.Prelude.{◌≡◌, ◌<◌, ℕ, All, AllPairs, None, Some, IfOk, OnOk, map};
ghost use Rattle.crpd_base.specs.Images.{IsImage};
ghost use Rattle.code_map.specs.Conflicts.{first_conflict};
ghost use Rattle.code_map.specs.Inner.Runs.{IsByteIndex, run_of};
ghost use Rattle.code_map.specs.Words.{code_byte};

use crate::joined::join;
use crate::pieces::{Piece, pieces};
use crate::runs::Run;
use crpd_base::Image;
use std::alloc::{AllocError, Global};

/// What is made of the code bytes of files: their runs, and the lowest address of a conflict.
#[derive(Drop)]
pub(crate) struct Indexed {
    pub(crate) runs: Vec<Run>,
    pub(crate) conflict: Option<u32>,
}

/// The runs of pieces.
fn runs_of(alloc: Global, pieces: &[Piece]) -> Result<Vec<Run>, AllocError>
    ensures { IfOk result (λ v. v.items ≡ map run_of pieces.now) }
{
    let mut runs = Vec::with_capacity(alloc, pieces.len())?;
    for piece in pieces {
        runs.push(Run {
            start: piece.start,
            file: piece.file,
            segment: piece.segment,
        })?;
    }
    Ok(runs)
}

/// The runs of the code bytes of files, and the lowest address at which files have different ones.
pub(crate) fn index(alloc: Global, images: &[Image]) -> Result<Indexed, AllocError>
    requires { All IsImage images.now }
    ensures conflict { IfOk result (λ j. j.conflict ≡ first_conflict images.now) }
    ensures bytes { OnOk result ((a b : ℕ) → code_byte images.now a ≡ Some b → b < 256) }
    ensures is { IfOk result
        (λ j. j.conflict ≡ None → IsByteIndex images.now j.runs.items (code_byte images.now)) }
{
    let pieces = pieces(alloc, images)?;
    let joined = join(alloc, &pieces)?;
    let runs = runs_of(alloc, &joined.parts)?;
    Ok(Indexed {
        runs,
        conflict: joined.conflict,
    })
}
