// Pieces of code, of which none has an address of another.
ghost use Rattle.std.specs.Prelude.{◌≡◌, ◌≢◌, ℕ, ◌+◌, ◌-◌, ◌<◌, ◌≤◌, ◌^◌, length, drop, max};
ghost use Rattle.std.specs.Prelude.{slice_index, All, AllPairs, IfOk, OnOk, MatchOption, List};
ghost use Rattle.std.specs.List.Sorted.{IsNonDecreasingBy};
ghost use Rattle.crpd_base.specs.declared.data.Image.{Image};
ghost use Rattle.code_map.specs.Conflicts.{differ, disagree};
ghost use Rattle.code_map.specs.Inner.Conflicts.{IsFirstPassing};
ghost use Rattle.code_map.specs.Inner.Joined as spec;
ghost use Rattle.code_map.specs.Inner.Joined.{IsFirstDifference, IsPieceBefore, IsRestFrom};
ghost use Rattle.code_map.specs.Inner.Pieces.{piece_byte, piece_end, IsAt};
ghost use Rattle.code_map.specs.Words.{find_map};

use crate::pieces::Piece;
use std::alloc::{AllocError, Global};

/// Pieces without the addresses that earlier ones have, and the lowest address at which two pieces
/// have different bytes.
#[derive(Drop)]
pub(crate) struct Joined<'a> {
    pub(crate) parts: Vec<Piece<'a>>,
    pub(crate) conflict: Option<u32>,
}

/// The place of the first difference of two lists of bytes.
fn first_difference(bytes: &[u8], others: &[u8]) -> Option<usize>
    ensures { MatchOption result
        ((k : ℕ) → k < length bytes.now → k < length others.now
        → slice_index bytes.now k ≡ slice_index others.now k)
        (λ i. IsFirstDifference bytes.now others.now i) }
{
    for i in 0..bytes.len().min(others.len()) {
        if bytes[i] != others[i] {
            return Some(i);
        }
    }
    None
}

/// The lowest address at which a piece and one that does not start before it have different bytes.
fn conflict_with(earlier: &Piece, piece: &Piece) -> Option<u32>
    requires from { earlier.now.start ≤ piece.now.start }
    requires below { piece_end piece.now ≤ 2 ^ 32 }
    ensures { IsFirstPassing (λ a. differ (piece_byte earlier.now a) (piece_byte piece.now a))
        result }
{
    let from = (piece.start - earlier.start) as usize;
    let shared = &earlier.bytes[from.min(earlier.bytes.len())..];
    match first_difference(shared, piece.bytes) {
        Some(i) => Some(piece.start + i as u32),
        None => None,
    }
}

/// The address after the last byte of a piece.
fn end_of(piece: &Piece) -> usize
    requires { piece_end piece.now ≤ 2 ^ 32 }
    ensures { result ≡ piece_end piece.now }
{
    piece.start as usize + piece.bytes.len()
}

/// The bytes of a piece from an address on, None if there are none.
fn rest_from<'a>(piece: &Piece<'a>, from: usize) -> Option<Piece<'a>>
    requires { piece_end piece.now ≤ 2 ^ 32 }
    ensures { MatchOption result (length piece.now.bytes.now ≤ from - piece.now.start)
        (λ rest. IsRestFrom from piece.now rest) }
{
    let skipped = from.saturating_sub(piece.start as usize);
    if piece.bytes.len() <= skipped {
        return None;
    }
    Some(Piece {
        start: piece.start + skipped as u32,
        bytes: &piece.bytes[skipped..],
        file: piece.file,
        segment: piece.segment,
    })
}

/// The smaller of two addresses, either of which may be absent.
fn lesser(a: Option<u32>, b: Option<u32>) -> Option<u32>
    ensures { result ≡ spec.lesser a b }
{
    match (a, b) {
        (Some(x), Some(y)) => Some(x.min(y)),
        (Some(x), None) => Some(x),
        (None, y) => y,
    }
}

/// The pieces without the addresses that earlier ones have, and their lowest conflict. Pieces come
/// sorted by their starts, so each is compared with a single earlier one, the one that ends last:
/// it has each address of the piece that an earlier one has. Linear in the bytes.
pub(crate) fn join<'a>(alloc: Global, pieces: &[Piece<'a>]) -> Result<Joined<'a>, AllocError>
    requires ascending { IsNonDecreasingBy (λ p. p.start) pieces.now }
    requires below { All (λ p. piece_end p ≤ 2 ^ 32) pieces.now }
    ensures apart { IfOk result (λ j. AllPairs IsPieceBefore j.parts.items) }
    ensures bytes { IfOk result
        (λ j. (a : ℕ) → find_map (λ p. piece_byte p a) j.parts.items
        ≡ find_map (λ p. piece_byte p a) pieces.now) }
    ensures conflict { IfOk result
        (λ j. IsFirstPassing (λ a. disagree (λ p. piece_byte p a) pieces.now) j.conflict) }
    ensures at { IfOk result (λ j. (images : List Image) → All (IsAt images) pieces.now
        → All (IsAt images) j.parts.items) }
{
    let mut parts = Vec::new(alloc);
    let mut conflict = None;
    let mut last = Piece {
        start: 0,
        bytes: &[],
        file: 0,
        segment: 0,
    };
    for piece in pieces {
        conflict = lesser(conflict, conflict_with(&last, piece));
        if let Some(rest) = rest_from(piece, end_of(&last)) {
            parts.push(rest)?;
            last = *piece;
        }
    }
    Ok(Joined { parts, conflict })
}
