// The code bytes of files in pieces, one for each executable segment, sorted by their starts.
ghost use Rattle.std.specs.Prelude.{◌≡◌, ◌+◌, ◌≤◌, ◌^◌, ◌++◌, length, map, All, IfOk, OnOk, List};
ghost use Rattle.std.specs.Prelude.{slice_get, Some};
ghost use Rattle.std.specs.List.Sorted.{IsNonDecreasingBy, IsPermutation};
ghost use Rattle.crpd_base.specs.Images.{IsImage};
ghost use Rattle.crpd_base.specs.declared.data.Image.{Image};
ghost use Rattle.code_map.specs.Inner.Pieces.{pieces_of, all_pieces, piece_content, piece_of};
ghost use Rattle.code_map.specs.Inner.Pieces.{HasBytes, IsAt};

use crpd_base::{Image, Segment};
use std::alloc::{AllocError, Global};

/// The code bytes of a segment, all or those from an address on, and where the segment is.
#[derive(Clone, Copy)]
pub(crate) struct Piece<'a> {
    /// The address of the first byte.
    pub(crate) start: u32,
    pub(crate) bytes: &'a [u8],
    /// The place of the file among all.
    pub(crate) file: usize,
    /// The place of the segment in the file.
    pub(crate) segment: usize,
}

/// The piece of a segment, which is at these places.
fn piece_of(segment: &Segment, file: usize, place: usize) -> Piece<'_>
    ensures is { piece_content result ≡ piece_of segment.now }
    ensures bytes { HasBytes result }
    ensures file { result.file ≡ file }
    ensures segment { result.segment ≡ place }
{
    let bytes = segment.bytes.as_slice();
    Piece {
        start: segment.address,
        bytes,
        file,
        segment: place,
    }
}

/// Adds the pieces of a file, which is at this place.
fn add_pieces<'a>(
    pieces: &mut Vec<Piece<'a>>,
    image: &'a Image,
    file: usize,
) -> Result<(), AllocError>
    requires { All HasBytes pieces.old.items }
    ensures same { IfOk result
        (λ _. map piece_content pieces.new.items
        ≡ map piece_content pieces.old.items ++ pieces_of image.now) }
    ensures bytes { OnOk result (All HasBytes pieces.new.items) }
    ensures at { OnOk result ((images : List Image) → slice_get images file ≡ Some image.now
        → All (IsAt images) pieces.old.items → All (IsAt images) pieces.new.items) }
{
    let segments = image.segments.as_slice();
    for place in 0..segments.len() {
        let segment = &segments[place];
        if segment.executable {
            pieces.push(piece_of(segment, file, place))?;
        }
    }
    Ok(())
}

/// The pieces of files, in order.
fn all_pieces(alloc: Global, images: &[Image]) -> Result<Vec<Piece<'_>>, AllocError>
    ensures same { IfOk result (λ v. map piece_content v.items ≡ all_pieces images.now) }
    ensures bytes { IfOk result (λ v. All HasBytes v.items) }
    ensures at { IfOk result (λ v. All (IsAt images.now) v.items) }
{
    let mut pieces = Vec::new(alloc);
    for file in 0..images.len() {
        add_pieces(&mut pieces, &images[file], file)?;
    }
    Ok(pieces)
}

/// The pieces of files, sorted by their starts.
pub(crate) fn pieces(alloc: Global, images: &[Image]) -> Result<Vec<Piece<'_>>, AllocError>
    ensures same { IfOk result
        (λ v. IsPermutation (all_pieces images.now) (map piece_content v.items)) }
    ensures bytes { IfOk result (λ v. All HasBytes v.items) }
    ensures at { IfOk result (λ v. All (IsAt images.now) v.items) }
    ensures ascending { IfOk result (λ v. IsNonDecreasingBy (λ p. p.start) v.items) }
{
    let mut pieces = all_pieces(alloc, images)?;
    pieces.sort_by_key(|piece| piece.start)?;
    Ok(pieces)
}
