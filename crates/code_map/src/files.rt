// The tasks' files with the indexes of their code bytes.
ghost use Rattle.std.specs.Prelude.{◌≡◌, ℕ, ◌+◌, ◌^◌, ◌<◌, ◌≤◌, length, slice_get, slice_index_or};
ghost use Rattle.std.specs.Prelude.{option_map, is_some, All, List, Some, IfOk, IfSome};
ghost use Rattle.crpd_base.specs.Images.{IsImage};
ghost use Rattle.crpd_base.specs.declared.data.Image.{Image};
ghost use Rattle.code_map.specs.declared.runs.Run.{Run};
ghost use Rattle.crpd_base.specs.Outcome.{Gives, nowhere};
ghost use Rattle.code_map.specs.Reading.{files_of};
ghost use Rattle.code_map.specs.NextPassing.{IsNextOf};
ghost use Rattle.code_map.specs.Inner.Runs.{IsOwnIndex};
ghost use Rattle.code_map.specs.Words.{word_at, owns, end};

use crate::error::MapError;
use crate::index::index;
use crate::runs::{Run, next_word, word};
use crpd_base::{Image, Items};
use std::alloc::{AllocError, Global};
use std::marker::Model;
use std::slice;

/// The images of files, without a conflict, and their words. A contract sees it as the images.
#[derive(Drop)]
pub(crate) struct Files {
    images: Items<Image>,
    runs: Items<Run>,
    own: Items<Items<Run>>,
}

impl Model for Files {
    ghost use Rattle.std.specs.Prelude.{List};
    ghost use Rattle.crpd_base.specs.declared.data.Image.{Image};

    ghost Value = { List Image };

    ghost use Rattle.code_map.specs.Inner.StoredFiles.{AreStoredFiles};

    ghost view = { λ f. f.images };

    ghost invariant = { AreStoredFiles };
}

/// The index of one file.
fn own_index(alloc: Global, image: &Image) -> Result<Items<Run>, AllocError>
    requires { IsImage image.now }
    ensures { IfOk result (λ rs. IsOwnIndex rs image.now) }
{
    let indexed = index(alloc, slice::from_ref(image))?;
    Ok(Items::new(indexed.runs))
}

/// The index of each file alone.
fn own_indexes(alloc: Global, images: &[Image]) -> Result<Vec<Items<Run>>, AllocError>
    requires { All IsImage images.now }
    ensures count { IfOk result (λ v. length v.items ≡ length images.now) }
    ensures each { IfOk result
        (λ v. (k : ℕ) (r : List Run) (i : Image) → k < length images.now
        → IsOwnIndex (slice_index_or v.items k r) (slice_index_or images.now k i)) }
{
    let mut own = Vec::new(alloc);
    for image in images {
        own.push(own_index(alloc, image)?)?;
    }
    Ok(own)
}

/// Refuses files with different code bytes at an address.
fn refuse_conflict(conflict: Option<u32>) -> Result<(), MapError>
    ensures { result ≡ nowhere MapError.CodeConflict conflict }
{
    match conflict {
        Some(address) => Err(MapError::CodeConflict(address)),
        None => Ok(()),
    }
}

impl Files {
    #[tactic(auto, unfolding(crate::specs::Reading::files_of))]
    pub(crate) fn new(alloc: Global, images: Vec<Image>) -> Result<Self, MapError>
        requires { All IsImage images.items }
        ensures is { Gives MapError.Memory (λ f. f) result (files_of images.items) }
        ensures images { IfOk result (λ f. f ≡ images.items) }
    {
        let indexed = index(alloc, &images)?;
        refuse_conflict(indexed.conflict)?;
        let own = own_indexes(alloc, &images)?;
        Ok(Files {
            images: Items::new(images),
            runs: Items::new(indexed.runs),
            own: Items::new(own),
        })
    }

    /// The word at an address.
    pub(crate) fn word(&self, address: u32) -> Option<u32>
        ensures is { result ≡ word_at self.now address }
        ensures within { IfSome result (λ _. address + 4 ≤ end) }
    {
        word(self.images.as_slice(), self.runs.as_slice(), address)
    }

    /// Whether the word at an address is entirely in the file at a place.
    pub(crate) fn own(&self, place: usize, address: u32) -> bool
        requires { place < length self.now }
        ensures { option_map (λ i. owns i address) (slice_get self.now place) ≡ Some result }
    {
        let runs = &self.own[place];
        let image = slice::from_ref(&self.images[place]);
        word(image, runs.as_slice(), address).is_some()
    }

    /// The lowest address from `from` on at which a word is entirely in the file at a place.
    pub(crate) fn next_own(&self, place: usize, from: u32) -> Option<u32>
        requires { place < length self.now }
        ensures is { (i : Image) → slice_get self.now place ≡ Some i
            → IsNextOf (owns i) from result }
        ensures within { IfSome result (λ a. a + 4 ≤ end) }
    {
        let own = &self.own[place];
        let image = slice::from_ref(&self.images[place]);
        next_word(image, own.as_slice(), from)
    }

    pub(crate) fn images(&self) -> &[Image]
        ensures { result.now ≡ self.now }
    {
        self.images.as_slice()
    }

    /// The segments of each image are in the address space and disjoint, and none has more bytes
    /// than its size.
    pub(crate) fn images_law(&self)
        ensures { All IsImage self.now }
    {
        let _images = &self.images;
    }

    /// A word ends below the return address of jobs, and has 32 bits.
    pub(crate) fn words_law(&self)
        ensures { (a w : ℕ) → word_at self.now a ≡ Some w → (a + 4 ≤ end) × (w < 2 ^ 32) }
    {
        let _images = &self.images;
    }
}
