// Code bytes stored as runs, each of which names a segment and an address in it, so that a byte is
// found by the starts of the runs.
ghost use Rattle.std.specs.Prelude.{◌≡◌, ℕ, ◌+◌, ◌*◌, ◌<◌, ◌≤◌, length, slice_index, AllPairs};
ghost use Rattle.std.specs.Prelude.{IfSome, ◌%◌, ◌==◌, ◌&&◌, not, slice_get, option_map, drop, None};
ghost use Rattle.std.specs.List.{AllWithin};
ghost use Rattle.std.specs.List.Sorted.{IsNonDecreasingBy};
ghost use Rattle.code_map.specs.Words.{little_endian, word_by, end};
ghost use Rattle.code_map.specs.Inner.NextPassing.{IsNextAddress, IsNextInRun};
ghost use Rattle.code_map.specs.Inner.Pieces.{segment_at};
ghost use Rattle.code_map.specs.Inner.Runs.{run_bytes, runs_byte, have_word};
ghost use Rattle.code_map.specs.Inner.Runs.{IsRunBefore, AreBytesFrom};

use crpd_base::{Image, Segment};

/// The return address of jobs, at which there is no word.
const END: u32 = 0xFFFF_FFFC;

/// Bytes at consecutive addresses: those of a segment from an address on.
#[derive(Clone, Copy)]
pub(crate) struct Run {
    /// The address of the first byte.
    pub(crate) start: u32,
    /// The place of the file among all.
    pub(crate) file: usize,
    /// The place of the segment in the file.
    pub(crate) segment: usize,
}

/// How many runs start at or below an address.
fn runs_up_to(runs: &[Run], address: u32) -> usize
    requires { IsNonDecreasingBy (λ r. r.start) runs.now }
    ensures bound { result ≤ length runs.now }
    ensures before { AllWithin (λ r. r.start ≤ address) runs.now 0 result }
    ensures after { AllWithin (λ r. address < r.start) runs.now result (length runs.now) }
{
    runs.partition_point(|run| run.start <= address)
}

/// The segment of a run.
fn segment_of<'a>(images: &'a [Image], run: &Run) -> Option<&'a Segment>
    ensures { option_map (λ s. s.now) result
        ≡ segment_at images.now run.now.file run.now.segment }
{
    images.get(run.file)?.segments.as_slice().get(run.segment)
}

/// The bytes after the first ones, of which there are `count`.
fn after(bytes: &[u8], count: u32) -> &[u8]
    ensures { result.now ≡ drop count bytes.now }
{
    let count = (count as usize).min(bytes.len());
    &bytes[count..]
}

/// The bytes of a run; none if the images have no such segment, which no index names.
#[tactic(auto, unfolding(crate::specs::Inner::Runs::run_bytes))]
fn bytes_of<'a>(images: &'a [Image], run: &Run) -> &'a [u8]
    ensures { result.now ≡ run_bytes images.now run.now }
{
    match segment_of(images, run) {
        Some(segment) => after(
            segment.bytes.as_slice(),
            run.start.saturating_sub(segment.address),
        ),
        None => &[],
    }
}

/// The bytes from an address on, up to the end of the run that has it; none if no run has it.
fn bytes_from<'a>(images: &'a [Image], runs: &[Run], address: u32) -> &'a [u8]
    requires { AllPairs (IsRunBefore images.now) runs.now }
    ensures { AreBytesFrom images.now runs.now address result.now }
{
    let count = runs_up_to(runs, address);
    if count == 0 {
        return &[];
    }
    let run = &runs[count - 1];
    after(bytes_of(images, run), address - run.start)
}

/// The byte at an address.
fn byte(images: &[Image], runs: &[Run], address: u32) -> Option<u8>
    requires { AllPairs (IsRunBefore images.now) runs.now }
    ensures { result ≡ runs_byte images.now runs.now address }
{
    bytes_from(images, runs, address).first().copied()
}

/// The number of four bytes, the lowest first.
fn number(bytes: &[u8]) -> u32
    requires { length bytes.now ≡ 4 }
    ensures { result ≡ slice_index bytes.now 0 + 256 * slice_index bytes.now 1
        + 65536 * slice_index bytes.now 2 + 16777216 * slice_index bytes.now 3 }
{
    let (low, high) = (u32::from(bytes[0]), u32::from(bytes[1]));
    let (third, fourth) = (u32::from(bytes[2]), u32::from(bytes[3]));
    low + 256 * high + 65536 * third + 16_777_216 * fourth
}

/// The number of the four bytes from an address on, which may be in several runs.
fn number_across(images: &[Image], runs: &[Run], address: u32) -> Option<u32>
    requires apart { AllPairs (IsRunBefore images.now) runs.now }
    requires below { address + 4 ≤ end }
    ensures { result ≡ little_endian (runs_byte images.now runs.now address)
        (runs_byte images.now runs.now (address + 1))
        (runs_byte images.now runs.now (address + 2))
        (runs_byte images.now runs.now (address + 3)) }
{
    let first = byte(images, runs, address)?;
    let second = byte(images, runs, address + 1)?;
    let third = byte(images, runs, address + 2)?;
    let fourth = byte(images, runs, address + 3)?;
    Some(number(&[first, second, third, fourth]))
}

/// Whether there may be a word at an address.
fn takes_word(address: u32) -> bool
    ensures { result ≡ (address % 4 == 0 && not (address == end)) }
{
    address % 4 == 0 && address != END
}

/// The word at an address.
pub(crate) fn word(images: &[Image], runs: &[Run], address: u32) -> Option<u32>
    requires { AllPairs (IsRunBefore images.now) runs.now }
    ensures { result ≡ word_by (runs_byte images.now runs.now) address }
{
    if !takes_word(address) {
        return None;
    }
    let bytes = bytes_from(images, runs, address);
    if bytes.len() < 4 {
        return number_across(images, runs, address);
    }
    Some(number(&bytes[..4]))
}

/// The lowest address from `from` on, and from the start of the run at a place on, at which there
/// is a word whose first byte is in the run or after it; None if no such word begins in the run.
fn next_in(images: &[Image], runs: &[Run], place: usize, from: u32) -> Option<u32>
    requires apart { AllPairs (IsRunBefore images.now) runs.now }
    requires within { place < length runs.now }
    ensures is { IsNextInRun images.now runs.now place from result }
    ensures within { IfSome result (λ a. a + 4 ≤ end) }
{
    let low = runs[place].start.max(from);
    if low >= END {
        return None;
    }
    let address = low + (4 - low % 4) % 4;
    if word(images, runs, address).is_none() {
        return None;
    }
    Some(address)
}

/// The lowest address from `from` on at which there is a word.
pub(crate) fn next_word(images: &[Image], runs: &[Run], from: u32) -> Option<u32>
    requires { AllPairs (IsRunBefore images.now) runs.now }
    ensures is { IsNextAddress (have_word images.now runs.now) from result }
    ensures within { IfSome result (λ a. a + 4 ≤ end) }
{
    let first = runs_up_to(runs, from).saturating_sub(1);
    for place in first..runs.len() {
        if let Some(address) = next_in(images, runs, place, from) {
            return Some(address);
        }
    }
    None
}
