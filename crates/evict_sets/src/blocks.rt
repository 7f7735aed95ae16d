// A state as the block of each cache set.
ghost use Rattle.std.specs.Prelude.{◌≡◌, ◌↔◌, ◌<◌, ℕ, Some, None, length, slice_set, IsTrue, All};
ghost use Rattle.crpd_base.specs.Limits.{most_sets};
ghost use Rattle.icache.specs.Cache.{held};
ghost use Rattle.evict_sets.specs.ListedPart.{block_of_set};

use crpd_base::{SetBits, WORDS};

/// Removes the block of each cache set.
fn clear(blocks: &mut [Option<u32>])
    ensures { (s : ℕ) → held blocks.new s ≡ None }
{
    for k in 0..blocks.len() {
        blocks[k] = None;
    }
}

/// Stores the listed blocks in their cache sets, and none in the others. Of two entries for one set
/// the first counts.
pub(crate) fn load(blocks: &mut [Option<u32>], sure: &[(u16, u32)])
    requires low { All (λ (x : ℕ × ℕ). x.0 < most_sets) sure.now }
    requires room { length blocks.old ≡ most_sets }
    ensures { (s : ℕ) → held blocks.new s ≡ block_of_set sure.now s }
{
    clear(blocks);
    for done in 0..sure.len() {
        let (set, block) = sure[sure.len() - 1 - done];
        blocks[set as usize] = Some(block);
    }
}

/// Whether a block is in a cache set.
fn is_held(blocks: &[Option<u32>], set: u16, block: u32) -> bool
    requires { set < length blocks.now }
    ensures { IsTrue result ↔ (held blocks.now set ≡ Some block) }
{
    blocks[set as usize] == Some(block)
}

/// Whether each listed block is in its cache set, by the blocks of the 512 cache sets. Of two
/// entries for one set the first counts. One pass over the entries. It takes no memory.
pub fn are_held(blocks: &[Option<u32>], sure: &[(u16, u32)]) -> bool
    requires low { All (λ (x : ℕ × ℕ). x.0 < most_sets) sure.now }
    requires room { length blocks.now ≡ most_sets }
    ensures { IsTrue result ↔ ((s m : ℕ) → block_of_set sure.now s ≡ Some m
        → held blocks.now s ≡ Some m) }
{
    let mut seen = SetBits::<WORDS>::new();
    for k in 0..sure.len() {
        let (set, block) = sure[k];
        if !seen.has(set) {
            if !is_held(blocks, set, block) {
                return false;
            }
            seen.insert(set);
        }
    }
    true
}

/// Stores a block in a cache set. Returns whether it was there.
pub(crate) fn access(blocks: &mut [Option<u32>], set: u16, block: u32) -> bool
    requires room { set < length blocks.old }
    ensures hit { IsTrue result ↔ (held blocks.old set ≡ Some block) }
    ensures after { blocks.new ≡ slice_set blocks.old set (Some block) }
{
    let hit = is_held(blocks, set, block);
    blocks[set as usize] = Some(block);
    hit
}
