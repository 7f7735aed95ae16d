// The cache and the data memory from which a script starts.
ghost use Rattle.std.specs.Prelude.{◌≡◌, ◌+◌, ◌<◌, ◌≤◌, ◌^◌, length, All, IfOk, OnOk};
ghost use Rattle.crpd_base.specs.Limits.{most_sets};
ghost use Rattle.preempt_machine.specs.Starts.{start_cache, start_memory, with_blocks};
ghost use Rattle.preempt_machine.specs.Starts.{with_segment, with_segments};

use code_map::CodeMap;
use crpd_base::{Memory, SETS, Script, Segment, TaskSet};
use icache::{Cache, Geometry};
use rv_core::DataMemory;
use std::alloc::Global;

/// The cache at the start of a script: each block of its list is in its cache set, a later block
/// replaces an earlier one, and all other sets are empty. It takes no memory; its time is linear in
/// the list.
pub fn start_cache(set: &TaskSet, script: &Script) -> Cache<SETS>
    requires line { 0 < set.now.platform.line }
    requires sets { 0 < set.now.platform.sets }
    requires few { set.now.platform.sets ≤ most_sets }
    ensures is { result ≡ start_cache set.now.platform script.now.cache }
    ensures room { length result ≡ most_sets }
{
    let geometry = Geometry::new(&set.platform);
    let mut cache = Cache::empty();
    for block in script.cache.as_slice() {
        cache.access(&geometry, *block);
    }
    cache
}

/// Writes a segment to the memory: its bytes of the file, and 0 at its addresses after them.
fn put_segment(memory: &mut DataMemory, segment: &Segment) -> Result<(), Memory>
    requires below { segment.now.address + segment.now.size ≤ 2 ^ 32 }
    requires sized { length segment.now.bytes ≤ segment.now.size }
    ensures { OnOk result (memory.new ≡ with_segment memory.old segment.now) }
{
    memory.clear(segment.address, segment.size);
    memory.put_all(segment.address, segment.bytes.as_slice())
}

/// Writes the segments of a file to the memory.
fn put_segments(memory: &mut DataMemory, segments: &[Segment]) -> Result<(), Memory>
    requires below { All (λ s. s.address + s.size ≤ 2 ^ 32) segments.now }
    requires sized { All (λ s. length s.bytes ≤ s.size) segments.now }
    ensures { OnOk result (memory.new ≡ with_segments memory.old segments.now) }
{
    for segment in segments {
        put_segment(memory, segment)?;
    }
    Ok(())
}

/// The data memory at the start of a script: the bytes of the segments of all tasks' files, in the
/// order of the tasks. A later file replaces the bytes of an earlier one. A segment's addresses
/// past its bytes of the file hold 0, and so do all others.
///
/// Time is that of one pass over the segments and all their bytes of the files, with a look-up for
/// each segment and for each 64 bytes that is logarithmic in the stored pages. A page that a later
/// segment removes was stored by an earlier one. Out of memory is the only error.
///
/// Source: Tool Interface Standard, Executable and Linking Format, version 1.2, book I (p_filesz,
/// p_memsz).
pub fn start_memory(alloc: Global, code: &CodeMap) -> Result<DataMemory, Memory>
    ensures { IfOk result (λ memory. memory ≡ start_memory code.now.images) }
{
    code.images_law();
    let mut memory = DataMemory::new(alloc);
    for image in code.images() {
        put_segments(&mut memory, image.segments.as_slice())?;
    }
    Ok(memory)
}
