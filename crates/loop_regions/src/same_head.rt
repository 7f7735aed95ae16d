// Stated loops with one head.
ghost use Rattle.std.specs.Prelude.{◌<◌, length};
ghost use Rattle.loop_regions.specs.Inner.Least.{IsLeastNumber, IsHeadBefore};
ghost use Rattle.loop_regions.specs.Stated.{IsSameHead};

use crate::heads::loop_at;
use crate::least::lesser;
use crpd_base::LoopAt;

/// The head of a stated loop, if one before it has this head too.
fn repeated_head(loops: &[LoopAt], j: usize) -> Option<u32>
    requires { j < length loops.now }
    ensures { IsLeastNumber (IsHeadBefore loops.now j) result }
{
    let head = loops[j].head;
    if loop_at(&loops[..j], head).is_some() {
        Some(head)
    } else {
        None
    }
}

/// The smallest address at which two stated loops have their heads. Compares all pairs of loops, of
/// which there are at most 64.
pub(crate) fn least_same_head(loops: &[LoopAt]) -> Option<u32>
    ensures { IsLeastNumber (IsSameHead loops.now) result }
{
    let mut least = None;
    for j in 0..loops.len() {
        least = lesser(least, repeated_head(loops, j));
    }
    least
}
