// The smaller of two numbers.
ghost use Rattle.std.specs.Prelude.{◌≡◌};
ghost use Rattle.loop_regions.specs.Inner.Least.{lesser};

/// The smaller of two numbers, or the only one present.
pub(crate) fn lesser(a: Option<u32>, b: Option<u32>) -> Option<u32>
    ensures { result ≡ lesser a b }
{
    match (a, b) {
        (Some(first), Some(second)) => {
            if second < first {
                Some(second)
            } else {
                Some(first)
            }
        }
        (Some(first), None) => Some(first),
        (None, second) => second,
    }
}
