// The smallest node at which a clause fails.
ghost use Rattle.std.specs.Prelude.{◌≡◌, ◌↔◌, ◌≤◌, Some, if◌then◌else◌, IsTrue};
ghost use Rattle.cert_check.specs.Inner.JudgedNodes.{lesser as lesser_of};

/// The smaller of a node and another one, if that is known.
fn lesser(least: Option<u32>, node: u32) -> u32
    ensures { result ≡ lesser_of least node }
{
    match least {
        Some(least) => least.min(node),
        None => node,
    }
}

/// The smallest node so far at which a clause fails, with one more node, at which it holds or not.
pub(crate) fn least_failing(least: Option<u32>, node: u32, holds: bool) -> Option<u32>
    ensures { result ≡ (if holds then least else Some (lesser_of least node)) }
{
    if holds {
        least
    } else {
        Some(lesser(least, node))
    }
}

/// Whether a number is at most another one.
pub(crate) fn at_most(a: u128, b: u128) -> bool
    ensures { IsTrue result ↔ (a ≤ b) }
{
    a <= b
}
