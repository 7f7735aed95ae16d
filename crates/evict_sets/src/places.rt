// The places of the nodes' entries in a list of states.
ghost use Rattle.std.specs.Prelude.{◌≡◌, length};
ghost use Rattle.evict_sets.specs.Listing.{IsEntryIndex};

use crpd_base::NodeState;

/// Writes, for each of `nodes` nodes, the place of its entry in a list of states: the first one if
/// it has several, and `None` exactly if it has none. One pass over nodes and states. It takes no
/// memory.
pub(crate) fn index(states: &[NodeState], nodes: usize, places: &mut [Option<usize>])
    requires { length places.old ≡ nodes }
    ensures { IsEntryIndex states.now nodes places.new }
{
    places.fill(None);
    for done in 0..states.len() {
        let place = states.len() - 1 - done;
        let node = states[place].node as usize;
        if node < nodes {
            places[node] = Some(place);
        }
    }
}
