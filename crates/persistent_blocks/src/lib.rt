//! Persistent blocks: where all nodes of a region that access a cache set access the same block, the
//! edge that enters the region pays for one load of it, and the analyses go on as if it had been
//! loaded there.
#![tactic(auto)]

mod laws;
mod part;
mod payments_table;
mod region_blocks;
mod region_heads;
mod region_pairs;

pub use laws::{
    a_persistent_part_exists, loop_with_call, nested_loops, no_regions, one_loop,
    one_persistent_bound, one_persistent_part, persistent_part_is_sound,
};
pub use part::{PersistentPart, persistent_part};
