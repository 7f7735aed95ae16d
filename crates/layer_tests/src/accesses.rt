// Accesses to a small cache, in sequence.
ghost use Rattle.std.specs.Prelude.{◌≡◌};

use crpd_base::{Platform, Switching};
use icache::{Access, Cache, Geometry};

// Four cache sets of lines of 16 bytes.
fn geometry() -> Geometry
    ensures { result.platform.sets ≡ 4 }
{
    Geometry::new(&Platform {
        line: 16,
        sets: 4,
        hit: 1,
        miss: 11,
        memory: 1,
        taken: 1,
        switch: 5,
        mul: 1,
        div: 1,
        switching: Switching::Cycle,
    })
}

// Addresses with their blocks and their cache sets.
static PLACES: [(u32, u32, u16); 6] = [
    (0, 0, 0),
    (15, 0, 0),
    (16, 1, 1),
    (0x1004, 0x100, 0),
    (0x1050, 0x105, 1),
    (0xFFFF_FFFC, 0x0FFF_FFFF, 3),
];

// Blocks that are accessed in sequence, and the result of each access.
static FOUND: [(u32, Access); 8] = [
    (0x100, Access::Miss),
    (0x100, Access::Hit),
    (0x101, Access::Miss),
    (0x100, Access::Hit),
    (0x104, Access::Miss),
    (0x100, Access::Miss),
    (0x101, Access::Hit),
    (0, Access::Miss),
];

#[test]
fn blocks_and_sets(rt: HostRuntime) {
    let geometry = geometry();
    for &(address, block, set) in &PLACES {
        assert!(rt; geometry.block(address) == block && geometry.set(block) == set);
    }
}

#[test]
fn hits_and_misses(rt: HostRuntime) {
    let geometry = geometry();
    let mut cache = Cache::<4>::empty();
    for &(block, found) in &FOUND {
        assert!(rt; cache.access(&geometry, block) == found);
    }
    assert!(rt; cache.holds(0) == Some(0) && cache.holds(1) == Some(0x101));
    assert!(rt; cache.holds(2).is_none());
}
