// Laws of persistent parts. Each is a function that does nothing, in constant time; its contract is
// the statement.
ghost use Rattle.persistent_blocks.specs.Laws.{PersistentPartIsSound, OnePersistentBound};
ghost use Rattle.persistent_blocks.specs.Laws.{OnePersistentPart, APersistentPartExists, NoRegions};
ghost use Rattle.persistent_blocks.specs.OneLoop.{OneLoop};
ghost use Rattle.persistent_blocks.specs.NestedLoops.{NestedLoops};
ghost use Rattle.persistent_blocks.specs.LoopWithCall.{LoopWithCall};

/// A law: a persistent part is the bound and the sets of a sound part. In constant time.
pub fn persistent_part_is_sound()
    ensures { PersistentPartIsSound }
{}

/// A law: a task has at most one persistent bound. In constant time.
pub fn one_persistent_bound()
    ensures { OnePersistentBound }
{}

/// A law: a task has at most one persistent part. In constant time.
pub fn one_persistent_part()
    ensures { OnePersistentPart }
{}

/// A law: it cannot be that a task has no persistent part. In constant time.
pub fn a_persistent_part_exists()
    ensures { APersistentPartExists }
{}

/// A law: without regions a persistent part is the plain one. In constant time.
pub fn no_regions()
    ensures { NoRegions }
{}

/// A law: of a task with a loop, the persistent pairs, the payments, the prepaid hits and the
/// persistent bound. So there are persistent pairs, and edges that pay for them. In constant time.
pub fn one_loop()
    ensures { OneLoop }
{}

/// A law: the same of a task with a loop in a loop: the edge that enters the outer loop pays for the
/// lines of both. In constant time.
pub fn nested_loops()
    ensures { NestedLoops }
{}

/// A law: the same of a task with a call in a loop: the edge that enters the loop pays for the lines of
/// the function, too. In constant time.
pub fn loop_with_call()
    ensures { LoopWithCall }
{}
