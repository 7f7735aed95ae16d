//! What a task's part says of the walks of its graph, and parts whose loads are paid for in advance.
//! Each law is a function that does nothing, in constant time; its contract is the statement.
#![tactic(auto)]

ghost use Rattle.walk_parts.specs.Credit.{CreditLaw, PrepaidLaw, PrepaidAfterLaw, CreditCarryLaw};
ghost use Rattle.walk_parts.specs.PaidParts.{PaidPartIsSound};
ghost use Rattle.walk_parts.specs.Priced.{PotentialsCoverPrices};

/// A law: each access in credit, and each set in credit at the end of a walk, was paid for.
pub fn credit_law()
    ensures { CreditLaw }
{}

/// A law: a set that holds a block before a node is in credit, or the walk's last access to it was
/// to that block.
pub fn prepaid_law()
    ensures { PrepaidLaw }
{}

/// A law: the same after the node.
pub fn prepaid_after_law()
    ensures { PrepaidAfterLaw }
{}

/// A law: the set of a hit that is not in credit is useful since its last access.
pub fn credit_carry_law()
    ensures { CreditCarryLaw }
{}

/// A law: states, potentials and useful sets with payments make a sound part.
pub fn paid_part_is_sound()
    ensures { PaidPartIsSound }
{}

/// A law: potentials with prices cover the prices.
pub fn potentials_cover_prices()
    ensures { PotentialsCoverPrices }
{}
