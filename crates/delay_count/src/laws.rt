// How the delays and the demand grow, and that delays by shares are those of the tasks.
ghost use Rattle.delay_count.specs.Laws.{DelayGrows, DemandGrows, UcbOfShares, EcbOfShares};

/// A law: if the window, the cost of a reload or of a switch, a bound, a longest cost or a window
/// of a higher task grows, neither delay decreases, nor does the demand. In constant time.
pub fn growth_law()
    ensures delay { DelayGrows }
    ensures demand { DemandGrows }
{}

/// A law: from the shares of the tasks down to one, the computed delays are those of the tasks, by
/// both methods: the sum over the cache sets, and the largest sum over the choices of preempted
/// jobs. In constant time.
pub fn shares_law()
    ensures ucb { UcbOfShares }
    ensures ecb { EcbOfShares }
{}
