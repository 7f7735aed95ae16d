// The delay by program point covers the reloads, and refined windows are safe.
ghost use Rattle.delay_point.specs.Laws.{PointCovers, PointWithinEcb, RefinedIsSafe, OneRefined};
ghost use Rattle.delay_point.specs.Laws.{OneRefineEnd, RefinedIsNoLonger};
ghost use Rattle.delay_point.specs.Laws.{RefinementExists, RefinedHaveWalks, ChosenIsBounded};
ghost use Rattle.delay_point.specs.Laws.{PrepaidStates};
ghost use Rattle.delay_point.specs.PartWindows.{PartPointCovers, PartPointWithinEcb, PartsAreSafe};

/// A law: in a legal and kept run, for a completed job and a higher task, the reloads of the job's
/// window with a preemptor of that task take at most the delay by program point, with the refined
/// windows. This delay is at most the ECB-union multiset delay with the same windows. In constant
/// time.
pub fn point_law()
    ensures covers { PointCovers }
    ensures within { PointWithinEcb }
{}

/// A law: a task set in its ranges with its code is safe with the responses of windows that hold
/// their demand by sound parts, where each window has parts of all tasks and a method of its own. In
/// each legal and kept run the delay by program point covers the reloads by any sound parts, and it
/// is at most the ECB-union multiset delay by the same parts. In constant time.
pub fn parts_law()
    ensures safe { PartsAreSafe }
    ensures covers { PartPointCovers }
    ensures within { PartPointWithinEcb }
{}

/// A law: the plain and the chosen parts of a set are those of sound parts, by which refined windows
/// hold their demand. In a kept run, legal or not, an undisturbed job completes within its switch
/// and the bound of its chosen part. What prepaid states hold before the node of an open job is in
/// credit, or the job's own last fetch. In constant time.
pub fn chosen_law()
    ensures walks { RefinedHaveWalks }
    ensures bounded { ChosenIsBounded }
    ensures states { PrepaidStates }
{}

/// A law: a task set in its ranges with its code is safe with the responses of refined windows,
/// over all five methods and any mixture of them. There is at most one list of them, and at most
/// one of a list and a refusal other than out of memory. If the analysis gives a certificate, there
/// are refined windows, none of them longer than the certificate's. In constant time.
pub fn refined_law()
    ensures safe { RefinedIsSafe }
    ensures one { OneRefined }
    ensures one_end { OneRefineEnd }
    ensures no_longer { RefinedIsNoLonger }
{}

/// A law: it cannot be that a set has neither refined windows nor an error. In constant time.
pub fn a_refinement_exists()
    ensures { RefinementExists }
{}
