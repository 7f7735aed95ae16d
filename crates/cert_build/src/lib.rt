//! The analysis' certificate: how it is made, what it is, and the laws by which it satisfies the
//! clauses.
#![tactic(auto)]

ghost use Rattle.cert_build.specs.Best.{BestIsJudgedLaw, ChoicesLaw, OneBestLaw};
ghost use Rattle.cert_build.specs.BestLaws.{BestMeetsLaw, BestSetsLaw, BestStateLaw, BestUsefulLaw};
ghost use Rattle.cert_build.specs.BestLaws.{EnoughSetsLaw};
ghost use Rattle.cert_build.specs.TwoWords.{TwoWords};
ghost use Rattle.cert_build.specs.AnalysisEnds.{AnAnalysisExists};
ghost use Rattle.cert_build.specs.CertificateEnds.{ACertificateExists};

mod all_tasks;
mod completed;
mod error;
mod leader_states;
mod one_task;

pub use all_tasks::{analyse_all, analyse_task, certify};
pub use completed::{assemble, complete, parts_of};
pub use error::BuildError;
pub use one_task::{Analysis, PointAnalysis, analyse, analyse_points};

/// A law: the full states and useful sets of a listing of Sure and Useful are Sure and Useful at
/// all nodes, and satisfy the clauses on them. The clause on the task's sets holds at all nodes
/// exactly if these include its evicting and its useful cache blocks. In constant time.
pub fn best_laws()
    ensures best_state { BestStateLaw }
    ensures best_useful { BestUsefulLaw }
    ensures best_meets { BestMeetsLaw }
    ensures best_sets { BestSetsLaw }
    ensures enough_sets { EnoughSetsLaw }
{}

/// A law: the checker accepts the analysis' certificate. In constant time.
pub fn best_is_judged()
    ensures { BestIsJudgedLaw }
{}

/// A law: if the windows in a certificate are those found for its parts, they are those of the
/// analysis' certificate. In constant time.
pub fn choices_law()
    ensures { ChoicesLaw }
{}

/// A law: a task set has at most one such certificate. In constant time.
pub fn one_best()
    ensures { OneBestLaw }
{}

/// A law, by an example: the analysis' certificate of a task of two words. In constant time.
pub fn two_words()
    ensures { TwoWords }
{}

/// A law: it cannot be that a task's code has neither an analysis nor too large a bound. In
/// constant time.
pub fn an_analysis_exists()
    ensures { AnAnalysisExists }
{}

/// A law: it cannot be that a set has neither a certificate by a demand nor an error. In constant
/// time.
pub fn a_certificate_exists()
    ensures { ACertificateExists }
{}
