// The command `analyze`.
ghost use Rattle.crpd_input.specs.Asking.{AsksFor, set_files};
ghost use Rattle.crpd_input.specs.Steps.{HoldsFor, LeavesFiles, MeansBy};
ghost use Rattle.crpd_tool.specs.Analyze.{AnalyzeEnds};

use crate::answer::Answer;
use crate::ending::made_ending;
use cert_build::certify;
use crpd_input::{Halt, load_shaped};
use crpd_io::Files;
use std::alloc::Global;

/// The answer of the analysis of the set of a file.
pub(crate) fn analyze<F: Files>(alloc: Global, files: &mut F, set: &str) -> Result<Answer, Halt>
    ensures exact { HoldsFor (F.log files.old) (F.log files.new)
        (λ c. MeansBy (AnalyzeEnds c set.now) result) }
    ensures files { LeavesFiles F.contents F.faults F.log files.old files.new result }
    ensures asks { AsksFor (F.log files.old) (F.log files.new) (λ c. set_files c set.now) result }
{
    let shaped = load_shaped(alloc, files, set)?;
    shaped.shaped_law();
    let made = certify(alloc, shaped.set(), shaped.graphs(), shaped.nests());
    made_ending(alloc, set, shaped.set(), made)
}
