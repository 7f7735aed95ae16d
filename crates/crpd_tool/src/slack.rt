// The command `slack`.
ghost use Rattle.crpd_input.specs.Asking.{AsksFor, set_files};
ghost use Rattle.crpd_input.specs.Steps.{HoldsFor, LeavesFiles, MeansBy};
ghost use Rattle.crpd_tool.specs.Slack.{SlackEnds};

use crate::answer::{Answer, Outcome};
use crpd_base::Items;
use crpd_input::{Halt, load_shaped};
use crpd_io::Files;
use crpd_report::slack_text;
use sensitivity::{greatest_miss, greatest_switch};
use std::alloc::Global;

/// The answer with the largest accepted costs of the set of a file.
pub(crate) fn slack<F: Files>(alloc: Global, files: &mut F, file: &str) -> Result<Answer, Halt>
    ensures exact { HoldsFor (F.log files.old) (F.log files.new)
        (λ c. MeansBy (SlackEnds c file.now) result) }
    ensures files { LeavesFiles F.contents F.faults F.log files.old files.new result }
    ensures asks { AsksFor (F.log files.old) (F.log files.new) (λ c. set_files c file.now) result }
{
    let shaped = load_shaped(alloc, files, file)?;
    shaped.shaped_law();
    let set = shaped.set();
    let graphs = shaped.graphs();
    let nests = shaped.nests();
    let by_switch = greatest_switch(alloc, set, graphs, nests)?;
    let by_miss = greatest_miss(alloc, set, graphs, nests)?;
    let text = slack_text(alloc, set, &by_switch, &by_miss)?;
    Ok(Answer {
        text: Items::new(text),
        outcome: Outcome::Done,
    })
}
