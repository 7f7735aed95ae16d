// Laws on the outputs of all commands.
ghost use Rattle.std.specs.Prelude.{ℕ, List};
ghost use Rattle.crpd_io.specs.Outside.{Contents};
ghost use Rattle.crpd_tool.specs.AcceptedText.{DoneIsAccepted};
ghost use Rattle.crpd_tool.specs.AnalyzeLaw.{DoneIsBest};
ghost use Rattle.crpd_tool.specs.ClassicIsNoShorter.{ClassicIsNoShorter};
ghost use Rattle.crpd_tool.specs.ClassicLaw.{DoneIsClassic};
ghost use Rattle.crpd_tool.specs.ExplainLaw.{DoneIsExplained};
ghost use Rattle.crpd_tool.specs.GenerateLaw.{DoneIsGenerated};
ghost use Rattle.crpd_tool.specs.Output.{AnOutputExists, OneAnswer, OutputsAreWhole};
ghost use Rattle.crpd_tool.specs.RefineLaw.{DoneIsRefined};
ghost use Rattle.crpd_tool.specs.RefinedToo.{AnalyzedIsRefined};
ghost use Rattle.crpd_tool.specs.Safety.{DoneIsSafe};
ghost use Rattle.crpd_tool.specs.SimulateLaw.{DoneIsReported};
ghost use Rattle.crpd_tool.specs.SlackLaw.{CostsGrow, DoneIsSlack};
ghost use Rattle.crpd_tool.specs.Undisturbed.{DoneIsBounded};
ghost use Rattle.crpd_tool.specs.UpdateLaw.{DoneIsUpdate};
ghost use Rattle.crpd_tool.specs.UpdatedIsAnalyzed.{UpdatedIsAnalyzed};

use cert_update::update_laws;
use crpd_report::late_law;
use delay_classic::certificate_law;
use delay_point::refined_law;
use run_account::ledger_facts;
use sensitivity::{acceptance_law, costs_law};
use sound_laws::{
    checked_account_is_within_delay, checked_account_is_within_delays, checked_code_is_bounded,
    checked_code_is_safe,
};

/// A law: for any words and contents there is exactly one output, which is a whole text, and what
/// outputs with the status Done state is true.
pub(crate) fn output_laws()
    ensures one_answer { OneAnswer }
    ensures an_output_exists { AnOutputExists }
    ensures whole_outputs { OutputsAreWhole }
    ensures safety { (words : List (List ℕ)) (c : Contents) → DoneIsSafe words c }
    ensures undisturbed_bound { (words : List (List ℕ)) (c : Contents) → DoneIsBounded words c }
    ensures report { (words : List (List ℕ)) (c : Contents) → DoneIsReported words c }
    ensures analyze_exact { (words : List (List ℕ)) (c : Contents) → DoneIsBest words c }
    ensures classic_sound { (words : List (List ℕ)) (c : Contents) → DoneIsClassic words c }
    ensures slack_exact { (words : List (List ℕ)) (c : Contents) → DoneIsSlack words c }
    ensures refined_is_safe { (words : List (List ℕ)) (c : Contents) → DoneIsRefined words c }
    ensures analyze_then_refine { (words : List (List ℕ)) (c : Contents)
        → AnalyzedIsRefined words c }
    ensures update_exact { (words : List (List ℕ)) (c : Contents) → DoneIsUpdate words c }
    ensures classic_and_analyze { ClassicIsNoShorter }
    ensures analyze_then_update { UpdatedIsAnalyzed }
    ensures analyze_then_check { (words : List (List ℕ)) (c : Contents)
        → DoneIsAccepted words c }
    ensures generate_safe { (words : List (List ℕ)) (c : Contents) → DoneIsGenerated words c }
    ensures ledger_within_delays { (words : List (List ℕ)) (c : Contents)
        → DoneIsExplained words c }
    ensures costs_grow { CostsGrow }
{
    checked_code_is_safe();
    checked_code_is_bounded();
    certificate_law();
    acceptance_law();
    costs_law();
    refined_law();
    update_laws();
    late_law();
    ledger_facts();
    checked_account_is_within_delays();
    checked_account_is_within_delay();
}
