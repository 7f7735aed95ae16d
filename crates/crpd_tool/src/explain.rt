// The command `explain`.
ghost use Rattle.std.specs.Prelude.{[], ◌∷◌, ◌++◌};
ghost use Rattle.std.specs.Prelude.{◌≤◌, length, IsErrOf};
ghost use Rattle.cert_check.specs.Verdict.{IsJudged, Yes};
ghost use Rattle.crpd_base.specs.CertificateRanges.{IsCertificate};
ghost use Rattle.crpd_input.specs.Asking.{AsksFor, set_files};
ghost use Rattle.crpd_input.specs.Steps.{HoldsFor, LeavesFiles, MeansBy};
ghost use Rattle.preempt_machine.specs.Safe.{NamesTasks};
ghost use Rattle.crpd_tool.specs.Explain.{AccountOf, ExplainEnds, ExplanationOf};
ghost use Rattle.crpd_tool.specs.Shaped.{graphs_of};

use crate::answer::{Answer, Outcome};
use crate::texts::write_verdict;
use cert_check::{Verdict, verdict};
use crpd_base::{Certificate, Items, Script};
use crpd_input::{Halt, ShapedSet, load_certificate, load_script, load_shaped};
use crpd_io::Files;
use crpd_report::explain_text;
use std::alloc::Global;

/// The account of a script's run, for an accepted certificate.
fn account_answer(
    alloc: Global,
    shaped: &ShapedSet,
    certificate: &Certificate,
    script: &Script,
) -> Result<Answer, Halt>
    requires ranges { IsCertificate certificate.now }
    requires tasks { NamesTasks shaped.now.input.set script.now.jobs }
    requires few { length script.now.jobs ≤ 10000 }
    requires judged { IsJudged shaped.now.input.set (graphs_of shaped.now) certificate.now Yes }
    ensures exact { MeansBy (AccountOf shaped.now certificate.now script.now) result }
    ensures no_fault { ¬ IsErrOf result Halt.Fault }
{
    shaped.shaped_law();
    let set = shaped.set();
    let account = run_account::account(
        alloc,
        shaped.input().code(),
        set,
        shaped.graphs(),
        certificate,
        script,
    )?;
    let text = explain_text(alloc, set, certificate, script, &account)?;
    Ok(Answer {
        text: Items::new(text),
        outcome: Outcome::Done,
    })
}

/// The account of a script's run, or the checker's no to the certificate.
fn explanation(
    alloc: Global,
    shaped: &ShapedSet,
    certificate: &Certificate,
    script: &Script,
) -> Result<Answer, Halt>
    requires ranges { IsCertificate certificate.now }
    requires tasks { NamesTasks shaped.now.input.set script.now.jobs }
    requires few { length script.now.jobs ≤ 10000 }
    ensures exact { MeansBy (ExplanationOf shaped.now certificate.now script.now) result }
    ensures no_fault { ¬ IsErrOf result Halt.Fault }
{
    shaped.shaped_law();
    let set = shaped.set();
    let found = verdict(set, shaped.graphs(), shaped.nests(), certificate);
    match found {
        Verdict::Yes => account_answer(alloc, shaped, certificate, script),
        Verdict::No { .. } => write_verdict(alloc, set, certificate, &found),
    }
}

/// The account of the run of a file's script for the set of a file, or the checker's no to the
/// certificate of a file.
pub(crate) fn explain<F: Files>(
    alloc: Global,
    files: &mut F,
    set: &str,
    certificate: &str,
    script: &str,
) -> Result<Answer, Halt>
    ensures exact { HoldsFor (F.log files.old) (F.log files.new)
        (λ c. MeansBy (ExplainEnds c set.now certificate.now script.now) result) }
    ensures files { LeavesFiles F.contents F.faults F.log files.old files.new result }
    ensures asks { AsksFor (F.log files.old) (F.log files.new) (
        λ c. (set_files c set.now ++ certificate.now ∷ []) ++ script.now ∷ []) result }
{
    let shaped = load_shaped(alloc, files, set)?;
    let stated = load_certificate(alloc, files, certificate)?;
    let given = load_script(alloc, files, script, shaped.set())?;
    explanation(alloc, &shaped, &stated, &given)
}
