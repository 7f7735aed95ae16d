// The command `update`.
ghost use Rattle.std.specs.Prelude.{[], ◌∷◌, ◌++◌};
ghost use Rattle.std.specs.Prelude.{◌≡◌, IsErrOf};
ghost use Rattle.cert_check.specs.Verdict.{IsJudged, Yes};
ghost use Rattle.crpd_base.specs.CertificateRanges.{IsCertificate};
ghost use Rattle.crpd_input.specs.Asking.{AsksFor, set_files};
ghost use Rattle.crpd_input.specs.Steps.{HoldsFor, LeavesFiles, MeansBy};
ghost use Rattle.crpd_tool.specs.Shaped.{graphs_of};
ghost use Rattle.crpd_tool.specs.Update.{ChangeOf, UpdateEnds, UpdateOf};

use crate::answer::Answer;
use crate::ending::made_ending;
use crate::texts::write_verdict;
use cert_check::{Verdict, verdict};
use crpd_base::Certificate;
use crpd_input::{Halt, ShapedSet, load_certificate, load_renewed, load_shaped};
use crpd_io::Files;
use std::alloc::Global;

/// The answer with the update of an accepted certificate, for a set that was read from this file.
fn change(
    alloc: Global,
    file: &str,
    old: &ShapedSet,
    stated: &Certificate,
    new: &ShapedSet,
) -> Result<Answer, Halt>
    requires stated { IsCertificate stated.now }
    requires judged { IsJudged old.now.input.set (graphs_of old.now) stated.now Yes }
    ensures exact { MeansBy (ChangeOf file.now old.now stated.now new.now) result }
    ensures no_fault { ¬ IsErrOf result Halt.Fault }
{
    old.shaped_law();
    new.shaped_law();
    let set = new.set();
    match cert_update::update(
        alloc,
        old.set(),
        old.graphs(),
        old.nests(),
        stated,
        set,
        new.graphs(),
        new.nests(),
    ) {
        Ok(updated) => made_ending(alloc, file, set, Ok(updated.certificate)),
        Err(error) => made_ending(alloc, file, set, Err(error)),
    }
}

/// The answer with the update of a certificate to a new set, or the checker's no to the certificate
/// for the old set.
fn judged_change(
    alloc: Global,
    file: &str,
    old: &ShapedSet,
    stated: &Certificate,
    new: &ShapedSet,
) -> Result<Answer, Halt>
    requires { IsCertificate stated.now }
    ensures exact { MeansBy (UpdateOf file.now old.now stated.now new.now) result }
    ensures no_fault { ¬ IsErrOf result Halt.Fault }
{
    old.shaped_law();
    let old_set = old.set();
    let found = verdict(old_set, old.graphs(), old.nests(), stated);
    match found {
        Verdict::Yes => change(alloc, file, old, stated, new),
        Verdict::No { .. } => write_verdict(alloc, old_set, stated, &found),
    }
}

/// The answer with the update of the certificate of a file to the new set of a file, or the
/// checker's no to the certificate for the old set of a file.
pub(crate) fn update<F: Files>(
    alloc: Global,
    files: &mut F,
    old_set: &str,
    old_certificate: &str,
    new_set: &str,
) -> Result<Answer, Halt>
    ensures exact { HoldsFor (F.log files.old) (F.log files.new)
        (λ c. MeansBy (UpdateEnds c old_set.now old_certificate.now new_set.now) result) }
    ensures files { LeavesFiles F.contents F.faults F.log files.old files.new result }
    ensures asks { AsksFor (F.log files.old) (F.log files.new) (
        λ c. (set_files c old_set.now ++ old_certificate.now ∷ []) ++ set_files c new_set.now) result }
{
    let old = load_shaped(alloc, files, old_set)?;
    let stated = load_certificate(alloc, files, old_certificate)?;
    let new = load_renewed(alloc, files, new_set, &old)?;
    judged_change(alloc, new_set, &old, &stated, &new)
}
