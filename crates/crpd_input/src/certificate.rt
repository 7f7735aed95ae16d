// The certificate of a file.
ghost use Rattle.std.specs.Prelude.{IfOk, [], ◌∷◌};
ghost use Rattle.crpd_io.specs.Asked.{Asked};
ghost use Rattle.crpd_base.specs.CertificateRanges.{IsCertificate};
ghost use Rattle.crpd_input.specs.Steps.{HoldsFor, IsRefusal, LeavesFiles, Means};
ghost use Rattle.crpd_input.specs.Reading as spec;
ghost use Rattle.crpd_input.specs.Reading.{certificate_in};

use crate::cause::Cause;
use crate::halt::Halt;
use crate::load::load;
use crate::refuse::{refuse, refuse_count, refuse_plainly};
use cert_model::{CertError, read_certificate};
use crpd_base::{CERTIFICATE_BYTES, Certificate};
use crpd_io::Files;
use std::alloc::Global;

/// The refusal of a certificate's file, or out of memory.
fn certificate_halt(alloc: Global, file: &str, error: CertError) -> Halt
    ensures { IsRefusal (spec.certificate_halt file.now error) result }
{
    match error {
        CertError::Memory => Halt::Memory,
        CertError::NotJson => refuse_plainly(alloc, Cause::NotJson, file),
        CertError::Missing(key) => refuse(alloc, Cause::CertificateMissing, file, key),
        CertError::BadValue(key) => refuse(alloc, Cause::CertificateBadValue, file, key),
        CertError::TooLong(count) => refuse_count(alloc, Cause::CertificateTooLong, file, count),
        CertError::OtherVersion(version) => refuse_count(alloc, Cause::OtherVersion, file, version),
    }
}

/// The certificate of a file of at most 134,217,728 bytes.
///
/// Refused with 80 if there is no such file, with 81 if it is longer, and with 70 to 74 by its
/// text; the subject is the file. `Fault` is possible only if the files counted one. Cost: that of
/// reading the JSON text.
pub fn load_certificate<F: Files>(
    alloc: Global,
    files: &mut F,
    name: &str,
) -> Result<Certificate, Halt>
    ensures exact { HoldsFor (F.log files.old) (F.log files.new)
        (λ c. Means (certificate_in c name.now) result) }
    ensures ranges { IfOk result IsCertificate }
    ensures files { LeavesFiles F.contents F.faults F.log files.old files.new result }
    ensures asked { Asked (F.log files.old) (F.log files.new) (name.now ∷ []) }
{
    let bytes = load(alloc, files, name, CERTIFICATE_BYTES)?;
    match read_certificate(alloc, bytes.as_slice()) {
        Ok(certificate) => Ok(certificate),
        Err(error) => Err(certificate_halt(alloc, name, error)),
    }
}
