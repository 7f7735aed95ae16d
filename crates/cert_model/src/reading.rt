//! A certificate, read from JSON text.

ghost use Rattle.std.specs.Prelude.{◌≡◌, codes, IfOk};
ghost use Rattle.serde_json.specs.Find.{as_object};
ghost use Rattle.serde_json.specs.View.{view, members_view};
ghost use Rattle.crpd_base.specs.Outcome.{Gives};
ghost use Rattle.cert_model.specs.Keys.{required};
ghost use Rattle.cert_model.specs.Kinds as kind;
ghost use Rattle.crpd_base.specs.CertificateRanges.{AreTasks, IsCertificate};
ghost use Rattle.cert_model.specs.Reading as spec;
ghost use Rattle.cert_model.specs.Reading.{reading};

use crate::error::CertError;
use crate::keys::Keys;
use crate::kinds::Object;
use crate::platform::platform_at;
use crate::task::tasks_at;
use crate::version::Version;
use crpd_base::{Certificate, Items, MOST_ENTRIES, TaskPart, Text, task_entries};
use serde_json::Value;
use std::alloc::Global;

/// The version with a number.
fn version_numbered(number: u64) -> Result<Version, CertError>
    ensures { result ≡ spec.version_numbered number }
{
    match number {
        1 => Ok(Version::First),
        2 => Ok(Version::Second),
        _ => Err(CertError::OtherVersion(number)),
    }
}

#[tactic(auto, unfolding(crate::specs::Keys::required, crate::specs::Reading::version_at))]
fn version_at(alloc: Global, object: &Object) -> Result<Version, CertError>
    ensures { Gives CertError.Memory (λ x. x) result
        (spec.version_at (members_view object.now.entries)) }
{
    let keys = Keys::new(alloc, object, "");
    let value = keys.present("version")?;
    let number = keys.good("version", value.as_u64())?;
    version_numbered(number)
}

#[tactic(auto, using(crate::proofs::Seen::good_seen), unfolding(crate::specs::Keys::required))]
fn platform_object<'a>(keys: &Keys<'a>) -> Result<&'a Object, CertError>
    ensures { Gives CertError.Memory (λ t. members_view t.now.entries) result
        (required as_object keys.now.path.now (codes "platform")
        (members_view keys.now.object.now.entries)) }
{
    let value = keys.present("platform")?;
    keys.good("platform", value.as_object())
}

/// The state entries of all tasks.
fn entries(tasks: &[TaskPart]) -> u64
    requires { AreTasks tasks.now }
    ensures { result ≡ spec.entries tasks.now }
{
    let mut found = 0;
    for task in tasks {
        found += task_entries(task.states.as_slice());
    }
    found
}

/// The certificate, if it has at most the allowed state entries.
#[tactic(auto, unfolding(crate::specs::Reading::within_entry_limit))]
fn counted(certificate: Certificate) -> Result<Certificate, CertError>
    requires { AreTasks certificate.tasks }
    ensures { result ≡ spec.within_entry_limit certificate }
{
    let entries = entries(certificate.tasks.as_slice());
    let too_many = entries > MOST_ENTRIES;
    if too_many {
        return Err(CertError::TooLong(entries));
    }
    Ok(certificate)
}

#[tactic(auto, using(crate::proofs::Platforms::one_order), unfolding(crate::specs::Reading::certificate_at))]
fn certificate_at(alloc: Global, object: &Object) -> Result<Certificate, CertError>
    ensures { Gives CertError.Memory (λ x. x) result
        (spec.certificate_at (members_view object.now.entries)) }
{
    let version = version_at(alloc, object)?;
    let platform = platform_object(&Keys::new(alloc, object, ""))?;
    let platform = platform_at(version, &Keys::new(alloc, platform, "platform."))?;
    let tasks = Items::new(tasks_at(alloc, version, object)?);
    counted(Certificate { platform, tasks })
}

fn whole_text(alloc: Global, value: &Value) -> Result<Certificate, CertError>
    ensures { Gives CertError.Memory (λ x. x) result
        (spec.whole_text (as_object (view value.now))) }
{
    match value.as_object() {
        Some(object) => certificate_at(alloc, object),
        None => Err(CertError::BadValue(Text::new(String::from_str(alloc, "-")?))),
    }
}

#[tactic(auto, using(crate::proofs::Texts::reading_of_text, crate::proofs::Texts::reading_of_bytes))]
fn certificate_of(alloc: Global, bytes: &[u8]) -> Result<Certificate, CertError>
    ensures { Gives CertError.Memory (λ x. x) result (reading bytes.now) }
{
    let Ok(text) = std::str::from_utf8(bytes) else {
        return Err(CertError::NotJson);
    };
    match Value::from_str(alloc, text) {
        Ok(value) => whole_text(alloc, &value),
        Err(e) if e.is_memory() => Err(CertError::Memory),
        Err(_) => Err(CertError::NotJson),
    }
}

/// Reads a certificate of version 1 or 2 from JSON text. The result and the first refusal are those
/// of `reading`: of the version, the platform and the tasks, each with its keys in byte order, and
/// last of the count of the state entries. `Memory` may replace any result. Times are in cycles.
/// JSON is that of RFC 8259, with the limits of `NotJson`; of a repeated key the last value counts.
/// Apart from the parse by `serde_json`, time is linear in the text. The parsed tree takes about 30
/// bytes for each value and several hundred for each object with members, which can be many times
/// the text's size.
pub fn read_certificate(alloc: Global, bytes: &[u8]) -> Result<Certificate, CertError>
    ensures exact { Gives CertError.Memory (λ x. x) result (reading bytes.now) }

    // What callers need of a certificate: its ranges, and that its lists increase.
    ensures ranges { IfOk result IsCertificate }
{
    certificate_of(alloc, bytes)
}
