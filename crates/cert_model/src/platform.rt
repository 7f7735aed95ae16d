//! The platform of a certificate.

ghost use Rattle.std.specs.Prelude.{◌≡◌, codes};
ghost use Rattle.serde_json.specs.View.{members_view};
ghost use Rattle.crpd_base.specs.Outcome.{Gives};
ghost use Rattle.cert_model.specs.Keys.{required};
ghost use Rattle.cert_model.specs.Kinds as kind;
ghost use Rattle.cert_model.specs.Inner.Platforms as inner;

use crate::error::CertError;
use crate::keys::Keys;
use crate::kinds::{line, switching};
use crate::version::Version;
use crpd_base::{MOST_COST, Platform, Switching};

#[tactic(auto, unfolding(crate::specs::Keys::required))]
fn line_at(keys: &Keys) -> Result<u32, CertError>
    ensures { Gives CertError.Memory (λ x. x) result
        (required kind.line_bytes keys.now.path.now (codes "line")
        (members_view keys.now.object.now.entries)) }
{
    let value = keys.present("line")?;
    keys.good("line", line(value))
}

/// Where a switch may happen: in version 1, which has no key for it, in every cycle.
#[tactic(auto, unfolding(crate::specs::Keys::required))]
fn later_switching_at(version: Version, keys: &Keys) -> Result<Switching, CertError>
    ensures { Gives CertError.Memory (λ x. x) result
        (inner.later_switching version keys.now.path.now
        (members_view keys.now.object.now.entries)) }
{
    match version {
        Version::First => Ok(Switching::Cycle),
        Version::Second => {
            let value = keys.present("switching")?;
            keys.good("switching", switching(value))
        }
    }
}

/// A number of cycles: in version 1, which has no key for it, 0.
fn later_cycles_at(version: Version, keys: &Keys, key: &str) -> Result<u32, CertError>
    ensures { Gives CertError.Memory (λ x. x) result
        (inner.later_cycles version keys.now.path.now key.now
        (members_view keys.now.object.now.entries)) }
{
    match version {
        Version::First => Ok(0),
        Version::Second => keys.small_number(key, 0, MOST_COST),
    }
}

/// The platform of a certificate, its keys in byte order. In version 1 `mul` and `div` are 0, and
/// switches may happen in every cycle. The first key that is absent or has a bad value is the
/// refusal; memory is taken for its path alone. Time is that of at most ten look-ups of a key.
#[tactic(auto, unfolding(crate::specs::Inner::Platforms::platform_keys))]
pub fn platform_at(version: Version, keys: &Keys) -> Result<Platform, CertError>
    ensures { Gives CertError.Memory (λ x. x) result
        (inner.platform_keys version keys.now.path.now
        (members_view keys.now.object.now.entries)) }
{
    let memory = keys.small_number("data", 0, MOST_COST)?;
    let div = later_cycles_at(version, keys, "div")?;
    let hit = keys.small_number("hit", 1, MOST_COST)?;
    let line = line_at(keys)?;
    let miss = keys.small_number("miss", 0, MOST_COST)?;
    let mul = later_cycles_at(version, keys, "mul")?;
    let sets = keys.small_number("sets", 1, version.most_sets() as u32)?;
    let switch = keys.small_number("switch", 0, MOST_COST)?;
    let switching = later_switching_at(version, keys)?;
    let taken = keys.small_number("taken", 0, MOST_COST)?;
    Ok(Platform {
        line,
        sets,
        hit,
        miss,
        memory,
        taken,
        switch,
        mul,
        div,
        switching,
    })
}
