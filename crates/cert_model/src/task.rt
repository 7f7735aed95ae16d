//! The tasks of a certificate.

ghost use Rattle.std.specs.Prelude.{◌≡◌, codes, map, string_bytes, IfOk};
ghost use Rattle.serde_json.specs.View.{members_view};
ghost use Rattle.crpd_base.specs.Outcome.{Gives};
ghost use Rattle.text_keys.specs.Paths.{each};
ghost use Rattle.cert_model.specs.Keys.{required};
ghost use Rattle.cert_model.specs.Kinds as kind;
ghost use Rattle.crpd_base.specs.CertificateRanges.{AreTasks};
ghost use Rattle.cert_model.specs.Inner.Tasks as inner;
ghost use Rattle.cert_model.specs.Reading as spec;

use crate::error::CertError;
use crate::keys::Keys;
use crate::kinds::{Object, method, name, objects, potentials};
use crate::sets::set_numbers;
use crate::states::states;
use crate::version::Version;
use crpd_base::{Items, LONGEST_TIME, Method, NodeState, Part, SetBits, TaskPart, Text, WORDS};
use std::alloc::Global;
use text_keys::item_path;

const LONGEST_BOUND: u64 = 1 << 41;

#[tactic(auto, unfolding(crate::specs::Keys::required))]
fn set_at(version: Version, keys: &Keys, key: &str) -> Result<SetBits<WORDS>, CertError>
    ensures { Gives CertError.Memory (λ x. x) result
        (required (kind.set_numbers (spec.most_sets version)) keys.now.path.now key.now
        (members_view keys.now.object.now.entries)) }
{
    let value = keys.present(key)?;
    keys.good(key, set_numbers(version.most_sets(), value))
}

#[tactic(auto, using(crate::proofs::Seen::good_seen), unfolding(crate::specs::Keys::required))]
fn potentials_at(version: Version, keys: &Keys, key: &str) -> Result<Vec<u64>, CertError>
    ensures { Gives CertError.Memory (λ v. v.items) result
        (required (kind.potentials (spec.most_nodes version)) keys.now.path.now key.now
        (members_view keys.now.object.now.entries)) }
{
    let value = keys.present(key)?;
    let found = potentials(keys.alloc, version.most_nodes(), value)?;
    keys.good(key, found)
}

#[tactic(auto, unfolding(crate::specs::Keys::required))]
fn method_at(keys: &Keys) -> Result<Method, CertError>
    ensures { Gives CertError.Memory (λ x. x) result
        (required kind.method keys.now.path.now (codes "method")
        (members_view keys.now.object.now.entries)) }
{
    let value = keys.present("method")?;
    keys.good("method", method(value))
}

#[tactic(auto, using(crate::proofs::Seen::good_seen), unfolding(crate::specs::Keys::required))]
fn name_at(keys: &Keys) -> Result<String, CertError>
    ensures { Gives CertError.Memory string_bytes result
        (required kind.name keys.now.path.now (codes "name")
        (members_view keys.now.object.now.entries)) }
{
    let value = keys.present("name")?;
    let found = name(keys.alloc, value)?;
    keys.good("name", found)
}

#[tactic(auto, using(crate::proofs::Seen::good_seen), unfolding(crate::specs::Keys::required))]
fn states_at(version: Version, keys: &Keys) -> Result<Vec<NodeState>, CertError>
    ensures { Gives CertError.Memory (λ v. v.items) result
        (required (kind.states (spec.most_sets version) (spec.most_nodes version))
        keys.now.path.now (codes "states") (members_view keys.now.object.now.entries)) }
{
    let value = keys.present("states")?;
    let found = states(keys.alloc, version.most_sets(), version.most_nodes(), value)?;
    keys.good("states", found)
}

/// The bound and the evicting sets of a task, the first two of its keys.
#[tactic(auto, unfolding(crate::specs::Inner::Tasks::bound_and_evicting))]
fn bound_and_evicting(version: Version, keys: &Keys) -> Result<(u64, SetBits<WORDS>), CertError>
    ensures { Gives CertError.Memory (λ x. x) result
        (inner.bound_and_evicting version keys.now.path.now
        (members_view keys.now.object.now.entries)) }
{
    let bound = keys.number("bound", 0, LONGEST_BOUND)?;
    let evicting = set_at(version, keys, "evicting")?;
    Ok((bound, evicting))
}

/// The task that the keys state.
#[tactic(auto, unfolding(crate::specs::Inner::Tasks::fields_at))]
fn fields_at(version: Version, keys: &Keys) -> Result<TaskPart, CertError>
    ensures { Gives CertError.Memory (λ x. x) result
        (inner.fields_at version keys.now.path.now (members_view keys.now.object.now.entries)) }
{
    let (bound, evicting) = bound_and_evicting(version, keys)?;
    let loops = potentials_at(version, keys, "loops")?;
    let method = method_at(keys)?;
    let name = name_at(keys)?;
    let potentials = potentials_at(version, keys, "potentials")?;
    let response = keys.number("response", 0, LONGEST_BOUND)?;
    let states = states_at(version, keys)?;
    let useful = set_at(version, keys, "useful")?;
    let window = keys.number("window", 0, LONGEST_TIME)?;
    Ok(TaskPart {
        name: Text::new(name),
        part: Part {
            bound,
            evicting,
            useful,
        },
        states: Items::new(states),
        potentials: Items::new(potentials),
        loops: Items::new(loops),
        method,
        window,
        response,
    })
}

/// The task at a place.
#[tactic(auto, using(crate::proofs::Tasks::one_by_one))]
fn task_at(
    alloc: Global,
    version: Version,
    place: usize,
    object: &Object,
) -> Result<TaskPart, CertError>
    ensures { Gives CertError.Memory (λ x. x) result
        (spec.task_at version place (members_view object.now.entries)) }
{
    let path = item_path(alloc, "", "tasks", place)?;
    fields_at(version, &Keys::new(alloc, object, path.as_str()))
}

/// The tasks of a list, in order.
#[tactic(auto, unfolding(text_keys::specs::Paths::each))]
fn each_task(
    alloc: Global,
    version: Version,
    objects: &[&Object],
) -> Result<Vec<TaskPart>, CertError>
    ensures { Gives CertError.Memory (λ v. v.items) result
        (each (spec.task_at version) 0 (map (λ t. members_view t.now.entries) objects.now)) }
{
    let mut tasks = Vec::new(alloc);
    for (i, object) in objects.iter().enumerate() {
        tasks.push(task_at(alloc, version, i, object)?)?;
    }
    Ok(tasks)
}

#[tactic(auto, using(crate::proofs::Seen::good_seen), unfolding(crate::specs::Keys::required))]
fn task_objects<'a>(version: Version, keys: &Keys<'a>) -> Result<Vec<&'a Object>, CertError>
    ensures { Gives CertError.Memory (λ v. map (λ t. members_view t.now.entries) v.items) result
        (required (kind.objects (spec.most_tasks version)) keys.now.path.now (codes "tasks")
        (members_view keys.now.object.now.entries)) }
{
    let value = keys.present("tasks")?;
    let found = objects(keys.alloc, version.most_tasks(), value)?;
    keys.good("tasks", found)
}

#[tactic(auto, unfolding(crate::specs::Reading::tasks_at))]
fn listed_tasks(
    alloc: Global,
    version: Version,
    object: &Object,
) -> Result<Vec<TaskPart>, CertError>
    ensures { Gives CertError.Memory (λ v. v.items) result
        (spec.tasks_at version (members_view object.now.entries)) }
{
    let objects = task_objects(version, &Keys::new(alloc, object, ""))?;
    each_task(alloc, version, objects.as_slice())
}

/// The tasks of a certificate, 1 to 16 in version 1 and 1 to 32 in version 2, each with its keys in
/// byte order. Linear in the text's tree. The first key that is absent or has a bad value is the
/// refusal; `Memory` may replace any result.
pub fn tasks_at(
    alloc: Global,
    version: Version,
    object: &Object,
) -> Result<Vec<TaskPart>, CertError>
    ensures exact { Gives CertError.Memory (λ v. v.items) result
        (spec.tasks_at version (members_view object.now.entries)) }
    ensures ranges { IfOk result (λ v. AreTasks v.items) }
{
    listed_tasks(alloc, version, object)
}
