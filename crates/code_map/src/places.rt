// The addresses of a task's places in its file.
ghost use Rattle.std.specs.Prelude.{◌≡◌, IfOk};
ghost use Rattle.crpd_base.specs.Outcome.{Gives, each};
ghost use Rattle.code_map.specs.Places as places;

use crate::error::MapError;
use crate::symbols::Names;
use crpd_base::{Image, Items, LoopAt, LoopSpec, Place, Task, Text};
use std::alloc::{AllocError, Global};

/// How a place is reported: its symbol, followed by `+` and the offset in decimal if the offset is
/// not 0.
#[tactic(auto, unfolding(crate::specs::Places::place_text))]
fn place_text(alloc: Global, name: &str, offset: u32) -> Result<Text, AllocError>
    ensures { IfOk result (λ t. t ≡ places.place_text name.now offset) }
{
    if offset == 0 {
        return Ok(Text::new(String::from_str(alloc, name)?));
    }
    Ok(Text::new(format!(in alloc; "{name}+{offset}")?))
}

/// A value with an offset, if the sum is below 2^32.
fn with_offset(value: u32, offset: u32) -> Option<u32>
    ensures { result ≡ places.value_with_offset offset value }
{
    value.checked_add(offset)
}

/// A symbol's value with an offset, if the file has the symbol and the sum is below 2^32.
fn symbol_address(names: &Names, name: &str, offset: u32) -> Option<u32>
    ensures { result ≡ places.symbol_address names.now name.now offset }
{
    with_offset(names.value(name.as_bytes())?, offset)
}

/// The address of a place.
#[tactic(auto, unfolding(crate::specs::Places::address_of))]
pub(crate) fn address_of(
    alloc: Global,
    task: Task,
    names: &Names,
    place: &Place,
) -> Result<u32, MapError>
    ensures { Gives MapError.Memory (λ x. x) result (places.address_of task names.now place.now) }
{
    match place {
        Place::Number(address) => Ok(*address),
        Place::Symbol { name, offset } => match symbol_address(names, name.as_str(), *offset) {
            Some(address) => Ok(address),
            None => Err(MapError::UnknownSymbol(task, place_text(alloc, name.as_str(), *offset)?)),
        },
    }
}

/// The entry: that of the file if no place is stated.
#[tactic(auto, unfolding(crate::specs::Places::entry_of))]
pub(crate) fn entry_of(
    alloc: Global,
    task: Task,
    names: &Names,
    image: &Image,
    place: &Option<Place>,
) -> Result<u32, MapError>
    requires { names.now ≡ image.now.symbols }
    ensures { Gives MapError.Memory (λ x. x) result (places.entry_of task image.now place.now) }
{
    match place {
        Some(place) => address_of(alloc, task, names, place),
        None => Ok(image.entry),
    }
}

/// A range, from its first place up to, but not including, its second.
#[tactic(auto, unfolding(crate::specs::Places::range_of))]
fn range_of(
    alloc: Global,
    task: Task,
    names: &Names,
    range: &(Place, Place),
) -> Result<(u32, u32), MapError>
    ensures { Gives MapError.Memory (λ x. x) result (places.range_of task names.now range.now) }
{
    let first = address_of(alloc, task, names, &range.0)?;
    let last = address_of(alloc, task, names, &range.1)?;
    Ok((first, last))
}

/// The ranges of a loop.
#[tactic(auto, unfolding(crpd_base::specs::Outcome::each))]
fn ranges_of(
    alloc: Global,
    task: Task,
    names: &Names,
    ranges: &[(Place, Place)],
) -> Result<Vec<(u32, u32)>, MapError>
    ensures { Gives MapError.Memory (λ v. v.items) result
        (each (places.range_of task names.now) ranges.now) }
{
    let mut found = Vec::new(alloc);
    for range in ranges {
        found.push(range_of(alloc, task, names, range)?)?;
    }
    Ok(found)
}

/// A stated loop: its head, then its ranges.
#[tactic(auto, unfolding(crate::specs::Places::loop_of))]
fn loop_of(alloc: Global, task: Task, names: &Names, spec: &LoopSpec) -> Result<LoopAt, MapError>
    ensures { Gives MapError.Memory (λ x. x) result (places.loop_of task names.now spec.now) }
{
    let head = address_of(alloc, task, names, &spec.head)?;
    let ranges = ranges_of(alloc, task, names, spec.ranges.as_slice())?;
    Ok(LoopAt {
        head,
        bound: spec.bound,
        ranges: Items::new(ranges),
    })
}

/// The stated loops of a task.
#[tactic(auto, unfolding(crpd_base::specs::Outcome::each))]
pub(crate) fn loops_of(
    alloc: Global,
    task: Task,
    names: &Names,
    specs: &[LoopSpec],
) -> Result<Vec<LoopAt>, MapError>
    ensures { Gives MapError.Memory (λ v. v.items) result
        (each (places.loop_of task names.now) specs.now) }
{
    let mut loops = Vec::new(alloc);
    for spec in specs {
        loops.push(loop_of(alloc, task, names, spec)?)?;
    }
    Ok(loops)
}
