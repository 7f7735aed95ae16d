// A copy of a task set, whose costs can be changed.
ghost use Rattle.std.specs.Prelude.{◌≡◌, IfOk};

use crate::data::{LoopSpec, Place, TaskSet, TaskSpec};
use crate::lists::{Items, Text};
use std::alloc::{AllocError, Global};

// A value that can be copied together with the memory that it owns.
trait Copied: Sized {
    fn copied(&self, alloc: Global) -> Result<Self, AllocError>
        ensures { IfOk result (λ copy. copy ≡ self.now) };
}

fn copy_items<T: Copied + Drop>(alloc: Global, items: &[T]) -> Result<Items<T>, AllocError>
    ensures { IfOk result (λ copy. copy ≡ items.now) }
{
    let mut copy = Vec::new(alloc);
    for item in items {
        copy.push(item.copied(alloc)?)?;
    }
    Ok(Items::new(copy))
}

fn copy_text(alloc: Global, text: &Text) -> Result<Text, AllocError>
    ensures { IfOk result (λ copy. copy ≡ text.now) }
{
    Ok(Text::new(String::from_str(alloc, text.as_str())?))
}

fn copy_place(alloc: Global, place: &Place) -> Result<Place, AllocError>
    ensures { IfOk result (λ copy. copy ≡ place.now) }
{
    match place {
        Place::Number(number) => Ok(Place::Number(*number)),
        Place::Symbol { name, offset } => Ok(Place::Symbol {
            name: copy_text(alloc, name)?,
            offset: *offset,
        }),
    }
}

fn copy_entry(alloc: Global, entry: &Option<Place>) -> Result<Option<Place>, AllocError>
    ensures { IfOk result (λ copy. copy ≡ entry.now) }
{
    match entry {
        Some(place) => Ok(Some(copy_place(alloc, place)?)),
        None => Ok(None),
    }
}

fn copy_places(alloc: Global, first: &Place, second: &Place) -> Result<(Place, Place), AllocError>
    ensures { IfOk result (λ copy. copy ≡ (first.now, second.now)) }
{
    Ok((copy_place(alloc, first)?, copy_place(alloc, second)?))
}

impl Copied for (Place, Place) {
    fn copied(&self, alloc: Global) -> Result<Self, AllocError> {
        copy_places(alloc, &self.0, &self.1)
    }
}

impl Copied for LoopSpec {
    fn copied(&self, alloc: Global) -> Result<Self, AllocError> {
        let ranges = copy_items(alloc, self.ranges.as_slice())?;
        Ok(LoopSpec {
            head: copy_place(alloc, &self.head)?,
            bound: self.bound,
            ranges,
        })
    }
}

fn copy_names(alloc: Global, task: &TaskSpec) -> Result<(Text, Text), AllocError>
    ensures { IfOk result (λ copy. copy ≡ (task.now.name, task.now.file)) }
{
    Ok((copy_text(alloc, &task.name)?, copy_text(alloc, &task.file)?))
}

impl Copied for TaskSpec {
    fn copied(&self, alloc: Global) -> Result<Self, AllocError> {
        let loops = copy_items(alloc, self.loops.as_slice())?;
        let (name, file) = copy_names(alloc, self)?;
        let entry = copy_entry(alloc, &self.entry)?;
        let (stack, global) = copy_places(alloc, &self.stack, &self.global)?;
        Ok(TaskSpec {
            name,
            file,
            entry,
            period: self.period,
            deadline: self.deadline,
            jitter: self.jitter,
            stack,
            global,
            loops,
        })
    }
}

/// A copy of a task set, for a caller that changes one of its numbers. Time and memory are linear
/// in the set. Running out of memory is the only error.
pub fn copy_set(alloc: Global, set: &TaskSet) -> Result<TaskSet, AllocError>
    ensures { IfOk result (λ copy. copy ≡ set.now) }
{
    Ok(TaskSet {
        platform: set.platform,
        tasks: copy_items(alloc, set.tasks.as_slice())?,
    })
}
