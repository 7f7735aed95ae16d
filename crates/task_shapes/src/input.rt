// A task set with its code.
use code_map::CodeMap;
use crpd_base::{Task, TaskPlan, TaskSet, task_name};
use std::alloc::{AllocError, Global};
use std::marker::Model;

// The parts of a task set with its code.
#[derive(Drop)]
struct Parts {
    set: TaskSet,
    code: CodeMap,
}

/// A task set in its ranges, with the code of its tasks' files: an image and a plan for each task,
/// whose stated loops have bounds from 1 to 1,000,000.
#[derive(Drop)]
pub struct Input {
    // In a box, so that a function that owns the input drops one pointer at each of its exits.
    parts: Box<Parts>,
}

impl Model for Input {
    ghost use Rattle.task_shapes.specs.Inputs.{IsInput, SetWithCode};

    ghost Value = { SetWithCode };

    ghost view = { λ i. record { set = i.parts.value.set; code = i.parts.value.code } };

    ghost invariant = { λ i.
        IsInput (record { set = i.parts.value.set; code = i.parts.value.code }) };
}

impl Input {
    ghost use Rattle.std.specs.Prelude.{◌≡◌, ◌<◌, ◌≤◌, length, slice_get, IfOk, Some};
    ghost use Rattle.crpd_base.specs.Limits.{most_tasks};
    ghost use Rattle.crpd_base.specs.Ranges.{IsTaskSet};
    ghost use Rattle.loop_regions.specs.CodeNest.{AreBounded};
    ghost use Rattle.task_shapes.specs.Inputs.{IsInput, name_at};

    /// A set with its code, in a box that is allocated. The only error is running out of memory;
    /// then both are dropped. In constant time.
    pub fn new(alloc: Global, set: TaskSet, code: CodeMap) -> Result<Self, AllocError>
        requires { IsInput (record { set = set; code = code }) }
        ensures { IfOk result (λ input. input ≡ record { set = set; code = code }) }
    {
        let parts = Box::new(alloc, Parts { set, code })?;
        Ok(Input { parts })
    }

    /// The set. In constant time.
    pub fn set(&self) -> &TaskSet
        ensures is { result.now ≡ self.now.set }
        ensures ranges { IsTaskSet result.now }
    {
        &self.parts.set
    }

    /// The code of the tasks' files. In constant time.
    pub fn code(&self) -> &CodeMap
        ensures { result.now ≡ self.now.code }
    {
        &self.parts.code
    }

    /// The number of tasks: 1 to 32. In constant time.
    pub(crate) fn task_count(&self) -> usize
        ensures is { result ≡ length self.now.set.tasks }
        ensures few { result ≤ most_tasks }
    {
        self.parts.set.tasks.len()
    }

    /// The name of a task. In constant time.
    pub(crate) fn name(&self, task: Task) -> &str
        ensures { result.now ≡ name_at self.now task.0 }
    {
        task_name(&self.parts.set, task)
    }

    /// The plan of a task. In constant time.
    pub(crate) fn plan(&self, task: Task) -> &TaskPlan
        requires { task.0 < length self.now.set.tasks }
        ensures is { slice_get self.now.code.plans task.0 ≡ Some result.now }
        ensures bounded { AreBounded result.now.loops }
    {
        self.parts.code.plan(task)
    }

    /// A law: each set with its code satisfies `IsInput`. In constant time.
    pub fn input_law(&self)
        ensures { IsInput self.now }
    {
        let _set = &self.parts.set;
    }
}
