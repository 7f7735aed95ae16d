// The order in which the jobs of a script take the core.

ghost use Rattle.std.specs.Prelude.{◌≡◌, ℕ, ◌+◌, ◌<◌, ◌≤◌, None, Some, length, replicate, IfOk};
ghost use Rattle.std.specs.Prelude.{MatchOption};
ghost use Rattle.preempt_machine.specs.Schedule.{script_line};
ghost use Rattle.preempt_machine.specs.Inner.Queue.{due_release, due_place, IsReleaseOrder};
ghost use Rattle.preempt_machine.specs.Inner.Queue.{IsFirstFrom, position_at, IsLinked};
ghost use Rattle.preempt_machine.specs.Inner.Queue.{IsFirstReleased, NoneIsReleased, IsNextRelease};
ghost use Rattle.preempt_machine.specs.Inner.Queue.{AreListed, heads_without};
ghost use Rattle.preempt_machine.specs.Inner.Schedule.{HasOpened};

use crate::{Completion, End};
use crpd_base::{Memory, ScriptJob, Task};
use std::alloc::Global;

/// A job of a script, by its release and its place.
#[derive(Clone, Copy, PartialEq, Eq, PartialOrd, Ord)]
pub struct Due {
    /// The release of the job.
    pub release: u64,
    /// Its place in the script.
    pub place: usize,
}

/// The jobs of a script by release, and by place if they are released together. A position is one
/// in this order. Its calls require that its lists are consistent, as `new` makes them.
#[derive(Drop)]
pub struct Queue {
    /// The jobs, in ascending order.
    pub due: Vec<Due>,
    /// For each of these the position of the next job of the same task, if there is one.
    pub later: Vec<Option<usize>>,
    /// For each task the position of its first job that has not ended, if there is one.
    pub heads: Vec<Option<usize>>,
    /// How many jobs have been recorded as open.
    pub released: usize,
}

/// The releases and places of jobs, by place.
fn releases_by_place(alloc: Global, lines: &[ScriptJob]) -> Result<Vec<Due>, Memory>
    ensures { IfOk result (λ due. AreListed lines.now due.items) }
{
    let mut due = Vec::new(alloc);
    for place in 0..lines.len() {
        let release = lines[place].release;
        if due.push(Due { release, place }).is_err() {
            return Err(Memory);
        }
    }
    Ok(due)
}

/// The releases and places of jobs, sorted.
fn release_order(alloc: Global, lines: &[ScriptJob]) -> Result<Vec<Due>, Memory>
    ensures { IfOk result (λ due. IsReleaseOrder lines.now due.items) }
{
    let mut due = releases_by_place(alloc, lines)?;
    due.sort_unstable();
    Ok(due)
}

/// Sets the position of the next job of the same task for each job, and of the first job for each
/// task.
fn link(lines: &[ScriptJob], due: &[Due], later: &mut [Option<usize>], heads: &mut [Option<usize>])
    requires due { IsReleaseOrder lines.now due.now }
    requires tasks { (x : ℕ) → x < length lines.now
        → (script_line lines.now x).task.0 < length heads.old }
    requires later { length later.old ≡ length due.now }
    requires heads { (t : ℕ) → t < length heads.old → position_at heads.old t ≡ None }
    ensures linked { IsLinked lines.now due.now later.new }
    ensures heads { (t : ℕ) → t < length heads.old
        → IsFirstFrom lines.now due.now t 0 (position_at heads.new t) }
{
    let mut at = due.len();
    while at > 0 {
        at -= 1;
        let task = usize::from(lines[due[at].place].task.0);
        later[at] = heads[task];
        heads[task] = Some(at);
    }
}

/// A list of `count` places without a position.
fn no_positions(alloc: Global, count: usize) -> Result<Vec<Option<usize>>, Memory>
    ensures { IfOk result (λ positions. positions.items ≡ replicate count None) }
{
    Ok(vec![in alloc; None; count]?)
}

impl Queue {
    /// The jobs of a script, none of them released, for this number of tasks. The jobs' tasks are
    /// below that number. Out of memory is the only error. Time is n log n in the jobs and linear
    /// in the tasks; memory is linear in both.
    pub fn new(alloc: Global, lines: &[ScriptJob], tasks: usize) -> Result<Self, Memory>
        requires { (x : ℕ) → x < length lines.now → (script_line lines.now x).task.0 < tasks }
        ensures due { IfOk result (λ queue. IsReleaseOrder lines.now queue.due.items) }
        ensures linked { IfOk result
            (λ queue. IsLinked lines.now queue.due.items queue.later.items) }
        ensures tasks { IfOk result (λ queue. length queue.heads.items ≡ tasks) }
        ensures each { IfOk result
            (λ queue. (x : ℕ) → x < length lines.now
            → (script_line lines.now x).task.0 < length queue.heads.items) }
        ensures heads { IfOk result
            (λ queue. (t : ℕ) → t < tasks
            → IsFirstFrom lines.now queue.due.items t 0 (position_at queue.heads.items t)) }
        ensures released { IfOk result (λ queue. queue.released ≡ 0) }
    {
        let due = release_order(alloc, lines)?;
        let mut later = no_positions(alloc, due.len())?;
        let mut heads = no_positions(alloc, tasks)?;
        link(lines, &due, later.as_mut_slice(), heads.as_mut_slice());
        Ok(Queue {
            due,
            later,
            heads,
            released: 0,
        })
    }

    /// The place of the first ready job, by task, release and place. Linear in the tasks.
    pub fn first(&self, now: u64) -> Option<usize>
        ensures { MatchOption result (NoneIsReleased self.now.due.items self.now.heads.items now)
            (IsFirstReleased self.now.due.items self.now.heads.items now) }
    {
        for head in &self.heads {
            if let Some(at) = *head
                && at < self.due.len()
                && self.due[at].release <= now
            {
                return Some(self.due[at].place);
            }
        }
        None
    }

    /// The release of the first job that is not recorded as open, or `until` if that is earlier.
    pub fn next_release(&self, until: u64) -> u64
        ensures { IsNextRelease self.now.due.items self.now.released until result }
    {
        if self.released < self.due.len() && self.due[self.released].release < until {
            self.due[self.released].release
        } else {
            until
        }
    }

    /// The first job of a task has ended. Nothing changes if all have.
    pub fn finish(&mut self, task: Task)
        requires task { task.0 < length self.old.heads.items }
        requires head { (p : ℕ) → position_at self.old.heads.items task.0 ≡ Some p
            → p < length self.old.later.items }
        ensures heads { self.new.heads.items
            ≡ heads_without self.old.later.items self.old.heads.items task.0 }
        ensures due { self.new.due.items ≡ self.old.due.items }
        ensures later { self.new.later.items ≡ self.old.later.items }
        ensures released { self.new.released ≡ self.old.released }
    {
        let task = usize::from(task.0);
        self.heads[task] = match self.heads[task] {
            Some(at) => self.later[at],
            None => None,
        };
    }

    /// Records the jobs that are released in this cycle as open. Linear in these; it takes no
    /// memory.
    pub fn release(&mut self, completions: &mut [Completion], now: u64)
        requires { (p : ℕ) → p < length self.old.due.items
            → due_place self.old.due.items p < length completions.old }
        ensures opened { HasOpened self.old.due.items self.old.released self.new.released
            completions.old completions.new }
        ensures from { self.old.released ≤ self.new.released }
        ensures to { self.old.released ≤ length self.old.due.items
            → self.new.released ≤ length self.old.due.items }
        ensures come { (p : ℕ) → self.old.released ≤ p → p < self.new.released
            → due_release self.old.due.items p ≤ now }
        ensures wait { self.new.released < length self.old.due.items
            → now < due_release self.old.due.items self.new.released }
        ensures due { self.new.due.items ≡ self.old.due.items }
        ensures later { self.new.later.items ≡ self.old.later.items }
        ensures heads { self.new.heads.items ≡ self.old.heads.items }
    {
        while self.released < self.due.len() && self.due[self.released].release <= now {
            completions[self.due[self.released].place].end = End::Open;
            self.released += 1;
        }
    }
}
