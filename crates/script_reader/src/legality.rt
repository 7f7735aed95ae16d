ghost use Rattle.std.specs.Prelude.{◌≡◌, ℕ, ◌<◌, ◌≤◌, ◌↔◌, IsTrue, length, take, map, slice_index};
ghost use Rattle.std.specs.Prelude.{All};
ghost use Rattle.std.specs.List.Sorted.{IsNonDecreasing};
ghost use Rattle.crpd_base.specs.Limits.{most_jobs};
ghost use Rattle.crpd_base.specs.Arrivals.{AreApart, IsReleasedInTime, IsLegal};
ghost use Rattle.script_reader.specs.Inner.Legal.{AreAllApart, AreSpacedPairs, EachIsSpaced};
ghost use Rattle.script_reader.specs.Inner.Legal.{IsSpacedBy, arrivals_of};

use crpd_base::{MOST_JOBS, Script, ScriptJob, TaskSet};

/// Copies the arrivals of a task's jobs to the front of the buffer, and returns how many they are.
fn gather(jobs: &[ScriptJob], task: usize, into: &mut [u64]) -> usize
    requires { length jobs.now ≤ length into.old }
    ensures count { result ≤ length into.old }
    ensures times { take result into.new ≡ arrivals_of task jobs.now }
{
    let mut count = 0usize;
    for job in jobs {
        if usize::from(job.task.0) == task {
            into[count] = job.arrival;
            count += 1;
        }
    }
    count
}

/// Whether no two of the sorted times are closer than the period.
fn are_apart(times: &[u64], period: u64) -> bool
    requires { IsNonDecreasing times.now }
    ensures { IsTrue result ↔ AreAllApart period times.now }
{
    for i in 1..times.len() {
        if times[i] - times[i - 1] < period {
            return false;
        }
    }
    true
}

/// Whether the jobs of a task arrive at least the period apart.
fn is_spaced(jobs: &[ScriptJob], task: usize, period: u64) -> bool
    requires { length jobs.now ≤ most_jobs }
    ensures { IsTrue result ↔ AreAllApart period (arrivals_of task jobs.now) }
{
    let mut buffer = [0u64; MOST_JOBS];
    let count = gather(jobs, task, &mut buffer);
    let times = &mut buffer[..count];
    times.sort_unstable();
    are_apart(times, period)
}

/// Whether the jobs of each task arrive at least its period apart.
fn are_spaced(set: &TaskSet, jobs: &[ScriptJob]) -> bool
    requires { length jobs.now ≤ most_jobs }
    ensures { IsTrue result ↔ EachIsSpaced set.now jobs.now }
{
    let tasks = set.tasks.as_slice();
    for t in 0..tasks.len() {
        let task = &tasks[t];
        if !is_spaced(jobs, t, task.period) {
            return false;
        }
    }
    true
}

/// Whether each job is released at its arrival or later, and at most its task's jitter later.
fn are_in_time(set: &TaskSet, jobs: &[ScriptJob]) -> bool
    requires { All (λ j. j.task.0 < length set.now.tasks) jobs.now }
    ensures { IsTrue result ↔ All (IsReleasedInTime set.now) jobs.now }
{
    let tasks = set.tasks.as_slice();
    for job in jobs {
        let task = &tasks[usize::from(job.task.0)];
        if job.release < job.arrival || job.release - job.arrival > task.jitter {
            return false;
        }
    }
    true
}

/// Whether two times are at least the period apart.
fn is_apart(period: u64, a: u64, b: u64) -> bool
    ensures { IsTrue result ↔ AreApart period a b }
{
    if a <= b {
        period <= b - a
    } else {
        period <= a - b
    }
}

/// Whether two jobs are of different tasks, or arrive at least the period apart.
fn is_spaced_by(period: u64, job: &ScriptJob, other: &ScriptJob) -> bool
    ensures { IsTrue result ↔ IsSpacedBy period job.now other.now }
{
    job.task.0 != other.task.0 || is_apart(period, job.arrival, other.arrival)
}

/// Whether a job is spaced from each later one.
fn is_spaced_from(period: u64, job: &ScriptJob, later: &[ScriptJob]) -> bool
    ensures { IsTrue result ↔ All (IsSpacedBy period job.now) later.now }
{
    later.iter().all(|other| is_spaced_by(period, job, other))
}

/// Whether any two jobs of one task arrive at least its period apart, by comparing all pairs: for
/// more jobs than the buffer holds.
fn are_spaced_by_pairs(set: &TaskSet, jobs: &[ScriptJob]) -> bool
    requires { All (λ j. j.task.0 < length set.now.tasks) jobs.now }
    ensures { IsTrue result ↔ AreSpacedPairs set.now jobs.now }
{
    let tasks = set.tasks.as_slice();
    for i in 0..jobs.len() {
        let job = &jobs[i];
        let task = &tasks[usize::from(job.task.0)];
        if !is_spaced_from(task.period, job, &jobs[i + 1..]) {
            return false;
        }
    }
    true
}

/// Whether any two jobs of one task arrive at least its period apart.
fn are_spaced_pairs(set: &TaskSet, jobs: &[ScriptJob]) -> bool
    requires { All (λ j. j.task.0 < length set.now.tasks) jobs.now }
    ensures { IsTrue result ↔ AreSpacedPairs set.now jobs.now }
{
    if jobs.len() <= MOST_JOBS {
        are_spaced(set, jobs)
    } else {
        are_spaced_by_pairs(set, jobs)
    }
}

fn are_legal(set: &TaskSet, jobs: &[ScriptJob]) -> bool
    requires { All (λ j. j.task.0 < length set.now.tasks) jobs.now }
    ensures { IsTrue result ↔ IsLegal set.now jobs.now }
{
    are_spaced_pairs(set, jobs) && are_in_time(set, jobs)
}

/// Whether a script is legal: any two jobs of one task arrive at least its period apart, and each
/// job is released at its arrival or later, and at most its task's jitter later. Every job's task
/// is one of the set. Up to 10,000 jobs are grouped by task, with one pass over them for each task,
/// and their arrivals sorted, in a buffer of 80,000 bytes on the stack. More jobs are compared in
/// pairs, in time quadratic in their number. It takes no memory.
pub fn legal(set: &TaskSet, script: &Script) -> bool
    requires { All (λ j. j.task.0 < length set.now.tasks) script.now.jobs }
    ensures { IsTrue result ↔ IsLegal set.now script.now.jobs }
{
    are_legal(set, script.jobs.as_slice())
}
