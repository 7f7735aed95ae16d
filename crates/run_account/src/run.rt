// The account of a run.
ghost use Rattle.std.specs.Prelude.{◌≡◌, ◌<◌, ◌^◌, ℕ, Some, length, map, slice_get, IfOk};
ghost use Rattle.crpd_base.specs.Ranges.{IsTaskSet};
ghost use Rattle.loop_regions.specs.Nest.{Nest};
ghost use Rattle.preempt_machine.specs.Safe.{NamesTasks};
ghost use Rattle.run_account.specs.Account.{IsAccount, HasAccountFacts};
ghost use Rattle.run_account.specs.Inner.Account.{entry_from_completions};
ghost use Rattle.run_account.specs.Inner.Runs.{run_graphs, run_start, run_certificate};
ghost use Rattle.run_account.specs.Inner.Runs.{AreHits, HasAccountInput, IsFollowed};
ghost use Rattle.preempt_machine.specs.Starts.{start_of_script};
ghost use Rattle.run_account.specs.AccountGraphs.{with_nests, AreGraphsOf, TasksAreMet, SetsAreMet};

use crate::follower::Follower;
use crate::told::{Account, Entry};
use crate::trails::{Reload, Trails};
use code_map::CodeMap;
use crpd_base::{Certificate, Items, Memory, Script, ScriptJob, TaskSet};
use evict_sets::hits;
use flat_graph::Graph;
use preempt_machine::{Completion, push, run_observed};
use std::alloc::Global;

/// Which nodes of a graph are counted as hits.
#[derive(Drop)]
pub(crate) struct Hits {
    pub(crate) flags: Vec<bool>,
}

/// What stays the same along a run: the set with its code, the script, the tasks' graphs, the
/// certificate, and the nodes that are counted as hits.
#[derive(Clone, Copy)]
pub(crate) struct Run<'a> {
    pub(crate) code: &'a CodeMap,
    pub(crate) set: &'a TaskSet,
    pub(crate) script: &'a Script,
    pub(crate) graphs: &'a [Graph],
    pub(crate) certificate: &'a Certificate,
    pub(crate) hits: &'a [Hits],
}

/// Which nodes of each task's graph are counted as hits.
fn all_hits(
    alloc: Global,
    set: &TaskSet,
    graphs: &[Graph],
    certificate: &Certificate,
) -> Result<Vec<Hits>, Memory>
    requires set { IsTaskSet set.now }
    requires graphs { length graphs.now ≡ length set.now.tasks }
    requires met { TasksAreMet set.now graphs.now certificate.now }
    ensures { IfOk result (λ all. AreHits set.now.platform graphs.now certificate.now all.items) }
{
    let mut all = Vec::new(alloc);
    for task in 0..graphs.len() {
        let part = &certificate.tasks[task];
        let flags = hits(alloc, &set.platform, &graphs[task], part)?;
        push(&mut all, Hits { flags })?;
    }
    Ok(all)
}

/// A reload with its jobs by task and number.
fn entry(completions: &[Completion], reload: &Reload) -> Entry
    requires job { reload.now.job < length completions.now }
    requires evictor { reload.now.evictor < length completions.now }
    requires preemptor { reload.now.preemptor < length completions.now }
    ensures { result ≡ entry_from_completions completions.now reload.now }
{
    Entry {
        job: completions[reload.job].job,
        set: reload.set,
        time: reload.time,
        evictor: completions[reload.evictor].job,
        preemptor: completions[reload.preemptor].job,
    }
}

/// The reloads with their jobs by task and number.
fn told(alloc: Global, completions: &[Completion], reloads: &[Reload]) -> Result<Vec<Entry>, Memory>
    requires jobs { (k : ℕ) (r : Reload) → slice_get reloads.now k ≡ Some r
        → r.job < length completions.now }
    requires evictors { (k : ℕ) (r : Reload) → slice_get reloads.now k ≡ Some r
        → r.evictor < length completions.now }
    requires preemptors { (k : ℕ) (r : Reload) → slice_get reloads.now k ≡ Some r
        → r.preemptor < length completions.now }
    ensures { IfOk result (λ entries.
        entries.items ≡ map (entry_from_completions completions.now) reloads.now) }
{
    let mut entries = Vec::new(alloc);
    for reload in reloads {
        push(&mut entries, entry(completions, reload))?;
    }
    Ok(entries)
}

/// The account of a run, from the completions at its end, whether it is kept, and the reloads.
fn tell(
    alloc: Global,
    completions: Vec<Completion>,
    kept: bool,
    reloads: &[Reload],
) -> Result<Account, Memory>
    requires jobs { (k : ℕ) (r : Reload) → slice_get reloads.now k ≡ Some r
        → r.job < length completions.items }
    requires evictors { (k : ℕ) (r : Reload) → slice_get reloads.now k ≡ Some r
        → r.evictor < length completions.items }
    requires preemptors { (k : ℕ) (r : Reload) → slice_get reloads.now k ≡ Some r
        → r.preemptor < length completions.items }
    ensures entries { IfOk result (λ account.
        account.entries ≡ map (entry_from_completions completions.items) reloads.now) }
    ensures completions { IfOk result (λ account. account.completions ≡ completions.items) }
    ensures kept { IfOk result (λ account. account.kept ≡ kept) }
{
    let entries = told(alloc, completions.as_slice(), reloads)?;
    Ok(Account {
        entries: Items::new(entries),
        completions: Items::new(completions),
        kept,
    })
}

impl<'a> Run<'a> {
    /// A follower that has recorded nothing.
    fn follower(&self, alloc: Global) -> Result<Follower<'a>, Memory>
        requires ready { HasAccountInput self.now }
        ensures run { IfOk result (λ follower. follower.run ≡ self.now) }
        ensures nothing { IfOk result (λ follower. IsFollowed self.now 0 follower.trails) }
    {
        let sets = self.set.platform.sets as usize;
        let trails = Trails::new(alloc, self.script.jobs.len(), sets)?;
        Ok(Follower { run: *self, trails })
    }

    /// The account of the run.
    fn account(&self, alloc: Global) -> Result<Account, Memory>
        requires ready { HasAccountInput self.now }
        requires jobs { length self.now.script.now.jobs < 2 ^ 32 }
        ensures { IfOk result
            (IsAccount (run_start self.now) (run_graphs self.now) (run_certificate self.now)
            self.now.script.now.cycles) }
    {
        let mut follower = self.follower(alloc)?;
        let (code, set, script) = (self.code, self.set, self.script);
        let (completions, kept) = run_observed(alloc, code, set, script, &mut follower)?;
        let account = tell(alloc, completions, kept, follower.trails.reloads.as_slice())?;
        Ok(account)
    }
}

/// The reloads of a script's run from its start, for the script's cycles, in the order of their
/// times, up to the first cycle in which a watch breaks. A reload is a fetch that misses at a node
/// that its full state counts as a hit. Its evictor is the job that last fetched to the set before.
/// Its preemptor is the last, in the order of jobs, of those that fetched between the two fetches
/// of the job that misses. The account also has the completions, and whether the run is kept. If
/// clauses 4 and 5 hold too, evictors and preemptors are of higher tasks, and an evictor, or a
/// preemptor, has at most one reload for each set.
///
/// `Memory` is the only error. The time is that of `run_observed` with constant time for each
/// fetch, of a pass over the jobs for each time at which a job resumes after other jobs, and of a
/// search for each reload in the job's gaps, which are these times. The memory is that of
/// `run_observed`, and a record for each node, reload and gap.
pub fn account(
    alloc: Global,
    code: &CodeMap,
    set: &TaskSet,
    graphs: &[Graph],
    certificate: &Certificate,
    script: &Script,
) -> Result<Account, Memory>
    requires set { IsTaskSet set.now }
    requires plans { length code.now.plans ≡ length set.now.tasks }
    requires graphs { AreGraphsOf code.now set.now graphs.now }
    requires met { TasksAreMet set.now graphs.now certificate.now }
    requires tasks { NamesTasks set.now script.now.jobs }
    requires jobs { length script.now.jobs < 2 ^ 32 }
    ensures is { IfOk result
        (λ a. (nests : ℕ → Nest)
        → IsAccount (start_of_script set.now code.now script.now) (with_nests graphs.now nests)
        certificate.now script.now.cycles a) }
    ensures facts { SetsAreMet set.now graphs.now certificate.now
        → IfOk result (λ a. (nests : ℕ → Nest)
        → HasAccountFacts (start_of_script set.now code.now script.now)
        (with_nests graphs.now nests) certificate.now script.now.cycles a) }
{
    code.words_law();
    let hits = all_hits(alloc, set, graphs, certificate)?;
    let run = Run {
        code,
        set,
        script,
        graphs,
        certificate,
        hits: hits.as_slice(),
    };
    run.account(alloc)
}
