// An observer that records the fetches of a run.
ghost use Rattle.std.specs.Prelude.{◌≡◌, ◌↔◌, ◌+◌, OnOk, IsTrue};
ghost use Rattle.flat_graph.specs.CodeGraph.{graph_at};
ghost use Rattle.preempt_machine.specs.Observed.{IsObservation};
ghost use Rattle.preempt_machine.specs.Safe.{IsKept};
ghost use Rattle.preempt_machine.specs.Step.{state};
ghost use Rattle.run_account.specs.Nodes.{job_task};
ghost use Rattle.run_account.specs.Inner.Notes.{HasMovedToNode};
ghost use Rattle.run_account.specs.Inner.Runs.{run_graphs, run_start, run_certificate, flags_of};
ghost use Rattle.run_account.specs.Inner.Runs.{HasAccountInput};
ghost use Rattle.run_account.specs.Inner.Trails.{AreTrailsOf};

use crate::run::Run;
use crate::trails::Trails;
use crpd_base::Memory;
use preempt_machine::{Observation, Observer};

/// Whether a fetch is a reload: it misses at a node that is counted as a hit.
fn is_reload(counted: bool, missed: bool) -> bool
    ensures { IsTrue result ↔ (IsTrue counted × IsTrue missed) }
{
    counted && missed
}

/// What stays the same along a run, and what is recorded of its fetches.
#[derive(Drop)]
pub(crate) struct Follower<'a> {
    pub(crate) run: Run<'a>,
    pub(crate) trails: Trails,
}

impl Trails {
    /// Moves to the node of an observed fetch, in the graph of its job's task. Gives whether the
    /// node is counted as a hit.
    fn follow_fetch(&mut self, run: &Run<'_>, seen: &Observation) -> bool
        requires ready { HasAccountInput run.now }
        requires fetched { IsObservation (run_start run.now) seen.now }
        requires noted { AreTrailsOf (run_start run.now) (run_graphs run.now)
            (run_certificate run.now) seen.now.time self.old }
        ensures followed { HasMovedToNode
            (graph_at run.now.graphs.now (job_task (run_start run.now) seen.now.place))
            (flags_of run.now.hits.now (job_task (run_start run.now) seen.now.place))
            seen.now.place seen.now.address self.old.nodes.items self.new.nodes.items result }
        ensures same { self.new ≡ record self.old { nodes = self.new.nodes } }
    {
        let line = &run.script.jobs[seen.place];
        let task = usize::from(line.task.0);
        let hits = run.hits[task].flags.as_slice();
        self.follow(&run.graphs[task], hits, seen.place, seen.address)
    }

    /// Records a fetch before which no watch was broken.
    fn note(&mut self, run: &Run<'_>, seen: &Observation) -> Result<(), Memory>
        requires ready { HasAccountInput run.now }
        requires kept { IsKept (state (run_start run.now) seen.now.time) }
        requires fetched { IsObservation (run_start run.now) seen.now }
        requires noted { AreTrailsOf (run_start run.now) (run_graphs run.now)
            (run_certificate run.now) seen.now.time self.old }
        ensures { OnOk result (AreTrailsOf (run_start run.now) (run_graphs run.now)
            (run_certificate run.now) (seen.now.time + 1) self.new) }
    {
        let counted = self.follow_fetch(run, seen);
        self.close_gap(run.script.jobs.as_slice(), seen.place, seen.time)?;
        if is_reload(counted, seen.missed) {
            self.enter(seen.place, seen.set, seen.time)?;
        }
        self.touch(seen.place, seen.set, seen.time);
        Ok(())
    }
}

impl<'a> Observer for Follower<'a> {
    ghost use Rattle.run_account.specs.declared.run.Run.{Run as Run_of};
    ghost use Rattle.run_account.specs.Inner.Runs.{run_start};
    ghost use Rattle.run_account.specs.Inner.FollowLaws.{followed_on, IsFollowedTo};

    ghost Run = { Run_of };

    ghost observed = { λ f. f.run };

    ghost start = { run_start };

    ghost has_observed = { λ f n. IsFollowedTo f.run n f.trails };

    fn observe(&mut self, seen: Observation) -> Result<(), Memory> {
        if seen.kept {
            return self.trails.note(&self.run, &seen);
        }
        Ok(())
    }

    ghost passes = { λ f n none before. followed_on f.run n f.trails none before };
}
