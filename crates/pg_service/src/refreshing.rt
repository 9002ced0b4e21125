//! A refresh: the run on the graph as it stands, against the last one.
ghost use Rattle.std.specs.Prelude.{◌≡◌, ◌<◌, ◌+◌, ◌^◌, true, None, Some, length, option_map};
ghost use Rattle.std.specs.Prelude.{IfOk, IfErr, IfSome, OnOk, OnErr};
ghost use Rattle.pg_workers.specs.Handed.{IsCounted, IsOpened, IsRight, job_of_core};
ghost use Rattle.pg_service.specs.Job.{job_of_service, registered_by};
ghost use Rattle.pg_service.specs.Kept.{IsKept};
ghost use Rattle.pg_service.specs.Led.{LeadsOn};
ghost use Rattle.pg_service.specs.Service.{IsRun, MayReport, entry_of, with_entry};
ghost use Rattle.pg_workers.specs.Refused.{MayRefuse, is_failure};

use crate::kept::KeptRun;
use crate::{RefreshFault, Report, Service};
use pg_global::{MasterCompute, MessageCombiner};
use pg_graph::Memory;
use pg_program::Computation;
use pg_publish::Answers;
use pg_workers::{Core, Counts, Fate, Finished, Gate, Shelf, run_job};
use std::alloc::Global;
use std::sync::Wait;
use std::thread::Threads;

impl<P: Computation, C: MessageCombiner<P::Message>, M: MasterCompute> Service<P, C, M> {
    /// Runs the program on the graph as it stands, against the last run where that is kept, on workers of which some
    /// may fall, publishes the answer to readers, and keeps what the run leaves. The answer is that of the run from
    /// scratch, whoever fell. Where no worker fell, the calls of compute are as many as the vertices and supersteps
    /// whose inputs aren't those of the kept run, at most 2^64 - 1. The shelf is where checkpoints are put; a refresh
    /// goes on from none that it didn't put itself. It waits for readers that still look at the publication before the
    /// last.
    ///
    /// # Errors
    ///
    /// `Memory` where a growth was refused outside of a worker's steps, `Device` where the shelf's device failed,
    /// `TooManyLosses` where more workers fell than may, and else `NoWorkers` where all of them did. Then no run is
    /// kept, and the rest stays as it was, what is published too.
    ///
    /// # Cost
    ///
    /// Where no run is kept, that of a whole run. Else what is executed, with its edges and messages; a sort of the
    /// noted ids and a look-up of each for each partition; a count for each superstep and pair of partitions; a walk
    /// over the records of each superstep in which something else is contributed, and over what is active past the kept
    /// run's end; and for the answer two copies of the vertices' values, with a look-up for each vertex that may have
    /// ended otherwise. Where many rows were changed, a walk over all rows, and a copy of the edges of those next to
    /// the changed ones, so that they lie side by side. What workers add, `pg_workers::run_job` tells. What the kept
    /// run sent otherwise is still there afterwards: `drop_deferred` lets go of it, or the next refresh as it begins.
    pub fn refresh<R: Threads + Wait + Sync, S: Shelf, F: Fate, G: Gate>(
        &mut self,
        rt: &R,
        alloc: Global,
        shelf: &mut S,
        fate: &F,
        gate: &G,
    ) -> Result<Report, RefreshFault>
        requires honest { (S.state shelf.old).is_honest ≡ true }
        requires counts { (S.state shelf.old).failures + 1 < 2 ^ 64 }
        ensures report { let job = job_of_service P.program C.combining M.master self.old.job in
            IfOk result (MayReport job P.Value.PartialEq.eq P.Message.PartialEq.eq (F.fated fate.now)
            self.old.job.limits self.old.kept self.old.edition self.old.graph) }
        ensures published { let job = job_of_service P.program C.combining M.master self.old.job in
            let names = registered_by M.master self.old.job in
            OnOk result (self.new ≡ record self.old {
              told = with_entry (entry_of job names self.old.edition self.old.graph) self.old.told;
              kept = Some self.old.graph;
            }) }
        ensures refused { IfErr result (MayRefuse (F.fated fate.now) self.old.job.limits) }
        ensures counted { IsCounted (S.state shelf.old) (is_failure result) (S.state shelf.new) }
        ensures err { OnErr result (self.new ≡ record self.old { kept = None }) }
        ensures leads { let job = job_of_service P.program C.combining M.master self.old.job in
            LeadsOn self.old.job job (registered_by M.master self.old.job) self.old.told.publisher
            self.old self.new }
    {
        drop(self.deferred_drop.take());
        let kept = self.kept.take();
        self.graph.compact(alloc);
        self.runs = self.runs.saturating_add(1);
        let (finished, counts) = self.run_warm(rt, alloc, kept, shelf, fate, gate)?;
        let (run, traces, deferred_drop) = finished;
        let report = Report::of(self.edition, &run, counts);
        let answers = Answers::new(self.edition, run, &self.registry)?;
        self.publisher.publish(rt, answers)?;
        self.kept = Some(KeptRun::new(alloc, traces));
        self.deferred_drop = Some(deferred_drop);
        Ok(report)
    }

    /// The run on the graph as it stands, against one that was kept, with what it leaves and what was counted.
    fn run_warm<R: Threads + Wait + Sync, S: Shelf, F: Fate, G: Gate>(
        &self,
        rt: &R,
        alloc: Global,
        kept: Option<KeptRun<P::Value, P::Message>>,
        shelf: &mut S,
        fate: &F,
        gate: &G,
    ) -> Result<(Finished<P::Value, P::Message>, Counts), RefreshFault>
        requires fits { IfSome kept (IsKept (job_of_service P.program C.combining M.master self.now.job)
            self.now.job.limits.partitions self.now.graph) }
        requires honest { (S.state shelf.old).is_honest ≡ true }
        requires counts { (S.state shelf.old).failures + 1 < 2 ^ 64 }
        ensures ran { let job = job_of_service P.program C.combining M.master self.now.job in
            IfOk result (λ r. IsRun job P.Value.PartialEq.eq P.Message.PartialEq.eq (F.fated fate.now)
            self.now.job.limits (option_map (λ k. k.traces.graph) kept) self.now.graph r.0.0 r.0.1 r.1) }
        ensures named { IfOk result
            (λ r. length r.0.0.aggregates ≡ length (registered_by M.master self.now.job)) }
        ensures refused { IfErr result (MayRefuse (F.fated fate.now) self.now.job.limits) }
        ensures counted { IsCounted (S.state shelf.old) (is_failure result) (S.state shelf.new) }
    {
        let core = self.opened(alloc, kept, self.runs)?;
        run_job(rt, alloc, core, shelf, fate, gate)
    }

    /// The run with this number, opened against one that was kept.
    fn opened<'a>(
        &'a self,
        alloc: Global,
        kept: Option<KeptRun<P::Value, P::Message>>,
        run: u64,
    ) -> Result<Core<'a, P, C, M>, Memory>
        requires { IfSome kept (IsKept (job_of_service P.program C.combining M.master self.now.job)
            self.now.job.limits.partitions self.now.graph) }
        ensures opened { IfOk result (λ core. IsOpened core self.now.job.program self.now.job.combiner
            self.now.job.master self.now.graph self.now.job.limits run) }
        ensures right { IfOk result (λ core. IsRight (job_of_core P.program C.combining M.master core)
            (option_map (λ k. k.traces.graph) kept) core) }
    {
        let Service {
            program,
            combiner,
            master,
            limits,
            graph,
            ..
        } = self;
        match kept {
            None => Core::open(alloc, graph, program, combiner, master, *limits, run),
            Some(KeptRun { traces, touched }) => {
                let touched = touched.as_slice();
                Core::open_warm(
                    alloc, graph, traces, touched, program, combiner, master, *limits, run,
                )
            }
        }
    }
}
