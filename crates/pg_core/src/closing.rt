//! Closing the open superstep of a run over partitions.
ghost use Rattle.std.specs.Prelude.{◌≡◌, ◌+◌, ◌<◌, ◌≤◌, ◌==◌, true, cond, length, None, Option, Some, IfOk, OnOk};
ghost use Rattle.pg_core.specs.Closing.{ClosesRight, HasClosed, with_end, with_next};
ghost use Rattle.pg_core_machine.specs.Machine.{is_allowed};
ghost use Rattle.pg_core.specs.Progress.{IsRight, job_of_core};
ghost use Rattle.pg_graph.specs.Rows.{Rows};
ghost use Rattle.pg_model.specs.Run.{configuration, ending_after};
ghost use Rattle.pg_model.specs.Superstep.{visible_in};
ghost use Rattle.pg_stats.specs.GlobalStats.{AreStatsBetween};

use crate::combined_stats::combined_stats;
use crate::{Closed, Core, Event, RunTotals};
use pg_global::{MasterCompute, MessageCombiner, copied, visible_in};
use pg_graph::{Memory, Superstep};
use pg_model::Ending;
use pg_program::Computation;
use pg_stats::GlobalStats;
use std::alloc::Global;

impl<'a, P: Computation, C: MessageCombiner<P::Message>, M: MasterCompute> Core<'a, P, C, M> {
    /// Whether the open superstep may be closed: the run hasn't ended, and all partitions are past it. Costs
    /// O(partitions).
    pub fn may_close(&self) -> bool
        ensures { result ≡ is_allowed self.now.state (Event.Close Closed.Next) }
    {
        self.state.may_close()
    }

    /// Closes the open superstep: the run ends, or the master decides what the next superstep shows. Costs one step for
    /// each partition and aggregator. Where memory is refused the core is to be given up.
    pub fn close(&mut self, alloc: Global) -> Result<Closed, Memory>
        requires { is_allowed self.old.state (Event.Close Closed.Next) ≡ true }
        ensures core { IfOk result (λ closed. HasClosed closed self.old self.new) }
        ensures right { let job = job_of_core P.program C.combining M.master self.old in
            IfOk result (λ closed. (kept : Option Rows) → IsRight job kept self.old
            → ClosesRight job kept closed self.old self.new) }
    {
        let stats = self.current_stats(alloc)?;
        self.close_with(alloc, stats)
    }

    /// What the partitions have come to in the open superstep, together.
    fn current_stats(&self, alloc: Global) -> Result<GlobalStats, Memory>
        requires { is_allowed self.now.state (Event.Close Closed.Next) ≡ true }
        ensures places { IfOk result
            (λ stats. length stats.gathered ≡ length (M.master self.now.master).registrations) }
        ensures right { let job = job_of_core P.program C.combining M.master self.now in
            IfOk result (λ stats. (kept : Option Rows) → IsRight job kept self.now
            → AreStatsBetween (configuration job self.now.graph self.now.state.current)
            (configuration job self.now.graph (self.now.state.current + 1)) stats) }
    {
        let visible = self.visible(self.state.current());
        let seen = visible.values.as_slice();
        let stats = combined_stats(alloc, &self.registry, seen, self.parts.as_slice())?;
        Ok(stats)
    }

    /// Closes the open superstep, where this is what the partitions have come to: the run ends, or the master decides
    /// what the next superstep shows.
    fn close_with(&mut self, alloc: Global, stats: GlobalStats) -> Result<Closed, Memory>
        requires allowed { is_allowed self.old.state (Event.Close Closed.Next) ≡ true }
        requires places { length stats.gathered ≡ length (M.master self.old.master).registrations }
        ensures core { IfOk result (λ closed. HasClosed closed self.old self.new) }
        ensures right { let job = job_of_core P.program C.combining M.master self.old in
            IfOk result (λ closed. (kept : Option Rows) → IsRight job kept self.old
            → AreStatsBetween (configuration job self.old.graph self.old.state.current)
            (configuration job self.old.graph (self.old.state.current + 1)) stats
            → ClosesRight job kept closed self.old self.new) }
    {
        let ending = self.ending_with(&stats);
        let (vertices, edges) = (stats.vertices, stats.edges);
        let run_totals = self.run_totals.after(stats);
        match ending {
            Some(ending) => {
                self.end(ending, run_totals)?;
                Ok(Closed::Ended)
            }
            None => {
                self.open_next(alloc, vertices, edges, run_totals)?;
                Ok(Closed::Next)
            }
        }
    }

    /// Why the run ends with the open superstep, if it does, where this is what the partitions have come to.
    fn ending_with(&self, stats: &GlobalStats) -> Option<Ending>
        ensures goes_on { result ≡ None → self.now.state.current + 1 < self.now.limits.limit }
        ensures right { let job = job_of_core P.program C.combining M.master self.now in
            (kept : Option Rows) → IsRight job kept self.now
            → AreStatsBetween (configuration job self.now.graph self.now.state.current)
            (configuration job self.now.graph (self.now.state.current + 1)) stats.now
            → result ≡ ending_after job self.now.graph self.now.state.current }
    {
        let current = self.state.current();
        let halt = self.visible(current).halt;
        let limit = self.limits.limit();
        ending_of(halt, stats.is_idle, current.number() + 1, limit)
    }

    /// The run has ended with the open superstep.
    fn end(&mut self, ending: Ending, run_totals: RunTotals) -> Result<(), Memory>
        requires allowed { is_allowed self.old.state (Event.Close Closed.Next) ≡ true }
        requires places { length run_totals.gathered ≡ length (M.master self.old.master).registrations }
        ensures { OnOk result (self.new ≡ with_end ending run_totals self.old) }
    {
        self.history.push(Event::Close(Closed::Ended))?;
        self.state.close(Closed::Ended);
        self.run_totals = run_totals;
        self.ending = Some(ending);
        Ok(())
    }

    /// Opens the next superstep, as which begins there are so many vertices and out-edges.
    fn open_next(
        &mut self,
        alloc: Global,
        vertices: u64,
        edges: u64,
        run_totals: RunTotals,
    ) -> Result<(), Memory>
        requires allowed { is_allowed self.old.state (Event.Close Closed.Next) ≡ true }
        requires goes_on { self.old.state.current + 1 < self.old.limits.limit }
        requires places { length run_totals.gathered ≡ length (M.master self.old.master).registrations }
        ensures { let visible = visible_in (M.master self.old.master).deciding
            (record { vertices = vertices; edges = edges })
            (self.old.state.current + 1) run_totals.gathered in
            OnOk result (self.new ≡ with_next visible run_totals self.old) }
    {
        let next = self.next_superstep();
        let seen = copied(alloc, &run_totals.gathered)?;
        let visible = visible_in(alloc, self.master, next, vertices, edges, seen)?;
        self.shown.push(visible)?;
        self.history.push(Event::Close(Closed::Next))?;
        self.state.close(Closed::Next);
        self.run_totals = run_totals;
        Ok(())
    }

    /// The superstep after the open one, so as many as there were up to that.
    pub(crate) fn next_superstep(&self) -> Superstep
        ensures value { result ≡ self.now.state.current + 1 }
        ensures small { result ≤ 10000 }
    {
        Superstep::new(self.state.current().number() + 1)
    }
}

/// Why a run ends after a superstep, if it does: the master halted; all is idle; the limit is reached.
fn ending_of(halt: bool, is_idle: bool, supersteps: u32, limit: u32) -> Option<Ending>
    ensures { result ≡ cond halt (Some Ending.MasterHalted) (cond is_idle (Some Ending.Finished)
        (cond (supersteps == limit) (Some Ending.LimitReached) None)) }
{
    if halt {
        return Some(Ending::MasterHalted);
    }
    if is_idle {
        return Some(Ending::Finished);
    }
    if supersteps == limit {
        return Some(Ending::LimitReached);
    }
    None
}
