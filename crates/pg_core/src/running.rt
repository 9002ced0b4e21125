//! The core: a run over partitions between two events.
ghost use Rattle.std.specs.Prelude.{◌≡◌, ℕ, ◌+◌, ◌<◌, ◌≤◌, ◌∷◌, ◌++◌, [], true, cond, is_some, length, All, Option};
ghost use Rattle.std.specs.Prelude.{None, Some, IsSome};
ghost use Rattle.std.specs.Prelude.{IfErr, IfOk, IfSome, OnOk, slice_get, slice_index_or, slice_set, take};
ghost use Rattle.pg_core_machine.specs.Machine.{Reaches, RestoresFollowLosses, StepsTell, first_state, host_of};
ghost use Rattle.pg_core_machine.specs.Machine.{is_alive, is_allowed};
ghost use Rattle.pg_core.specs.Progress.{HasPut, IsNext, IsOpened, IsPartAt, IsRight, HasStepInput, IsStepOf, TakesIn};
ghost use Rattle.pg_core.specs.Progress.{is_ready as ready_test, job_of_core, part_at, ready_of, without_part};
ghost use Rattle.pg_core.specs.Beginning.{AreFirst, HasBegun, HasStarted};
ghost use Rattle.pg_core.specs.Closing.{IsFinished};
ghost use Rattle.pg_core.specs.Driving.{calls_in, losses_of};
ghost use Rattle.pg_global.specs.Master.{has_places, is_registered, job_of};
ghost use Rattle.pg_global.specs.Registry.{first_refusal};
ghost use Rattle.pg_core.specs.Traces.{IsRetainedBy, KeepsRetainedRun, logs_in, visible_in};
ghost use Rattle.pg_part.specs.PartRun.{AreTouched};
ghost use Rattle.std.specs.Option.{option_copied};
ghost use Rattle.pg_graph.specs.Rows.{Rows};
ghost use Rattle.pg_model.specs.Needed.{needed_count};
ghost use Rattle.pg_model.specs.Run.{configuration, values_of, visible_at};

use crate::beginning::{InitialCore, begun_parts, begun_parts_warm};
use crate::finishing::{Finished, finished};
use crate::traces::RetainedRun;
use crate::{Event, Limits, RunTotals, State, Traces};
use pg_core_values::Values;
use pg_global::{MasterCompute, MessageCombiner, Registry, Visible};
use pg_graph::{Graph, Memory, PartitionId, Superstep, VertexId, WorkerId};
use pg_inbox::{LoggedBundle, Logs};
use pg_model::Ending;
use pg_part::{Part, Partitioner, Sent};
use pg_program::{Computation, Plain};
use std::alloc::Global;
use std::marker::Model;

/// A run over partitions between two events: where it stands, the parts that aren't taken, what was sent, and what
/// the master showed so far.
pub struct Core<'a, P: Computation, C: MessageCombiner<P::Message>, M: MasterCompute> {
    pub(crate) program: &'a P,
    pub(crate) combiner: &'a C,
    pub(crate) master: &'a M,
    pub(crate) graph: &'a Graph,
    pub(crate) limits: Limits,
    pub(crate) run: u64,
    pub(crate) state: State,
    pub(crate) history: Vec<Event>,
    pub(crate) parts: Vec<Option<Part<P::Value, P::Message>>>,
    pub(crate) logs: Logs<P::Message>,
    pub(crate) shown: Vec<Visible>,
    pub(crate) run_totals: RunTotals,
    pub(crate) registry: Registry,
    pub(crate) ending: Option<Ending>,
    pub(crate) kept: Option<RetainedRun<P::Value, P::Message>>,
}

// By hand, so that it is let go by one call wherever that is, and not field by field.
impl<'a, P: Computation, C: MessageCombiner<P::Message>, M: MasterCompute> Drop
    for Core<'a, P, C, M> {
    fn drop(self) {
        let Core {
            program: _,
            combiner: _,
            master: _,
            graph: _,
            limits: _,
            run: _,
            state: _,
            history: _,
            parts: _,
            logs: _,
            shown: _,
            run_totals: _,
            registry: _,
            ending: _,
            kept: _,
        } = self;
    }
}

impl<'a, P: Computation, C: MessageCombiner<P::Message>, M: MasterCompute> Model
    for Core<'a, P, C, M> {
    ghost use Rattle.pg_core.specs.Progress.{IsLawful, Progress};

    ghost Value = { Progress P C M P.Value P.Message };

    ghost view = { λ c. record {
      program = c.program.now;
      combiner = c.combiner.now;
      master = c.master.now;
      graph = c.graph.now;
      limits = c.limits;
      run = c.run;
      state = c.state;
      history = c.history.items;
      parts = c.parts.items;
      logs = c.logs;
      shown = c.shown.items;
      run_totals = c.run_totals;
      ending = c.ending;
      kept = c.kept;
    } };

    ghost invariant = { λ c. IsLawful c.limits (P.program c.program.now).declared
        (M.master c.master.now).registrations c.registry c.state c.history.items c.parts.items
        c.shown.items c.run_totals };
}

impl<'a, P: Computation, C: MessageCombiner<P::Message>, M: MasterCompute> Core<'a, P, C, M> {
    /// A core to which nothing has happened, with a number that names the run. Costs one walk over the graph's rows
    /// for each partition.
    pub fn open(
        alloc: Global,
        graph: &'a Graph,
        program: &'a P,
        combiner: &'a C,
        master: &'a M,
        limits: Limits,
        run: u64,
    ) -> Result<Core<'a, P, C, M>, Memory>
        requires lawful { first_refusal [] (M.master master.now).registrations ≡ None }
        requires registered { is_registered (P.program program.now) (M.master master.now) ≡ true }
        ensures opened { IfOk result
            (λ core. IsOpened core program.now combiner.now master.now graph.now limits run) }
        ensures right { IfOk result
            (λ core. IsRight (job_of_core P.program C.combining M.master core) None core) }
    {
        let start = InitialCore::of(alloc, graph, master, limits)?;
        let parts = begun_parts(alloc, graph, limits, &start.registry, program)?;
        Ok(open_with(
            alloc, graph, program, combiner, master, limits, run, start, parts, None,
        ))
    }

    /// A core to which nothing has happened, against an old run over as many partitions: with all that it retained, and
    /// with ids outside of which the graph's rows are those of its graph. Its partitions execute only what differs from
    /// the old run. Costs a sort of k such ids, k look-ups for each partition, and one count a superstep of the old
    /// run.
    pub fn open_warm(
        alloc: Global,
        graph: &'a Graph,
        old: Traces<P::Value, P::Message>,
        touched: &[VertexId],
        program: &'a P,
        combiner: &'a C,
        master: &'a M,
        limits: Limits,
        run: u64,
    ) -> Result<Core<'a, P, C, M>, Memory>
        requires lawful { first_refusal [] (M.master master.now).registrations ≡ None }
        requires registered { is_registered (P.program program.now) (M.master master.now) ≡ true }
        requires each { length old.retained_parts ≡ limits.partitions }
        ensures opened { IfOk result
            (λ core. IsOpened core program.now combiner.now master.now graph.now limits run) }
        ensures right { let job = job_of (P.program program.now) (C.combining combiner.now)
            (M.master master.now) limits.missing limits.limit in
            IfOk result (λ core. (kept : Rows) → IsRetainedBy job kept limits.partitions old
            → AreTouched touched.now kept graph.now
            → IsRight (job_of_core P.program C.combining M.master core) (Some kept) core) }
    {
        let start = InitialCore::of(alloc, graph, master, limits)?;
        let (parts, retained_run) = begun_parts_warm(
            alloc,
            graph,
            limits,
            &start.registry,
            old,
            touched,
            program,
        )?;
        let kept = Some(retained_run);
        Ok(open_with(
            alloc, graph, program, combiner, master, limits, run, start, parts, kept,
        ))
    }

    /// Where the run stands.
    pub fn state(&self) -> &State
        ensures { result.now ≡ self.now.state }
    {
        &self.state
    }

    /// What has happened. The events led from the first state to the present one; each restored partition was lost
    /// before, and one that wasn't lost has made as many steps as it is far. Where a right run has ended and no worker
    /// fell, the calls of compute that its steps count are just the executions that the run needs.
    pub fn history(&self) -> &[Event]
        ensures value { result.now ≡ self.now.history }
        ensures leads { Reaches (first_state self.now.limits.partitions self.now.limits.workers)
            self.now.history self.now.state }
        ensures restores { RestoresFollowLosses
            (first_state self.now.limits.partitions self.now.limits.workers) self.now.history }
        ensures steps { StepsTell self.now.limits.partitions
            (first_state self.now.limits.partitions self.now.limits.workers) self.now.history self.now.state }
        ensures unlost { let job = job_of_core P.program C.combining M.master self.now in
            (kept : Option Rows) → IsRight job kept self.now
            → self.now.state.ended ≡ true → losses_of self.now ≡ []
            → calls_in P.Value.PartialEq.eq P.Message.PartialEq.eq job kept self.now
            ≡ needed_count P.Value.PartialEq.eq P.Message.PartialEq.eq job kept self.now.graph }
    {
        self.history.as_slice()
    }

    /// What was sent so far.
    pub fn logs(&self) -> &Logs<P::Message>
        ensures { result.now ≡ self.now.logs }
    {
        &self.logs
    }

    /// What the master showed in a superstep, up to the open one.
    pub fn visible(&self, superstep: Superstep) -> &Visible
        requires { superstep ≤ self.now.state.current }
        ensures value { slice_get self.now.shown superstep ≡ Some result.now }
        ensures few { length result.now.values ≤ 16 }
        ensures declared { has_places (P.program self.now.program).declared (length result.now.values) ≡ true }
        ensures places { length result.now.values ≡ length (M.master self.now.master).registrations }
        ensures right { let job = job_of_core P.program C.combining M.master self.now in
            (kept : Option Rows) → IsRight job kept self.now
            → result.now ≡ visible_at job self.now.graph superstep }
    {
        &self.shown[superstep.number() as usize]
    }

    /// What was sent in the kept run, for a step in a superstep that it has. `None` where it hasn't that superstep, or
    /// no run was kept.
    pub fn old_logs(&self, superstep: Superstep) -> Option<&Logs<P::Message>>
        ensures { option_copied result ≡ logs_in superstep self.now.kept }
    {
        match &self.kept {
            Some(kept) => kept.logs_in(superstep),
            None => None,
        }
    }

    /// What the master showed in a superstep of the kept run. `None` where it hasn't that superstep, or no run was
    /// kept.
    pub fn old_visible(&self, superstep: Superstep) -> Option<&Visible>
        ensures value { option_copied result ≡ visible_in superstep self.now.kept }
        ensures few { IfSome (option_copied result) (λ v. length v.values ≤ 16) }
    {
        match &self.kept {
            Some(kept) => kept.visible_in(superstep),
            None => None,
        }
    }

    /// The part of a partition that is neither taken nor lost.
    pub fn part(&self, partition: PartitionId) -> &Part<P::Value, P::Message>
        requires { IsSome (part_at partition self.now) }
        ensures value { part_at partition self.now ≡ Some result.now }
        ensures at { IsPartAt self.now.limits.partitions self.now.state partition result.now }
    {
        self.parts[partition.number() as usize].as_ref().unwrap()
    }

    /// The partitions whose parts can be taken for a step, with their hosts, by rising partition. None that is taken is
    /// among them, and no host that has fallen.
    pub fn ready(&self, alloc: Global) -> Result<Vec<(WorkerId, PartitionId)>, Memory>
        ensures ready { IfOk result (λ ready. ready.items ≡ ready_of self.now) }
        ensures alive { IfOk result (λ ready. All (λ r. is_alive r.0 self.now.state ≡ true) ready.items) }
    {
        let mut ready = Vec::new(alloc);
        for number in 0..self.limits.partitions() {
            self.push_ready(&mut ready, PartitionId::new(number))?;
        }
        Ok(ready)
    }

    /// Adds a partition with its host, where it is ready.
    fn push_ready(
        &self,
        ready: &mut Vec<(WorkerId, PartitionId)>,
        partition: PartitionId,
    ) -> Result<(), Memory>
        ensures { OnOk result (ready.new.items
            ≡ ready.old.items ++ cond (ready_test self.now partition)
            ((host_of partition self.now.state, partition) ∷ []) []) }
    {
        if self.is_ready(partition) {
            ready.push((self.state.host(partition), partition))?;
        }
        Ok(())
    }

    /// Whether the part of a partition can be taken for a step.
    pub fn is_ready(&self, partition: PartitionId) -> bool
        ensures { result ≡ ready_test self.now partition }
    {
        self.is_here(partition) && self.state.may_step(partition)
    }

    /// Whether the part of a partition is here: neither taken nor lost.
    pub fn is_here(&self, partition: PartitionId) -> bool
        ensures { result ≡ is_some (part_at partition self.now) }
    {
        let place = partition.number() as usize;
        place < self.parts.len() && self.parts[place].is_some()
    }

    /// Takes the part of a partition that is ready. A step of it borrows the logs, and what is visible in its
    /// superstep.
    pub fn take(&mut self, partition: PartitionId) -> Part<P::Value, P::Message>
        requires { ready_test self.old partition ≡ true }
        ensures core { self.new ≡ without_part partition self.old }
        ensures part { part_at partition self.old ≡ Some result }
        ensures gone { part_at partition self.new ≡ None }
        ensures reached { result.part_run.place ≤ self.old.state.current }
        ensures small { self.old.state.current < 10000 }
        ensures at { IsPartAt self.old.limits.partitions self.old.state partition result }
        ensures right { let job = job_of_core P.program C.combining M.master self.old in
            (kept : Option Rows) → IsRight job kept self.old
            → IsRight job kept self.new × HasStepInput job kept self.old partition result.part_run.place result }
    {
        self.parts[partition.number() as usize].take().unwrap()
    }

    /// Takes in a step of a partition: its part, one superstep further, in place of one that is here, and what it sent.
    /// Bundles to partitions that there aren't are omitted. Where memory is refused the core is to be given up.
    pub fn stepped(
        &mut self,
        alloc: Global,
        partition: PartitionId,
        part: Part<P::Value, P::Message>,
        sent: Sent<P::Message>,
    ) -> Result<(), Memory>
        requires allowed { is_allowed self.old.state (Event.Step partition) ≡ true }
        requires next { IsNext self.old.limits.partitions self.old.state partition part }
        ensures core { OnOk result (TakesIn partition part sent self.old self.new) }
        ensures right { let job = job_of_core P.program C.combining M.master self.old in
            OnOk result ((kept : Option Rows) → IsRight job kept self.old
            → IsStepOf job kept self.old partition part sent → IsRight job kept self.new) }
    {
        let place = Superstep::new(part.place().number() - 1);
        note_step(
            alloc,
            &mut self.logs,
            &mut self.history,
            self.limits,
            place,
            partition,
            sent,
        )?;
        self.state.step(partition, part.place());
        put_part(&mut self.parts, partition, part);
        Ok(())
    }

    /// The graph of the run.
    pub fn graph(&self) -> &'a Graph
        ensures { result.now ≡ self.now.graph }
    {
        self.graph
    }

    /// The master's aggregators.
    pub fn registry(&self) -> &Registry
        ensures { result.now ≡ (M.master self.now.master).registrations }
    {
        &self.registry
    }

    /// The program.
    pub fn program(&self) -> &'a P
        ensures { result.now ≡ self.now.program }
    {
        self.program
    }

    /// The combiner.
    pub fn combiner(&self) -> &'a C
        ensures { result.now ≡ self.now.combiner }
    {
        self.combiner
    }

    /// The numbers of the run.
    pub fn limits(&self) -> Limits
        ensures { result ≡ self.now.limits }
    {
        self.limits
    }

    /// The number that names the run.
    pub fn run(&self) -> u64
        ensures { result ≡ self.now.run }
    {
        self.run
    }

    /// The answer of a run that has ended, all that it leaves, and what it has no more use for, where these are the
    /// values with which the vertices ended.
    pub(crate) fn finish_with(
        self,
        alloc: Global,
        values: Values<P::Value>,
    ) -> Result<Finished<P::Value, P::Message>, Memory>
        requires { self.state.ended ≡ true }
        ensures each { IfOk result (λ done. length done.1.retained_parts ≡ self.entry.limits.partitions) }
        ensures places { IfOk result
            (λ done. length done.0.aggregates ≡ length (M.master self.entry.master).registrations) }
        ensures finished { let job = job_of_core P.program C.combining M.master self.entry in
            IfOk result (λ done. (kept : Option Rows) → IsRight job kept self.entry
            → values ≡ values_of job self.entry.graph
            (configuration job self.entry.graph (self.entry.state.current + 1))
            → IsFinished job self.entry done.0 done.1) }
    {
        let supersteps = self.next_superstep();
        let Core {
            program: _,
            combiner: _,
            master: _,
            graph,
            limits: _,
            run: _,
            state: _,
            history: _,
            parts,
            logs,
            shown,
            run_totals,
            registry: _,
            ending,
            kept,
        } = self;
        let retained_run = RetainedRun {
            logs,
            shown,
            values,
        };
        finished(
            alloc,
            graph,
            parts,
            retained_run,
            run_totals,
            ending,
            supersteps,
            kept,
        )
    }
}

/// Puts what a partition sent in a superstep into the logs, as far as there are partitions, and then the step into the
/// history.
fn note_step<M: Plain>(
    alloc: Global,
    logs: &mut Logs<M>,
    history: &mut Vec<Event>,
    limits: Limits,
    superstep: Superstep,
    from: PartitionId,
    sent: Sent<M>,
) -> Result<(), Memory>
    ensures logs { OnOk result (HasPut superstep from (take limits.partitions sent) logs.old logs.new) }
    ensures history { OnOk result (history.new.items ≡ history.old.items ++ Event.Step from ∷ []) }
    ensures refused { IfErr result (λ refused. history.new.items ≡ history.old.items) }
{
    let mut bundles = sent.into_bundles();
    bundles.truncate(limits.partitions() as usize);
    put_all(alloc, logs, superstep, from, bundles)?;
    history.push(Event::Step(from))?;
    Ok(())
}

/// Puts the part of a partition in its place, and lets go what was there.
pub(crate) fn put_part<V: Plain, M: Plain>(
    parts: &mut Vec<Option<Part<V, M>>>,
    partition: PartitionId,
    part: Part<V, M>,
)
    requires { partition < length parts.old.items }
    ensures { parts.new.items ≡ slice_set parts.old.items partition (Some part) }
{
    drop(parts[partition.number() as usize].replace(part));
}

/// Puts the bundles of a partition into the logs, one to each partition from 0 on.
pub(crate) fn put_all<M: Plain>(
    alloc: Global,
    logs: &mut Logs<M>,
    superstep: Superstep,
    from: PartitionId,
    bundles: Vec<LoggedBundle<M>>,
) -> Result<(), Memory>
    requires { length bundles.items ≤ 64 }
    ensures { OnOk result (HasPut superstep from bundles.items logs.old logs.new) }
{
    let mut to = 0u32;
    for logged in bundles {
        logs.put(alloc, superstep, from, PartitionId::new(to), logged)?;
        to += 1;
    }
    Ok(())
}

/// What tells the partition of a vertex.
pub(crate) fn partitioner_of(limits: Limits) -> Partitioner
    ensures value { result ≡ limits.partitions }
    ensures some { 0 < limits.partitions }
    ensures most { limits.partitions ≤ 64 }
{
    Partitioner::new(limits.partitions()).unwrap()
}

/// A core with these parts, as a run opens.
fn open_with<'a, P: Computation, C: MessageCombiner<P::Message>, M: MasterCompute>(
    alloc: Global,
    graph: &'a Graph,
    program: &'a P,
    combiner: &'a C,
    master: &'a M,
    limits: Limits,
    run: u64,
    start: InitialCore,
    parts: Vec<Option<Part<P::Value, P::Message>>>,
    kept: Option<RetainedRun<P::Value, P::Message>>,
) -> Core<'a, P, C, M>
    requires started { HasStarted (M.master master.now) graph.now limits start }
    requires registered { is_registered (P.program program.now) (M.master master.now) ≡ true }
    requires each { length parts.items ≡ limits.partitions }
    requires first { AreFirst limits.partitions limits.partitions parts.items }
    ensures opened { IsOpened result program.now combiner.now master.now graph.now limits run }
    ensures right { let job = job_of (P.program program.now) (C.combining combiner.now)
        (M.master master.now) limits.missing limits.limit in
        (old : Option Rows) → KeepsRetainedRun job old limits.partitions kept
        → ((p : ℕ) → p < limits.partitions
        → HasBegun job old graph.now limits.partitions p (slice_index_or parts.items p None))
        → IsRight job old result }
{
    let InitialCore {
        registry,
        state,
        shown,
        run_totals,
    } = start;
    Core {
        program,
        combiner,
        master,
        graph,
        limits,
        run,
        state,
        history: Vec::new(alloc),
        parts,
        logs: Logs::new(alloc),
        shown,
        run_totals,
        registry,
        ending: None,
        kept,
    }
}
