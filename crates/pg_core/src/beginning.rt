//! What stands as a run over partitions opens.
ghost use Rattle.std.specs.Prelude.{◌≡◌, ◌≤◌, length, map, [], ◌∷◌, All, None, IfOk, OnOk};
ghost use Rattle.pg_core.specs.Beginning.{AreFirst, HasStarted, HaveBegun, HaveBegunWarm, HaveBegunWith, first_visible};
ghost use Rattle.pg_global.specs.Registry.{aggregating_of, first_refusal};
ghost use Rattle.pg_graph.specs.Rows.{HasRisingIds};

use crate::running::partitioner_of;
use crate::traces::RetainedRun;
use crate::{Limits, RunTotals, State, Traces};
use pg_global::{Aggregator, MasterCompute, Registry, Visible, copied, visible_in};
use pg_graph::{Graph, Memory, PartitionId, Superstep, VertexId};
use pg_model::Sequence;
use pg_part::{Part, RetainedPart, member_changes};
use pg_program::Computation;
use std::alloc::{AllocError, Global};

/// What a run has as it opens, besides its parts: the master's aggregators, where it stands, what the master shows in
/// superstep 0, and what was counted.
#[derive(Drop)]
pub(crate) struct InitialCore {
    pub(crate) registry: Registry,
    pub(crate) state: State,
    pub(crate) shown: Vec<Visible>,
    pub(crate) run_totals: RunTotals,
}

impl InitialCore {
    /// What a run on a graph has.
    pub(crate) fn of<M: MasterCompute>(
        alloc: Global,
        graph: &Graph,
        master: &M,
        limits: Limits,
    ) -> Result<InitialCore, Memory>
        requires { first_refusal [] (M.master master.now).registrations ≡ None }
        ensures { IfOk result (λ start. HasStarted (M.master master.now) graph.now limits start) }
    {
        let registry = registered(alloc, master)?;
        let gathered = initial_values(alloc, &registry)?;
        let shown = first_shown(alloc, graph, master, &gathered)?;
        let state = State::first(alloc, limits.partitions(), limits.workers())?;
        let run_totals = RunTotals {
            gathered,
            sent: 0,
            dropped: 0,
        };
        Ok(InitialCore {
            registry,
            state,
            shown,
            run_totals,
        })
    }
}

/// The master's aggregators, registered.
fn registered<M: MasterCompute>(alloc: Global, master: &M) -> Result<Registry, Memory>
    requires { first_refusal [] (M.master master.now).registrations ≡ None }
    ensures { IfOk result (λ registry. registry ≡ (M.master master.now).registrations) }
{
    let mut registry = Registry::new(alloc);
    match master.initialize(alloc, &mut registry) {
        Ok(()) => Ok(registry),
        Err(_) => Err(AllocError),
    }
}

/// What each aggregator begins with, by place.
fn initial_values(alloc: Global, registry: &Registry) -> Result<Sequence<i64>, Memory>
    ensures value { IfOk result (λ values. values ≡ map (λ e. (aggregating_of e.1).initial) registry.now) }
    ensures few { OnOk result (length registry.now ≤ 16) }
{
    let mut values = Sequence::new(alloc);
    for place in 0..registry.len() {
        values.push(registry.registration(place).kind.initial_value())?;
    }
    Ok(values)
}

/// What the master shows up to superstep 0, where these are the initial values.
fn first_shown<M: MasterCompute>(
    alloc: Global,
    graph: &Graph,
    master: &M,
    gathered: &Sequence<i64>,
) -> Result<Vec<Visible>, Memory>
    requires { length gathered.now ≡ length (M.master master.now).registrations }
    ensures value { IfOk result (λ shown. shown.items
        ≡ first_visible (M.master master.now).deciding graph.now gathered.now ∷ []) }
    ensures places { IfOk result (λ shown. All (λ v. length v.values ≡ length gathered.now) shown.items) }
    ensures rising { HasRisingIds graph.now }
{
    let (vertices, edges) = (graph.vertices(), graph.edges());
    let seen = copied(alloc, gathered)?;
    let visible = visible_in(alloc, master, Superstep::new(0), vertices, edges, seen)?;
    let mut shown = Vec::new(alloc);
    shown.push(visible)?;
    Ok(shown)
}

/// The parts of all partitions as superstep 0 begins. Costs one walk over the graph's rows for each.
pub(crate) fn begun_parts<P: Computation>(
    alloc: Global,
    graph: &Graph,
    limits: Limits,
    registry: &Registry,
    program: &P,
) -> Result<Vec<Option<Part<P::Value, P::Message>>>, Memory>
    ensures each { IfOk result (λ parts. length parts.items ≡ limits.partitions) }
    ensures first { IfOk result (λ parts. AreFirst limits.partitions limits.partitions parts.items) }
    ensures begun { IfOk result (λ parts. HaveBegun (P.program program.now) limits.missing registry.now
        graph.now limits.partitions limits.partitions parts.items) }
{
    let partitioner = partitioner_of(limits);
    let mut parts = Vec::new(alloc);
    for partition in 0..partitioner.partitions() {
        let rows = partitioner.rows(graph, PartitionId::new(partition));
        parts.push(Some(Part::begin(alloc, rows, limits.missing(), registry, program)?))?;
    }
    Ok(parts)
}

/// The parts of all partitions as superstep 0 of a run against an old one begins, and what the old run's partitions
/// have in common. They take all that the old run retained, and ids outside of which the graph's rows are those of its
/// graph. Costs a sort of k such ids, k look-ups for each partition, and a count a superstep of the old run.
pub(crate) fn begun_parts_warm<P: Computation>(
    alloc: Global,
    graph: &Graph,
    limits: Limits,
    registry: &Registry,
    old: Traces<P::Value, P::Message>,
    touched: &[VertexId],
    program: &P,
) -> Result<
    (
        Vec<Option<Part<P::Value, P::Message>>>,
        RetainedRun<P::Value, P::Message>,
    ),
    Memory,
>
    requires { length old.retained_parts ≡ limits.partitions }
    ensures each { IfOk result (λ begun. length begun.0.items ≡ limits.partitions) }
    ensures first { IfOk result (λ begun. AreFirst limits.partitions limits.partitions begun.0.items) }
    ensures begun { IfOk result (λ begun. HaveBegunWarm (P.program program.now) limits.missing registry.now
        graph.now touched.now old.graph old.retained_parts limits.partitions limits.partitions begun.0.items) }
    ensures retained_run { IfOk result (λ begun. begun.1 ≡ old.retained_run) }
{
    let (retained_parts, before, retained_run) = old.into_parts();
    let member_changes = member_changes(alloc, &before, graph, touched)?;
    let member_changes = member_changes.as_slice();
    let parts = begun_with(
        alloc,
        graph,
        limits,
        registry,
        retained_parts,
        touched,
        member_changes,
        program,
    )?;
    Ok((parts, retained_run))
}

/// The parts as a run against an old one begins, where these of the ids are a vertex of just one of the two graphs.
fn begun_with<P: Computation>(
    alloc: Global,
    graph: &Graph,
    limits: Limits,
    registry: &Registry,
    retained_parts: Vec<RetainedPart<P::Value, P::Message>>,
    touched: &[VertexId],
    member_changes: &[VertexId],
    program: &P,
) -> Result<Vec<Option<Part<P::Value, P::Message>>>, Memory>
    requires { length retained_parts.items ≡ limits.partitions }
    ensures each { IfOk result (λ parts. length parts.items ≡ limits.partitions) }
    ensures first { IfOk result (λ parts. AreFirst limits.partitions limits.partitions parts.items) }
    ensures begun { IfOk result (λ parts. HaveBegunWith (P.program program.now) limits.missing registry.now
        graph.now touched.now member_changes.now retained_parts.items limits.partitions limits.partitions parts.items) }
{
    let partitioner = partitioner_of(limits);
    let mut parts = Vec::new(alloc);
    let mut partition = 0u32;
    for retained in retained_parts {
        let rows = partitioner.rows(graph, PartitionId::new(partition));
        let part = Part::begin_warm(
            alloc,
            rows,
            limits.missing(),
            registry,
            retained,
            touched,
            member_changes,
            program,
        )?;
        parts.push(Some(part))?;
        partition += 1;
    }
    Ok(parts)
}
