//! A run from scratch.
ghost use Rattle.std.specs.Prelude.{◌≡◌, [], ◌+◌, ◌<◌, ◌≤◌, ◌^◌, ◌==◌, true, false, cond, map, length, Some, None};
ghost use Rattle.std.specs.Prelude.{IsSome, IfOk};
ghost use Rattle.std.specs.Prelude.{OnOk, OnErr, IsErrOf};
ghost use Rattle.std.specs.List.{range_with_len};
ghost use Rattle.pg_graph.specs.Rows.{HasRisingIds, edge_count};
ghost use Rattle.pg_model.specs.Run.{answer, executions, beginning};
ghost use Rattle.pg_model.specs.Superstep.{ids as ids_of, is_all_idle, capped};
ghost use Rattle.pg_global.specs.Master.{job_of, is_registered, has_places};
ghost use Rattle.pg_global.specs.Registry.{first_refusal, aggregating_of};
ghost use Rattle.pg_scratch.specs.Stages.{IsPrepared};
ghost use Rattle.pg_scratch.specs.Worklist.{ListsActive};

use crate::beginning::{initial_values, registrations_of, with_inboxes_of};
use crate::ids::IdIndex;
use crate::superstep::{Progress, Runner, Spare, superstep};
use crate::worklist::is_anyone_active;
use pg_global::{MasterCompute, MessageCombiner, RegisterFault, Registration, Registry};
use pg_graph::{Graph, Memory, Missing, Superstep, VertexId};
use pg_model::{Configuration, Declared, Ending, Run, Sequence, VertexState, VertexWithInbox};
use pg_program::{Computation, Meter};
use std::alloc::Global;
use thiserror::Error;

/// Why a run was not made.
#[derive(Clone, Copy, Debug, PartialEq, Eq, Error)]
pub enum RunFault {
    /// 1: a growth was refused.
    #[error("out of memory")]
    Memory,
    /// 2: the program has declared a place that the master doesn't register.
    #[error("a declared aggregator isn't registered")]
    Unregistered,
    /// 3: the master's list of aggregators breaks the rules of registration.
    #[error("the master's aggregators can't be registered")]
    Register,
}

impl From<Memory> for RunFault {
    ghost use Rattle.pg_scratch.specs.declared.runner.RunFault.TheVariants.{Memory};

    ghost from_gives = { λ _ fault. fault ≡ Memory };

    fn from(_: Memory) -> RunFault {
        RunFault::Memory
    }
}

/// Why the run ends after a superstep, if it does: the master halted; no vertex is active and no message waits; the
/// limit is reached.
fn ending_of<V, M>(
    halt: bool,
    progress: &Progress<V, M>,
    supersteps: u32,
    limit: u32,
) -> Option<Ending>
    requires { ListsActive progress.now.configuration.with_inboxes progress.now.work.items }
    ensures { result ≡ cond halt (Some Ending.MasterHalted)
        (cond (is_all_idle progress.now.configuration) (Some Ending.Finished)
        (cond (supersteps == limit) (Some Ending.LimitReached) None)) }
{
    if halt {
        return Some(Ending::MasterHalted);
    }
    let with_inboxes = progress.configuration.with_inboxes.as_slice();
    let is_anyone_active = is_anyone_active(with_inboxes, progress.work.as_slice());
    if !is_anyone_active && progress.configuration.waiting.len() == 0 {
        return Some(Ending::Finished);
    }
    if supersteps == limit {
        return Some(Ending::LimitReached);
    }
    None
}

/// The answer of a run that has ended with this configuration.
fn answer_of<V: Drop, M: Drop>(
    alloc: Global,
    configuration: Configuration<V, M>,
    ending: Ending,
    supersteps: u32,
) -> Result<Run<V>, Memory>
    ensures { IfOk result (λ r. r ≡ record {
      values = map (λ x. (x.state.id, x.state.value)) configuration.with_inboxes;
      aggregates = configuration.gathered;
      ending = ending;
      supersteps = supersteps;
      sent = configuration.sent;
      dropped = configuration.dropped;
    }) }
{
    let Configuration {
        with_inboxes,
        waiting: _,
        gathered,
        sent,
        dropped,
    } = configuration;
    Ok(Run {
        values: values_of(alloc, with_inboxes.into_vec())?,
        aggregates: gathered,
        ending,
        supersteps,
        sent,
        dropped,
    })
}

/// The values of vertices, with their ids.
fn values_of<V: Drop, M: Drop>(
    alloc: Global,
    with_inboxes: Vec<VertexWithInbox<V, M>>,
) -> Result<Sequence<(VertexId, V)>, Memory>
    ensures { IfOk result
        (λ values. values ≡ map (λ x. (x.state.id, x.state.value)) with_inboxes.items) }
{
    let mut values = Vec::with_capacity(alloc, with_inboxes.len())?;
    for with_inbox in with_inboxes {
        let VertexWithInbox { state, inbox: _ } = with_inbox;
        let VertexState {
            id,
            value,
            edges: _,
            halted: _,
        } = state;
        values.push((id, value))?;
    }
    Ok(Sequence::from_vec(values))
}

/// The run as its first superstep begins.
fn begin<P: Computation>(
    alloc: Global,
    graph: &Graph,
    program: &P,
    registrations: &[Registration],
    meter: Meter,
) -> Result<Progress<P::Value, P::Message>, Memory>
    ensures configuration { IfOk result (λ p. p.configuration ≡ record {
      with_inboxes = map (beginning (P.program program.now)) graph.now;
      waiting = [];
      gathered = map (λ r. (aggregating_of r).initial) registrations.now;
      sent = 0;
      dropped = 0;
    }) }
    ensures rising { HasRisingIds graph.now }
    ensures ids { IfOk result (λ p. p.ids ≡ ids_of p.configuration.with_inboxes) }
    ensures work { IfOk result (λ p. p.work.items ≡ range_with_len 0 (length graph.now)) }
    ensures edges { IfOk result (λ p. (p.edges ≡ edge_count graph.now) × (p.edges < 2 ^ 64)) }
    ensures meter { IfOk result (λ p. p.meter ≡ meter) }
{
    let work = all_places(alloc, graph.vertices() as usize)?;
    let gathered = initial_values(alloc, registrations)?;
    let with_inboxes = with_inboxes_of(alloc, graph, program)?;
    let ids = IdIndex::of_vertices(alloc, with_inboxes.as_slice())?;
    let configuration = Configuration {
        with_inboxes: Sequence::from_vec(with_inboxes),
        waiting: Sequence::new(alloc),
        gathered,
        sent: 0,
        dropped: 0,
    };
    Ok(Progress {
        configuration,
        ids,
        work,
        edges: graph.edges(),
        meter,
        spare: Spare {
            sent: Sequence::new(alloc),
            contributed: Sequence::new(alloc),
        },
    })
}

/// The places of so many vertices.
fn all_places(alloc: Global, vertices: usize) -> Result<Vec<usize>, Memory>
    ensures { IfOk result (λ places. places.items ≡ range_with_len 0 vertices) }
{
    let mut places = Vec::with_capacity(alloc, vertices)?;
    for place in 0..vertices {
        places.push(place)?;
    }
    Ok(places)
}

/// The run of a job whose aggregators are registered, with the meter after it.
fn run_registered<P: Computation, C: MessageCombiner<P::Message>, M: MasterCompute>(
    alloc: Global,
    graph: &Graph,
    runner: &Runner<'_, P, C, M>,
    meter: Meter,
) -> Result<(Run<P::Value>, Meter), Memory>
    requires limit { 0 < runner.now.limit }
    requires prepared { IsPrepared (P.program runner.now.program.now)
        (M.master runner.now.master.now) runner.now.registrations.now }
    requires fits { meter < 2 ^ 64 }
    ensures run { let job = job_of (P.program runner.now.program.now)
        (C.combining runner.now.combiner.now)
        (M.master runner.now.master.now) runner.now.missing runner.now.limit in
        IfOk result (λ r. (r.0 ≡ answer job graph.now) × (r.1 ≡ capped (meter + executions job graph.now))) }
    ensures rising { IfOk result (λ _. HasRisingIds graph.now) }
{
    let mut progress = begin(alloc, graph, runner.program, runner.registrations, meter)?;
    for done in 0..runner.limit {
        let (next, halt) = superstep(alloc, runner, Superstep::new(done), progress)?;
        if let Some(ending) = ending_of(halt, &next, done + 1, runner.limit) {
            let Progress {
                configuration,
                ids: _,
                work: _,
                edges: _,
                meter,
                spare: _,
            } = next;
            let run = answer_of(alloc, configuration, ending, done + 1)?;
            return Ok((run, meter));
        }
        progress = next;
    }
    unreachable!()
}

/// The master's aggregators, registered.
fn registered<M: MasterCompute>(alloc: Global, master: &M) -> Result<Registry, RunFault>
    ensures ok { IfOk result (λ registry. registry ≡ (M.master master.now).registrations) }
    ensures lawful { IfOk result
        (λ _. first_refusal [] (M.master master.now).registrations ≡ None) }
    ensures register { IsErrOf result RunFault.Register
        → IsSome (first_refusal [] (M.master master.now).registrations) }
    ensures no_other { IsErrOf result RunFault.Unregistered → ⊥ }
{
    let mut registry = Registry::new(alloc);
    match master.initialize(alloc, &mut registry) {
        Ok(()) => Ok(registry),
        Err(RegisterFault::Memory) => Err(RunFault::Memory),
        Err(_) => Err(RunFault::Register),
    }
}

/// Whether no place from `count` on is declared.
fn are_within(declared: Declared, count: usize) -> bool
    requires { count ≤ 16 }
    ensures { result ≡ has_places declared count }
{
    u32::from(declared.reads) >> count == 0 && u32::from(declared.writes) >> count == 0
}

/// Runs a program on a graph from scratch, superstep by superstep: until the master halts, or no vertex is
/// active and no message waits, or `limit` supersteps are done (Pregel, section 2).
///
/// The messages for a vertex come in the order of their senders, and are combined from the first on, where
/// the combiner combines. `missing` says what becomes of messages to ids that have no state: they are
/// dropped, or make a vertex of them, which the answer has and the graph hasn't. The meter is raised by one
/// for each call of compute, and stays at its largest value.
///
/// # Errors
///
/// In this order: [`RunFault::Register`], [`RunFault::Unregistered`]; and [`RunFault::Memory`] whenever
/// memory is refused. The meter then stays as it was.
///
/// # Cost
///
/// Time for the vertices and edges once, for each superstep the vertices that are active or get a message
/// and the messages times the logarithm of the number of vertices, and one walk over the vertices for each
/// superstep that makes vertices; memory for the run's state and the messages of one superstep.
pub fn run<P: Computation, C: MessageCombiner<P::Message>, M: MasterCompute>(
    alloc: Global,
    graph: &Graph,
    program: &P,
    combiner: &C,
    master: &M,
    missing: Missing,
    limit: u32,
    meter: &mut Meter,
) -> Result<Run<P::Value>, RunFault>
    requires { 0 < limit }
    ensures register { IsErrOf result RunFault.Register
        → IsSome (first_refusal [] (M.master master.now).registrations) }
    ensures unregistered { IsErrOf result RunFault.Unregistered
        → (first_refusal [] (M.master master.now).registrations ≡ None)
        × (is_registered (P.program program.now) (M.master master.now) ≡ false) }
    ensures registered { IfOk result
        (λ _. (first_refusal [] (M.master master.now).registrations ≡ None)
        × (is_registered (P.program program.now) (M.master master.now) ≡ true)) }
    ensures answer { let job = job_of (P.program program.now) (C.combining combiner.now)
        (M.master master.now) missing limit in
        IfOk result (λ r. r ≡ answer job graph.now) }
    ensures rising { IfOk result (λ _. HasRisingIds graph.now) }
    ensures meter { let job = job_of (P.program program.now) (C.combining combiner.now)
        (M.master master.now) missing limit in
        OnOk result (meter.new ≡ capped (meter.old + executions job graph.now)) }
    ensures unmetered { OnErr result (meter.new ≡ meter.old) }
{
    let registry = registered(alloc, master)?;
    if !are_within(program.declared(), registry.len()) {
        return Err(RunFault::Unregistered);
    }
    let registrations = registrations_of(alloc, &registry)?;
    let runner = Runner {
        program,
        combiner,
        master,
        registrations: registrations.as_slice(),
        missing,
        limit,
    };
    let (answer, counted) = run_registered(alloc, graph, &runner, meter.copy())?;
    *meter = counted;
    Ok(answer)
}
