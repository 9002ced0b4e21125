//! Runs in which no worker falls, with the calls of each step.
ghost use Rattle.std.specs.Prelude.{◌≡◌, [], true, None, length, IfOk};
ghost use Rattle.pg_global.specs.Master.{is_registered};
ghost use Rattle.pg_global.specs.Registry.{first_refusal};

use pg_global::{MasterCompute, MessageCombiner};
use pg_graph::{Graph, Memory, PartitionId, VertexId};
use pg_program::{Computation, Meter};
use pg_workers::{Core, Limits, Traces};
use std::alloc::{AllocError, Global};
use std::test::Fail;

// The calls of a partition's next step, which is made.
fn calls_of_step<P: Computation, C: MessageCombiner<P::Message>, M: MasterCompute>(
    alloc: Global,
    core: &mut Core<'_, P, C, M>,
    partition: PartitionId,
) -> Result<u64, Memory> {
    if !core.is_ready(partition) {
        return Err(AllocError);
    }
    let part = core.take(partition);
    let place = part.place();
    let mut meter = Meter::new();
    let stepped = part.step(
        alloc,
        core.logs(),
        core.visible(place),
        core.old_logs(place),
        core.old_visible(place),
        core.registry(),
        core.program(),
        core.combiner(),
        &mut meter,
    );
    match stepped {
        Ok((part, sent)) => core.stepped(alloc, partition, part, sent)?,
        Err(_) => return Err(AllocError),
    }
    Ok(meter.count())
}

// The calls of each partition's next step, and the close of the superstep.
fn calls_of_superstep<P: Computation, C: MessageCombiner<P::Message>, M: MasterCompute>(
    alloc: Global,
    core: &mut Core<'_, P, C, M>,
) -> Result<Vec<u64>, Memory> {
    let mut row = Vec::new(alloc);
    for number in 0..core.limits().partitions() {
        let partition = PartitionId::new(number);
        row.push(calls_of_step(alloc, core, partition)?)?;
    }
    if !core.may_close() {
        return Err(AllocError);
    }
    core.close(alloc)?;
    Ok(row)
}

// The calls of each step of a run without losses, by superstep and partition.
fn calls_of_steps<P: Computation, C: MessageCombiner<P::Message>, M: MasterCompute>(
    alloc: Global,
    core: &mut Core<'_, P, C, M>,
) -> Result<Vec<Vec<u64>>, Memory> {
    let mut rows = Vec::new(alloc);
    for _ in 0..core.limits().limit() {
        if !core.state().ended() {
            rows.push(calls_of_superstep(alloc, core)?)?;
        }
    }
    Ok(rows)
}

// What a run leaves that has ended.
fn left_by<P: Computation, C: MessageCombiner<P::Message>, M: MasterCompute>(
    alloc: Global,
    core: Core<'_, P, C, M>,
    limits: Limits,
) -> Result<Traces<P::Value, P::Message>, Fail>
    ensures { IfOk result (λ retained. length retained.retained_parts ≡ limits.partitions) }
{
    if !core.state().ended() || core.limits().partitions() != limits.partitions() {
        return Err(Fail::from("it hasn't ended"));
    }
    let (_, retained, _) = core.finish(alloc)?;
    Ok(retained)
}

/// Of a run from scratch in which no worker falls: the calls of its steps, by superstep and partition, and what it
/// leaves.
pub fn unlost<P: Computation, C: MessageCombiner<P::Message>, M: MasterCompute>(
    alloc: Global,
    graph: &Graph,
    program: &P,
    combiner: &C,
    master: &M,
    limits: Limits,
) -> Result<(Vec<Vec<u64>>, Traces<P::Value, P::Message>), Fail>
    requires lawful { first_refusal [] (M.master master.now).registrations ≡ None }
    requires registered { is_registered (P.program program.now) (M.master master.now) ≡ true }
    ensures { IfOk result (λ done. length done.1.retained_parts ≡ limits.partitions) }
{
    let mut core = Core::open(alloc, graph, program, combiner, master, limits, 1)?;
    let rows = calls_of_steps(alloc, &mut core)?;
    let retained = left_by(alloc, core, limits)?;
    Ok((rows, retained))
}

/// Of a run against another in which no worker falls, on a graph that differs at these ids: its calls and what it
/// leaves.
pub fn unlost_warm<P: Computation, C: MessageCombiner<P::Message>, M: MasterCompute>(
    alloc: Global,
    graph: &Graph,
    retained: Traces<P::Value, P::Message>,
    touched: &[VertexId],
    program: &P,
    combiner: &C,
    master: &M,
    limits: Limits,
) -> Result<(Vec<Vec<u64>>, Traces<P::Value, P::Message>), Fail>
    requires lawful { first_refusal [] (M.master master.now).registrations ≡ None }
    requires registered { is_registered (P.program program.now) (M.master master.now) ≡ true }
    requires each { length retained.retained_parts ≡ limits.partitions }
    ensures { IfOk result (λ done. length done.1.retained_parts ≡ limits.partitions) }
{
    let mut core = Core::open_warm(
        alloc, graph, retained, touched, program, combiner, master, limits, 1,
    )?;
    let rows = calls_of_steps(alloc, &mut core)?;
    let retained = left_by(alloc, core, limits)?;
    Ok((rows, retained))
}
