// Runs whose partitions step in one order or another.
ghost use Rattle.std.specs.Prelude.{◌≡◌, [], true, None};
ghost use Rattle.pg_global.specs.Master.{is_registered};
ghost use Rattle.pg_global.specs.Registry.{first_refusal};

use crate::graphs::graph_of;
use crate::stepping::step_once;
use pg_core::{Core, Limits};
use pg_global::{AnyCombiner, MasterCompute, MessageCombiner, NoMaster};
use pg_graph::{Graph, Memory, PartitionId, WorkerId};
use pg_model::Run;
use pg_program::{Computation, Meter};
use pregeld_programs::Cc;
use std::alloc::{AllocError, Global};
use std::process::Abort;
use std::test::Fail;

// Which of the partitions that are ready steps next.
#[derive(Clone, Copy)]
enum Order {
    First,
    Last,
    Drawn(u64),
}

// The place of the next one among so many, and the order of those after it.
fn place_by(order: Order, count: usize) -> Option<(usize, Order)> {
    match order {
        Order::First => Some((0, order)),
        Order::Last => Some((count.checked_sub(1)?, order)),
        Order::Drawn(seed) => {
            let seed = seed
                .wrapping_mul(6_364_136_223_846_793_005)
                .wrapping_add(1_442_695_040_888_963_407);
            let place = ((seed >> 33) as usize).checked_rem(count)?;
            Some((place, Order::Drawn(seed)))
        }
    }
}

// The next one of those that are ready, if there is any, and the order of those after it.
fn chosen(order: Order, ready: &[(WorkerId, PartitionId)]) -> Option<(PartitionId, Order)> {
    let (place, later) = place_by(order, ready.len())?;
    let (_, partition) = ready.get(place)?;
    Some((*partition, later))
}

// A step of a partition that is ready, or else the close of the superstep; and the order after it.
fn next_event<P: Computation, C: MessageCombiner<P::Message>, M: MasterCompute>(
    alloc: Global,
    core: &mut Core<'_, P, C, M>,
    order: Order,
    meter: &mut Meter,
) -> Result<Order, Memory> {
    let ready = core.ready(alloc)?;
    if let Some((partition, later)) = chosen(order, ready.as_slice()) {
        step_once(alloc, core, partition, meter)?;
        return Ok(later);
    }
    if !core.may_close() {
        return Err(AllocError);
    }
    core.close(alloc)?;
    Ok(order)
}

// Goes on with a run in an order, to its end or for so many events.
fn go_on<P: Computation, C: MessageCombiner<P::Message>, M: MasterCompute>(
    alloc: Global,
    core: &mut Core<'_, P, C, M>,
    order: Order,
    meter: &mut Meter,
) -> Result<(), Memory> {
    let mut order = order;
    for _ in 0..1_000 {
        if core.state().ended() {
            break;
        }
        order = next_event(alloc, core, order, meter)?;
    }
    Ok(())
}

// The answer of a run that goes on in an order, and how many calls of compute it takes.
fn run_in<P: Computation, C: MessageCombiner<P::Message>, M: MasterCompute>(
    alloc: Global,
    core: Core<'_, P, C, M>,
    order: Order,
) -> Result<(Run<P::Value>, u64), Memory> {
    let (mut core, mut meter) = (core, Meter::new());
    let gone_on = go_on(alloc, &mut core, order, &mut meter);
    if gone_on.is_err() || !core.state().ended() {
        return Err(AllocError);
    }
    let (run, _, _) = core.finish(alloc)?;
    Ok((run, meter.count()))
}

// The answer of a run from scratch that goes on in an order, and its calls.
fn opened_in<P: Computation, C: MessageCombiner<P::Message>, M: MasterCompute>(
    alloc: Global,
    graph: &Graph,
    program: &P,
    combiner: &C,
    master: &M,
    limits: Limits,
    order: Order,
) -> Result<(Run<P::Value>, u64), Memory>
    requires lawful { first_refusal [] (M.master master.now).registrations ≡ None }
    requires registered { is_registered (P.program program.now) (M.master master.now) ≡ true }
{
    let core = Core::open(alloc, graph, program, combiner, master, limits, 7)?;
    run_in(alloc, core, order)
}

// What a run tells: values by rising id, supersteps, and calls of compute.
#[derive(Drop)]
struct Stated {
    values: Vec<(u64, i64)>,
    supersteps: u32,
    calls: u64,
}

// Components on so many partitions, which step in an order.
fn components_in(
    alloc: Global,
    graph: &Graph,
    partitions: u32,
    order: Order,
) -> Result<Stated, Fail> {
    let limits = Limits::new(partitions, 2, 100, 0, 0).ok_or("no such limits")?;
    let combiner = AnyCombiner::NoCombiner;
    let (run, calls) = opened_in(alloc, graph, &Cc, &combiner, &NoMaster, limits, order)?;
    let mut values = Vec::new(alloc);
    for (id, value) in run.values.as_slice() {
        values.push((id.number(), *value))?;
    }
    Ok(Stated {
        values,
        supersteps: run.supersteps,
        calls,
    })
}

// A path of the vertices 1 to 5 and one of 6 to 9, each edge both ways.
fn two_paths(alloc: Global) -> Result<Graph, Fail> {
    let vertices = [
        (1, 0),
        (2, 0),
        (3, 0),
        (4, 0),
        (5, 0),
        (6, 0),
        (7, 0),
        (8, 0),
        (9, 0),
    ];
    let long = [
        (1, 2),
        (2, 1),
        (2, 3),
        (3, 2),
        (3, 4),
        (4, 3),
        (4, 5),
        (5, 4),
    ];
    let short = [(6, 7), (7, 6), (7, 8), (8, 7), (8, 9), (9, 8)];
    let mut edges = Vec::from_slice(alloc, &long)?;
    edges.extend_from_slice(&short)?;
    graph_of(alloc, &vertices, edges.as_slice())
}

// By superstep the first path calls 5, 5, 5, 4, 3 and 1 vertices, the second one 4, 4, 4, 3 and 1.
#[test]
fn one_answer_in_whatever_order_partitions_step(rt: HostRuntime) -> Result<(), Fail> {
    let alloc = rt.alloc();
    let graph = two_paths(alloc)?;
    let wanted = [
        (1, 1),
        (2, 1),
        (3, 1),
        (4, 1),
        (5, 1),
        (6, 6),
        (7, 6),
        (8, 6),
        (9, 6),
    ];
    let orders = [
        Order::First,
        Order::Last,
        Order::Drawn(1),
        Order::Drawn(2),
        Order::Drawn(3),
    ];
    for partitions in [2, 3, 5] {
        for order in orders {
            let reported = components_in(alloc, &graph, partitions, order)?;
            assert_eq!(rt; reported.values.as_slice(), wanted.as_slice());
            assert_eq!(rt; (reported.supersteps, reported.calls), (6, 39));
        }
    }
    Ok(())
}
