ghost use Rattle.std.specs.Prelude.{◌≡◌, ◌<◌, ◌==◌, ◌+ℤ◌, [], ◌∷◌, ◌++◌, true, false, cond, map, pos, int_lt};
ghost use Rattle.std.specs.Prelude.{slice_get, slice_set, codes, Some, None, OnOk};
ghost use Rattle.std.specs.Int.{w64, saturate_signed};
ghost use Rattle.std.specs.Option.{unwrap_or};
ghost use Rattle.pg_global.specs.Master.{leaves_all};
ghost use Rattle.pg_global.specs.declared.aggregator.AnyAggregator.TheVariants.{LongSum};
ghost use Rattle.pg_model.specs.Programs.{infinity};

use pg_global::{
    AnyAggregator, AnyCombiner, MasterCompute, MasterState, MessageCombiner, NoMaster,
    RegisterFault, Registry,
};
use pg_graph::{Graph, Memory, Missing, VertexId};
use pg_model::{Declared, Place, Run};
use pg_program::{Computation, Cx, Meter, Vertex};
use pg_scratch::{RunFault, run};
use std::alloc::Global;
use std::fmt::Write;
use std::process::Abort;
use std::test::Fail;
use tests_kit::{Heard, Starving, graph_of, id};

/// The combiner that keeps the least message.
struct Least;

impl MessageCombiner<i64> for Least {
    ghost use Rattle.pg_model.specs.Aggregators.{least_message};
    ghost use Rattle.pg_model.proofs.LawsFolds.{IsCommutativeMonoid-int_min};

    ghost combining = { λ _. Some least_message };

    ghost lawful = { λ _. IsCommutativeMonoid-int_min };

    fn combines(&self) -> bool {
        true
    }

    fn combine(&self, _alloc: Global, into: &mut i64, other: &i64) -> Result<(), Memory> {
        *into = (*into).min(*other);
        Ok(())
    }

    fn initial_message(&self, _alloc: Global) -> Result<i64, Memory> {
        Ok(i64::MAX)
    }
}

/// Distances from a source, by way of only the first message: where several come at once, it finds the
/// least of them only if they are combined, and else shows which one came first.
#[derive(Drop)]
struct FirstDistance {
    source: VertexId,
}

impl Computation for FirstDistance {
    type Value = i64;

    type Message = i64;

    ghost program = { λ p. record {
      declared = record { reads = 0; writes = 0; total_vertices = false; total_edges = false };
      initial = λ id input. infinity;
      step = λ i.
          let distance = unwrap_or (slice_get i.inbox 0) (cond (i.id == p.source) (pos 0) infinity) in
          record {
            value = cond (int_lt distance i.value) distance i.value;
            edges = i.edges;
            halted = true;
            sent = cond (int_lt distance i.value) (map (λ e. (e.0, saturate_signed w64 (distance +ℤ e.1))) i.edges) [];
            contributed = [];
          };
    } };

    fn declared(&self) -> Declared {
        Declared {
            reads: 0,
            writes: 0,
            total_vertices: false,
            total_edges: false,
        }
    }

    fn initial(&self, _alloc: Global, _id: VertexId, _input: i64) -> Result<i64, Memory> {
        Ok(i64::MAX)
    }

    fn compute(
        &self,
        _alloc: Global,
        vertex: &mut Vertex<i64>,
        messages: &[i64],
        cx: &mut Cx<i64>,
    ) -> Result<(), Memory> {
        cx.called();
        vertex.vote_to_halt();
        let own = if vertex.id() == self.source {
            0
        } else {
            i64::MAX
        };
        let distance = match messages.first() {
            Some(message) => *message,
            None => own,
        };
        if distance < *vertex.value() {
            vertex.set_value(distance);
            send_on(vertex.edges(), distance, cx)?;
        }
        Ok(())
    }
}

/// Sends to the target of each edge the distance by way of the edge.
fn send_on(edges: &[(VertexId, i64)], distance: i64, cx: &mut Cx<i64>) -> Result<(), Memory>
    ensures { OnOk result (cx.new ≡ record cx.old {
      sent = cx.old.sent ++ map (λ e. (e.0, saturate_signed w64 (distance +ℤ e.1))) edges.now;
    }) }
{
    for (target, weight) in edges {
        cx.send(*target, distance.saturating_add(*weight))?;
    }
    Ok(())
}

/// A program that never halts, in which a vertex takes over the value at place 1, and contributes the
/// value that it had at place 0 and the value at place 0 at place 1.
struct Relay;

impl Computation for Relay {
    type Value = i64;

    type Message = i64;

    ghost program = { λ _. record {
      declared = record { reads = 3; writes = 3; total_vertices = false; total_edges = false };
      initial = λ id input. input;
      step = λ i. record {
        value = unwrap_or (unwrap_or (slice_get i.view.aggregates 1) None) (pos 0);
        edges = i.edges;
        halted = false;
        sent = [];
        contributed = (0, i.value) ∷ (1, unwrap_or (unwrap_or (slice_get i.view.aggregates 0) None) (pos 0)) ∷ [];
      };
    } };

    fn declared(&self) -> Declared {
        Declared {
            reads: 3,
            writes: 3,
            total_vertices: false,
            total_edges: false,
        }
    }

    fn initial(&self, _alloc: Global, _id: VertexId, input: i64) -> Result<i64, Memory> {
        Ok(input)
    }

    fn compute(
        &self,
        _alloc: Global,
        vertex: &mut Vertex<i64>,
        _messages: &[i64],
        cx: &mut Cx<i64>,
    ) -> Result<(), Memory> {
        cx.called();
        cx.aggregate(Place::new(0), *vertex.value())?;
        cx.aggregate(Place::new(1), cx.aggregated(Place::new(0)))?;
        vertex.set_value(cx.aggregated(Place::new(1)));
        Ok(())
    }
}

/// A master with one aggregator of each sort, which sets the first one to 5 before each superstep and
/// halts before one of them.
#[derive(Drop)]
struct SetsFive {
    halts_at: u32,
}

impl MasterCompute for SetsFive {
    ghost master = { λ m. record {
      registrations = (codes "regular", record { kind = LongSum; persistent = false })
          ∷ (codes "persistent", record { kind = LongSum; persistent = true }) ∷ [];
      deciding = λ s totals gathered. record { values = slice_set gathered 0 (pos 5); halt = s == m.halts_at };
    } };

    #[tactic(auto, unfolding(pg_global::specs::Registry::first_refusal, pg_global::specs::Registry::refusal_of))]
    fn initialize(&self, alloc: Global, registry: &mut Registry) -> Result<(), RegisterFault> {
        registry.register(alloc, "regular", AnyAggregator::LongSum)?;
        registry.register_persistent(alloc, "persistent", AnyAggregator::LongSum)?;
        Ok(())
    }

    fn compute(&self, _alloc: Global, state: &mut MasterState) -> Result<(), Memory> {
        state.set_aggregated(Place::new(0), 5);
        if state.superstep().number() == self.halts_at {
            state.halt();
        }
        Ok(())
    }
}

/// A master whose only aggregator has no name.
struct Nameless;

impl MasterCompute for Nameless {
    ghost master = { λ _. leaves_all ((codes "", record { kind = LongSum; persistent = false }) ∷ []) };

    #[tactic(auto, unfolding(pg_global::specs::Registry::first_refusal, pg_global::specs::Registry::refusal_of))]
    fn initialize(&self, alloc: Global, registry: &mut Registry) -> Result<(), RegisterFault> {
        registry.register(alloc, "", AnyAggregator::LongSum)?;
        Ok(())
    }

    fn compute(&self, _alloc: Global, _state: &mut MasterState) -> Result<(), Memory> {
        Ok(())
    }
}

// An answer and the calls that it took: each vertex as `id=value`, the aggregates, the ending with the
// number of supersteps, and the counts.
fn text_of(alloc: Global, run: &Run<i64>, calls: u64) -> Result<String, Fail> {
    let mut text = String::new(alloc);
    for (id, value) in run.values.as_slice() {
        write!(text, "{id}={value} ")?;
    }
    write!(text, "|")?;
    for aggregate in run.aggregates.as_slice() {
        write!(text, " {aggregate}")?;
    }
    let (ending, supersteps, sent, dropped) = (run.ending, run.supersteps, run.sent, run.dropped);
    write!(
        text,
        " | {ending:?} {supersteps} | sent {sent} dropped {dropped} calls {calls}"
    )?;
    Ok(text)
}

// The distances from 1, under a policy for messages to no vertex.
fn distances<C: MessageCombiner<i64>>(
    alloc: Global,
    graph: &Graph,
    combiner: &C,
    missing: Missing,
    limit: u32,
) -> Result<String, Fail>
    requires { 0 < limit }
{
    let program = FirstDistance { source: id(1)? };
    let mut meter = Meter::new();
    let answer = run(
        alloc, graph, &program, combiner, &NoMaster, missing, limit, &mut meter,
    )?;
    text_of(alloc, &answer, meter.count())
}

// What is relayed, where the master halts before a superstep.
fn relayed(alloc: Global, graph: &Graph, halts_at: u32, limit: u32) -> Result<String, Fail>
    requires { 0 < limit }
{
    let master = SetsFive { halts_at };
    let mut meter = Meter::new();
    let answer = run(
        alloc,
        graph,
        &Relay,
        &AnyCombiner::NoCombiner,
        &master,
        Missing::Drop,
        limit,
        &mut meter,
    )?;
    text_of(alloc, &answer, meter.count())
}

// The distances from 1 are these, under a policy for messages to no vertex.
fn are_distances<C: MessageCombiner<i64>>(
    rt: &impl Abort,
    alloc: Global,
    graph: &Graph,
    combiner: &C,
    missing: Missing,
    limit: u32,
    wanted: &str,
) -> Result<(), Fail>
    requires { 0 < limit }
{
    let text = distances(alloc, graph, combiner, missing, limit)?;
    assert_eq!(rt; text.as_str(), wanted);
    Ok(())
}

// The run in ten supersteps at most, where messages to no vertex are dropped.
fn finds<C: MessageCombiner<i64>>(
    rt: &impl Abort,
    alloc: Global,
    graph: &Graph,
    combiner: &C,
    wanted: &str,
) -> Result<(), Fail> {
    are_distances(rt, alloc, graph, combiner, Missing::Drop, 10, wanted)
}

#[test]
fn combines_the_messages_of_a_superstep(rt: HostRuntime) -> Result<(), Fail> {
    let alloc = rt.alloc();
    let vertices = [(1, 0), (2, 0), (3, 0), (4, 0)];
    let fork = graph_of(alloc, &vertices, &[(1, 2, 1), (1, 3, 1), (2, 4, 1)])?;
    let wanted = "1=0 2=1 3=1 4=2 | | Finished 3 | sent 3 dropped 0 calls 7";
    finds(&rt, alloc, &fork, &Least, wanted)?;
    let edges = [(1, 2, 1), (1, 3, 1), (2, 4, 1), (3, 4, -5)];
    let diamond = graph_of(alloc, &vertices, &edges)?;
    let wanted = "1=0 2=1 3=1 4=-4 | | Finished 3 | sent 4 dropped 0 calls 7";
    finds(&rt, alloc, &diamond, &Least, wanted)
}

#[test]
fn orders_the_messages_by_sender_where_they_are_not_combined(rt: HostRuntime) -> Result<(), Fail> {
    let alloc = rt.alloc();
    let vertices = [(4, 0), (3, 0), (2, 0), (1, 0)];
    let edges = [(3, 4, -5), (2, 4, 1), (1, 3, 1), (1, 2, 1)];
    let diamond = graph_of(alloc, &vertices, &edges)?;
    let wanted = "1=0 2=1 3=1 4=2 | | Finished 3 | sent 4 dropped 0 calls 7";
    finds(&rt, alloc, &diamond, &AnyCombiner::NoCombiner, wanted)
}

#[test]
fn counts_dropped_messages_also_in_the_last_superstep(rt: HostRuntime) -> Result<(), Fail> {
    let alloc = rt.alloc();
    let edges = [(1, 2, 1), (1, 9, 1), (2, 8, 1)];
    let graph = graph_of(alloc, &[(1, 0), (2, 0)], &edges)?;
    let limits = [
        (
            1,
            "1=0 2=9223372036854775807 | | LimitReached 1 | sent 2 dropped 1 calls 2",
        ),
        (2, "1=0 2=1 | | Finished 2 | sent 3 dropped 2 calls 3"),
        (3, "1=0 2=1 | | Finished 2 | sent 3 dropped 2 calls 3"),
    ];
    for (limit, wanted) in limits {
        are_distances(&rt, alloc, &graph, &Least, Missing::Drop, limit, wanted)?;
    }
    Ok(())
}

// What is relayed is this, where the master halts before a superstep.
fn are_relayed(
    rt: &impl Abort,
    alloc: Global,
    graph: &Graph,
    halts_at: u32,
    limit: u32,
    wanted: &str,
) -> Result<(), Fail>
    requires { 0 < limit }
{
    let text = relayed(alloc, graph, halts_at, limit)?;
    assert_eq!(rt; text.as_str(), wanted);
    Ok(())
}

#[test]
fn the_master_sets_and_halts_first(rt: HostRuntime) -> Result<(), Fail> {
    let alloc = rt.alloc();
    let graph = graph_of(alloc, &[(1, 10), (2, 20)], &[])?;
    let halted = "1=20 2=20 | 20 30 | MasterHalted 3 | sent 0 dropped 0 calls 6";
    are_relayed(&rt, alloc, &graph, 2, 10, halted)?;
    are_relayed(&rt, alloc, &graph, 2, 3, halted)?;
    let limited = "1=20 2=20 | 20 30 | LimitReached 3 | sent 0 dropped 0 calls 6";
    are_relayed(&rt, alloc, &graph, 9, 3, limited)?;
    let earlier = "1=10 2=10 | 0 20 | LimitReached 2 | sent 0 dropped 0 calls 4";
    are_relayed(&rt, alloc, &graph, 9, 2, earlier)
}

#[test]
fn an_empty_graph_has_one_superstep(rt: HostRuntime) -> Result<(), Fail> {
    let alloc = rt.alloc();
    let empty = Graph::new(alloc);
    let wanted = "| | Finished 1 | sent 0 dropped 0 calls 0";
    finds(&rt, alloc, &empty, &Least, wanted)?;
    let wanted = "| 0 0 | MasterHalted 1 | sent 0 dropped 0 calls 0";
    are_relayed(&rt, alloc, &empty, 0, 10, wanted)
}

// A run of one superstep, by any program: how many it had.
fn attempted<P: Computation, C: MessageCombiner<P::Message>, M: MasterCompute>(
    alloc: Global,
    graph: &Graph,
    program: &P,
    combiner: &C,
    master: &M,
    meter: &mut Meter,
) -> Result<u32, RunFault> {
    let missing = Missing::Drop;
    let answer = run(alloc, graph, program, combiner, master, missing, 1, meter)?;
    Ok(answer.supersteps)
}

// Values are relayed without a combiner.
fn attempted_relay<M: MasterCompute>(
    alloc: Global,
    graph: &Graph,
    master: &M,
    meter: &mut Meter,
) -> Result<u32, RunFault> {
    let combiner = AnyCombiner::NoCombiner;
    attempted(alloc, graph, &Relay, &combiner, master, meter)
}

#[test]
fn refusals_leave_the_meter(rt: HostRuntime) -> Result<(), Fail> {
    let alloc = rt.alloc();
    let graph = graph_of(alloc, &[(1, 10), (2, 20)], &[])?;
    let mut meter = Meter::new();
    let supersteps = attempted_relay(alloc, &graph, &SetsFive { halts_at: 0 }, &mut meter)?;
    assert_eq!(rt; (supersteps, meter.count()), (1, 2));
    // Places 0 and 1 are declared, and not registered.
    let refused = attempted_relay(alloc, &graph, &NoMaster, &mut meter);
    assert_eq!(rt; (refused, meter.count()), (Err(RunFault::Unregistered), 2));
    // So they are here, but what is to be registered has no name.
    let refused = attempted_relay(alloc, &graph, &Nameless, &mut meter);
    assert_eq!(rt; (refused, meter.count()), (Err(RunFault::Register), 2));
    Ok(())
}

#[test]
fn messages_make_vertices(rt: HostRuntime) -> Result<(), Fail> {
    let alloc = rt.alloc();
    let edges = [(1, 2, 1), (1, 9, 1), (2, 8, 1), (2, 0, 3)];
    let graph = graph_of(alloc, &[(1, 0), (2, 0)], &edges)?;
    let limits = [
        (
            1,
            "1=0 2=9223372036854775807 | | LimitReached 1 | sent 2 dropped 0 calls 2",
        ),
        (
            2,
            "1=0 2=1 9=1 | | LimitReached 2 | sent 4 dropped 0 calls 4",
        ),
        (
            3,
            "0=4 1=0 2=1 8=2 9=1 | | Finished 3 | sent 4 dropped 0 calls 6",
        ),
    ];
    let (each, missing) = (AnyCombiner::NoCombiner, Missing::Create);
    for (limit, wanted) in limits {
        are_distances(&rt, alloc, &graph, &Least, missing, limit, wanted)?;
        are_distances(&rt, alloc, &graph, &each, missing, limit, wanted)?;
    }
    Ok(())
}

// The least of the messages from two senders makes the vertex.
#[test]
fn messages_to_nobody_are_combined(rt: HostRuntime) -> Result<(), Fail> {
    let alloc = rt.alloc();
    let edges = [(1, 2, 1), (1, 3, 1), (2, 9, 7), (3, 9, -5)];
    let graph = graph_of(alloc, &[(1, 0), (2, 0), (3, 0)], &edges)?;
    let (each, missing) = (AnyCombiner::NoCombiner, Missing::Create);
    let wanted = "1=0 2=1 3=1 9=-4 | | Finished 3 | sent 4 dropped 0 calls 6";
    are_distances(&rt, alloc, &graph, &Least, missing, 10, wanted)?;
    let wanted = "1=0 2=1 3=1 9=8 | | Finished 3 | sent 4 dropped 0 calls 6";
    are_distances(&rt, alloc, &graph, &each, missing, 10, wanted)
}

// A run that is out of memory leaves the meter, and doesn't change the answer of the next run.
#[test]
fn a_run_out_of_memory_leaves_the_meter(rt: HostRuntime) -> Result<(), Fail> {
    let wanted = [
        (
            Missing::Drop,
            "1=0 2=1 3=1 4=-4 | | Finished 3 | sent 5 dropped 1 calls 7",
        ),
        (
            Missing::Create,
            "1=0 2=1 3=1 4=-4 9=2 | | Finished 3 | sent 5 dropped 0 calls 8",
        ),
    ];
    for (missing, wanted) in wanted {
        for call in 0..7 {
            run_after_one_out_of_memory(&rt, rt.alloc(), missing, call, wanted)?;
        }
    }
    Ok(())
}

// Messages go along five edges, one of which leads to no vertex.
fn five_edges(alloc: Global) -> Result<Graph, Fail> {
    let edges = [(1, 2, 1), (1, 3, 1), (2, 4, 1), (3, 4, -5), (3, 9, 1)];
    graph_of(alloc, &[(1, 0), (2, 0), (3, 0), (4, 0)], &edges)
}

// A run of ten supersteps at most, without a master.
fn run_of<P: Computation, C: MessageCombiner<P::Message>>(
    alloc: Global,
    graph: &Graph,
    program: &P,
    combiner: &C,
    missing: Missing,
    meter: &mut Meter,
) -> Result<Run<P::Value>, RunFault> {
    run(
        alloc, graph, program, combiner, &NoMaster, missing, 10, meter,
    )
}

// A call of compute is refused memory, by number from 0 on, and no call of the next run.
fn run_after_one_out_of_memory(
    rt: &impl Abort,
    alloc: Global,
    missing: Missing,
    call: u64,
    wanted: &str,
) -> Result<(), Fail> {
    let graph = five_edges(alloc)?;
    let program = Heard {
        inner: FirstDistance { source: id(1)? },
        listener: Starving::at_call(call),
    };
    let mut meter = Meter::new();
    match run_of(alloc, &graph, &program, &Least, missing, &mut meter) {
        Ok(_) => return Err(Fail::from("it isn't out of memory")),
        Err(fault) => assert_eq!(rt; (fault, meter.count()), (RunFault::Memory, 0)),
    }
    let answer = run_of(alloc, &graph, &program, &Least, missing, &mut meter)?;
    assert_eq!(rt; text_of(alloc, &answer, meter.count())?.as_str(), wanted);
    Ok(())
}
