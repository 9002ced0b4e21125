// Workers of a refresh work at the same time: each of two waits for the other, at the gate or within compute.
use crate::hops::{Line, batch_of, empty, limits_of, master, program, service_of, told_on};
use pg_global::{AnyCombiner, MasterCompute, MessageCombiner};
use pg_program::Computation;
use pg_service::{Gate, MemShelf, NoFate, NoGate, Service};
use std::alloc::Global;
use std::process::Abort;
use std::sync::{Arc, Wait};
use std::test::Fail;
use std::thread::Threads;
use tests_kit::Heard;
use tests_rounds::{Meeting, Waiting};

// What the first refresh of the vertices 1 and 2 tells. Nothing is kept before it, so its workers are threads.
fn refreshed_two<
    R: Threads + Wait + Sync,
    P: Computation,
    C: MessageCombiner<P::Message>,
    M: MasterCompute,
    G: Gate,
>(rt: &R, alloc: Global, service: &mut Service<P, C, M>, gate: &G) -> Result<String, Fail> {
    let batch = batch_of(alloc, &[Line::Vertex(1), Line::Vertex(2)])?;
    service
        .edit(alloc, &batch)
        .map_err(|_| "a batch that is refused")?;
    let mut shelf = MemShelf::new(alloc);
    told_on(rt, alloc, service, &mut shelf, &NoFate, gate)
}

const TWO_VERTICES: &str = "calls 2 supersteps 1 losses; of 1: 1=0 2=9223372036854775807\n";

#[test]
fn workers_meet_at_the_gate(rt: HostRuntime) -> Result<(), Fail> {
    let alloc = rt.alloc();
    let mut service = empty(&rt, alloc, limits_of(2, 2, 0, 0)?)?;
    let gate = Meeting::new();
    let reported = refreshed_two(&rt, alloc, &mut service, &gate);
    service.close(&rt);
    assert_eq!(rt; reported?.as_str(), TWO_VERTICES);
    assert!(rt; gate.was_held());
    Ok(())
}

// Vertex 1 is of partition 1, which worker 1 hosts, and vertex 2 of partition 0.
#[test]
fn vertices_meet_in_compute(rt: HostRuntime) -> Result<(), Fail> {
    let alloc = rt.alloc();
    let meeting = Arc::new(alloc, Meeting::new())?;
    let waiting = Heard {
        inner: program()?,
        listener: Waiting {
            meeting: Arc::try_clone(&meeting)?,
        },
    };
    let (none, limits) = (AnyCombiner::NoCombiner, limits_of(2, 2, 0, 0)?);
    let mut service = service_of(&rt, alloc, limits, waiting, none, master()?)?;
    let reported = refreshed_two(&rt, alloc, &mut service, &NoGate);
    service.close(&rt);
    assert_eq!(rt; reported?.as_str(), TWO_VERTICES);
    assert!(rt; meeting.was_held());
    Ok(())
}
